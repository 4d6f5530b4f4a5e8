//! Clips.
ghost use Rattle.std.specs.Prelude.{◌≡◌, IfOk};

use crate::{Polygons, Rule};
use copy_lists::{Duplicate, NoMemory, Sequence};

/// Painting stays inside these polygons.
#[derive(Drop, PartialEq, Eq)]
pub struct Clip {
    pub rule: Rule,
    pub polygons: Polygons,
}

impl Clip {
    pub fn copy(&self) -> Result<Clip, NoMemory>
        ensures { IfOk result (λ clip. clip ≡ self.now) }
    {
        Ok(Clip {
            rule: self.rule,
            polygons: self.polygons.copy()?,
        })
    }
}

impl Duplicate for Clip {
    fn duplicate(&self) -> Result<Clip, NoMemory> {
        self.copy()
    }
}

/// Clips, the oldest first.
pub type Clips = Sequence<Clip>;
