//! Pages and messages that are kept in memory.
ghost use Rattle.std.specs.Prelude.{◌≡◌, ◌≤◌, [], ◌∷◌, OnOk, OnErr, IfErr};

use crate::{OutRefusal, Outlet};
use ps_kinds::{Paper, Papers, Text};
use std::alloc::Global;

/// Keeps the papers that were shown and the text, and never fails but for want of memory.
#[derive(Drop)]
pub struct Kept {
    pub pages: Papers,
    pub text: Text,
}

impl Kept {
    /// Without pages and without text.
    pub fn new(alloc: Global) -> Kept
        ensures { result ≡ record { pages = []; text = [] } }
    {
        Kept {
            pages: Papers::new(alloc),
            text: Text::new(alloc),
        }
    }
}

impl Outlet for Kept {
    ghost use Rattle.out_writers.specs.Kept.{KeepsAll, KeepsFront};
    ghost use Rattle.out_writers.specs.Keeping as keeping;

    ghost faults = { λ _. 0 };

    ghost since = { KeepsAll };

    ghost cut = { KeepsFront };

    fn show(&mut self, paper: &Paper) -> Result<(), OutRefusal> {
        let copy = paper.copy()?;
        self.pages.push(copy)?;
        Ok(())
    }

    fn say(&mut self, bytes: &[u8]) -> Result<(), OutRefusal> {
        self.text.extend(bytes)?;
        Ok(())
    }

    ghost nothing = { keeping.nothing };

    ghost joined = { keeping.joined };

    ghost joined_cut = { keeping.joined_cut };

    ghost whole = { keeping.whole };

    ghost longer = { keeping.longer };
}
