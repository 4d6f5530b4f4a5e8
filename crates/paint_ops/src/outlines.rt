//! The polygons of a path, as operators read them.
ghost use Rattle.std.specs.Prelude.{◌≡◌};
ghost use Rattle.ps_objects.specs.Operands.{Reads};
ghost use Rattle.paint_ops.specs.Outlines as spec;

use path_flat::{FlatRefusal, flat};
use ps_kinds::{ErrorName, Path, Polygons, Refusal};
use std::alloc::Global;

/// The limit as a limitcheck.
fn told_flat(answer: Result<Polygons, FlatRefusal>) -> Result<Polygons, Refusal>
    ensures { result ≡ spec.told_flat answer }
{
    match answer {
        Ok(polygons) => Ok(polygons),
        Err(FlatRefusal::Limit) => Err(Refusal::Error(ErrorName::LimitCheck)),
        Err(FlatRefusal::NoMemory) => Err(Refusal::NoMemory),
    }
}

/// The polygons of a path: limitcheck.
#[tactic(auto, using(crate::proofs::Judging::polygons_read))]
pub(crate) fn polygons_of(alloc: Global, path: &Path) -> Result<Polygons, Refusal>
    ensures { Reads (spec.polygons_of path.now) result }
{
    told_flat(flat(alloc, path))
}
