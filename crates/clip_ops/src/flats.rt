//! Flattening as operators read it.
ghost use Rattle.std.specs.Prelude.{◌≡◌};
ghost use Rattle.ps_objects.specs.Operands.{Reads};
ghost use Rattle.clip_ops.specs.Flats as spec;

use path_flat::{FlatRefusal, flat, flattened};
use ps_kinds::{ErrorName, Path, Polygons, Refusal};
use std::alloc::Global;

/// The limit as a limitcheck.
pub(crate) fn told_flat<T>(answer: Result<T, FlatRefusal>) -> Result<T, Refusal>
    ensures { result ≡ spec.told_flat answer }
{
    match answer {
        Ok(value) => Ok(value),
        Err(FlatRefusal::Limit) => Err(Refusal::Error(ErrorName::LimitCheck)),
        Err(FlatRefusal::NoMemory) => Err(Refusal::NoMemory),
    }
}

/// The path with lines in the place of its curves: limitcheck.
#[tactic(auto, using(crate::proofs::Judging::lines_read))]
pub(crate) fn lines_of(alloc: Global, path: &Path) -> Result<Path, Refusal>
    ensures { Reads (spec.lines_of path.now) result }
{
    told_flat(flattened(alloc, path))
}

/// The polygons of a path: limitcheck.
#[tactic(auto, using(crate::proofs::Judging::polygons_read))]
pub(crate) fn polygons_of(alloc: Global, path: &Path) -> Result<Polygons, Refusal>
    ensures { Reads (spec.polygons_of path.now) result }
{
    told_flat(flat(alloc, path))
}
