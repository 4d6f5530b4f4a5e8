//! Why a path gives no polygons.

use copy_lists::NoMemory;

/// Why a path isn't flattened.
#[derive(Clone, Copy, Debug, PartialEq, Eq)]
pub enum FlatRefusal {
    /// The flattened path would have more than 100,000 points.
    Limit,
    /// Memory ran out.
    NoMemory,
}

impl From<NoMemory> for FlatRefusal {
    ghost use Rattle.std.specs.Prelude.{◌≡◌};
    ghost use Rattle.path_flat.specs.declared.refusal.FlatRefusal.TheVariants as refusal;

    ghost from_gives = { λ _ r. r ≡ refusal.NoMemory };

    fn from(_: NoMemory) -> FlatRefusal {
        FlatRefusal::NoMemory
    }
}
