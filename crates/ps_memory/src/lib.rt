//! Memory, and what a run does to it.
#![tactic(auto)]

ghost use Rattle.std.specs.Prelude.{◌≡◌};
ghost use Rattle.ps_objects.specs.Order.{cell_order, key_order};
ghost use Rattle.ps_memory.specs.Frame.{FrameLaw};
ghost use Rattle.ps_memory.specs.Order.{cell_cmp, key_cmp};
ghost use Rattle.ps_memory.specs.Track.{TrackLaw};
ghost use Rattle.ps_memory.specs.Writes.{CertificateLaw, ReplacingLaw, RestoringLaw};

use ps_objects::{Cell, Key};

/// Cells are in the order of their sections, then of their counts, and keys in the order of the language's kinds.
#[tactic(auto, using(ps_objects::proofs::Orders::cells_in_order, ps_objects::proofs::Orders::keys_in_order))]
pub fn orders()
    ensures cells { (a b : Cell) → cell_cmp a b ≡ cell_order a b }
    ensures keys { (a b : Key) → key_cmp a b ≡ key_order a b }
{}

/// What a run doesn't look at doesn't matter to it.
pub fn frame_law<A>()
    ensures { FrameLaw A }
{}

/// A run that is told by what it looked at and what it wrote holds on each memory with these values: the same result and
/// outputs, and writes that can be done there and give the memory after it.
pub fn certificate_law<A>()
    ensures { CertificateLaw A }
{}

/// A store may take the place of an earlier one among the writes.
pub fn replacing_law()
    ensures { ReplacingLaw }
{}

/// A restore of a save that the writes open takes some of them back: those that are left can be done, and leave what the restore leaves.
pub fn restoring_law()
    ensures { RestoringLaw }
{}

/// What is known of a run as it goes on, from its looks and actions alone, is what its trail tells.
pub fn track_law<A>()
    ensures { TrackLaw A }
{}
