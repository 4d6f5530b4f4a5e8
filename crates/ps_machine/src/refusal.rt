//! Why a run is refused.

use out_writers::OutRefusal;
use ps_kinds::NoMemory;

/// Why a run didn't come to its end.
#[derive(Clone, Copy, Debug, PartialEq, Eq)]
pub enum RunRefusal {
    /// The outlet failed. Its count of faults has risen.
    OutFault,
    NoMemory,
}

impl From<OutRefusal> for RunRefusal {
    ghost use Rattle.std.specs.Prelude.{◌≡◌};
    ghost use Rattle.ps_machine.specs.Refusals.{refused};

    ghost from_gives = { λ refusal r. r ≡ refused refusal };

    fn from(refusal: OutRefusal) -> RunRefusal {
        match refusal {
            OutRefusal::Failed => RunRefusal::OutFault,
            OutRefusal::NoMemory => RunRefusal::NoMemory,
        }
    }
}

impl From<NoMemory> for RunRefusal {
    ghost use Rattle.std.specs.Prelude.{◌≡◌};
    ghost use Rattle.ps_machine.specs.declared.refusal.RunRefusal.TheVariants as refusal;

    ghost from_gives = { λ _ r. r ≡ refusal.NoMemory };

    fn from(_: NoMemory) -> RunRefusal {
        RunRefusal::NoMemory
    }
}
