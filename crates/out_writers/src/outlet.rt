//! What takes pages and messages.
ghost use Rattle.std.specs.Prelude.{◌≡◌};
ghost use Rattle.out_writers.specs.declared.outlet.OutRefusal.TheVariants as refusal;

use ps_kinds::{NoMemory, Paper};
use rip_ports::Failed;
use std::alloc::AllocError;

/// Why a page or a message was not taken.
#[derive(Clone, Copy, Debug, PartialEq, Eq)]
pub enum OutRefusal {
    /// A device failed. The count of faults has risen.
    Failed,
    NoMemory,
}

impl From<Failed> for OutRefusal {
    ghost from_gives = { λ _ r. r ≡ refusal.Failed };

    fn from(_: Failed) -> OutRefusal {
        OutRefusal::Failed
    }
}

impl From<NoMemory> for OutRefusal {
    ghost from_gives = { λ _ r. r ≡ refusal.NoMemory };

    fn from(_: NoMemory) -> OutRefusal {
        OutRefusal::NoMemory
    }
}

impl From<AllocError> for OutRefusal {
    ghost from_gives = { λ _ r. r ≡ refusal.NoMemory };

    fn from(_: AllocError) -> OutRefusal {
        OutRefusal::NoMemory
    }
}

/// Takes shown pages, and the bytes of messages.
pub trait Outlet {
    ghost use Rattle.std.specs.Prelude.{◌≤◌, ℕ, List, [], ◌∷◌, ◌++◌, OnOk, OnErr};
    ghost use Rattle.ps_shapes.specs.Sheet.{Sheet};
    ghost use Rattle.out_writers.specs.Faults.{HasRisen, IsFailed};

    /// How often it has failed.
    ghost faults: { Self → ℕ };

    /// The first is the second with these papers shown, and this text said after it.
    ghost since: { Self → Self → List Sheet → List ℕ → Type 0 };

    /// The first is the second with a front of these papers, and a front of this text.
    ghost cut: { Self → Self → List Sheet → List ℕ → Type 0 };

    /// Gives a page out.
    ///
    /// # Errors
    ///
    /// `Failed` only where the count of faults has risen.
    fn show(&mut self, paper: &Paper) -> Result<(), OutRefusal>
        ensures counted { faults self.old ≤ faults self.new }
        ensures failed { IsFailed result → HasRisen (faults self.old) (faults self.new) }
        ensures shown { OnOk result (since self.new self.old (paper.now ∷ []) []) }
        ensures cut { OnErr result (cut self.new self.old (paper.now ∷ []) []) };

    /// Appends to the text.
    ///
    /// # Errors
    ///
    /// `Failed` only where the count of faults has risen.
    fn say(&mut self, bytes: &[u8]) -> Result<(), OutRefusal>
        ensures counted { faults self.old ≤ faults self.new }
        ensures failed { IsFailed result → HasRisen (faults self.old) (faults self.new) }
        ensures said { OnOk result (since self.new self.old [] bytes.now) }
        ensures cut { OnErr result (cut self.new self.old [] bytes.now) };

    ghost nothing: { (o : Self) → since o o [] [] };

    ghost joined: { (n m o : Self) (papers more : List Sheet) (text rest : List ℕ) →
        since m o papers text → since n m more rest → since n o (papers ++ more) (text ++ rest) };

    ghost joined_cut: { (n m o : Self) (papers more : List Sheet) (text rest : List ℕ) →
        since m o papers text → cut n m more rest → cut n o (papers ++ more) (text ++ rest) };

    ghost whole: { (n o : Self) (papers : List Sheet) (text : List ℕ) →
        since n o papers text → cut n o papers text };

    ghost longer: { (n o : Self) (papers more : List Sheet) (text rest : List ℕ) →
        cut n o papers text → cut n o (papers ++ more) (text ++ rest) };
}
