//! The law of sections.
ghost use Rattle.std.specs.Prelude.{ℕ, List};
ghost use Rattle.dsc_split.specs.Law.{IsWhole, IsNumbered, HasItsKinds, IsPrologAlone, BeginsPages};

/// What holds of the sections of every job.
#[tactic(auto, using(crate::proofs::Laws::whole, crate::proofs::Laws::numbered, crate::proofs::Laws::kinds, crate::proofs::Laws::prolog_alone, crate::proofs::Laws::begun))]
pub fn sections_law()
    ensures whole { (job : List ℕ) → IsWhole job }
    ensures numbers { (job : List ℕ) → IsNumbered job }
    ensures kinds { (job : List ℕ) → HasItsKinds job }
    ensures headless { (job : List ℕ) → IsPrologAlone job }
    ensures pages { (job : List ℕ) → BeginsPages job }
{}
