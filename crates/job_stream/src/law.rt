//! The law of streams of jobs.
ghost use Rattle.std.specs.Prelude.{ℕ, List};
ghost use Rattle.job_stream.specs.Law.{IsJoined, IsApart, IsTold, IsLast, IsFirst};

/// What holds of the jobs of every stream.
#[tactic(auto, using(crate::proofs::Laws::joined, crate::proofs::Laws::apart, crate::proofs::Laws::first, crate::proofs::Laws::last, crate::proofs::Laws::told_along))]
pub fn jobs_law()
    ensures joined { (stream : List ℕ) → IsJoined stream }
    ensures apart { (stream : List ℕ) → IsApart stream }
    ensures first { (piece rest : List ℕ) → IsFirst piece rest }
    ensures last { (piece : List ℕ) → IsLast piece }
    ensures told { (stream : List ℕ) → IsTold stream }
{}
