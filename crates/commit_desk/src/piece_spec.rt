//! Which pieces are right.

/// What the pieces of a job's pages are, and which of them are right. A type parameter with this bound names the job, so
/// that the desk, the workers and the committer mean the same one.
pub trait PieceSpec {
    ghost use Rattle.std.specs.Prelude.{ℕ};

    /// What is made of a page.
    type Piece: Drop + Send;

    /// Which pieces are right for a page.
    ghost right: { ℕ → Self.Piece → Type 0 };
}
