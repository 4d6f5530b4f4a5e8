//! Tasks.

use commit_desk::PieceSpec;

/// Makes the pieces of pages. It is shared by the threads that call it.
pub trait Task: PieceSpec {
    /// The piece of a page. It is right.
    fn piece(&self, page: u32) -> Self::Piece
        ensures { Self.right page result };
}
