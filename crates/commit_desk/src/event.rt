//! What happens on a desk, and what a claim answers.

/// An entry of a desk's history. Pages are numbered from 1.
#[derive(Clone, Copy, Debug, PartialEq, Eq)]
pub enum Event {
    /// This page was claimed.
    Claimed(u32),
    /// This page's piece was laid on the desk.
    Finished(u32),
    /// This page's piece was taken from the desk.
    Taken(u32),
    /// The count of committed pages rose to this.
    Committed(u32),
}

/// The answer to a claim.
#[derive(Clone, Copy, Debug, PartialEq, Eq)]
pub enum Claim {
    /// The next page that nobody had claimed.
    Page(u32),
    /// All pages are claimed, or the desk is stopped.
    Over,
    /// As many pages are claimed past the committed ones as may be.
    Full,
}
