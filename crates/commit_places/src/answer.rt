//! What draws and looks answer.

/// The answer to a draw.
#[derive(Clone, Copy, Debug, PartialEq, Eq)]
pub enum Draw {
    /// The hand has this page.
    Page(u32),
    /// All pages are drawn.
    Over,
}

/// The answer to a look whether a page may begin.
#[derive(Clone, Copy, Debug, PartialEq, Eq)]
pub enum Ready {
    /// The page is begun.
    Go,
    /// The page is too far past the committed ones.
    Later {
        /// How many pages are committed.
        committed: u32,
    },
    /// The work is stopped, and the page isn't the hand's any more.
    Stopped,
}
