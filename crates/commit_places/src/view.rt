//! What the seats know. No value of these types is ever made but of `Sizes`: they are what the proofs say of a seat.

use std::collections::LinkedList;

/// How many pages there are, how far past the committed ones a page may be begun, and how many workers there are at most.
#[derive(Clone, Copy)]
pub struct Sizes {
    /// How many pages there are.
    pub pages: u32,
    /// How many pages may be begun past the committed ones. There are as many places.
    pub ahead: u32,
    /// How many hands may be split.
    pub workers: u32,
}

/// How far a hand is with the page that it drew.
#[derive(Clone, Copy)]
pub enum Stage {
    /// The page is drawn.
    Drawn,
    /// The page may be made.
    Begun,
    /// The hand holds the page's place, to lay the piece down.
    Placing,
}

/// What a hand drew and hasn't finished.
#[derive(Clone, Copy)]
pub enum Ticket {
    /// Nothing.
    Free,
    /// This page, with which it is so far.
    Held(Stage, u32),
}

/// How far the committer is with the page after the committed ones.
#[derive(Clone, Copy)]
pub enum Next {
    /// It isn't taken.
    Waiting,
    /// It is taken, and the committer holds its place.
    Taking,
    /// It is taken, and its place is empty.
    Taken,
}

/// What a hand knows.
pub struct HandView {
    /// The sizes.
    pub sizes: Sizes,
    /// Its page.
    pub ticket: Ticket,
    /// Whether it drew that all pages are drawn.
    pub is_over: bool,
    /// All pages that it drew, the last first.
    pub drawn: LinkedList<u32>,
    /// All pages whose pieces it laid down, the last first.
    pub finished: LinkedList<u32>,
}

/// What the committer knows.
pub struct CommitterView {
    /// The sizes.
    pub sizes: Sizes,
    /// How many pages are committed.
    pub count: u32,
    /// How far it is with the next page.
    pub next: Next,
    /// Whether it stopped the work.
    pub is_stopped: bool,
    /// How many hands there ever were.
    pub hands: u32,
    /// How many of them came back that had drawn that all pages are drawn.
    pub joined_over: u32,
    /// How many others came back.
    pub joined: u32,
    /// All pages that the hands drew that came back.
    pub drawn: LinkedList<u32>,
    /// All pages whose pieces they laid down.
    pub finished: LinkedList<u32>,
}

/// What a seat knows.
pub enum View {
    /// The committer's seat.
    Committer(CommitterView),
    /// A hand's seat.
    Hand(HandView),
    /// The seat of a hand that came back.
    Joined,
}
