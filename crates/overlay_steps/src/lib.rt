//! The writes of a page, with an index of their places.
#![tactic(auto)]

mod pile;
mod sharing;
mod steps;
mod undo;

pub use pile::{Mark, Note, Pile, Step};
pub use sharing::steps_may_be_shared;
pub use steps::Steps;
