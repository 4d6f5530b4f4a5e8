//! A desk of numbered pages: which are claimed, whose pieces are finished, which of these were taken, and how far all is
//! committed. One lock round it is all that threads need to share the pages of a job among them.
#![tactic(auto)]

mod desk;
mod event;
mod law;
mod piece_spec;
mod slot;

pub use desk::Desk;
pub use event::{Claim, Event};
pub use law::{each_at_most_once, made_by_its_calls, taken_is_laid_down};
pub use piece_spec::PieceSpec;

#[cfg(test)]
mod tests;
