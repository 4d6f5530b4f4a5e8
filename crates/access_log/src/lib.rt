//! What a page looked at, and whether it is still so.
#![tactic(auto)]

mod differs;
mod log;
mod sharing;

pub use differs::{Differs, Place};
pub use log::{Read, ReadLog};
pub use sharing::reads_may_be_shared;
