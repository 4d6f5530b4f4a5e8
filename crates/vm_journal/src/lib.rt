//! The local part of a memory, with its open saves and their journal.
#![tactic(auto)]

mod journal;
mod locals;
mod sharing;

pub use locals::Locals;
pub use sharing::locals_may_be_shared;
