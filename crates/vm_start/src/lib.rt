//! The maps of the memory with which a job starts.
#![tactic(auto)]

mod start;
#[cfg(test)]
mod tests;

pub use start::{globals, locals, strings};
