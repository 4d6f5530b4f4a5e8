//! Operators tried one by one, on the memory with which a job starts.
#![tactic(auto)]

mod going;
mod rows;
#[cfg(test)]
mod tests;
mod trial;
mod words;

pub use going::{apply, push_integer, push_string};
pub use rows::{Outcome, attempt, attempt_full, outcome_of};
pub use trial::{Trial, all_stand, begin};
