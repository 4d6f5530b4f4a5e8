//! The words of a command: which command they name, and its options.
#![tactic(auto)]

mod command;
mod number;
mod options;
#[cfg(test)]
mod tests;

pub use command::{Command, PlainOptions, Word, command_of};
