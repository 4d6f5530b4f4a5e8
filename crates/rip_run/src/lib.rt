//! The top calls: the words of a command, the reading of a job, and what is written for it.
#![tactic(auto)]

mod answer;
mod call;
mod plain;
mod reading;
mod status;
#[cfg(test)]
mod tests;
mod texts;

pub use call::rip_plain;
pub use command_words::Word;
pub use status::Status;
