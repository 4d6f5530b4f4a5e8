//! The dump: what the registers and the memory hold at the end of a job as text, where it differs from the start's.
#![tactic(auto)]

mod cells;
mod contents;
mod entries;
mod headers;
mod keys;
mod memory;
mod papers;
#[cfg(test)]
mod tests;

pub use memory::dump;
