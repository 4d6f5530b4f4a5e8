//! Dictionaries: entries in order of coming, with an index by hashes beside them.
#![tactic(auto)]

mod dict;
mod entries;
mod hash_index;
mod sharing;
#[cfg(test)]
mod tests;

pub use dict::Dict;
pub use entries::Seat;
pub use sharing::dicts_may_be_shared;
