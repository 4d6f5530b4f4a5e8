//! Plain decoding filters: the bytes that layers over a section's text give.
#![tactic(auto)]

mod ahead;
mod calls;
mod code;
mod digits;
mod found;
mod give;
mod given;
mod law;
mod reading;
#[cfg(test)]
mod tests;

pub use calls::{add, close, has_ended, next};
pub use filter_tower::{FilterKind, NoMemory, Tower};
pub use given::Given;
pub use law::filters_law;
