//! The reading of one object from a text.
#![tactic(auto)]

mod reading;

pub use ps_gather::Spelt;
pub use reading::read;
