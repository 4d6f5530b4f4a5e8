//! Operators on texts: strings, conversions and messages (section 8.2 of the language manual).
#![tactic(auto)]

mod conversions;
mod laws;
mod listing;
mod messages;
mod numbers;
mod parts;
mod plain;
mod running;
mod searches;
mod strings;

pub use laws::text_ops_lawful;
pub use running::{belongs, run};
