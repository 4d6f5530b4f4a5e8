//! Operators on arrays and on strings as rows of items and bytes (section 8.2 of the language manual).
#![tactic(auto)]

mod copies;
mod intervals;
mod laws;
mod making;
mod members;
mod parts;
mod running;
mod spreading;

pub use laws::array_ops_lawful;
pub use running::{belongs, offers, run};
