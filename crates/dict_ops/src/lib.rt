//! Operators on dictionaries and on the dictionary stack (section 8.2 of the language manual).
#![tactic(auto)]

mod copies;
mod dict_stack;
mod entries;
mod laws;
mod pairs;
mod running;

pub use laws::dict_ops_lawful;
pub use running::{belongs, offers, run};
