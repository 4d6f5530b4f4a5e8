//! Operators on the types, the attributes and the access of objects (section 8.2 of the language manual).
#![tactic(auto)]

mod accesses;
mod attributes;
mod binding;
mod laws;
mod running;

pub use laws::object_ops_lawful;
pub use running::{belongs, run};
