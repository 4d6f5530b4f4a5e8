//! Operators on the section's text as a file (section 8.2 of the language manual).
#![tactic(auto)]

mod files;
mod laws;
mod parts;
mod reading;
mod running;
mod tokens;

pub use laws::file_ops_lawful;
pub use running::{belongs, run};
