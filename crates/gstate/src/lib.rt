//! Operators on the graphics stack, on lines and on dash patterns (section 8.2 of the language manual).
#![tactic(auto)]

mod beginning;
mod dashes;
mod laws;
mod layers;
mod lines;
mod running;
#[cfg(test)]
mod tests;

pub use beginning::begin;
pub use laws::gstate_lawful;
pub use running::{belongs, run};
