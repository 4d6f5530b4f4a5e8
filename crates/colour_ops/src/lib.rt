//! Operators on colours, screens and halftones (section 8.2 of the language manual).
#![tactic(auto)]

mod colours;
mod glyphs;
mod halftones;
mod laws;
mod running;
mod screens;
mod setting;
mod spaces;
#[cfg(test)]
mod tests;

pub use colours::gray_of;
pub use laws::colour_ops_lawful;
pub use running::{belongs, run};
