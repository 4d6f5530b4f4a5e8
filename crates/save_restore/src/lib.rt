//! Operators that save and restore memory, its modes and counts, and times (section 8.2 of the language manual).
#![tactic(auto)]

mod laws;
mod modes;
mod newest;
mod restoring;
mod running;
mod saving;
#[cfg(test)]
mod tests;

pub use laws::save_restore_lawful;
pub use newest::newer;
pub use running::{belongs, run};
