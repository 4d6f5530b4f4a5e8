//! The registers with which a job starts.
#![tactic(auto)]

mod laws;
mod matrix;
mod registers;
#[cfg(test)]
mod tests;

pub use laws::scale_law;
pub use matrix::default_matrix;
pub use registers::start_registers;
