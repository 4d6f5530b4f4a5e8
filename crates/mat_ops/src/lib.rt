//! Operators on matrices and on the current transformation matrix (section 8.2 of the language manual).
#![tactic(auto)]

mod arrays;
mod carrying;
mod changing;
mod current;
mod laws;
mod matrices;
mod running;
#[cfg(test)]
mod tests;

pub use laws::mat_ops_lawful;
pub use running::{belongs, run};
