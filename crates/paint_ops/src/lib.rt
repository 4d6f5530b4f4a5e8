//! Operators that paint and that give pages out (section 8.2 of the language manual).
#![tactic(auto)]

mod covering;
mod filling;
mod laws;
mod measuring;
mod outlines;
mod pages;
mod painting;
mod rectangles;
mod running;
#[cfg(test)]
mod tests;

pub use laws::paint_ops_lawful;
pub use running::{belongs, run};
