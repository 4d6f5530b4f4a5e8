//! The plain texts of objects, as `=` writes them and as the report of an error names a command (section 8.2 of the language manual).
#![tactic(auto)]

mod numbers;
mod objects;
#[cfg(test)]
mod tests;

pub use numbers::{push_integer, push_real};
pub use objects::{plain_text, push_plain_text};
