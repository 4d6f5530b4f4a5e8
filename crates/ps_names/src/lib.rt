//! The operators and the errors: their places and their names.
#![tactic(auto)]

mod error_name;
mod op;
mod operator_names;
pub mod places;
#[cfg(test)]
mod tests;

pub use error_name::ErrorName;
pub use op::{NAME_LIMIT, Op};
pub use operator_names::op_name;
