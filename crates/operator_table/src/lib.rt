//! The table of all operators that are there.
#![tactic(auto)]

mod laws;
mod table;

pub use laws::operator_table_lawful;
pub use table::AllOperators;
