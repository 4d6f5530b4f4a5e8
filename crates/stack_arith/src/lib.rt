//! Operators on the operand stack, on numbers and on truth values (section 8.2 of the language manual).
#![tactic(auto)]

mod arithmetic;
mod bits;
mod comparison;
mod functions;
mod laws;
mod numbers;
mod random;
mod rounding;
mod running;
mod stack;

pub use laws::stack_arith_lawful;
pub use running::{belongs, run};
