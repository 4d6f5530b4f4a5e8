//! The steps of the machine, for any table of operators, over any memory.
#![tactic(auto)]

mod executing;
mod frames;
mod leaving;
mod met;
mod next;
mod operators;
mod procedures;
mod raising;
mod reading;
mod settling;
mod stepping;
mod turning;
mod walking;

pub use next::{Next, Outcome};
pub use operators::Operators;
pub use stepping::step;
