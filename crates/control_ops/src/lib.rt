//! Operators that execute, loop, leave and stop, and the steps of their frames (section 8.2 of the language manual).
#![tactic(auto)]

mod calls;
mod executing;
mod laws;
mod leaving;
mod loops;
mod rounds;
mod running;
mod walking;

pub use laws::{control_ops_lawful, control_steps_lawful, control_steps_steady};
pub use running::{belongs, run, step, walks};
