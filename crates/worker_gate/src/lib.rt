//! The threads of a job: workers that make the pieces of its pages, the way in which the committer comes by a page, and
//! a gate that shows that pieces of two pages are made side by side.
#![tactic(auto)]

mod hold_gate;
mod shared;
mod task;
mod task_desk;

pub use hold_gate::HoldGate;
pub use shared::{Shared, step, work};
pub use task::Task;

#[cfg(test)]
mod tests;
