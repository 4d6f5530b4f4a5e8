//! The committed memory.
#![tactic(auto)]

mod applying;
mod based;
mod cells;
mod committed;
mod holds;
mod next;
mod page;
mod quick;
mod sharing;
mod undo;

pub use cells::Cells;
pub use sharing::cells_may_be_shared;
