//! The gathering of the object that a text spells at a place, before any of its cells is made.
#![tactic(auto)]

mod cells;
mod gathering;
mod scanning;
mod spelt;

pub use cells::{Content, make_cells};
pub use gathering::Scanned;
pub use scanning::scan;
pub use spelt::Spelt;
