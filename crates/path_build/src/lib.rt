//! Operators that build the current path, tell it and walk over it (section 8.2 of the language manual).
#![tactic(auto)]

mod arcs;
mod boxes;
mod building;
mod calls;
mod laws;
mod paths;
mod points;
mod running;
mod walking;

pub use laws::{path_build_lawful, path_steps_lawful, path_steps_steady};
pub use paths::POINT_LIMIT;
pub use running::{belongs, run, step, walks};
