//! Operators on clips, and flattening (section 8.2 of the language manual).
#![tactic(auto)]

mod clips;
mod flats;
mod laws;
mod running;

pub use laws::clip_ops_lawful;
pub use running::{belongs, run};
