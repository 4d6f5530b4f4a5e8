//! The default entries of errors (sections 3.10 and 8.2 of the language manual): what an error does where `errordict` says
//! nothing else.
#![tactic(auto)]

mod laws;
mod recording;
mod running;

pub use laws::error_ops_lawful;
pub use running::{belongs, run};
