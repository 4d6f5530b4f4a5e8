//! The machine that runs a section, by any table of operators, over any memory and any outlet.
#![tactic(auto)]

mod ending;
mod giving;
mod refusal;
mod running;
mod section;

pub use refusal::RunRefusal;
pub use section::{Ran, SectionEnd, SectionInput, run_section};
