//! The report of an error that stopped a section.
#![tactic(auto)]

mod law;
mod report;

pub use law::reports_law;
pub use report::{Report, Told, reports};
