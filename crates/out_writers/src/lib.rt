//! Where pages and messages go, and the texts that are written.
#![tactic(auto)]

mod kept;
mod outlet;
mod sinks;
#[cfg(test)]
mod tests;
mod texts;
mod to_sinks;

pub use kept::Kept;
pub use outlet::{OutRefusal, Outlet};
pub use sinks::faults_law;
pub use texts::{flushing, header, report};
pub use to_sinks::ToSinks;
