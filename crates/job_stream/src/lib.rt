//! Streams of jobs, parted by Control-D.
#![tactic(auto)]

mod law;
mod reader;
#[cfg(test)]
mod tests;

pub use copy_lists::{NoMemory, Text};
pub use dsc_split::{CONTROL_D, JOB_LIMIT};
pub use law::jobs_law;
pub use reader::{Fed, Front, JobReader};
