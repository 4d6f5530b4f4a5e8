//! Cutting a job into its sections by the comments of the document structuring conventions: where the prolog ends, where
//! pages and the trailer begin, and which parts hold inner documents or counted data. That each line is read alone, and
//! what a job without header or end is, are the project's own rules.
#![tactic(auto)]

mod comment;
mod cutter;
mod law;
mod line;
mod mark;
mod section;
#[cfg(test)]
mod tests;
mod words;

pub use cutter::{CONTROL_D, JOB_LIMIT, MAX_PAGES, SplitError, begins_with_header, split};
pub use law::sections_law;
pub use ps_objects::{NoMemory, SectionKind};
pub use section::{Section, Sections};
