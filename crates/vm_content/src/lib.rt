//! What a cell of memory holds.
#![tactic(auto)]

mod before;
mod bytes;
mod changes;
mod content;
mod copying;
mod next;
mod sharing;
#[cfg(test)]
mod tests;

pub use before::Before;
pub use bytes::Bytes;
pub use changes::{insert_cell, put_in_cell, remove_bytes, remove_cell, undo_in_cell};
pub use content::Content;
pub use copying::copy_map;
pub use next::next_in;
pub use sharing::contents_may_be_shared;
