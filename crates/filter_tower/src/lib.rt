//! The layers of decoding filters over a section's text, and where they stand.
#![tactic(auto)]

mod code;
mod standing;
mod tower;

pub use code::CodeBytes;
pub use copy_lists::{NoMemory, Text};
pub use standing::{FilterState, Room, Standing, Standings};
pub use tower::{FilterKind, FilterLayer, FilterLayers, Tower};
