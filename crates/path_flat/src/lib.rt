//! Curves as lines, and paths as polygons in 1/256 pixel. Flattening is section 4.6.2 of the language manual (flatness);
//! that a curve becomes 32 lines, whatever the flatness, and the rounding of points are the project's own rules.
#![tactic(auto)]

mod curve;
mod flattening;
mod limit;
mod refusal;
#[cfg(test)]
mod tests;
mod tracing;

pub use curve::{curve_point, pixel_point};
pub use flattening::flattened;
pub use limit::{POINT_LIMIT, flattens_within_limit};
pub use refusal::FlatRefusal;
pub use tracing::{Subpath, SubpathList, flat, subpaths};
