//! Numbers, matrices and pictures: what the graphics of a page are made of.
#![tactic(auto)]

mod clip;
mod numbers;
mod paper;
mod path;
mod polygon;
mod sharing;
mod span;
mod thresholds;

pub use clip::{Clip, Clips};
pub use numbers::{Matrix, ONE, Real};
pub use paper::Paper;
pub use path::{DevicePoint, Path, Segment};
pub use polygon::{Point, Polygon, Polygons, Rule};
pub use sharing::pictures_may_be_shared;
pub use span::{Span, Spans, SpansList};
pub use thresholds::Thresholds;

#[cfg(test)]
mod tests;
