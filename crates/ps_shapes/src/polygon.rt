//! Points and polygons in 1/256 pixel.
ghost use Rattle.ps_shapes.specs.Near.{IsNear};

use copy_lists::{Duplicate, NoMemory, Sequence};

/// A place in 1/256 pixel, right and down from the page's upper left corner, within 2^30 of 0.
#[derive(Clone, Copy, Debug, PartialEq, Eq)]
pub struct Point {
    pub x: i32,
    pub y: i32,
    ghost near_x: { IsNear x },
    ghost near_y: { IsNear y },
}

/// What counts as inside of polygons.
#[derive(Clone, Copy, Debug, PartialEq, Eq)]
pub enum Rule {
    /// Where the edges' directions don't add up to 0.
    NonZero,
    /// Where the number of edges is odd.
    EvenOdd,
    /// Where one polygon at least is `NonZero` inside.
    AnyOf,
}

/// The corners of a closed polygon.
pub type Polygon = Sequence<Point>;

/// A list of polygons.
pub type Polygons = Sequence<Polygon>;

impl Duplicate for Point {
    fn duplicate(&self) -> Result<Point, NoMemory> {
        Ok(*self)
    }
}
