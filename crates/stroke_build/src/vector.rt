//! Distances.

/// A distance in 1/256 pixel, right and down.
#[derive(Clone, Copy)]
pub struct Vector {
    pub x: i32,
    pub y: i32,
}
