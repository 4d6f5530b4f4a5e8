//! Corners of polygons.
ghost use Rattle.std.specs.Prelude.{◌≡◌, ◌≤◌, ◌^◌, [], ◌∷◌, MatchOption, false, neg_ℤ, unsigned_abs};
ghost use Rattle.stroke_build.specs.Corners.{is_near_corner, corner_of, moved};
ghost use Rattle.stroke_build.specs.Drawing.{Draws, Makes};

use crate::vector::Vector;
use copy_lists::Sequence;
use path_flat::FlatRefusal;
use ps_shapes::{Point, Polygon, Polygons};
use std::alloc::Global;

/// A place in 1/256 pixel, which may be too far for a point.
#[derive(Clone, Copy)]
pub struct Corner {
    pub x: i128,
    pub y: i128,
}

/// The greatest distance of a point's coordinate from 0.
const FARTHEST: i128 = 1_073_741_824;

/// The point at the corner, where it is near enough.
fn point(corner: Corner) -> Option<Point>
    ensures { MatchOption result (is_near_corner corner ≡ false) (λ p. corner_of p ≡ corner) }
{
    if -FARTHEST <= corner.x
        && corner.x <= FARTHEST
        && -FARTHEST <= corner.y
        && corner.y <= FARTHEST
    {
        Some(Point {
            x: corner.x as i32,
            y: corner.y as i32,
        })
    } else {
        None
    }
}

/// The polygon with these corners.
fn polygon(alloc: Global, corners: &[Corner]) -> Result<Polygon, FlatRefusal>
    ensures { Makes corners.now result }
{
    let mut polygon = Sequence::new(alloc);
    for corner in corners {
        match point(*corner) {
            Some(point) => polygon.push(point)?,
            None => return Err(FlatRefusal::Limit),
        }
    }
    Ok(polygon)
}

/// Adds the polygon with these corners.
pub(crate) fn draw(
    alloc: Global,
    polygons: &mut Polygons,
    corners: &[Corner],
) -> Result<(), FlatRefusal>
    ensures { Draws (corners.now ∷ []) polygons.old polygons.new result }
{
    polygons.push(polygon(alloc, corners)?)?;
    Ok(())
}

/// The point moved by (x, y).
pub(crate) fn moved(point: Point, x: i128, y: i128) -> Corner
    requires x { unsigned_abs x ≤ 2 ^ 112 }
    requires y { unsigned_abs y ≤ 2 ^ 112 }
    ensures { result ≡ moved point x y }
{
    Corner {
        x: point.x as i128 + x,
        y: point.y as i128 + y,
    }
}

/// The point moved by a distance.
pub(crate) fn around(point: Point, by: Vector) -> Corner
    ensures { result ≡ moved point by.x by.y }
{
    moved(point, by.x as i128, by.y as i128)
}

/// The point moved the other way.
pub(crate) fn opposite(point: Point, by: Vector) -> Corner
    ensures { result ≡ moved point (neg_ℤ by.x) (neg_ℤ by.y) }
{
    moved(point, -(by.x as i128), -(by.y as i128))
}
