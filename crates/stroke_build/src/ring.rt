//! The polygon of 32 corners that stands for a circle.
ghost use Rattle.std.specs.Prelude.{◌≡◌, ◌<◌, ◌^◌, [], ◌∷◌, IfOk};
ghost use Rattle.stroke_build.specs.Outlines.{ring_corner, ring, disc};
ghost use Rattle.stroke_build.specs.Drawing.{Draws};

use crate::arithmetic::share;
use crate::corner::{Corner, around, draw};
use crate::vector::Vector;
use copy_lists::NoMemory;
use path_flat::FlatRefusal;
use ps_fixed::{Real, cos, sin};
use ps_shapes::{Point, Polygons};
use std::alloc::Global;

/// The angle from one corner to the next: 11.25 degrees, in counts of 2^-24.
const ANGLE: i64 = 188_743_680;

/// The count of the real number 1.
const ONE: u32 = 0x100_0000;

/// A corner of the polygon around 0.
fn ring_corner(radius: u32, j: u32) -> Vector
    requires radius { radius < 2 ^ 31 }
    requires j { j < 32 }
    ensures { result ≡ ring_corner radius j }
{
    let angle = Real {
        count: ANGLE * j as i64,
    };
    Vector {
        x: share(cos(angle).count, radius, ONE),
        y: share(sin(angle).count, radius, ONE),
    }
}

/// The polygon around 0.
#[tactic(auto, unfolding(crate::specs::Outlines::ring))]
pub(crate) fn ring(alloc: Global, radius: u32) -> Result<Vec<Vector>, NoMemory>
    requires { radius < 2 ^ 31 }
    ensures { IfOk result (λ v. v.items ≡ ring radius) }
{
    let mut corners = Vec::new(alloc);
    for j in 0..32u32 {
        corners.push(ring_corner(radius, j))?;
    }
    Ok(corners)
}

/// The corners of the polygon around a point.
fn disc(alloc: Global, ring: &[Vector], center: Point) -> Result<Vec<Corner>, NoMemory>
    ensures { IfOk result (λ corners. corners.items ≡ disc ring.now center) }
{
    let mut corners = Vec::new(alloc);
    for corner in ring {
        corners.push(around(center, *corner))?;
    }
    Ok(corners)
}

/// Draws the polygon around a point.
pub(crate) fn draw_disc(
    alloc: Global,
    polygons: &mut Polygons,
    ring: &[Vector],
    center: Point,
) -> Result<(), FlatRefusal>
    ensures { Draws (disc ring.now center ∷ []) polygons.old polygons.new result }
{
    let corners = disc(alloc, ring, center)?;
    draw(alloc, polygons, corners.as_slice())
}
