//! The ends of subpaths.
ghost use Rattle.std.specs.Prelude.{◌≡◌, ◌+◌, ◌^◌, ◌≤◌, ◌++◌, ◌+ℤ◌, [], ◌∷◌, neg_ℤ, unsigned_abs, slice_get};
ghost use Rattle.stroke_build.specs.Corners.{moved};
ghost use Rattle.stroke_build.specs.Outlines as spec;
ghost use Rattle.stroke_build.specs.Drawing.{Draws};

use crate::corner::{Corner, around, draw, moved, opposite};
use crate::joins::draw_join;
use crate::pen::Pen;
use crate::ring::draw_disc;
use crate::side::Side;
use crate::vector::Vector;
use path_flat::{FlatRefusal, Subpath};
use ps_kinds::LineCap;
use ps_shapes::{Point, Polygons};
use std::alloc::Global;

/// The point moved by (across, down), and then by (x, y).
fn beyond(point: Point, across: i64, down: i64, x: i64, y: i64) -> Corner
    requires across { unsigned_abs across ≤ 2 ^ 31 }
    requires down { unsigned_abs down ≤ 2 ^ 31 }
    requires x { unsigned_abs x ≤ 2 ^ 31 }
    requires y { unsigned_abs y ≤ 2 ^ 31 }
    ensures { result ≡ moved point (across +ℤ x) (down +ℤ y) }
{
    moved(point, (across + x) as i128, (down + y) as i128)
}

/// Draws the square end at a point: (x, y) is the pen's radius outward.
fn draw_square(
    alloc: Global,
    polygons: &mut Polygons,
    point: Point,
    normal: Vector,
    x: i64,
    y: i64,
) -> Result<(), FlatRefusal>
    requires x { unsigned_abs x ≤ 2 ^ 31 }
    requires y { unsigned_abs y ≤ 2 ^ 31 }
    ensures { Draws (spec.square point normal x y ∷ []) polygons.old polygons.new result }
{
    let across = normal.x as i64;
    let down = normal.y as i64;
    let corners = [
        around(point, normal),
        beyond(point, across, down, x, y),
        beyond(point, -across, -down, x, y),
        opposite(point, normal),
    ];
    draw(alloc, polygons, &corners)
}

/// Draws the cap of an end: (x, y) is the pen's radius outward.
fn draw_cap(
    alloc: Global,
    polygons: &mut Polygons,
    cap: LineCap,
    ring: &[Vector],
    point: Point,
    normal: Vector,
    x: i64,
    y: i64,
) -> Result<(), FlatRefusal>
    requires x { unsigned_abs x ≤ 2 ^ 31 }
    requires y { unsigned_abs y ≤ 2 ^ 31 }
    ensures { Draws (spec.cap_by cap ring.now point normal x y)
        polygons.old polygons.new result }
{
    match cap {
        LineCap::Butt => Ok(()),
        LineCap::Round => draw_disc(alloc, polygons, ring, point),
        LineCap::Square => draw_square(alloc, polygons, point, normal, x, y),
    }
}

fn draw_start_cap(
    alloc: Global,
    polygons: &mut Polygons,
    cap: LineCap,
    ring: &[Vector],
    side: Side,
) -> Result<(), FlatRefusal>
    ensures { Draws (spec.start_cap cap ring.now side) polygons.old polygons.new result }
{
    let x = -(side.along.x as i64);
    let y = -(side.along.y as i64);
    draw_cap(alloc, polygons, cap, ring, side.from, side.normal, x, y)
}

fn draw_end_cap(
    alloc: Global,
    polygons: &mut Polygons,
    cap: LineCap,
    ring: &[Vector],
    side: Side,
) -> Result<(), FlatRefusal>
    ensures { Draws (spec.end_cap cap ring.now side) polygons.old polygons.new result }
{
    let x = side.along.x as i64;
    let y = side.along.y as i64;
    draw_cap(alloc, polygons, cap, ring, side.to, side.normal, x, y)
}

/// Draws the join of a closed subpath's last segment to its first, or the caps of an open one.
pub(crate) fn draw_ends(
    alloc: Global,
    polygons: &mut Polygons,
    pen: Pen,
    ring: &[Vector],
    closed: bool,
    first: Side,
    last: Side,
) -> Result<(), FlatRefusal>
    ensures { Draws (spec.ends pen ring.now closed first last) polygons.old polygons.new result }
{
    if closed {
        draw_join(alloc, polygons, pen, ring, last, first)
    } else {
        draw_start_cap(alloc, polygons, pen.cap, ring, first)?;
        draw_end_cap(alloc, polygons, pen.cap, ring, last)
    }
}

/// Draws a subpath without a segment: a dot for round caps.
pub(crate) fn draw_dot(
    alloc: Global,
    polygons: &mut Polygons,
    cap: LineCap,
    ring: &[Vector],
    subpath: &Subpath,
) -> Result<(), FlatRefusal>
    ensures { Draws (spec.dot_by cap ring.now (slice_get subpath.now.points 0))
        polygons.old polygons.new result }
{
    match cap {
        LineCap::Butt => Ok(()),
        LineCap::Square => Ok(()),
        LineCap::Round => match subpath.points.as_slice().first() {
            Some(point) => draw_disc(alloc, polygons, ring, *point),
            None => Ok(()),
        },
    }
}
