//! Segments of flattened subpaths.
ghost use Rattle.std.specs.Prelude.{◌≡◌, ◌<◌, ◌≤◌, ◌^◌, ◌++◌, ◌-ℤ◌, ◌-◌, length, slice_get, unsigned_abs, OnOk, IfOk, false};
ghost use Rattle.ps_shapes.specs.Near.{IsNear};
ghost use Rattle.stroke_build.specs.Sides.{side, is_same, side_between, sides_after, sides_along, closing_side, sides};

use crate::arithmetic::{length, share};
use crate::vector::Vector;
use copy_lists::NoMemory;
use path_flat::Subpath;
use ps_shapes::Point;
use std::alloc::Global;

/// A segment of a flattened subpath, whose length isn't 0.
#[derive(Clone, Copy)]
pub struct Side {
    pub from: Point,
    pub to: Point,

    /// The length, rounded down.
    pub length: u32,

    /// The pen's radius along the segment.
    pub along: Vector,

    /// The pen's radius across the segment.
    pub normal: Vector,
}

/// How far `to` is beyond `from`.
pub(crate) fn difference(from: i32, to: i32) -> i64
    requires from { IsNear from }
    requires to { IsNear to }
    ensures value { result ≡ to -ℤ from }
    ensures bound { unsigned_abs result ≤ 2 ^ 31 }
{
    to as i64 - from as i64
}

fn is_same(a: Point, b: Point) -> bool
    ensures { result ≡ is_same a b }
{
    a.x == b.x && a.y == b.y
}

/// The segment between two points that aren't one.
#[tactic(auto, using(crate::proofs::Quotients::some_length))]
fn side_from(radius: u32, from: Point, to: Point) -> Side
    requires radius { radius < 2 ^ 31 }
    requires apart { is_same from to ≡ false }
    ensures { result ≡ side radius from to }
{
    let dx = difference(from.x, to.x);
    let dy = difference(from.y, to.y);
    let length = length(dx, dy);
    let right = share(dx, radius, length);
    let below = share(dy, radius, length);
    let across = share(-dy, radius, length);
    Side {
        from,
        to,
        length,
        along: Vector { x: right, y: below },
        normal: Vector {
            x: across,
            y: right,
        },
    }
}

/// Adds the segment between the points, unless they are one.
fn add_side(sides: &mut Vec<Side>, radius: u32, from: Point, to: Point) -> Result<(), NoMemory>
    requires { radius < 2 ^ 31 }
    ensures { OnOk result (sides.new.items ≡ sides.old.items ++ side_between radius from to) }
{
    if !is_same(from, to) {
        sides.push(side_from(radius, from, to))?;
    }
    Ok(())
}

/// Adds the segments from a point to the first of the points, and from each to the next.
fn add_sides(
    sides: &mut Vec<Side>,
    radius: u32,
    start: Point,
    points: &[Point],
) -> Result<(), NoMemory>
    requires { radius < 2 ^ 31 }
    ensures { OnOk result (sides.new.items ≡
        sides.old.items ++ sides_after radius start points.now) }
{
    let mut from = start;
    for to in points {
        add_side(sides, radius, from, *to)?;
        from = *to;
    }
    Ok(())
}

/// Adds the segments along the points.
fn add_along(sides: &mut Vec<Side>, radius: u32, points: &[Point]) -> Result<(), NoMemory>
    requires { radius < 2 ^ 31 }
    ensures { OnOk result (sides.new.items ≡
        sides.old.items ++ sides_along radius (slice_get points.now 0) points.now) }
{
    match points.first() {
        Some(first) => add_sides(sides, radius, *first, points),
        None => Ok(()),
    }
}

/// Adds the segment from the last point to the first.
fn add_closing(sides: &mut Vec<Side>, radius: u32, points: &[Point]) -> Result<(), NoMemory>
    requires { radius < 2 ^ 31 }
    ensures { OnOk result (sides.new.items ≡
        sides.old.items ++ closing_side radius (slice_get points.now (length points.now - 1))
        (slice_get points.now 0)) }
{
    match points.last() {
        Some(last) => match points.first() {
            Some(first) => add_side(sides, radius, *last, *first),
            None => Ok(()),
        },
        None => Ok(()),
    }
}

/// The segments of a subpath.
pub fn sides(alloc: Global, radius: u32, subpath: &Subpath) -> Result<Vec<Side>, NoMemory>
    requires { radius < 2 ^ 31 }
    ensures { IfOk result (λ v. v.items ≡ sides radius subpath.now.points subpath.now.closed) }
{
    let points = subpath.points.as_slice();
    let mut sides = Vec::new(alloc);
    add_along(&mut sides, radius, points)?;
    if !subpath.closed {
        return Ok(sides);
    }
    add_closing(&mut sides, radius, points)?;
    Ok(sides)
}
