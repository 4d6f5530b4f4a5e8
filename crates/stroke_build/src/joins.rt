//! Joins of two segments.
ghost use Rattle.std.specs.Prelude.{◌≡◌, ◌+◌, ◌*◌, ◌^◌, ◌<◌, ◌≤◌, pos, ◌*ℤ◌, ◌<ℤ◌, ◌≤ℤ◌, ◌+ℤ◌, ◌-ℤ◌, [], ◌∷◌, unsigned_abs};
ghost use Rattle.stroke_build.specs.Outlines as spec;
ghost use Rattle.stroke_build.specs.Drawing.{Draws};

use crate::arithmetic::nearest_quotient;
use crate::corner::{Corner, draw, moved};
use crate::pen::Pen;
use crate::ring::draw_disc;
use crate::side::{Side, difference};
use crate::vector::Vector;
use path_flat::FlatRefusal;
use ps_kinds::LineJoin;
use ps_shapes::Polygons;
use std::alloc::Global;

fn run(side: Side) -> i64
    ensures value { result ≡ spec.run side }
    ensures bound { unsigned_abs result ≤ 2 ^ 31 }
{
    difference(side.from.x, side.to.x)
}

fn fall(side: Side) -> i64
    ensures value { result ≡ spec.fall side }
    ensures bound { unsigned_abs result ≤ 2 ^ 31 }
{
    difference(side.from.y, side.to.y)
}

fn product(a: i64, b: i64) -> i128
    requires a { unsigned_abs a ≤ 2 ^ 31 }
    requires b { unsigned_abs b ≤ 2 ^ 31 }
    ensures value { result ≡ a *ℤ b }
    ensures bound { unsigned_abs result ≤ 2 ^ 62 }
{
    a as i128 * b as i128
}

fn sum_of(a: i128, b: i128) -> i128
    requires a { unsigned_abs a ≤ 2 ^ 62 }
    requires b { unsigned_abs b ≤ 2 ^ 62 }
    ensures value { result ≡ a +ℤ b }
    ensures bound { unsigned_abs result ≤ 2 ^ 63 }
{
    a + b
}

fn difference_of(a: i128, b: i128) -> i128
    requires a { unsigned_abs a ≤ 2 ^ 62 }
    requires b { unsigned_abs b ≤ 2 ^ 62 }
    ensures { result ≡ a -ℤ b }
{
    a - b
}

/// The cross product, which is 0 where the line goes straight on or back.
fn cross(a: Side, b: Side) -> i128
    ensures { result ≡ spec.cross a b }
{
    difference_of(product(run(a), fall(b)), product(fall(a), run(b)))
}

fn dot(a: Side, b: Side) -> i128
    ensures value { result ≡ spec.dot a b }
    ensures bound { unsigned_abs result ≤ 2 ^ 63 }
{
    sum_of(product(run(a), run(b)), product(fall(a), fall(b)))
}

/// Whether the outer side of the turn is against the normals.
fn is_against(a: Side, b: Side) -> bool
    ensures { result ≡ spec.is_against a b }
{
    cross(a, b) > 0
}

/// A coordinate of a distance to the outer side.
fn outer(is_against: bool, z: i128) -> i128
    requires { unsigned_abs z ≤ 2 ^ 112 }
    ensures value { result ≡ spec.outer is_against z }
    ensures bound { unsigned_abs result ≤ 2 ^ 112 }
{
    if is_against { -z } else { z }
}

/// The point of the join moved to the outer side of the turn.
fn outward(a: Side, b: Side, x: i128, y: i128) -> Corner
    requires x { unsigned_abs x ≤ 2 ^ 112 }
    requires y { unsigned_abs y ≤ 2 ^ 112 }
    ensures { result ≡ spec.outward a b x y }
{
    let is_against = is_against(a, b);
    moved(a.to, outer(is_against, x), outer(is_against, y))
}

/// The outer end of a segment's normal.
fn outer_end(a: Side, b: Side, normal: Vector) -> Corner
    ensures { result ≡ spec.outward a b normal.x normal.y }
{
    outward(a, b, normal.x as i128, normal.y as i128)
}

/// The point of a join.
fn joint(a: Side) -> Corner
    ensures { result ≡ spec.joint a }
{
    moved(a.to, 0, 0)
}

fn draw_bevel(alloc: Global, polygons: &mut Polygons, a: Side, b: Side) -> Result<(), FlatRefusal>
    ensures { Draws (spec.bevel a b) polygons.old polygons.new result }
{
    if cross(a, b) == 0 {
        return Ok(());
    }
    let first = outer_end(a, b, a.normal);
    let second = outer_end(a, b, b.normal);
    draw(alloc, polygons, &[joint(a), first, second])
}

fn square(n: u32) -> i128
    requires { n < 2 ^ 31 }
    ensures value { result ≡ pos (n * n) }
    ensures bound { unsigned_abs result ≤ 2 ^ 62 }
{
    i128::from(n as u64 * n as u64)
}

/// R² + n1·n2.
fn opening(radius: u32, a: Side, b: Side) -> i128
    requires { radius < 2 ^ 31 }
    ensures value { result ≡ spec.opening radius a b }
    ensures bound { unsigned_abs result ≤ 2 ^ 64 }
{
    let across = product(a.normal.x as i64, b.normal.x as i64);
    let down = product(a.normal.y as i64, b.normal.y as i64);
    opening_of(square(radius), sum_of(across, down))
}

fn opening_of(square: i128, dot: i128) -> i128
    requires square { unsigned_abs square ≤ 2 ^ 62 }
    requires dot { unsigned_abs dot ≤ 2 ^ 63 }
    ensures value { result ≡ square +ℤ dot }
    ensures bound { unsigned_abs result ≤ 2 ^ 64 }
{
    square + dot
}

fn sum(u: i32, v: i32) -> i64
    ensures value { result ≡ u +ℤ v }
    ensures bound { unsigned_abs result ≤ 2 ^ 32 }
{
    u as i64 + v as i64
}

fn times(a: i64, b: i128) -> i128
    requires a { unsigned_abs a ≤ 2 ^ 32 }
    requires b { unsigned_abs b ≤ 2 ^ 62 }
    ensures value { result ≡ a *ℤ b }
    ensures bound { unsigned_abs result ≤ 2 ^ 94 }
{
    a as i128 * b
}

/// A coordinate of the miter's tip: (u + v)·R² / q.
fn tip(radius: u32, u: i32, v: i32, q: i128) -> i128
    requires radius { radius < 2 ^ 31 }
    requires positive { pos 0 <ℤ q }
    requires bound { unsigned_abs q ≤ 2 ^ 64 }
    ensures value { result ≡ spec.tip radius u v q }
    ensures bound { unsigned_abs result ≤ 2 ^ 94 }
{
    nearest_quotient(times(sum(u, v), square(radius)), q.unsigned_abs())
}

fn draw_miter(
    alloc: Global,
    polygons: &mut Polygons,
    radius: u32,
    a: Side,
    b: Side,
) -> Result<(), FlatRefusal>
    requires radius { radius < 2 ^ 31 }
    requires open { pos 0 <ℤ spec.opening radius a b }
    ensures { Draws (spec.miter_polygon radius a b ∷ []) polygons.old polygons.new result }
{
    let q = opening(radius, a, b);
    let x = tip(radius, a.normal.x, b.normal.x, q);
    let y = tip(radius, a.normal.y, b.normal.y, q);
    let first = outer_end(a, b, a.normal);
    let second = outer_end(a, b, b.normal);
    draw(
        alloc,
        polygons,
        &[joint(a), first, outward(a, b, x, y), second],
    )
}

fn lengths(a: Side, b: Side) -> i128
    ensures value { result ≡ pos (a.length * b.length) }
    ensures bound { unsigned_abs result ≤ 2 ^ 64 }
{
    i128::from(a.length as u64 * b.length as u64)
}

/// 2^17 times a product of lengths.
fn scaled(lengths: i128) -> i128
    requires { unsigned_abs lengths ≤ 2 ^ 64 }
    ensures { result ≡ pos 131072 *ℤ lengths }
{
    131_072 * lengths
}

fn limited(limit: i128, lengths: i128, dot: i128) -> i128
    requires limit { unsigned_abs limit ≤ 2 ^ 36 }
    requires lengths { unsigned_abs lengths ≤ 2 ^ 64 }
    requires dot { unsigned_abs dot ≤ 2 ^ 63 }
    ensures { result ≡ limit *ℤ (lengths +ℤ dot) }
{
    limit * (lengths + dot)
}

/// The square of the miter limit.
fn limit(m: u32) -> i128
    requires { m ≤ 256000 }
    ensures value { result ≡ pos (m * m) }
    ensures bound { unsigned_abs result ≤ 2 ^ 36 }
{
    i128::from(m as u64 * m as u64)
}

/// Whether the miter is within its limit m, which is in 1/256.
fn is_within(m: u32, a: Side, b: Side) -> bool
    requires { m ≤ 256000 }
    ensures { result ≡ spec.is_within m a b }
{
    scaled(lengths(a, b)) <= limited(limit(m), lengths(a, b), dot(a, b))
}

/// Whether the line turns.
fn turns(a: Side, b: Side) -> bool
    ensures { result ≡ spec.turns a b }
{
    cross(a, b) != 0
}

/// Whether the normals meet on the outer side.
fn is_open(radius: u32, a: Side, b: Side) -> bool
    requires { radius < 2 ^ 31 }
    ensures { result ≡ spec.is_open radius a b }
{
    opening(radius, a, b) > 0
}

#[tactic(auto, unfolding(crate::specs::Outlines::has_miter))]
fn has_miter(pen: Pen, a: Side, b: Side) -> bool
    ensures { result ≡ spec.has_miter pen a b }
{
    turns(a, b) && is_open(pen.radius, a, b) && is_within(pen.miter, a, b)
}

/// Draws the join of two segments.
#[tactic(auto, unfolding(crate::specs::Outlines::join))]
pub(crate) fn draw_join(
    alloc: Global,
    polygons: &mut Polygons,
    pen: Pen,
    ring: &[Vector],
    a: Side,
    b: Side,
) -> Result<(), FlatRefusal>
    ensures { Draws (spec.join pen ring.now a b) polygons.old polygons.new result }
{
    match pen.join {
        LineJoin::Round => draw_disc(alloc, polygons, ring, a.to),
        LineJoin::Bevel => draw_bevel(alloc, polygons, a, b),
        LineJoin::Miter => {
            if has_miter(pen, a, b) {
                draw_miter(alloc, polygons, pen.radius, a, b)
            } else {
                draw_bevel(alloc, polygons, a, b)
            }
        }
    }
}

/// Draws the joins from a segment to the next, and so on.
pub(crate) fn draw_joins(
    alloc: Global,
    polygons: &mut Polygons,
    pen: Pen,
    ring: &[Vector],
    first: Side,
    others: &[Side],
) -> Result<(), FlatRefusal>
    ensures { Draws (spec.joins pen ring.now first others.now) polygons.old polygons.new result }
{
    let mut before = first;
    for side in others {
        draw_join(alloc, polygons, pen, ring, before, *side)?;
        before = *side;
    }
    Ok(())
}
