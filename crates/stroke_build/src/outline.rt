//! Outlines of subpaths.
ghost use Rattle.std.specs.Prelude.{◌≡◌, ◌^◌, ◌≤◌, [], ◌∷◌, length, drop, map};
ghost use Rattle.stroke_build.specs.Outlines as spec;
ghost use Rattle.stroke_build.specs.Drawing.{Draws, Outlines};

use crate::corner::{around, draw, opposite};
use crate::ends::{draw_dot, draw_ends};
use crate::joins::draw_joins;
use crate::pen::Pen;
use crate::ring::ring;
use crate::side::{Side, sides};
use crate::vector::Vector;
use copy_lists::Sequence;
use path_flat::{FlatRefusal, Subpath};
use ps_shapes::Polygons;
use std::alloc::Global;

fn draw_side(alloc: Global, polygons: &mut Polygons, side: Side) -> Result<(), FlatRefusal>
    ensures { Draws (spec.side_polygon side ∷ []) polygons.old polygons.new result }
{
    let corners = [
        around(side.from, side.normal),
        around(side.to, side.normal),
        opposite(side.to, side.normal),
        opposite(side.from, side.normal),
    ];
    draw(alloc, polygons, &corners)
}

fn draw_sides(alloc: Global, polygons: &mut Polygons, sides: &[Side]) -> Result<(), FlatRefusal>
    ensures { Draws (map spec.side_polygon sides.now) polygons.old polygons.new result }
{
    for side in sides {
        draw_side(alloc, polygons, *side)?;
    }
    Ok(())
}

/// Draws the joins between the segments, of which there is one at least.
fn draw_turns(
    alloc: Global,
    polygons: &mut Polygons,
    pen: Pen,
    ring: &[Vector],
    first: Side,
    sides: &[Side],
) -> Result<(), FlatRefusal>
    requires { 1 ≤ length sides.now }
    ensures { Draws (spec.joins pen ring.now first (drop 1 sides.now))
        polygons.old polygons.new result }
{
    draw_joins(alloc, polygons, pen, ring, first, &sides[1..])
}

/// Draws the polygons of the segments, the joins, and what is at the ends.
fn draw_along(
    alloc: Global,
    polygons: &mut Polygons,
    pen: Pen,
    ring: &[Vector],
    closed: bool,
    first: Side,
    last: Side,
    sides: &[Side],
) -> Result<(), FlatRefusal>
    requires { 1 ≤ length sides.now }
    ensures { Draws (spec.outline_of pen ring.now closed first last sides.now)
        polygons.old polygons.new result }
{
    draw_sides(alloc, polygons, sides)?;
    draw_turns(alloc, polygons, pen, ring, first, sides)?;
    draw_ends(alloc, polygons, pen, ring, closed, first, last)
}

/// Draws a subpath of these segments.
fn draw_sides_of(
    alloc: Global,
    polygons: &mut Polygons,
    pen: Pen,
    ring: &[Vector],
    subpath: &Subpath,
    sides: &[Side],
) -> Result<(), FlatRefusal>
    ensures { Draws (spec.outline_along pen ring.now subpath.now sides.now)
        polygons.old polygons.new result }
{
    match sides.first() {
        None => draw_dot(alloc, polygons, pen.cap, ring, subpath),
        Some(first) => match sides.last() {
            None => Ok(()),
            Some(last) => {
                draw_along(
                    alloc,
                    polygons,
                    pen,
                    ring,
                    subpath.closed,
                    *first,
                    *last,
                    sides,
                )
            }
        },
    }
}

fn draw_subpath(
    alloc: Global,
    polygons: &mut Polygons,
    pen: Pen,
    ring: &[Vector],
    subpath: &Subpath,
) -> Result<(), FlatRefusal>
    ensures { Draws (spec.outline pen ring.now subpath.now) polygons.old polygons.new result }
{
    let sides = sides(alloc, pen.radius, subpath)?;
    draw_sides_of(alloc, polygons, pen, ring, subpath, sides.as_slice())
}

fn draw_subpaths(
    alloc: Global,
    polygons: &mut Polygons,
    pen: Pen,
    ring: &[Vector],
    subpaths: &[Subpath],
) -> Result<(), FlatRefusal>
    ensures { Draws (spec.outlines_by pen ring.now subpaths.now)
        polygons.old polygons.new result }
{
    for subpath in subpaths {
        draw_subpath(alloc, polygons, pen, ring, subpath)?;
    }
    Ok(())
}

/// The polygons that the pen draws along the subpaths: of each subpath its segments, its joins and its ends.
///
/// # Errors
///
/// `Limit` where a corner is farther than 2^30 from 0, in 1/256 pixel, and `NoMemory`.
pub fn outlines(alloc: Global, pen: Pen, subpaths: &[Subpath]) -> Result<Polygons, FlatRefusal>
    ensures { Outlines (spec.outlines pen subpaths.now) result }
{
    let ring = ring(alloc, pen.radius)?;
    let mut polygons = Sequence::new(alloc);
    draw_subpaths(alloc, &mut polygons, pen, ring.as_slice(), subpaths)?;
    Ok(polygons)
}
