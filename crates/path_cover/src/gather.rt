//! The edges of polygons, gathered, and their crossings of a row.
ghost use Rattle.std.specs.Prelude.{OnOk, count_by, if◌then◌else◌};
ghost use Rattle.path_cover.specs.Adding.{CountsMore, CrossWhere};
ghost use Rattle.path_cover.specs.Cover.{sides_after, counts, counted};

use crate::crossing::Crossing;
use crate::edge::{Edge, row_at};
use copy_lists::NoMemory;
use ps_shapes::Point;

/// Adds the edges of a closed polygon.
pub(crate) fn gather(edges: &mut Vec<Edge>, points: &[Point], height: u32) -> Result<(), NoMemory>
    ensures { OnOk result (CountsMore height (λ down x y. counted down x y points.now)
        edges.old.items edges.new.items) }
{
    match points.last() {
        Some(last) => {
            gather_after(edges, *last, points, height)?;
            Ok(())
        }
        None => Ok(()),
    }
}

/// Adds the edges from each point to the next.
fn gather_after(
    edges: &mut Vec<Edge>,
    start: Point,
    points: &[Point],
    height: u32,
) -> Result<(), NoMemory>
    ensures { OnOk result (CountsMore height
        (λ down x y. count_by (counts down x y) (sides_after start points.now))
        edges.old.items edges.new.items) }
{
    let mut from = start;
    for to in points {
        add_side(edges, from, *to, height)?;
        from = *to;
    }
    Ok(())
}

/// Adds the edge between two points, if it passes the centre of a row.
fn add_side(edges: &mut Vec<Edge>, from: Point, to: Point, height: u32) -> Result<(), NoMemory>
    ensures { OnOk result (CountsMore height
        (λ down x y. if counts down x y (from, to) then 1 else 0)
        edges.old.items edges.new.items) }
{
    let start = row_at(from.y, height);
    let end = row_at(to.y, height);
    if start < end {
        edges.push(Edge {
            top: from,
            bottom: to,
            down: true,
            first: start,
            past: end,
        })?;
    } else if end < start {
        edges.push(Edge {
            top: to,
            bottom: from,
            down: false,
            first: end,
            past: start,
        })?;
    }
    Ok(())
}

/// Where the edges cross the row.
pub(crate) fn crossings(
    active: &[Edge],
    row: u32,
    width: u32,
    out: &mut Vec<Crossing>,
) -> Result<(), NoMemory>
    ensures { OnOk result (CrossWhere width row active.now out.new.items) }
{
    out.clear();
    for edge in active {
        if edge.is_in_row(row) {
            out.push(Crossing {
                column: edge.column(row, width),
                down: edge.down,
            })?;
        }
    }
    Ok(())
}
