//! The rows that edges pass, from the top.
ghost use Rattle.std.specs.Prelude.{◌≡◌, ◌≤◌, ◌&&◌, OnOk, IfOk, nat_eq, length, drop};
ghost use Rattle.std.specs.List.Sorted.{IsNonDecreasingBy};
ghost use Rattle.path_cover.specs.Adding.{AddsInRow, AddsMarked, CountsOn, CountsOnFrom, CountsTheSame, CrossesTheSame, IsAboveAll, PassesNot, StaysOnPaper, StaysWithRow, is_inside_both};
ghost use Rattle.path_cover.specs.Marks.{marked};

use crate::crossing::Crossing;
use crate::edge::Edge;
use crate::gather::crossings;
use crate::sweep::sweep;
use copy_lists::NoMemory;
use ps_shapes::Span;
use std::alloc::Global;

/// A row that is scanned: whether an odd number of edges makes a pixel inside, and the paper's width.
#[derive(Clone, Copy)]
struct Line {
    row: u32,
    odd: bool,
    width: u32,
}

/// Adds the spans that the edges bound.
pub(crate) fn scan(
    alloc: Global,
    edges: &mut Vec<Edge>,
    odd: bool,
    width: u32,
    height: u32,
    spans: &mut Vec<Span>,
) -> Result<(), NoMemory>
    ensures exact { OnOk result (AddsMarked odd edges.old.items width height
        spans.old.items spans.new.items) }
    ensures place { OnOk result (StaysOnPaper width height spans.old.items spans.new.items) }
{
    sort_edges(edges);
    walk(alloc, edges.as_slice(), odd, width, height, spans)?;
    Ok(())
}

fn sort_edges(edges: &mut Vec<Edge>)
    ensures sorted { IsNonDecreasingBy (λ e. e.first) edges.new.items }
    ensures same { CountsTheSame 0 edges.old.items edges.new.items }
{
    edges.sort_unstable_by_key(|edge| edge.first);
}

fn sort_crossings(crossings: &mut Vec<Crossing>)
    ensures sorted { IsNonDecreasingBy (λ c. c.column) crossings.new.items }
    ensures same { CrossesTheSame crossings.old.items crossings.new.items }
{
    crossings.sort_unstable_by_key(|crossing| crossing.column);
}

/// Walks the rows, with the edges that pass each one.
fn walk(
    alloc: Global,
    edges: &[Edge],
    odd: bool,
    width: u32,
    height: u32,
    spans: &mut Vec<Span>,
) -> Result<(), NoMemory>
    requires { IsNonDecreasingBy (λ e. e.first) edges.now }
    ensures exact { OnOk result (AddsMarked odd edges.now width height
        spans.old.items spans.new.items) }
    ensures place { OnOk result (StaysOnPaper width height spans.old.items spans.new.items) }
{
    let mut active = Vec::new(alloc);
    let mut crossings = Vec::new(alloc);
    let mut next = 0usize;
    for row in start(edges)..height {
        if is_done(edges, next, active.as_slice()) {
            return Ok(());
        }
        let line = Line { row, odd, width };
        next = step(line, edges, next, &mut active, &mut crossings, spans)?;
    }
    Ok(())
}

/// The first row that an edge passes.
fn start(edges: &[Edge]) -> u32
    requires { IsNonDecreasingBy (λ e. e.first) edges.now }
    ensures { IsAboveAll result edges.now }
{
    match edges.first() {
        Some(edge) => edge.first,
        None => 0,
    }
}

/// Whether no edge is left.
fn is_done(edges: &[Edge], next: usize, active: &[Edge]) -> bool
    ensures { result ≡ (nat_eq next (length edges.now) && nat_eq (length active.now) 0) }
{
    next == edges.len() && active.is_empty()
}

/// Adds the spans of one row, and gives the place of the first edge below it.
fn step(
    line: Line,
    edges: &[Edge],
    next: usize,
    active: &mut Vec<Edge>,
    crossings: &mut Vec<Crossing>,
    spans: &mut Vec<Span>,
) -> Result<usize, NoMemory>
    requires sorted { IsNonDecreasingBy (λ e. e.first) edges.now }
    requires next { next ≤ length edges.now }
    ensures next { IfOk result (λ n. n ≤ length edges.now) }
    ensures kept { IfOk result (λ n. CountsOnFrom line.row active.old.items (drop next edges.now)
        active.new.items (drop n edges.now)) }
    ensures exact { OnOk result (AddsInRow line.row line.width
        (is_inside_both line.odd line.row active.old.items (drop next edges.now))
        spans.old.items spans.new.items) }
    ensures place { OnOk result (StaysWithRow line.row line.width spans.old.items spans.new.items) }
{
    let below = enter(edges, next, line.row, active)?;
    retire(active, line.row);
    add_line(line, active.as_slice(), crossings, spans)?;
    Ok(below)
}

/// Adds the edges that begin at the row or above it.
fn enter(edges: &[Edge], next: usize, row: u32, active: &mut Vec<Edge>) -> Result<usize, NoMemory>
    requires sorted { IsNonDecreasingBy (λ e. e.first) edges.now }
    requires next { next ≤ length edges.now }
    ensures next { IfOk result (λ n. n ≤ length edges.now) }
    ensures kept { IfOk result (λ n. CountsOn active.old.items (drop next edges.now)
        active.new.items (drop n edges.now)) }
    ensures rest { IfOk result (λ n. PassesNot row (drop n edges.now)) }
{
    for place in next..edges.len() {
        if edges[place].first > row {
            return Ok(place);
        }
        active.push(edges[place])?;
    }
    Ok(edges.len())
}

/// Takes away the edges that end at the row or above it.
fn retire(active: &mut Vec<Edge>, row: u32)
    ensures { CountsTheSame row active.old.items active.new.items }
{
    active.retain(|edge| row < edge.past);
}

/// Adds the spans of the row.
fn add_line(
    line: Line,
    active: &[Edge],
    out: &mut Vec<Crossing>,
    spans: &mut Vec<Span>,
) -> Result<(), NoMemory>
    ensures exact { OnOk result (AddsInRow line.row line.width
        (λ x. marked line.odd active.now x line.row)
        spans.old.items spans.new.items) }
    ensures place { OnOk result (StaysWithRow line.row line.width spans.old.items spans.new.items) }
{
    crossings(active, line.row, line.width, out)?;
    sort_crossings(out);
    sweep(out.as_slice(), line.odd, line.row, line.width, spans)?;
    Ok(())
}
