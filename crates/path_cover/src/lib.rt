//! The pixels that polygons cover. What is inside them is section 4.5.3 of the language manual (insideness testing);
//! that a pixel is covered where its centre is inside is the project's own rule.
#![tactic(auto)]

mod crossing;
mod edge;
mod gather;
mod merge;
mod scan;
mod sweep;

ghost use Rattle.std.specs.Prelude.{IfOk};
ghost use Rattle.ps_shapes.specs.Span.{IsOnPaper, IsOrdered};
ghost use Rattle.path_cover.specs.Adding.{HoldsExactly};
ghost use Rattle.path_cover.specs.Cover.{covers, covers_together, covers_one};
ghost use Rattle.path_cover.specs.Scattered.{IsScattered};

use copy_lists::NoMemory;
use gather::gather;
use merge::merge;
use ps_shapes::{Polygon, Polygons, Rule, Span, Spans};
use scan::scan;
use std::alloc::Global;

/// The pixels that the rule paints, on a paper of that size.
pub fn cover(
    alloc: Global,
    polygons: &Polygons,
    rule: Rule,
    width: u32,
    height: u32,
) -> Result<Spans, NoMemory>
    ensures exact { IfOk result (λ s. HoldsExactly width height (covers polygons.now rule) s) }
    ensures paper { IfOk result (λ s. IsOnPaper width height s) }
    ensures ordered { IfOk result (λ s. IsOrdered s) }
{
    let mut spans = unordered(alloc, polygons.as_slice(), rule, width, height)?;
    let merged = merge(alloc, &mut spans, width, height)?;
    let _ = merged.as_slice();
    Ok(merged)
}

/// The same in any order.
fn unordered(
    alloc: Global,
    polygons: &[Polygon],
    rule: Rule,
    width: u32,
    height: u32,
) -> Result<Vec<Span>, NoMemory>
    ensures exact { IfOk result (λ s.
        HoldsExactly width height (covers polygons.now rule) s.items) }
    ensures raw { IfOk result (λ s. IsScattered width height s.items) }
{
    match rule {
        Rule::NonZero => together(alloc, polygons, false, width, height),
        Rule::EvenOdd => together(alloc, polygons, true, width, height),
        Rule::AnyOf => apart(alloc, polygons, width, height),
    }
}

/// What is inside all polygons taken as one.
fn together(
    alloc: Global,
    polygons: &[Polygon],
    odd: bool,
    width: u32,
    height: u32,
) -> Result<Vec<Span>, NoMemory>
    ensures exact { IfOk result (λ s.
        HoldsExactly width height (covers_together odd polygons.now) s.items) }
    ensures raw { IfOk result (λ s. IsScattered width height s.items) }
{
    let mut edges = Vec::new(alloc);
    for polygon in polygons {
        gather(&mut edges, polygon.as_slice(), height)?;
    }
    let mut spans = Vec::new(alloc);
    scan(alloc, &mut edges, odd, width, height, &mut spans)?;
    Ok(spans)
}

/// What is inside one polygon at least.
fn apart(
    alloc: Global,
    polygons: &[Polygon],
    width: u32,
    height: u32,
) -> Result<Vec<Span>, NoMemory>
    ensures exact { IfOk result (λ s. HoldsExactly width height (covers_one polygons.now) s.items) }
    ensures raw { IfOk result (λ s. IsScattered width height s.items) }
{
    let mut edges = Vec::new(alloc);
    let mut spans = Vec::new(alloc);
    for polygon in polygons {
        edges.clear();
        gather(&mut edges, polygon.as_slice(), height)?;
        scan(alloc, &mut edges, false, width, height, &mut spans)?;
    }
    Ok(spans)
}

#[cfg(test)]
mod tests;
