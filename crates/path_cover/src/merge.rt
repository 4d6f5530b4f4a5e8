//! Spans in order.
ghost use Rattle.std.specs.Prelude.{ℕ, ◌≡◌, ◌+◌, ◌*◌, ◌<◌, ◌≤◌, ◌||◌, [], ◌∷◌, ◌++◌, All, OnOk, IfOk, length, nat_eq, nat_le, ◌&&◌};
ghost use Rattle.std.specs.List.Sorted.{IsNonDecreasingBy};
ghost use Rattle.ps_shapes.specs.Span.{IsOrdered, IsOnPaper, holds, is_in};
ghost use Rattle.path_cover.specs.Adding.{StaysOnPaper};
ghost use Rattle.path_cover.specs.Scattered.{IsScattered, place_of, joined_of};

use copy_lists::NoMemory;
use ps_shapes::{Span, Spans};
use std::alloc::Global;

/// The spans that hold the same pixels, in order.
pub(crate) fn merge(
    alloc: Global,
    spans: &mut Vec<Span>,
    width: u32,
    height: u32,
) -> Result<Spans, NoMemory>
    requires { IsScattered width height spans.old.items }
    ensures exact { IfOk result (λ s. (x y : ℕ) → is_in s x y ≡ is_in spans.old.items x y) }
    ensures paper { IfOk result (λ s. IsOnPaper width height s) }
{
    sort(spans);
    let merged = join(alloc, spans.as_slice(), width, height)?;
    Ok(merged)
}

fn sort(spans: &mut Vec<Span>)
    ensures sorted { IsNonDecreasingBy place_of spans.new.items }
    ensures same { (x y : ℕ) → is_in spans.new.items x y ≡ is_in spans.old.items x y }
    ensures raw { (width height : ℕ) → StaysOnPaper width height spans.old.items spans.new.items }
{
    spans.sort_unstable_by_key(|span| place(span));
}

/// The place of a span's first pixel in the order of rows.
fn place(span: &Span) -> u64
    ensures { result ≡ place_of span.now }
{
    u64::from(span.row) * 4294967296 + u64::from(span.first)
}

/// Joins spans that overlap or touch.
fn join(alloc: Global, spans: &[Span], width: u32, height: u32) -> Result<Spans, NoMemory>
    requires sorted { IsNonDecreasingBy place_of spans.now }
    requires raw { IsScattered width height spans.now }
    ensures exact { IfOk result (λ s. (x y : ℕ) → is_in s x y ≡ is_in spans.now x y) }
    ensures paper { IfOk result (λ s. IsOnPaper width height s) }
{
    let mut merged = Spans::new(alloc);
    if spans.is_empty() {
        return Ok(merged);
    }
    let mut run = spans[0];
    for span in spans {
        if joins(&run, span) {
            run = joined(&run, span);
        } else {
            merged.push(run)?;
            run = *span;
        }
    }
    merged.push(run)?;
    Ok(merged)
}

/// Whether a later span overlaps or touches the run.
fn joins(run: &Span, span: &Span) -> bool
    ensures { result ≡ (nat_eq span.now.row run.now.row && nat_le span.now.first run.now.past) }
{
    span.row == run.row && span.first <= run.past
}

/// The run with the span.
fn joined(run: &Span, span: &Span) -> Span
    ensures { result ≡ joined_of run.now span.now }
{
    Span {
        row: run.row,
        first: run.first,
        past: run.past.max(span.past),
    }
}
