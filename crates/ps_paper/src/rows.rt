//! The spans of a row.
ghost use Rattle.std.specs.Prelude.{All, ◌≡◌, ◌<◌, ◌≤◌, ℕ, length};
ghost use Rattle.std.specs.List.{AllWithin};
ghost use Rattle.std.specs.List.Sorted.{IsNonDecreasingBy};
ghost use Rattle.ps_shapes.specs.Span.{IsOrdered, is_in};
ghost use Rattle.ps_shapes.specs.declared.span.Span.{Span};

use ps_shapes::Span;

/// The spans of the row, found by halving.
pub(crate) fn of_row(spans: &[Span], row: u32) -> &[Span]
    requires { IsOrdered spans.now }
    ensures same { (x : ℕ) → is_in result.now x row ≡ is_in spans.now x row }
    ensures filled { All (λ (s : Span). s.first < s.past) result.now }
{
    let (start, past) = places(spans, row);
    &spans[start..past]
}

/// The places of the first span in the row or below it, and of the first below it.
fn places(spans: &[Span], row: u32) -> (usize, usize)
    requires { IsOrdered spans.now }
    ensures order { result.0 ≤ result.1 }
    ensures bound { result.1 ≤ length spans.now }
    ensures above { AllWithin (λ (s : Span). s.row < row) spans.now 0 result.0 }
    ensures below { AllWithin (λ (s : Span). row < s.row) spans.now result.1 (length spans.now) }
{
    let start = first_in(spans, row);
    let past = first_below(spans, row);
    (start, past)
}

/// The place of the first span in the row or below it.
fn first_in(spans: &[Span], row: u32) -> usize
    requires { IsNonDecreasingBy (λ (s : Span). s.row) spans.now }
    ensures bound { result ≤ length spans.now }
    ensures above { AllWithin (λ (s : Span). s.row < row) spans.now 0 result }
    ensures rest { AllWithin (λ (s : Span). row ≤ s.row) spans.now result (length spans.now) }
{
    spans.partition_point(|span| span.row < row)
}

/// The place of the first span below the row.
fn first_below(spans: &[Span], row: u32) -> usize
    requires { IsNonDecreasingBy (λ (s : Span). s.row) spans.now }
    ensures bound { result ≤ length spans.now }
    ensures above { AllWithin (λ (s : Span). s.row ≤ row) spans.now 0 result }
    ensures rest { AllWithin (λ (s : Span). row < s.row) spans.now result (length spans.now) }
{
    spans.partition_point(|span| span.row <= row)
}
