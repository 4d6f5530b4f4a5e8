//! Painting on paper.
#![tactic(auto)]

mod rows;

ghost use Rattle.std.specs.Prelude.{All, ◌≡◌, ◌<◌, ◌≤◌, ◌&&◌};
ghost use Rattle.ps_shapes.specs.Sheet.{IsWhole};
ghost use Rattle.ps_shapes.specs.Span.{IsOnPaper, holds, is_in_all};
ghost use Rattle.ps_paper.specs.Ink.{clipped, painted};
ghost use Rattle.ps_paper.specs.Shared.{shared_of, touches};

use halftone::black;
use ps_shapes::{ONE, Paper, Real, Span, Spans, SpansList, Thresholds};
use rows::of_row;

/// Paints the pixels that are in the spans and in all clips black where the halftone of the gray is black, and white
/// elsewhere; all other pixels stay.
pub fn paint(
    paper: &mut Paper,
    spans: &Spans,
    clips: &SpansList,
    gray: Real,
    thresholds: &Thresholds,
)
    requires { IsOnPaper paper.old.width paper.old.height spans.now }
    ensures { paper.new ≡ painted paper.old (clipped spans.now clips.now)
        gray.count thresholds.now }
{
    paint_each(paper, spans.as_slice(), clips.as_slice(), &gray, thresholds);
}

/// The pixels of each span that are in all clips.
fn paint_each(
    paper: &mut Paper,
    spans: &[Span],
    clips: &[Spans],
    gray: &Real,
    thresholds: &Thresholds,
)
    requires filled { All (λ s. s.first ≤ s.past) spans.now }
    requires place { IsOnPaper paper.old.width paper.old.height spans.now }
    ensures { paper.new ≡ painted paper.old (clipped spans.now clips.now)
        gray.now.count thresholds.now }
{
    let _width = paper.width();
    for span in spans {
        paint_within(paper, *span, clips, gray, thresholds);
    }
}

/// The pixels of the span that are in all clips.
fn paint_within(
    paper: &mut Paper,
    span: Span,
    clips: &[Spans],
    gray: &Real,
    thresholds: &Thresholds,
)
    requires row { span.row < paper.old.height }
    requires first { span.first ≤ span.past }
    requires past { span.past ≤ paper.old.width }
    ensures { paper.new ≡ painted paper.old (λ x y. holds x y span && is_in_all clips.now x y)
        gray.now.count thresholds.now }
{
    let _width = paper.width();
    if let Some((clip, rest)) = clips.split_first() {
        for part in of_row(clip.as_slice(), span.row) {
            if touches(&span, part) {
                let both = shared(&span, part);
                paint_within(paper, both, rest, gray, thresholds);
            }
        }
    } else {
        paint_span(paper, span, gray, thresholds);
    }
}

/// The pixels that two spans of one row share.
fn shared(a: &Span, b: &Span) -> Span
    ensures { result ≡ shared_of a.now b.now }
{
    Span {
        row: a.row,
        first: a.first.max(b.first),
        past: a.past.min(b.past),
    }
}

/// Whether the spans share a pixel, where neither is empty.
fn touches(a: &Span, b: &Span) -> bool
    ensures { result ≡ touches a.now b.now }
{
    b.row == a.row && b.first < a.past && a.first < b.past
}

/// All pixels of the span.
fn paint_span(paper: &mut Paper, span: Span, gray: &Real, thresholds: &Thresholds)
    requires row { span.row < paper.old.height }
    requires first { span.first ≤ span.past }
    requires past { span.past ≤ paper.old.width }
    ensures { paper.new ≡ painted paper.old (λ x y. holds x y span)
        gray.now.count thresholds.now }
{
    let _width = thresholds.width();
    if gray.count <= 0 {
        paper.fill(span, true);
    } else if gray.count >= ONE {
        paper.fill(span, false);
    } else {
        dither(paper, span, gray, thresholds);
    }
}

/// The pixels of the span, one by one.
fn dither(paper: &mut Paper, span: Span, gray: &Real, thresholds: &Thresholds)
    requires row { span.row < paper.old.height }
    requires first { span.first ≤ span.past }
    requires past { span.past ≤ paper.old.width }
    ensures { paper.new ≡ painted paper.old (λ x y. holds x y span)
        gray.now.count thresholds.now }
{
    let _width = paper.width();
    let width = thresholds.width();
    let height = thresholds.height();
    let bytes = thresholds.as_bytes();
    for x in span.first..span.past {
        let ink = black(x, span.row, gray.count, width, height, bytes);
        let dot = Span {
            row: span.row,
            first: x,
            past: x + 1,
        };
        paper.fill(dot, ink);
    }
}

#[cfg(test)]
mod tests;
