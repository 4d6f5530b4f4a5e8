//! The spans of a row.
ghost use Rattle.std.specs.Prelude.{ℕ, ◌≡◌, ◌<◌, ◌≤◌, OnOk};
ghost use Rattle.std.specs.List.Sorted.{IsNonDecreasingBy};
ghost use Rattle.path_cover.specs.Adding.{AddsGap, AddsInRow, StaysWithRow};
ghost use Rattle.path_cover.specs.Cover.{is_inside};
ghost use Rattle.path_cover.specs.Marks.{crossed};

use crate::crossing::Crossing;
use copy_lists::NoMemory;
use ps_shapes::Span;

/// Adds the spans of a row between its crossings.
pub(crate) fn sweep(
    crossings: &[Crossing],
    odd: bool,
    row: u32,
    width: u32,
    spans: &mut Vec<Span>,
) -> Result<(), NoMemory>
    requires { IsNonDecreasingBy (λ c. c.column) crossings.now }
    ensures exact { OnOk result (AddsInRow row width (crossed odd crossings.now)
        spans.old.items spans.new.items) }
    ensures place { OnOk result (StaysWithRow row width spans.old.items spans.new.items) }
{
    let mut downs = 0usize;
    let mut ups = 0usize;
    let mut at = 0u32;
    for crossing in crossings {
        let here = crossing.column.min(width);
        gap(spans, row, at, here, is_inside(odd, downs, ups))?;
        at = at.max(here);
        downs += usize::from(crossing.down);
        ups += usize::from(!crossing.down);
    }
    gap(spans, row, at, width, is_inside(odd, downs, ups))?;
    Ok(())
}

/// Adds the span of a gap between two crossings, if the gap is inside.
fn gap(spans: &mut Vec<Span>, row: u32, first: u32, past: u32, inside: bool) -> Result<(), NoMemory>
    ensures exact { OnOk result (AddsGap row first past inside spans.old.items spans.new.items) }
    ensures place { OnOk result ((width : ℕ) → past ≤ width →
        StaysWithRow row width spans.old.items spans.new.items) }
{
    if inside && first < past {
        spans.push(Span { row, first, past })?;
    }
    Ok(())
}

/// Whether that many edges down and up make a pixel inside.
fn is_inside(odd: bool, downs: usize, ups: usize) -> bool
    requires downs { downs < 9223372036854775808 }
    requires ups { ups < 9223372036854775808 }
    ensures { result ≡ is_inside odd downs ups }
{
    if odd {
        (downs + ups) % 2 == 1
    } else {
        downs != ups
    }
}
