//! Polygons that are painted on the paper (section 4.5 of the language manual).
ghost use Rattle.std.specs.Prelude.{◌≡◌, true, OnOk};
ghost use Rattle.ps_meaning.specs.Ready.{Ready};
ghost use Rattle.ps_paper.specs.Ink.{clipped, painted};
ghost use Rattle.vm_mem.specs.Conditions.{page_is_here};
ghost use Rattle.paint_ops.specs.Covering.{LieOn};
ghost use Rattle.paint_ops.specs.Painting.{painted_in};
ghost use Rattle.paint_ops.specs.Papers.{repainted_in};

use crate::covering::spans_of_clips;
use crate::measuring::is_measured;
use colour_ops::gray_of;
use path_cover::cover;
use ps_kinds::{NoMemory, Polygons, Real, Rule, Spans, SpansList, State, Thresholds};
use ps_operator::Mem;
use ps_paper::paint;

/// Lifts the paper, paints the pixels that are in the spans and in all clips, and lays it back.
#[tactic(auto, using(crate::proofs::Papers::lies_on, crate::proofs::Papers::may_lay_painted))]
fn repaint<M: Mem>(
    mem: &mut M,
    spans: &Spans,
    clips: &SpansList,
    gray: Real,
    thresholds: &Thresholds,
) -> Result<(), NoMemory>
    requires here { page_is_here (M.log mem.old).view ≡ true }
    requires on_paper { LieOn (M.log mem.old).view.page spans.now }
    ensures { OnOk result (M.log mem.new ≡ repainted_in
        (λ p. painted p (clipped spans.now clips.now) gray.count thresholds.now) (M.log mem.old)) }
{
    let mut paper = mem.lift()?;
    paint(&mut paper, spans, clips, gray, thresholds);
    mem.lay(paper);
    Ok(())
}

/// Paints polygons by a rule, in the gray of the colour and inside all clips. While a string is only measured, it does nothing. All that
/// may fail comes before the paper is lifted.
#[tactic(auto, using(ps_operator::proofs::Standing::page_stands, crate::proofs::Papers::spans_lie, crate::proofs::Papers::not_painted))]
pub(crate) fn paint_polygons<M: Mem>(
    state: &State,
    rule: Rule,
    polygons: &Polygons,
    mem: &mut M,
) -> Result<(), NoMemory>
    requires { Ready state.now (M.log mem.old).view }
    ensures { OnOk result (M.log mem.new
        ≡ painted_in state.now rule polygons.now (M.log mem.old)) }
{
    if is_measured(&state.frames) {
        return Ok(());
    }
    let alloc = state.regs.operands.alloc();
    let graphics = &state.regs.state;
    let width = graphics.wide.pixels();
    let height = graphics.high.pixels();
    let spans = cover(alloc, polygons, rule, width, height)?;
    let clips = spans_of_clips(alloc, &graphics.clips, width, height)?;
    let gray = gray_of(graphics.colour).real();
    repaint(mem, &spans, &clips, gray, &graphics.thresholds)?;
    Ok(())
}
