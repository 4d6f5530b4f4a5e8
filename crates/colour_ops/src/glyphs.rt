//! Glyphs that have no colour of their own (section 5.7 of the language manual).
ghost use Rattle.std.specs.Prelude.{◌≡◌};
ghost use Rattle.ps_operator.specs.Registers.{any_of};
ghost use Rattle.colour_ops.specs.Glyphs as spec;

use ps_kinds::{ErrorName, Frame, Frames, ShowPhase};

fn runs_mask(phase: ShowPhase) -> bool
    ensures { result ≡ spec.runs_mask phase }
{
    match phase {
        ShowPhase::Running(glyph) => glyph.cached,
        ShowPhase::Before | ShowPhase::Between => false,
    }
}

/// Whether a glyph of a frame runs that has called `setcachedevice`.
fn shows_mask(frame: &Frame) -> bool
    ensures { result ≡ spec.shows_mask frame.now }
{
    match frame {
        Frame::Show(run) => runs_mask(run.as_ref().phase),
        _ => false,
    }
}

/// Whether such a glyph of any frame runs.
#[tactic(auto, using(ps_operator::proofs::StoreSteps::any_hit, ps_operator::proofs::StoreSteps::any_miss))]
fn any_mask(frames: &Frames) -> bool
    ensures { result ≡ any_of spec.shows_mask frames.now }
{
    for depth in 0..frames.len() {
        if shows_mask(frames.at(depth)) {
            return true;
        }
    }
    false
}

/// Whether colours and screens may be set: undefined.
pub(crate) fn settable(frames: &Frames) -> Result<(), ErrorName>
    ensures { result ≡ spec.settable frames.now }
{
    if any_mask(frames) {
        Err(ErrorName::Undefined)
    } else {
        Ok(())
    }
}
