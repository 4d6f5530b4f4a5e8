//! Whether a string is only measured (section 8.2 of the language manual, `stringwidth`).
ghost use Rattle.std.specs.Prelude.{◌≡◌};
ghost use Rattle.paint_ops.specs.Measuring as spec;

use ps_kinds::{Frame, Frames, ShowForm};

fn is_stringwidth(form: &ShowForm) -> bool
    ensures { result ≡ spec.is_stringwidth form.now }
{
    matches!(form, ShowForm::Stringwidth { sum: _ })
}

/// Whether a frame measures a string.
fn measures(frame: &Frame) -> bool
    ensures { result ≡ spec.measures frame.now }
{
    match frame {
        Frame::Show(run) => is_stringwidth(&run.as_ref().form),
        _ => false,
    }
}

/// Whether a string is measured, however far out.
#[tactic(auto, using(ps_operator::proofs::StoreSteps::any_hit, ps_operator::proofs::StoreSteps::any_miss))]
pub(crate) fn is_measured(frames: &Frames) -> bool
    ensures { result ≡ spec.is_measured frames.now }
{
    for depth in 0..frames.len() {
        if measures(frames.at(depth)) {
            return true;
        }
    }
    false
}
