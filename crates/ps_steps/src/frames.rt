//! What each kind of frame is to execution.
ghost use Rattle.std.specs.Prelude.{◌≡◌, ◌<◌};
ghost use Rattle.ps_names.specs.declared.places.TheConstants.{OPERATOR_COUNT};
ghost use Rattle.ps_meaning.specs.Start.{operator};
ghost use Rattle.ps_execution.specs.Frames as spec;
ghost use Rattle.ps_execution.specs.Frames.{way, is_loop, show_way, is_kshow};

use ps_kinds::{Access, Frame, Kind, Object, Op, Real, Samples, ShowForm, ShowPhase, places};

fn is_kshow(form: &ShowForm) -> bool
    ensures { result ≡ is_kshow form.now }
{
    match form {
        ShowForm::Show => false,
        ShowForm::Ashow { .. } => false,
        ShowForm::Widthshow { .. } => false,
        ShowForm::Awidthshow { .. } => false,
        ShowForm::Kshow { .. } => true,
        ShowForm::Stringwidth { .. } => false,
    }
}

fn show_is_loop(form: &ShowForm, phase: &ShowPhase) -> bool
    ensures { result ≡ is_loop (show_way form.now phase.now) }
{
    match phase {
        ShowPhase::Before => is_kshow(form),
        ShowPhase::Running(_) => false,
        ShowPhase::Between => is_kshow(form),
    }
}

/// Whether `exit` leaves the frame.
pub(crate) fn is_loop(frame: &Frame) -> bool
    ensures { result ≡ is_loop (way frame.now) }
{
    match frame {
        Frame::Proc { .. } => false,
        Frame::Text { .. } => false,
        Frame::For { .. } => true,
        Frame::Repeat { .. } => true,
        Frame::Loop { .. } => true,
        Frame::Items { .. } => true,
        Frame::Bytes { .. } => true,
        Frame::Pairs { .. } => true,
        Frame::Stopped => false,
        Frame::Show(run) => {
            let run = run.as_ref();
            show_is_loop(&run.form, &run.phase)
        }
        Frame::Image(_) => false,
        Frame::Walk(_) => true,
    }
}

fn length_of(kind: &Kind) -> u32
    ensures { result ≡ spec.length_of kind.now }
{
    match kind {
        Kind::Str(part) => part.len,
        Kind::Array { interval, .. } => interval.len,
        _ => 0,
    }
}

fn is_past(next: &Option<Real>, increment: Real, limit: Real) -> bool
    ensures { result ≡ spec.is_past next.now increment limit }
{
    match next {
        None => true,
        Some(value) => {
            (increment.count > 0 && value.count > limit.count)
                || (increment.count < 0 && value.count < limit.count)
        }
    }
}

fn show_costs(phase: &ShowPhase, more: bool) -> bool
    ensures { result ≡ spec.show_costs phase.now more }
{
    match phase {
        ShowPhase::Before => more,
        ShowPhase::Running(_) => false,
        ShowPhase::Between => true,
    }
}

/// Whether the next step of the frame costs a turn.
pub(crate) fn costs(frame: &Frame) -> bool
    ensures { result ≡ spec.costs frame.now }
{
    match frame {
        Frame::Proc { .. } => true,
        Frame::Text { .. } => true,
        Frame::For {
            next,
            increment,
            limit,
            ..
        } => !is_past(next, *increment, *limit),
        Frame::Repeat { left, .. } => *left > 0,
        Frame::Loop { .. } => true,
        Frame::Items { array, at, .. } => *at < length_of(&array.kind),
        Frame::Bytes { string, at, .. } => *at < length_of(&string.kind),
        Frame::Pairs { pairs, at, .. } => *at < pairs.len(),
        Frame::Stopped => false,
        Frame::Show(run) => {
            let run = run.as_ref();
            show_costs(&run.phase, run.at < length_of(&run.string.kind))
        }
        Frame::Image(run) => !run.as_ref().called,
        Frame::Walk(walk) => {
            let walk = walk.as_ref();
            walk.at < walk.path.as_slice().len()
        }
    }
}

fn operator(place: u16) -> Object
    requires { place < OPERATOR_COUNT }
    ensures { result ≡ operator place }
{
    Object {
        kind: Kind::Operator(Op::at(place)),
        exec: true,
        access: Access::Unlimited,
    }
}

fn show_operator(form: &ShowForm) -> Object
    ensures { result ≡ operator (spec.show_operator form.now) }
{
    match form {
        ShowForm::Show => operator(places::SHOW),
        ShowForm::Ashow { .. } => operator(places::ASHOW),
        ShowForm::Widthshow { .. } => operator(places::WIDTHSHOW),
        ShowForm::Awidthshow { .. } => operator(places::AWIDTHSHOW),
        ShowForm::Kshow { .. } => operator(places::KSHOW),
        ShowForm::Stringwidth { .. } => operator(places::STRINGWIDTH),
    }
}

fn image_operator(samples: &Samples) -> Object
    ensures { result ≡ operator (spec.image_operator samples.now) }
{
    match samples {
        Samples::Gray { .. } => operator(places::IMAGE),
        Samples::Mask { .. } => operator(places::IMAGEMASK),
    }
}

/// The operator that began the frame.
pub(crate) fn begun_by(frame: &Frame) -> Object
    ensures { result ≡ spec.begun_by frame.now }
{
    match frame {
        Frame::Proc { .. } => operator(places::EXEC),
        Frame::Text { .. } => operator(places::EXEC),
        Frame::For { .. } => operator(places::FOR),
        Frame::Repeat { .. } => operator(places::REPEAT),
        Frame::Loop { .. } => operator(places::LOOP),
        Frame::Items { .. } => operator(places::FORALL),
        Frame::Bytes { .. } => operator(places::FORALL),
        Frame::Pairs { .. } => operator(places::FORALL),
        Frame::Stopped => operator(places::STOPPED),
        Frame::Show(run) => show_operator(&run.as_ref().form),
        Frame::Image(run) => image_operator(&run.as_ref().samples),
        Frame::Walk(_) => operator(places::PATHFORALL),
    }
}
