//! Operators that leave what runs (section 8.2 of the language manual).
ghost use Rattle.std.specs.Prelude.{◌≡◌};
ghost use Rattle.ps_execution.specs.Frames.{way, is_loop, show_way, is_kshow};
ghost use Rattle.ps_operator.specs.Owes.{ActsAlone};
ghost use Rattle.ps_operator.specs.Registers.{any_of};
ghost use Rattle.control_ops.specs.Leaving as spec;

use ps_kinds::{Act, ErrorName, Frame, Frames, Operands, Refusal, ShowForm, ShowPhase, State};

fn is_kshow(form: &ShowForm) -> bool
    ensures { result ≡ is_kshow form.now }
{
    match form {
        ShowForm::Show => false,
        ShowForm::Ashow { .. } => false,
        ShowForm::Widthshow { .. } => false,
        ShowForm::Awidthshow { .. } => false,
        ShowForm::Kshow { .. } => true,
        ShowForm::Stringwidth { .. } => false,
    }
}

fn show_is_loop(form: &ShowForm, phase: &ShowPhase) -> bool
    ensures { result ≡ is_loop (show_way form.now phase.now) }
{
    match phase {
        ShowPhase::Before => is_kshow(form),
        ShowPhase::Running(_) => false,
        ShowPhase::Between => is_kshow(form),
    }
}

fn show_is_barrier(form: &ShowForm, phase: &ShowPhase) -> bool
    ensures { result ≡ spec.is_barrier (show_way form.now phase.now) }
{
    match phase {
        ShowPhase::Before => !is_kshow(form),
        ShowPhase::Running(_) => true,
        ShowPhase::Between => !is_kshow(form),
    }
}

/// Whether an exit leaves a frame.
fn is_loop(frame: &Frame) -> bool
    ensures { result ≡ is_loop (way frame.now) }
{
    match frame {
        Frame::Proc { .. } => false,
        Frame::Text { .. } => false,
        Frame::For { .. } => true,
        Frame::Repeat { .. } => true,
        Frame::Loop { .. } => true,
        Frame::Items { .. } => true,
        Frame::Bytes { .. } => true,
        Frame::Pairs { .. } => true,
        Frame::Stopped => false,
        Frame::Show(run) => {
            let run = run.as_ref();
            show_is_loop(&run.form, &run.phase)
        }
        Frame::Image(_) => false,
        Frame::Walk(_) => true,
    }
}

/// Whether an exit may not pass a frame.
fn is_barrier(frame: &Frame) -> bool
    ensures { result ≡ spec.is_barrier (way frame.now) }
{
    match frame {
        Frame::Proc { .. } => false,
        Frame::Text { .. } => false,
        Frame::For { .. } => false,
        Frame::Repeat { .. } => false,
        Frame::Loop { .. } => false,
        Frame::Items { .. } => false,
        Frame::Bytes { .. } => false,
        Frame::Pairs { .. } => false,
        Frame::Stopped => true,
        Frame::Show(run) => {
            let run = run.as_ref();
            show_is_barrier(&run.form, &run.phase)
        }
        Frame::Image(_) => true,
        Frame::Walk(_) => false,
    }
}

/// Whether an exit comes to a loop before it comes to a frame that it may not pass: invalidexit.
#[tactic(auto, using(crate::proofs::Exits::exit_hit, crate::proofs::Exits::exit_barred, crate::proofs::Exits::exit_passed))]
fn exit_right(frames: &Frames) -> Result<(), ErrorName>
    ensures { result ≡ spec.exit_right frames.now }
{
    for depth in 0..frames.len() {
        let frame = frames.at(depth);
        if is_loop(frame) {
            return Ok(());
        }
        if is_barrier(frame) {
            return Err(ErrorName::InvalidExit);
        }
    }
    Err(ErrorName::InvalidExit)
}

pub(crate) fn exit(state: &State) -> Result<Act, Refusal>
    ensures { ActsAlone spec.exit state.now result state.now }
{
    exit_right(&state.frames)?;
    Ok(Act::Exit)
}

fn is_stopped(frame: &Frame) -> bool
    ensures { result ≡ spec.is_stopped frame.now }
{
    matches!(frame, Frame::Stopped)
}

/// Whether one of these frames is that of a `stopped`.
#[tactic(auto, using(ps_operator::proofs::StoreSteps::any_hit, ps_operator::proofs::StoreSteps::any_miss))]
fn any_stopped(frames: &Frames) -> bool
    ensures { result ≡ any_of spec.is_stopped frames.now }
{
    for depth in 0..frames.len() {
        if is_stopped(frames.at(depth)) {
            return true;
        }
    }
    false
}

/// Whether there is room for what a `stopped` pushes: stackoverflow.
fn stop_room(state: &State) -> Result<(), ErrorName>
    ensures { result ≡ spec.stop_room state.now }
{
    if any_stopped(&state.frames) {
        state.regs.operands.room(1)
    } else {
        Ok(())
    }
}

pub(crate) fn stop(state: &State) -> Result<Act, Refusal>
    ensures { ActsAlone spec.stop state.now result state.now }
{
    stop_room(state)?;
    Ok(Act::Stop)
}

pub(crate) fn quit(state: &State) -> Result<Act, Refusal>
    ensures { ActsAlone spec.quit state.now result state.now }
{
    let _state = state;
    Ok(Act::Quit)
}
