//! The operators of this crate by their places in the list of operators, and the steps of its frames.
ghost use Rattle.std.specs.Prelude.{◌≡◌, true};
ghost use Rattle.ps_meaning.specs.Ready.{Ready, ReadyIn};
ghost use Rattle.ps_operator.specs.Owes.{DoesAlone, Runs, StepsAlone, RunsStep};
ghost use Rattle.path_build.specs.Operators as spec;
ghost use Rattle.path_build.specs.Walks as walks;

use crate::arcs::{arc, arcn};
use crate::boxes::pathbbox;
use crate::building::{
    closepath, currentpoint, curveto, lineto, moveto, newpath, rcurveto, rlineto, rmoveto,
};
use crate::walking::{pathforall, walk_step};
use ps_kinds::{Act, Frame, NoMemory, Op, Refusal, State};
use ps_names::places;
use ps_operator::{Mem, told, told_done};

/// Whether an operator is one of this crate.
pub fn belongs(op: Op, _state: &State) -> bool
    ensures { result ≡ spec.belongs op }
{
    let place = op.index();
    places::NEWPATH <= place && place <= places::CLOSEPATH
        || places::PATHBBOX <= place && place <= places::PATHFORALL
}

fn run_done(op: Op, state: &mut State) -> Result<(), Refusal>
    requires { spec.ends_done op ≡ true }
    ensures { DoesAlone (spec.run op) state.old result state.new }
{
    match op.index() {
        places::NEWPATH => newpath(state),
        places::CURRENTPOINT => currentpoint(state),
        places::MOVETO => moveto(state),
        places::RMOVETO => rmoveto(state),
        places::LINETO => lineto(state),
        places::RLINETO => rlineto(state),
        places::CURVETO => curveto(state),
        places::RCURVETO => rcurveto(state),
        places::ARC => arc(state),
        places::ARCN => arcn(state),
        places::CLOSEPATH => closepath(state),
        places::PATHBBOX => pathbbox(state),
        _ => unreachable!(),
    }
}

/// Runs an operator of this crate. A refusal is told as `Act::Fail`, and changes nothing.
#[tactic(auto, using(ps_operator::proofs::Then::told_gives, ps_operator::proofs::Then::told_done_gives))]
pub fn run<M: Mem>(op: Op, text: &[u8], state: &mut State, mem: &mut M) -> Result<Act, NoMemory>
    requires belongs { spec.belongs op ≡ true }
    requires ready { ReadyIn text.now state.old (M.log mem.old).view }
    ensures { Runs (spec.run op) state.old (M.log mem.old) result state.new (M.log mem.new) }
{
    let _text = text;
    if op.index() == places::PATHFORALL {
        told(pathforall(state))
    } else {
        told_done(run_done(op, state))
    }
}

/// Whether a frame is one of this crate: that of a walk over a path.
pub fn walks(frame: &Frame) -> bool
    ensures { result ≡ walks.walks frame.now }
{
    match frame {
        Frame::Proc { .. } => false,
        Frame::Text { .. } => false,
        Frame::For { .. } => false,
        Frame::Repeat { .. } => false,
        Frame::Loop { .. } => false,
        Frame::Items { .. } => false,
        Frame::Bytes { .. } => false,
        Frame::Pairs { .. } => false,
        Frame::Stopped => false,
        Frame::Show(_) => false,
        Frame::Image(_) => false,
        Frame::Walk(_) => true,
    }
}

fn step_act(state: &mut State) -> Result<Act, Refusal>
    requires { walks.walks_in state.old.frames ≡ true }
    ensures { StepsAlone walks.newest_step state.old result state.new }
{
    match state.frames.pop() {
        Some(Frame::Walk(walk)) => walk_step(walk, state),
        _ => unreachable!(),
    }
}

/// Does one step of the newest frame, which is one of this crate. A refusal is told as `Act::Fail`, and changes nothing.
#[tactic(auto, using(crate::proofs::Stepping::told_steps))]
pub fn step<M: Mem>(text: &[u8], state: &mut State, mem: &mut M) -> Result<Act, NoMemory>
    requires walks { walks.walks_in state.old.frames ≡ true }
    requires ready { ReadyIn text.now state.old (M.log mem.old).view }
    ensures { RunsStep walks.newest_step state.old (M.log mem.old)
        result state.new (M.log mem.new) }
{
    let _text = text;
    told(step_act(state))
}
