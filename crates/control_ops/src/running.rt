//! The operators of this crate by their places in the list of operators, and the steps of its frames.
ghost use Rattle.std.specs.Prelude.{◌≡◌, true};
ghost use Rattle.ps_meaning.specs.Ready.{Ready, ReadyIn};
ghost use Rattle.ps_operator.specs.Owes.{Acts, Runs, Steps, RunsStep};
ghost use Rattle.control_ops.specs.Operators as spec;
ghost use Rattle.control_ops.specs.Rounds as rounds;

use crate::executing::{exec, if_, ifelse, stopped};
use crate::leaving::{exit, quit, stop};
use crate::loops::{for_, loop_, repeat};
use crate::rounds::{
    byte_step, for_step, item_step, loop_step, pair_step, repeat_step, stopped_step,
};
use crate::walking::forall;
use ps_kinds::{Act, Frame, NoMemory, Op, Refusal, State};
use ps_names::places;
use ps_operator::{Mem, told};

/// Whether an operator is one of this crate.
pub fn belongs(op: Op, _state: &State) -> bool
    ensures { result ≡ spec.belongs op }
{
    places::EXEC <= op.index() && op.index() <= places::STOPPED
}

fn run_act<M: Mem>(op: Op, state: &mut State, mem: &mut M) -> Result<Act, Refusal>
    requires belongs { spec.belongs op ≡ true }
    requires ready { Ready state.old (M.log mem.old).view }
    ensures { Acts (spec.run op) state.old (M.log mem.old) result state.new (M.log mem.new) }
{
    match op.index() {
        places::EXEC => exec(state, mem),
        places::IF => if_(state),
        places::IFELSE => ifelse(state),
        places::FOR => for_(state),
        places::REPEAT => repeat(state),
        places::LOOP => loop_(state),
        places::FORALL => forall(state, mem),
        places::EXIT => exit(state),
        places::STOP => stop(state),
        places::QUIT => quit(state),
        places::STOPPED => stopped(state, mem),
        _ => unreachable!(),
    }
}

/// Runs an operator of this crate. A refusal is told as `Act::Fail`, and changes nothing.
#[tactic(auto, using(ps_operator::proofs::Then::told_gives))]
pub fn run<M: Mem>(op: Op, text: &[u8], state: &mut State, mem: &mut M) -> Result<Act, NoMemory>
    requires belongs { spec.belongs op ≡ true }
    requires ready { ReadyIn text.now state.old (M.log mem.old).view }
    ensures { Runs (spec.run op) state.old (M.log mem.old) result state.new (M.log mem.new) }
{
    let _text = text;
    told(run_act(op, state, mem))
}

/// Whether a frame is one of this crate: that of a loop, of a walk over an array, a string or a dictionary, or of `stopped`.
pub fn walks(frame: &Frame) -> bool
    ensures { result ≡ rounds.walks frame.now }
{
    match frame {
        Frame::Proc { .. } => false,
        Frame::Text { .. } => false,
        Frame::For { .. } => true,
        Frame::Repeat { .. } => true,
        Frame::Loop { .. } => true,
        Frame::Items { .. } => true,
        Frame::Bytes { .. } => true,
        Frame::Pairs { .. } => true,
        Frame::Stopped => true,
        Frame::Show(_) => false,
        Frame::Image(_) => false,
        Frame::Walk(_) => false,
    }
}

#[tactic(auto, using(crate::proofs::Stepping::array_here, crate::proofs::Stepping::string_here))]
fn step_act<M: Mem>(state: &mut State, mem: &mut M) -> Result<Act, Refusal>
    requires walks { rounds.walks_in state.old.frames ≡ true }
    requires ready { Ready state.old (M.log mem.old).view }
    ensures { Steps rounds.newest_step state.old (M.log mem.old)
        result state.new (M.log mem.new) }
{
    match state.frames.pop() {
        Some(
            Frame::For {
                body,
                next,
                increment,
                limit,
                whole,
            },
        ) => for_step(body, next, increment, limit, whole, state),
        Some(Frame::Repeat { body, left }) => repeat_step(body, left, state),
        Some(Frame::Loop { body }) => loop_step(body, state),
        Some(Frame::Items { array, at, body }) => item_step(array, at, body, state, mem),
        Some(Frame::Bytes { string, at, body }) => byte_step(string, at, body, state, mem),
        Some(Frame::Pairs { pairs, at, body }) => pair_step(pairs, at, body, state),
        Some(Frame::Stopped) => stopped_step(state),
        _ => unreachable!(),
    }
}

/// Does one step of the newest frame, which is one of this crate. A refusal is told as `Act::Fail`, and changes nothing.
#[tactic(auto, using(crate::proofs::Stepping::told_steps))]
pub fn step<M: Mem>(text: &[u8], state: &mut State, mem: &mut M) -> Result<Act, NoMemory>
    requires walks { rounds.walks_in state.old.frames ≡ true }
    requires ready { ReadyIn text.now state.old (M.log mem.old).view }
    ensures { RunsStep rounds.newest_step state.old (M.log mem.old)
        result state.new (M.log mem.new) }
{
    let _text = text;
    told(step_act(state, mem))
}
