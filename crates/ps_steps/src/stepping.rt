//! One step of the machine.
ghost use Rattle.std.specs.Prelude.{◌≡◌, ◌∷◌, true};
ghost use Rattle.ps_execution.specs.Execution.{on};
ghost use Rattle.ps_execution.specs.Lawful.{takes_steps, SoundAt};
ghost use Rattle.ps_execution.specs.Machine as spec;
ghost use Rattle.ps_steps.specs.Next.{program, move_of, is_step, Makes};
ghost use Rattle.ps_reader.specs.Reading.{IsReady};

use crate::frames::{begun_by, costs};
use crate::procedures::procedure_step;
use crate::raising::raise;
use crate::reading::{section_step, string_step};
use crate::walking::{free_step, paid_step};
use crate::{Next, Operators};
use ps_kinds::{Frame, NoMemory, State};
use std::alloc::Global;
use vm_mem::Mem;

/// A step of a loop, `stopped`, a walk, an image or a show, whose frame was taken off.
#[tactic(auto, using(crate::proofs::Moves::again))]
fn walk_step<M: Mem, T: Operators<M>>(
    frame: Frame,
    text: &[u8],
    state: &mut State,
    mem: &mut M,
) -> Result<Next, NoMemory>
    requires ready { IsReady 0 text.now (on (frame ∷ state.old.frames) state.old)
        (M.log mem.old).view }
    requires takes_steps { takes_steps frame ≡ true }
    ensures { Makes (spec.move_walk (program T.table text.now) frame state.old) (M.log mem.old)
        result state.new (M.log mem.new) }
{
    let costly = costs(&frame);
    let object = begun_by(&frame);
    state.frames.push(frame)?;
    if costly {
        paid_step::<M, T>(object, text, state, mem)
    } else {
        free_step::<M, T>(object, text, state, mem)
    }
}

/// A step of a frame, which was taken off.
fn frame_step<M: Mem, T: Operators<M>>(
    alloc: Global,
    frame: Frame,
    text: &[u8],
    state: &mut State,
    mem: &mut M,
) -> Result<Next, NoMemory>
    requires { IsReady 0 text.now (on (frame ∷ state.old.frames) state.old) (M.log mem.old).view }
    ensures { Makes (spec.move_frame (program T.table text.now) frame state.old) (M.log mem.old)
        result state.new (M.log mem.new) }
{
    match frame {
        Frame::Proc { body, at } => procedure_step::<M, T>(alloc, body, at, text, state, mem),
        Frame::Text {
            string,
            bytes,
            place,
        } => string_step::<M, T>(alloc, string, bytes, place, text, state, mem),
        other => walk_step::<M, T>(other, text, state, mem),
    }
}

/// A step of the newest frame, or of the section's text where none stands.
#[tactic(auto, using(crate::proofs::Moves::newest_ready, crate::proofs::Moves::newest_moves, crate::proofs::Moves::none_ready, crate::proofs::Moves::none_moves))]
fn next_step<M: Mem, T: Operators<M>>(
    alloc: Global,
    text: &[u8],
    state: &mut State,
    mem: &mut M,
) -> Result<Next, NoMemory>
    requires { IsReady 0 text.now state.old (M.log mem.old).view }
    ensures { Makes (spec.move_on (program T.table text.now) state.old.frames state.old)
        (M.log mem.old) result state.new (M.log mem.new) }
{
    match state.frames.pop() {
        Some(frame) => frame_step::<M, T>(alloc, frame, text, state, mem),
        None => section_step::<M, T>(alloc, text, state, mem),
    }
}

/// Makes one step. What it leaves to be given out comes before the next.
#[tactic(auto, using(crate::proofs::Moves::goes_ready, crate::proofs::Moves::raised_ready, crate::proofs::Moves::raised_fits))]
pub fn step<M: Mem, T: Operators<M>>(
    alloc: Global,
    next: Next,
    text: &[u8],
    state: &mut State,
    mem: &mut M,
) -> Result<Next, NoMemory>
    requires sound { SoundAt text.now (move_of next state.old) (M.log mem.old).view }
    requires is_step { is_step next ≡ true }
    ensures { Makes (spec.step (program T.table text.now) (move_of next state.old)) (M.log mem.old)
        result state.new (M.log mem.new) }
{
    match next {
        Next::Goes => next_step::<M, T>(alloc, text, state, mem),
        Next::Raised { error, object } => raise::<M, T>(alloc, error, object, text, state, mem),
        _ => unreachable!(),
    }
}
