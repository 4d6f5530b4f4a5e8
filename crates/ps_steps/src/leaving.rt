//! Leaving frames.
ghost use Rattle.std.specs.Prelude.{◌≡◌, OnOk, true};
ghost use Rattle.ps_objects.specs.declared.object.Kind.TheVariants as kind;
ghost use Rattle.ps_meaning.specs.Start.{literal};
ghost use Rattle.ps_execution.specs.Execution.{leave};
ghost use Rattle.ps_execution.specs.Objects.{pushed};
ghost use Rattle.ps_execution.specs.Machine.{unwound};
ghost use Rattle.vm_mem.specs.Conditions.{page_is_here};
ghost use Rattle.ps_steps.specs.Next.{program, outcome_at, Makes};
ghost use Rattle.ps_steps.specs.Leaving.{Takes};

use crate::frames::is_loop;
use crate::{Next, Operators, Outcome};
use ps_kinds::{Access, Frame, Kind, NoMemory, Object, State};
use vm_mem::Mem;

fn push_true(state: &mut State) -> Result<(), NoMemory>
    ensures { OnOk result (state.new ≡ pushed (literal (kind.Boolean true)) state.old) }
{
    state.regs.operands.push(Object {
        kind: Kind::Boolean(true),
        exec: false,
        access: Access::Unlimited,
    })?;
    Ok(())
}

/// Whether a frame, which stood on the state's frames, takes an exit or a stop.
#[tactic(auto, using(crate::proofs::Logs::left_here, crate::proofs::Throws::show_left))]
fn takes<M: Mem, T: Operators<M>>(
    frame: &Frame,
    stop: bool,
    text: &[u8],
    state: &mut State,
    mem: &mut M,
) -> Result<bool, NoMemory>
    requires { page_is_here (M.log mem.old).view ≡ true }
    ensures left { Takes (leave (program T.table text.now) frame.now (outcome_at stop) state.old)
        stop (M.log mem.old) result state.new (M.log mem.new) }
    ensures here { OnOk result (page_is_here (M.log mem.new).view ≡ true) }
{
    if !stop {
        return Ok(is_loop(frame));
    }
    match frame {
        Frame::Stopped => {
            push_true(state)?;
            Ok(true)
        }
        Frame::Show(run) => {
            T::leave(run.as_ref(), state, mem)?;
            Ok(false)
        }
        _ => Ok(false),
    }
}

/// Lets a frame go.
fn discard(_: Frame) {}

/// Leaves frames by an exit or a stop, up to one that takes it.
pub(crate) fn throw<M: Mem, T: Operators<M>>(
    stop: bool,
    text: &[u8],
    state: &mut State,
    mem: &mut M,
) -> Result<Next, NoMemory>
    requires { page_is_here (M.log mem.old).view ≡ true }
    ensures { Makes (unwound (program T.table text.now) state.old.frames (outcome_at stop)
        state.old) (M.log mem.old) result state.new (M.log mem.new) }
{
    while let Some(frame) = state.frames.pop() {
        let taken = takes::<M, T>(&frame, stop, text, state, mem);
        discard(frame);
        if taken? {
            return Ok(Next::Goes);
        }
    }
    Ok(Next::Ended {
        outcome: if stop { Outcome::Stop } else { Outcome::Exit },
    })
}
