//! Procedures.
ghost use Rattle.std.specs.Prelude.{◌≡◌, ◌-◌, ◌∷◌, Some};
ghost use Rattle.ps_kinds.specs.declared.frame.Frame.TheVariants as frame;
ghost use Rattle.ps_execution.specs.Execution.{on};
ghost use Rattle.ps_execution.specs.Machine.{move_item, move_procedure};
ghost use Rattle.ps_steps.specs.Next.{program, Makes};
ghost use Rattle.ps_reader.specs.Reading.{IsReady};
ghost use Rattle.ps_steps.specs.Procedures.{interval_of};

use crate::met::{Met, item};
use crate::turning::turn;
use crate::{Next, Operators};
use ps_kinds::{Frame, Interval, Kind, NoMemory, Object, State};
use std::alloc::Global;
use vm_mem::Mem;

fn interval_of(kind: &Kind) -> Option<Interval>
    ensures { result ≡ interval_of kind.now }
{
    match kind {
        Kind::Array { interval, .. } => Some(*interval),
        _ => None,
    }
}

/// Executes the next item of a procedure, whose frame was taken off; with the last the frame is gone.
#[tactic(auto, using(crate::proofs::Raises::page_here, crate::proofs::Bodies::array_here, crate::proofs::Bodies::item_fits_here, crate::proofs::Bodies::last_ready, crate::proofs::Bodies::rest_ready, crate::proofs::Bodies::no_item, crate::proofs::Bodies::last_item))]
fn take_item<M: Mem, T: Operators<M>>(
    alloc: Global,
    array: Interval,
    body: Object,
    at: u32,
    text: &[u8],
    state: &mut State,
    mem: &mut M,
) -> Result<Next, NoMemory>
    requires ready { IsReady 0 text.now (on (frame.Proc body at ∷ state.old.frames) state.old)
        (M.log mem.old).view }
    requires array { interval_of body.kind ≡ Some array }
    ensures { Makes (move_item (program T.table text.now) body array.cell array.start at
        (array.len - at) state.old) (M.log mem.old) result state.new (M.log mem.new) }
{
    if at >= array.len {
        return Ok(Next::Goes);
    }
    let met = item(array, at, mem)?;
    if array.len - at == 1 {
        return turn::<M, T>(alloc, met, text, state, mem);
    }
    state.frames.push(Frame::Proc { body, at: at + 1 })?;
    turn::<M, T>(alloc, met, text, state, mem)
}

/// The step of a procedure's frame, which was taken off.
#[tactic(auto, using(crate::proofs::Bodies::array_moves, crate::proofs::Bodies::alone_moves, crate::proofs::Bodies::below_ready, crate::proofs::Bodies::body_fits))]
pub(crate) fn procedure_step<M: Mem, T: Operators<M>>(
    alloc: Global,
    body: Object,
    at: u32,
    text: &[u8],
    state: &mut State,
    mem: &mut M,
) -> Result<Next, NoMemory>
    requires { IsReady 0 text.now (on (frame.Proc body at ∷ state.old.frames) state.old)
        (M.log mem.old).view }
    ensures { Makes (move_procedure (program T.table text.now) body body.kind at state.old)
        (M.log mem.old) result state.new (M.log mem.new) }
{
    match interval_of(&body.kind) {
        Some(array) => take_item::<M, T>(alloc, array, body, at, text, state, mem),
        None => turn::<M, T>(alloc, Met::Object(body), text, state, mem),
    }
}
