//! The run of the machine to its end.
ghost use Rattle.std.specs.Prelude.{◌≡◌, ◌≤◌, true, IfOk, OnOk, OnErr, None};
ghost use Rattle.ps_execution.specs.Lawful.{SoundAt};
ghost use Rattle.ps_execution.specs.Machine.{goes};
ghost use Rattle.ps_steps.specs.Next.{is_step, move_of};
ghost use Rattle.out_writers.specs.Faults.{HasRisen};
ghost use Rattle.ps_machine.specs.Refusals.{IsFault};
ghost use Rattle.ps_machine.specs.Runs.{told, given, stepped, is_quiet, Advances, whole_of, Since, Ends, IsSoundEnd};
ghost use Rattle.ps_machine.specs.Lines as lines;
ghost use Rattle.ps_machine.specs.Lines.{messages_of};

use crate::RunRefusal;
use crate::giving::{last_after, say, show};
use out_writers::Outlet;
use ps_kinds::{SaveName, State};
use ps_steps::{Next, Operators, Outcome, step};
use std::alloc::Global;
use vm_mem::Mem;

/// Where a run stopped.
#[derive(Clone, Copy, Debug, PartialEq, Eq)]
pub enum Halt {
    /// At its end, with the last byte that it said.
    Ended { outcome: Outcome, last: Option<u8> },

    /// At the restore of a save that was made before the run.
    Outer { save: SaveName },
}

/// Makes a step, and gives out what it leaves to be given.
#[tactic(auto, using(crate::proofs::Advancing::came_quiet, crate::proofs::Advancing::came_said, crate::proofs::Advancing::came_shown, crate::proofs::Advancing::last_quiet, crate::proofs::Advancing::last_outer, crate::proofs::Advancing::last_said, crate::proofs::Advancing::last_shown))]
fn advance<M: Mem, O: Outlet, T: Operators<M>>(
    alloc: Global,
    next: Next,
    text: &[u8],
    state: &mut State,
    mem: &mut M,
    last: &mut Option<u8>,
    out: &mut O,
) -> Result<Next, RunRefusal>
    requires sound { SoundAt text.now (move_of next state.old) (M.log mem.old).view }
    requires is_step { is_step next ≡ true }
    ensures counted { O.faults out.old ≤ O.faults out.new }
    ensures failed { IsFault result → HasRisen (O.faults out.old) (O.faults out.new) }
    ensures quiet { IfOk result is_quiet }
    ensures comes { Advances (stepped T.table text.now next state.old (M.log mem.old))
        result state.new (M.log mem.new) }
    ensures since { OnOk result (Since O.since out.new out.old
        (given (stepped T.table text.now next state.old (M.log mem.old)))) }
    ensures cut { OnErr result (Since O.cut out.new out.old
        (given (stepped T.table text.now next state.old (M.log mem.old)))) }
    ensures last { OnOk result (last.new ≡ lines.last_after last.old
        (messages_of (given (stepped T.table text.now next state.old (M.log mem.old))))) }
{
    let next = step::<M, T>(alloc, next, text, state, mem)?;
    match next {
        Next::Says(message) => {
            say(&message, out)?;
            *last = last_after(*last, &message);
            Ok(Next::Goes)
        }
        Next::Shows { wipe } => {
            show(wipe, state, mem, out)?;
            Ok(Next::Goes)
        }
        Next::Goes => Ok(Next::Goes),
        Next::Raised { error, object } => Ok(Next::Raised { error, object }),
        Next::Ended { outcome } => Ok(Next::Ended { outcome }),
        Next::Outer { save } => Ok(Next::Outer { save }),
    }
}

/// Whether a step can be made.
fn is_step(next: &Next) -> bool
    ensures { result ≡ is_step next.now }
{
    match next {
        Next::Goes | Next::Raised { .. } => true,
        Next::Says(_) | Next::Shows { .. } | Next::Ended { .. } | Next::Outer { .. } => false,
    }
}

/// Runs from a state on to its end, or to the first outer restore, and gives pages and messages out.
pub fn run<M: Mem, O: Outlet, T: Operators<M>>(
    alloc: Global,
    text: &[u8],
    state: &mut State,
    mem: &mut M,
    out: &mut O,
) -> Result<Halt, RunRefusal>
    requires { SoundAt text.now (goes state.old) (M.log mem.old).view }
    ensures counted { O.faults out.old ≤ O.faults out.new }
    ensures failed { IsFault result → HasRisen (O.faults out.old) (O.faults out.new) }
    ensures ends { Ends O.since (whole_of T.table text.now state.old) (M.log mem.old)
        result state.new (M.log mem.new) out.new out.old }
    ensures sound { IsSoundEnd result state.new (M.log mem.new).view }
    ensures cut { OnErr result (Since O.cut out.new out.old
        (told (whole_of T.table text.now state.old) (M.log mem.old).view)) }
{
    let mut next = Next::Goes;
    let mut last = None;
    while is_step(&next) {
        next = advance::<M, O, T>(alloc, next, text, state, mem, &mut last, out)?;
    }
    match next {
        Next::Ended { outcome } => Ok(Halt::Ended { outcome, last }),
        Next::Outer { save } => Ok(Halt::Outer { save }),
        _ => unreachable!(),
    }
}
