//! The operators of this crate by their places in the list of operators.
ghost use Rattle.std.specs.Prelude.{◌≡◌, true};
ghost use Rattle.ps_meaning.specs.Ready.{Ready, ReadyIn};
ghost use Rattle.ps_operator.specs.Owes.{Does, Runs};
ghost use Rattle.save_restore.specs.Operators as spec;

use crate::modes::{currentglobal, realtime, setglobal, usertime, vmreclaim, vmstatus};
use crate::restoring::restore;
use crate::saving::save;
use ps_kinds::{Act, NoMemory, Op, Refusal, State};
use ps_names::places;
use ps_operator::{Mem, told, told_done};

/// Whether an operator is one of this crate.
pub fn belongs(op: Op, _state: &State) -> bool
    ensures { result ≡ spec.belongs op }
{
    places::SAVE <= op.index() && op.index() <= places::USERTIME
}

/// The operators whose act is always that they are done.
fn run_done<M: Mem>(op: Op, state: &mut State, mem: &mut M) -> Result<(), Refusal>
    requires belongs { spec.is_plain op ≡ true }
    requires ready { Ready state.old (M.log mem.old).view }
    ensures { Does (spec.run op) state.old (M.log mem.old) result state.new (M.log mem.new) }
{
    match op.index() {
        places::SAVE => save(state, mem),
        places::SETGLOBAL => setglobal(state),
        places::CURRENTGLOBAL => currentglobal(state),
        places::VMSTATUS => vmstatus(state),
        places::VMRECLAIM => vmreclaim(state),
        places::REALTIME => realtime(state),
        places::USERTIME => usertime(state),
        _ => unreachable!(),
    }
}

/// Runs an operator of this crate. A refusal is told as `Act::Fail`, and a restore of a save that the memory's run didn't open as
/// `Act::Outer`: neither changes anything.
#[tactic(auto, using(ps_operator::proofs::Then::told_done_gives, ps_operator::proofs::Then::told_gives))]
pub fn run<M: Mem>(op: Op, text: &[u8], state: &mut State, mem: &mut M) -> Result<Act, NoMemory>
    requires belongs { spec.belongs op ≡ true }
    requires ready { ReadyIn text.now state.old (M.log mem.old).view }
    ensures { Runs (spec.run op) state.old (M.log mem.old) result state.new (M.log mem.new) }
{
    let _text = text;
    match op.index() {
        places::RESTORE => told(restore(state, mem)),
        _ => told_done(run_done(op, state, mem)),
    }
}
