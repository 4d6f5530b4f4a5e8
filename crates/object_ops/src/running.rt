//! The operators of this crate by their places in the list of operators.
ghost use Rattle.std.specs.Prelude.{◌≡◌, true};
ghost use Rattle.ps_meaning.specs.Ready.{Ready, ReadyIn};
ghost use Rattle.ps_operator.specs.Owes.{Does, Runs};
ghost use Rattle.object_ops.specs.Operators as spec;

use crate::accesses::{executeonly, gcheck, noaccess, rcheck, readonly, wcheck};
use crate::attributes::{cvlit, cvx, type_, xcheck};
use crate::binding::bind;
use ps_kinds::{Act, NoMemory, Op, Refusal, State};
use ps_names::places;
use ps_operator::{Mem, told_done};

/// Whether an operator is one of this crate.
pub fn belongs(op: Op, _state: &State) -> bool
    ensures { result ≡ spec.belongs op }
{
    places::TYPE <= op.index() && op.index() <= places::BIND
}

fn run_done<M: Mem>(op: Op, state: &mut State, mem: &mut M) -> Result<(), Refusal>
    requires belongs { spec.belongs op ≡ true }
    requires ready { Ready state.old (M.log mem.old).view }
    ensures { Does (spec.run op) state.old (M.log mem.old) result state.new (M.log mem.new) }
{
    match op.index() {
        places::TYPE => type_(state),
        places::CVLIT => cvlit(state),
        places::CVX => cvx(state),
        places::XCHECK => xcheck(state),
        places::EXECUTEONLY => executeonly(state),
        places::READONLY => readonly(state, mem),
        places::NOACCESS => noaccess(state, mem),
        places::RCHECK => rcheck(state, mem),
        places::WCHECK => wcheck(state, mem),
        places::GCHECK => gcheck(state),
        places::BIND => bind(state, mem),
        _ => unreachable!(),
    }
}

/// Runs an operator of this crate. A refusal is told as `Act::Fail`, and changes nothing.
#[tactic(auto, using(ps_operator::proofs::Then::told_done_gives))]
pub fn run<M: Mem>(op: Op, text: &[u8], state: &mut State, mem: &mut M) -> Result<Act, NoMemory>
    requires belongs { spec.belongs op ≡ true }
    requires ready { ReadyIn text.now state.old (M.log mem.old).view }
    ensures { Runs (spec.run op) state.old (M.log mem.old) result state.new (M.log mem.new) }
{
    let _text = text;
    told_done(run_done(op, state, mem))
}
