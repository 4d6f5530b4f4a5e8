//! The operators of this crate by their places in the list of operators.
ghost use Rattle.std.specs.Prelude.{◌≡◌, true};
ghost use Rattle.ps_meaning.specs.Ready.{Ready, ReadyIn};
ghost use Rattle.ps_operator.specs.Owes.{Acts, Does, Runs};
ghost use Rattle.text_ops.specs.Operators as spec;

use crate::conversions::{cvi, cvn, cvr, cvrs, cvs};
use crate::listing::{pstack, stack, two_equals_signs};
use crate::messages::{equals_sign, print};
use crate::strings::{anchorsearch, search, string};
use ps_kinds::{Act, NoMemory, Op, Refusal, State};
use ps_names::places;
use ps_operator::{Mem, told, told_done};

/// Whether an operator is one of this crate.
pub fn belongs(op: Op, _state: &State) -> bool
    ensures { result ≡ spec.belongs op }
{
    places::STRING <= op.index() && op.index() <= places::PSTACK
}

/// The operators that leave no message.
fn run_done<M: Mem>(op: Op, state: &mut State, mem: &mut M) -> Result<(), Refusal>
    requires belongs { spec.is_silent op ≡ true }
    requires ready { Ready state.old (M.log mem.old).view }
    ensures { Does (spec.run op) state.old (M.log mem.old) result state.new (M.log mem.new) }
{
    match op.index() {
        places::STRING => string(state, mem),
        places::SEARCH => search(state, mem),
        places::ANCHORSEARCH => anchorsearch(state, mem),
        places::CVS => cvs(state, mem),
        places::CVRS => cvrs(state, mem),
        places::CVN => cvn(state, mem),
        places::CVI => cvi(state, mem),
        places::CVR => cvr(state, mem),
        _ => unreachable!(),
    }
}

/// The operators that leave one.
fn run_said<M: Mem>(op: Op, state: &mut State, mem: &mut M) -> Result<Act, Refusal>
    requires belongs { spec.is_loud op ≡ true }
    requires ready { Ready state.old (M.log mem.old).view }
    ensures { Acts (spec.run op) state.old (M.log mem.old) result state.new (M.log mem.new) }
{
    match op.index() {
        places::PRINT => print(state, mem),
        places::EQUALS_SIGN => equals_sign(state, mem),
        places::TWO_EQUALS_SIGNS => two_equals_signs(state, mem),
        places::STACK => stack(state, mem),
        places::PSTACK => pstack(state, mem),
        _ => unreachable!(),
    }
}

/// Runs an operator of this crate. A refusal is told as `Act::Fail`, and changes nothing.
#[tactic(auto, using(ps_operator::proofs::Then::told_done_gives, ps_operator::proofs::Then::told_gives))]
pub fn run<M: Mem>(op: Op, text: &[u8], state: &mut State, mem: &mut M) -> Result<Act, NoMemory>
    requires belongs { spec.belongs op ≡ true }
    requires ready { ReadyIn text.now state.old (M.log mem.old).view }
    ensures { Runs (spec.run op) state.old (M.log mem.old) result state.new (M.log mem.new) }
{
    let _text = text;
    if op.index() < places::PRINT {
        told_done(run_done(op, state, mem))
    } else {
        told(run_said(op, state, mem))
    }
}
