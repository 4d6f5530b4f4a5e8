//! The operators of this crate by their places in the list of operators.
ghost use Rattle.std.specs.Prelude.{◌≡◌, true};
ghost use Rattle.ps_meaning.specs.Ready.{Ready, ReadyIn};
ghost use Rattle.ps_operator.specs.Owes.{Does, Runs};
ghost use Rattle.array_ops.specs.Operators as spec;

use crate::copies::copy;
use crate::intervals::{getinterval, putinterval};
use crate::making::{array, currentpacking, packedarray, right_bracket, setpacking};
use crate::members::{get, put, size};
use crate::spreading::{aload, astore};
use ps_kinds::{Act, NoMemory, Objects, Op, Operands, Refusal, State};
use ps_names::places;
use ps_operator::{Mem, told_done};

/// Whether an operator is one on dictionaries, too.
fn is_shared(op: Op) -> bool
    ensures { result ≡ spec.is_shared op }
{
    let place = op.index();
    place == places::LENGTH || place == places::GET || place == places::PUT || place == places::COPY
}

/// Whether an operator is one of this crate, on whatever operands.
pub fn offers(op: Op) -> bool
    ensures { result ≡ spec.is_offered op }
{
    places::ARRAY <= op.index() && op.index() <= places::ASTORE || is_shared(op)
}

fn is_dict_at(depth: usize, operands: &Objects) -> bool
    ensures { result ≡ spec.is_dict_at depth operands.now }
{
    operands.dict(depth).is_ok()
}

/// Whether the container of an operator on several types of containers is a dictionary.
fn is_on_dict(op: Op, operands: &Objects) -> bool
    ensures { result ≡ spec.is_on_dict op operands.now }
{
    match op.index() {
        places::LENGTH | places::COPY => is_dict_at(0, operands),
        places::GET => is_dict_at(1, operands),
        places::PUT => is_dict_at(2, operands),
        _ => false,
    }
}

/// Whether an operator is one of this crate: `length`, `get`, `put` and `copy` are where their container is no dictionary.
pub fn belongs(op: Op, state: &State) -> bool
    ensures { result ≡ spec.belongs op state.now }
{
    offers(op) && !is_on_dict(op, &state.regs.operands)
}

fn run_done<M: Mem>(op: Op, state: &mut State, mem: &mut M) -> Result<(), Refusal>
    requires offered { spec.is_offered op ≡ true }
    requires ready { Ready state.old (M.log mem.old).view }
    ensures { Does (spec.run op) state.old (M.log mem.old) result state.new (M.log mem.new) }
{
    match op.index() {
        places::ARRAY => array(state, mem),
        places::RIGHT_BRACKET => right_bracket(state, mem),
        places::PACKEDARRAY => packedarray(state, mem),
        places::SETPACKING => setpacking(state),
        places::CURRENTPACKING => currentpacking(state),
        places::LENGTH => size(state),
        places::GET => get(state, mem),
        places::PUT => put(state, mem),
        places::GETINTERVAL => getinterval(state, mem),
        places::PUTINTERVAL => putinterval(state, mem),
        places::COPY => copy(state, mem),
        places::ALOAD => aload(state, mem),
        places::ASTORE => astore(state, mem),
        _ => unreachable!(),
    }
}

/// Runs an operator of this crate. A refusal is told as `Act::Fail`, and changes nothing. A dictionary is refused.
#[tactic(auto, using(ps_operator::proofs::Then::told_done_gives))]
pub fn run<M: Mem>(op: Op, text: &[u8], state: &mut State, mem: &mut M) -> Result<Act, NoMemory>
    requires offered { spec.is_offered op ≡ true }
    requires ready { ReadyIn text.now state.old (M.log mem.old).view }
    ensures { Runs (spec.run op) state.old (M.log mem.old) result state.new (M.log mem.new) }
{
    let _text = text;
    told_done(run_done(op, state, mem))
}
