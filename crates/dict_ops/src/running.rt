//! The operators of this crate by their places in the list of operators.
ghost use Rattle.std.specs.Prelude.{◌≡◌, true};
ghost use Rattle.ps_meaning.specs.Ready.{Ready, ReadyIn};
ghost use Rattle.ps_operator.specs.Owes.{Does, Runs};
ghost use Rattle.dict_ops.specs.Operators as spec;

use crate::copies::copy;
use crate::dict_stack::{
    begin, cleardictstack, countdictstack, currentdict, def, dictstack, end, load, store, where_,
};
use crate::entries::{dict, get, known, length, maxlength, put, undef};
use crate::pairs::pairs_dict;
use ps_kinds::{Act, NoMemory, Objects, Op, Operands, Refusal, State};
use ps_names::places;
use ps_operator::{Mem, told_done};

/// Whether an operator is one of this crate, on whatever operands.
pub fn offers(op: Op) -> bool
    ensures { result ≡ spec.is_offered op }
{
    places::DICT <= op.index() && op.index() <= places::DICTSTACK
}

fn is_dict_at(depth: usize, operands: &Objects) -> bool
    ensures { result ≡ spec.is_dict_at depth operands.now }
{
    operands.dict(depth).is_ok()
}

/// Whether the container of an operator on several types of containers is a dictionary.
fn is_on_dict(op: Op, operands: &Objects) -> bool
    ensures { result ≡ spec.is_on_dict op operands.now }
{
    match op.index() {
        places::LENGTH | places::COPY => is_dict_at(0, operands),
        places::GET => is_dict_at(1, operands),
        places::PUT => is_dict_at(2, operands),
        _ => true,
    }
}

/// Whether an operator is one of this crate: `length`, `get`, `put` and `copy` are where their container is a dictionary.
pub fn belongs(op: Op, state: &State) -> bool
    ensures { result ≡ spec.belongs op state.now }
{
    offers(op) && is_on_dict(op, &state.regs.operands)
}

fn run_done<M: Mem>(op: Op, state: &mut State, mem: &mut M) -> Result<(), Refusal>
    requires offered { spec.is_offered op ≡ true }
    requires ready { Ready state.old (M.log mem.old).view }
    ensures { Does (spec.run op) state.old (M.log mem.old) result state.new (M.log mem.new) }
{
    match op.index() {
        places::DICT => dict(state, mem),
        places::RIGHT_ANGLES => pairs_dict(state, mem),
        places::LENGTH => length(state, mem),
        places::MAXLENGTH => maxlength(state, mem),
        places::GET => get(state, mem),
        places::PUT => put(state, mem),
        places::COPY => copy(state, mem),
        places::BEGIN => begin(state, mem),
        places::END => end(state),
        places::DEF => def(state, mem),
        places::LOAD => load(state, mem),
        places::STORE => store(state, mem),
        places::KNOWN => known(state, mem),
        places::WHERE => where_(state, mem),
        places::UNDEF => undef(state, mem),
        places::CURRENTDICT => currentdict(state),
        places::COUNTDICTSTACK => countdictstack(state),
        places::CLEARDICTSTACK => cleardictstack(state),
        places::DICTSTACK => dictstack(state, mem),
        _ => unreachable!(),
    }
}

/// Runs an operator of this crate. A refusal is told as `Act::Fail`, and changes nothing. What is no dictionary is refused.
#[tactic(auto, using(ps_operator::proofs::Then::told_done_gives))]
pub fn run<M: Mem>(op: Op, text: &[u8], state: &mut State, mem: &mut M) -> Result<Act, NoMemory>
    requires offered { spec.is_offered op ≡ true }
    requires ready { ReadyIn text.now state.old (M.log mem.old).view }
    ensures { Runs (spec.run op) state.old (M.log mem.old) result state.new (M.log mem.new) }
{
    let _text = text;
    told_done(run_done(op, state, mem))
}
