//! The operators of this crate by their places in the list of operators.
ghost use Rattle.std.specs.Prelude.{◌≡◌, true};
ghost use Rattle.ps_meaning.specs.Ready.{ReadyIn};
ghost use Rattle.ps_operator.specs.Owes.{Does, Runs};
ghost use Rattle.file_ops.specs.Operators as spec;

use crate::files::{bytesavailable, currentfile, flush, read, status, to_end};
use crate::reading::{readhexstring, readline, readstring};
use crate::tokens::token;
use ps_kinds::{Act, NoMemory, Op, Refusal, State};
use ps_names::places;
use ps_operator::{Mem, told_done};

/// Whether an operator is one of this crate.
pub fn belongs(op: Op, _state: &State) -> bool
    ensures { result ≡ spec.belongs op }
{
    places::CURRENTFILE <= op.index() && op.index() <= places::FLUSH
}

fn run_done<M: Mem>(op: Op, text: &[u8], state: &mut State, mem: &mut M) -> Result<(), Refusal>
    requires belongs { spec.belongs op ≡ true }
    requires ready { ReadyIn text.now state.old (M.log mem.old).view }
    ensures { Does (spec.run op text.now)
        state.old (M.log mem.old) result state.new (M.log mem.new) }
{
    match op.index() {
        places::CURRENTFILE => currentfile(state),
        places::STATUS => status(state),
        places::BYTESAVAILABLE => bytesavailable(text, state),
        places::READ => read(text, state),
        places::READSTRING => readstring(text, state, mem),
        places::READHEXSTRING => readhexstring(text, state, mem),
        places::READLINE => readline(text, state, mem),
        places::TOKEN => token(text, state, mem),
        places::CLOSEFILE => to_end(text, state),
        places::FLUSHFILE => to_end(text, state),
        places::FLUSH => flush(state),
        _ => unreachable!(),
    }
}

/// Runs an operator of this crate in a section of this text. A refusal is told as `Act::Fail`, and changes nothing.
#[tactic(auto, using(ps_operator::proofs::Then::told_done_gives))]
pub fn run<M: Mem>(op: Op, text: &[u8], state: &mut State, mem: &mut M) -> Result<Act, NoMemory>
    requires belongs { spec.belongs op ≡ true }
    requires ready { ReadyIn text.now state.old (M.log mem.old).view }
    ensures { Runs (spec.run op text.now)
        state.old (M.log mem.old) result state.new (M.log mem.new) }
{
    told_done(run_done(op, text, state, mem))
}
