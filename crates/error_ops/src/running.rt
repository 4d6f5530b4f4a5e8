//! The operators of this crate by their places in the list of operators.
ghost use Rattle.std.specs.Prelude.{◌≡◌, true};
ghost use Rattle.ps_names.specs.Op.{default_entry};
ghost use Rattle.ps_meaning.specs.Ready.{Ready, ReadyIn};
ghost use Rattle.ps_operator.specs.Owes.{Acts, Runs};
ghost use Rattle.error_ops.specs.Operators as spec;

use crate::recording::records;
use ps_kinds::{Act, ErrorName, NoMemory, Op, Refusal, State};
use ps_names::places::FIRST_DEFAULT_ENTRY;
use ps_operator::{Mem, told};

/// Whether an operator is one of this crate.
pub fn belongs(op: Op, _state: &State) -> bool
    ensures { result ≡ spec.belongs op }
{
    op.index() >= FIRST_DEFAULT_ENTRY
}

/// The error whose default entry an operator is.
fn error_of(op: Op) -> ErrorName
    requires { spec.belongs op ≡ true }
    ensures { default_entry result ≡ op }
{
    match op.index() - FIRST_DEFAULT_ENTRY {
        0 => ErrorName::DictStackOverflow,
        1 => ErrorName::DictStackUnderflow,
        2 => ErrorName::ExecStackOverflow,
        3 => ErrorName::InvalidAccess,
        4 => ErrorName::InvalidExit,
        5 => ErrorName::InvalidFont,
        6 => ErrorName::InvalidRestore,
        7 => ErrorName::IoError,
        8 => ErrorName::LimitCheck,
        9 => ErrorName::NoCurrentPoint,
        10 => ErrorName::RangeCheck,
        11 => ErrorName::StackOverflow,
        12 => ErrorName::StackUnderflow,
        13 => ErrorName::SyntaxError,
        14 => ErrorName::Timeout,
        15 => ErrorName::TypeCheck,
        16 => ErrorName::Undefined,
        17 => ErrorName::UndefinedResult,
        18 => ErrorName::UnmatchedMark,
        19 => ErrorName::VmError,
        _ => unreachable!(),
    }
}

/// Runs an operator of this crate: it records its error in `$error`, takes the command off the stack, and stops. A refusal is
/// told as `Act::Fail`, and changes nothing.
#[tactic(auto, using(ps_operator::proofs::Then::told_gives, crate::proofs::Entries::run_records))]
pub fn run<M: Mem>(op: Op, text: &[u8], state: &mut State, mem: &mut M) -> Result<Act, NoMemory>
    requires belongs { spec.belongs op ≡ true }
    requires ready { ReadyIn text.now state.old (M.log mem.old).view }
    ensures { Runs (spec.run op) state.old (M.log mem.old) result state.new (M.log mem.new) }
{
    let _text = text;
    told(records(error_of(op), state, mem))
}
