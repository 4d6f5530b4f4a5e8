//! The operators of this crate by their places in the list of operators.
ghost use Rattle.std.specs.Prelude.{◌≡◌, true};
ghost use Rattle.ps_meaning.specs.Ready.{ReadyIn};
ghost use Rattle.ps_operator.specs.Owes.{Runs};
ghost use Rattle.clip_ops.specs.Operators as spec;

use crate::clips::{clip, eoclip, flattenpath, initclip};
use ps_kinds::{Act, NoMemory, Op, State};
use ps_names::places;
use ps_operator::{Mem, told_done};

/// Whether an operator is one of this crate.
pub fn belongs(op: Op, _state: &State) -> bool
    ensures { result ≡ spec.belongs op }
{
    let place = op.index();
    place == places::FLATTENPATH || places::INITCLIP <= place && place <= places::EOCLIP
}

/// Runs an operator of this crate. A refusal is told as `Act::Fail`, and changes nothing.
#[tactic(auto, using(ps_operator::proofs::Then::told_done_gives))]
pub fn run<M: Mem>(op: Op, text: &[u8], state: &mut State, mem: &mut M) -> Result<Act, NoMemory>
    requires belongs { spec.belongs op ≡ true }
    requires ready { ReadyIn text.now state.old (M.log mem.old).view }
    ensures { Runs (spec.run op) state.old (M.log mem.old) result state.new (M.log mem.new) }
{
    let _text = text;
    match op.index() {
        places::FLATTENPATH => told_done(flattenpath(state)),
        places::INITCLIP => told_done(initclip(state)),
        places::CLIP => told_done(clip(state)),
        places::EOCLIP => told_done(eoclip(state)),
        _ => unreachable!(),
    }
}
