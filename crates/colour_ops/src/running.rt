//! The operators of this crate by their places in the list of operators.
ghost use Rattle.std.specs.Prelude.{◌≡◌, true};
ghost use Rattle.ps_meaning.specs.Ready.{Ready, ReadyIn};
ghost use Rattle.ps_operator.specs.Owes.{Does, Runs};
ghost use Rattle.colour_ops.specs.Operators as spec;

use crate::halftones::{currenthalftone, sethalftone};
use crate::screens::{currentscreen, currenttransfer, setscreen, settransfer};
use crate::setting::{
    currentcmykcolor, currentcolor, currentgray, currentrgbcolor, setcmykcolor, setcolor, setgray,
    setrgbcolor,
};
use crate::spaces::{currentcolorspace, setcolorspace};
use ps_kinds::{Act, NoMemory, Op, Refusal, State};
use ps_names::places;
use ps_operator::{Mem, told_done};

/// Whether an operator is one of this crate.
pub fn belongs(op: Op, _state: &State) -> bool
    ensures { result ≡ spec.belongs op }
{
    places::SETGRAY <= op.index() && op.index() <= places::CURRENTHALFTONE
}

fn run_done<M: Mem>(op: Op, state: &mut State, mem: &mut M) -> Result<(), Refusal>
    requires belongs { spec.belongs op ≡ true }
    requires ready { Ready state.old (M.log mem.old).view }
    ensures { Does (spec.run op) state.old (M.log mem.old) result state.new (M.log mem.new) }
{
    match op.index() {
        places::SETGRAY => setgray(state),
        places::SETRGBCOLOR => setrgbcolor(state),
        places::SETCMYKCOLOR => setcmykcolor(state),
        places::CURRENTGRAY => currentgray(state),
        places::CURRENTRGBCOLOR => currentrgbcolor(state),
        places::CURRENTCMYKCOLOR => currentcmykcolor(state),
        places::SETCOLORSPACE => setcolorspace(state, mem),
        places::CURRENTCOLORSPACE => currentcolorspace(state, mem),
        places::SETCOLOR => setcolor(state),
        places::CURRENTCOLOR => currentcolor(state),
        places::SETSCREEN => setscreen(state),
        places::CURRENTSCREEN => currentscreen(state),
        places::SETTRANSFER => settransfer(state),
        places::CURRENTTRANSFER => currenttransfer(state),
        places::SETHALFTONE => sethalftone(state, mem),
        places::CURRENTHALFTONE => currenthalftone(state),
        _ => unreachable!(),
    }
}

/// Runs an operator of this crate. A refusal is told as `Act::Fail`, and changes nothing.
#[tactic(auto, using(ps_operator::proofs::Then::told_done_gives))]
pub fn run<M: Mem>(op: Op, text: &[u8], state: &mut State, mem: &mut M) -> Result<Act, NoMemory>
    requires belongs { spec.belongs op ≡ true }
    requires ready { ReadyIn text.now state.old (M.log mem.old).view }
    ensures { Runs (spec.run op) state.old (M.log mem.old) result state.new (M.log mem.new) }
{
    let _text = text;
    told_done(run_done(op, state, mem))
}
