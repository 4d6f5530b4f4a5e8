//! The operators of this crate by their places in the list of operators.
ghost use Rattle.std.specs.Prelude.{◌≡◌, true};
ghost use Rattle.ps_meaning.specs.Ready.{Ready, ReadyIn};
ghost use Rattle.ps_operator.specs.Owes.{Does, Runs};
ghost use Rattle.stack_arith.specs.Operators as spec;

use crate::arithmetic::{add, div, idiv, mod_, mul, sub};
use crate::bits::{and, bitshift, not_, or, xor};
use crate::comparison::{eq, ge, gt, le, lt, ne};
use crate::functions::{atan, cos, sin, sqrt};
use crate::random::{rand, rrand, srand};
use crate::rounding::{abs, ceiling, floor, neg, round, truncate};
use crate::stack::{clear, cleartomark, count, counttomark, dup, exch, index, mark, pop, roll};
use ps_kinds::{Act, NoMemory, Op, Refusal, State};
use ps_names::places;
use ps_operator::{Mem, told_done};

/// Whether an operator is one of this crate.
pub fn belongs(op: Op, _state: &State) -> bool
    ensures { result ≡ spec.belongs op }
{
    op.index() <= places::BITSHIFT
}

fn run_done<M: Mem>(op: Op, state: &mut State, mem: &mut M) -> Result<(), Refusal>
    requires belongs { spec.belongs op ≡ true }
    requires ready { Ready state.old (M.log mem.old).view }
    ensures { Does (spec.run op) state.old (M.log mem.old) result state.new (M.log mem.new) }
{
    match op.index() {
        places::POP => pop(state),
        places::EXCH => exch(state),
        places::DUP => dup(state),
        places::COUNT => count(state),
        places::CLEAR => clear(state),
        places::INDEX => index(state),
        places::ROLL => roll(state),
        places::MARK => mark(state),
        places::LEFT_BRACKET => mark(state),
        places::LEFT_ANGLES => mark(state),
        places::CLEARTOMARK => cleartomark(state),
        places::COUNTTOMARK => counttomark(state),
        places::ADD => add(state),
        places::SUB => sub(state),
        places::MUL => mul(state),
        places::DIV => div(state),
        places::IDIV => idiv(state),
        places::MOD => mod_(state),
        places::ABS => abs(state),
        places::NEG => neg(state),
        places::CEILING => ceiling(state),
        places::FLOOR => floor(state),
        places::ROUND => round(state),
        places::TRUNCATE => truncate(state),
        places::SQRT => sqrt(state),
        places::SIN => sin(state),
        places::COS => cos(state),
        places::ATAN => atan(state),
        places::RAND => rand(state, mem),
        places::SRAND => srand(state, mem),
        places::RRAND => rrand(state, mem),
        places::EQ => eq(state, mem),
        places::NE => ne(state, mem),
        places::GT => gt(state, mem),
        places::GE => ge(state, mem),
        places::LT => lt(state, mem),
        places::LE => le(state, mem),
        places::AND => and(state),
        places::OR => or(state),
        places::XOR => xor(state),
        places::NOT => not_(state),
        places::BITSHIFT => bitshift(state),
        _ => unreachable!(),
    }
}

/// Runs an operator of this crate. A refusal is told as `Act::Fail`, and changes nothing.
#[tactic(auto, using(ps_operator::proofs::Then::told_done_gives))]
pub fn run<M: Mem>(op: Op, text: &[u8], state: &mut State, mem: &mut M) -> Result<Act, NoMemory>
    requires belongs { spec.belongs op ≡ true }
    requires ready { ReadyIn text.now state.old (M.log mem.old).view }
    ensures { Runs (spec.run op) state.old (M.log mem.old) result state.new (M.log mem.new) }
{
    let _text = text;
    told_done(run_done(op, state, mem))
}
