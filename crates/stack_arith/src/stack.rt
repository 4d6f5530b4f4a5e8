//! The operators on the operand stack (section 8.2 of the language manual).
ghost use Rattle.std.specs.Prelude.{◌≡◌, ◌≤◌};
ghost use Rattle.ps_operator.specs.Owes.{DoesAlone};
ghost use Rattle.stack_arith.specs.Stack as spec;

use ps_kinds::{Kind, Operands, Refusal, State};
use ps_operator::{above_mark, literal, natural_of, push_copy};

pub(crate) fn pop(state: &mut State) -> Result<(), Refusal>
    ensures { DoesAlone spec.pop state.old result state.new }
{
    let operands = &mut state.regs.operands;
    operands.need(1)?;
    operands.shrink(1);
    Ok(())
}

pub(crate) fn exch(state: &mut State) -> Result<(), Refusal>
    ensures { DoesAlone spec.exch state.old result state.new }
{
    let operands = &mut state.regs.operands;
    operands.need(2)?;
    operands.exchange();
    Ok(())
}

pub(crate) fn dup(state: &mut State) -> Result<(), Refusal>
    ensures { DoesAlone spec.dup state.old result state.new }
{
    let operands = &mut state.regs.operands;
    operands.need(1)?;
    operands.object(0)?;
    operands.room(1)?;
    push_copy(operands, 0)?;
    Ok(())
}

pub(crate) fn count(state: &mut State) -> Result<(), Refusal>
    ensures { DoesAlone spec.count state.old result state.new }
{
    let operands = &mut state.regs.operands;
    operands.room(1)?;
    let count = operands.len() as i32;
    operands.push(literal(Kind::Integer(count)))?;
    Ok(())
}

pub(crate) fn clear(state: &mut State) -> Result<(), Refusal>
    ensures { DoesAlone spec.clear state.old result state.new }
{
    state.regs.operands.clear();
    Ok(())
}

#[tactic(auto, using(ps_operator::proofs::Newest::without_newest))]
pub(crate) fn index(state: &mut State) -> Result<(), Refusal>
    ensures { DoesAlone spec.index state.old result state.new }
{
    let operands = &mut state.regs.operands;
    operands.need(1)?;
    let depth = natural_of(operands.integer(0)?)? as usize;
    operands.need(depth + 2)?;
    operands.object(depth + 1)?;
    operands.shrink(1);
    push_copy(operands, depth)?;
    Ok(())
}

/// How many of `n` operands go below the others where they roll by `j`.
fn turn(j: i32, n: u32) -> u32
    ensures value { result ≡ spec.turn j n }
    ensures within { result ≤ n }
{
    if n == 0 {
        0
    } else if j >= 0 {
        j as u32 % n
    } else {
        n - 1 - (-1 - j) as u32 % n
    }
}

pub(crate) fn roll(state: &mut State) -> Result<(), Refusal>
    ensures { DoesAlone spec.roll state.old result state.new }
{
    let operands = &mut state.regs.operands;
    operands.need(2)?;
    let j = operands.integer(0)?;
    let n = natural_of(operands.integer(1)?)?;
    operands.need(n as usize + 2)?;
    operands.shrink(2);
    operands.roll(n as usize, turn(j, n) as usize);
    Ok(())
}

/// What `mark`, `[` and `<<` do.
pub(crate) fn mark(state: &mut State) -> Result<(), Refusal>
    ensures { DoesAlone spec.mark state.old result state.new }
{
    let operands = &mut state.regs.operands;
    operands.room(1)?;
    operands.push(literal(Kind::Mark))?;
    Ok(())
}

pub(crate) fn cleartomark(state: &mut State) -> Result<(), Refusal>
    ensures { DoesAlone spec.cleartomark state.old result state.new }
{
    let operands = &mut state.regs.operands;
    let above = above_mark(operands)?;
    operands.shrink(above + 1);
    Ok(())
}

pub(crate) fn counttomark(state: &mut State) -> Result<(), Refusal>
    ensures { DoesAlone spec.counttomark state.old result state.new }
{
    let operands = &mut state.regs.operands;
    let above = above_mark(operands)?;
    operands.room(1)?;
    operands.push(literal(Kind::Integer(above as i32)))?;
    Ok(())
}
