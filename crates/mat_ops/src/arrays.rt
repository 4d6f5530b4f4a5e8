//! Arrays that are filled with matrices (section 8.2 of the language manual).
#![tactic(auto, using(ps_operator::proofs::Then::answer_then, ps_operator::proofs::Standing::array_stands, ps_operator::proofs::StoreSteps::items_take_none, crate::proofs::Filling::six_items))]

ghost use Rattle.std.specs.Prelude.{◌≡◌};
ghost use Rattle.ps_meaning.specs.Ready.{Ready};
ghost use Rattle.ps_operator.specs.Owes.{Does};
ghost use Rattle.mat_ops.specs.Arrays as spec;

use crate::current::default_of;
use crate::matrices::{ITEMS, identity, look_matrix, six, store_matrix};
use ps_fixed::{mat_invert, mat_mul};
use ps_kinds::{Interval, Kind, Matrix, Operands, Refusal, State};
use ps_operator::{Mem, literal, make_array, next_cell, unit_room};
use real_operands::defined;

/// The array that is made next.
fn next_six(state: &State) -> Interval
    ensures { result ≡ spec.next_six state.now }
{
    Interval {
        cell: next_cell(state),
        start: 0,
        len: ITEMS,
    }
}

#[tactic(auto, using(ps_operator::proofs::Naming::next_free, ps_operator::proofs::StoreSteps::items_take_none))]
pub(crate) fn matrix<M: Mem>(state: &mut State, mem: &mut M) -> Result<(), Refusal>
    requires { Ready state.old (M.log mem.old).view }
    ensures { Does spec.matrix state.old (M.log mem.old) result state.new (M.log mem.new) }
{
    state.regs.operands.room(1)?;
    unit_room(state.kind, state.units, ITEMS as u64)?;
    let interval = next_six(state);
    make_array(mem, interval.cell, ITEMS)?;
    store_matrix(mem, interval, &identity())?;
    state.count += 1;
    state.units += ITEMS as u64;
    state.regs.operands.push(literal(Kind::Array {
        interval,
        packed: false,
    }))?;
    Ok(())
}

/// Fills the newest operand, which stays, with a matrix.
fn fill<M: Mem>(state: &State, mem: &mut M, matrix: &Matrix) -> Result<(), Refusal>
    requires { Ready state.now (M.log mem.old).view }
    ensures { Does (spec.fills matrix.now) state.now (M.log mem.old)
        result state.now (M.log mem.new) }
{
    let operands = &state.regs.operands;
    operands.need(1)?;
    let array = operands.array(0)?;
    operands.writable(0)?;
    six(array)?;
    store_matrix(mem, array, matrix)?;
    Ok(())
}

pub(crate) fn identmatrix<M: Mem>(state: &State, mem: &mut M) -> Result<(), Refusal>
    requires { Ready state.now (M.log mem.old).view }
    ensures { Does spec.identmatrix state.now (M.log mem.old) result state.now (M.log mem.new) }
{
    fill(state, mem, &identity())
}

pub(crate) fn defaultmatrix<M: Mem>(state: &State, mem: &mut M) -> Result<(), Refusal>
    requires { Ready state.now (M.log mem.old).view }
    ensures { Does spec.defaultmatrix state.now (M.log mem.old) result state.now (M.log mem.new) }
{
    fill(state, mem, &default_of(state))
}

pub(crate) fn currentmatrix<M: Mem>(state: &State, mem: &mut M) -> Result<(), Refusal>
    requires { Ready state.now (M.log mem.old).view }
    ensures { Does spec.currentmatrix state.now (M.log mem.old) result state.now (M.log mem.new) }
{
    fill(state, mem, &state.regs.state.ctm)
}

pub(crate) fn concatmatrix<M: Mem>(state: &mut State, mem: &mut M) -> Result<(), Refusal>
    requires { Ready state.old (M.log mem.old).view }
    ensures { Does spec.concatmatrix state.old (M.log mem.old) result state.new (M.log mem.new) }
{
    let operands = &mut state.regs.operands;
    operands.need(3)?;
    let target = operands.array(0)?;
    let second = operands.array(1)?;
    let first = operands.array(2)?;
    let object = operands.object(0)?.copy()?;
    operands.writable(0)?;
    operands.readable(1)?;
    operands.readable(2)?;
    six(target)?;
    six(second)?;
    six(first)?;
    let right = look_matrix(operands.alloc(), second, mem)?;
    let left = look_matrix(operands.alloc(), first, mem)?;
    let product = defined(mat_mul(&left, &right))?;
    store_matrix(mem, target, &product)?;
    operands.shrink(3);
    operands.push(object)?;
    Ok(())
}

pub(crate) fn invertmatrix<M: Mem>(state: &mut State, mem: &mut M) -> Result<(), Refusal>
    requires { Ready state.old (M.log mem.old).view }
    ensures { Does spec.invertmatrix state.old (M.log mem.old) result state.new (M.log mem.new) }
{
    let operands = &mut state.regs.operands;
    operands.need(2)?;
    let target = operands.array(0)?;
    let source = operands.array(1)?;
    let object = operands.object(0)?.copy()?;
    operands.writable(0)?;
    operands.readable(1)?;
    six(target)?;
    six(source)?;
    let matrix = look_matrix(operands.alloc(), source, mem)?;
    let inverse = defined(mat_invert(&matrix))?;
    store_matrix(mem, target, &inverse)?;
    operands.shrink(2);
    operands.push(object)?;
    Ok(())
}
