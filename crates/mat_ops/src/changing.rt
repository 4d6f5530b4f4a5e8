//! Translations, scalings and rotations, of the current matrix or into an array (section 4.3.2 of the language manual).
#![tactic(auto)]

ghost use Rattle.std.specs.Prelude.{◌≡◌, ◌≤◌};
ghost use Rattle.ps_meaning.specs.Ready.{Ready};
ghost use Rattle.ps_operator.specs.Owes.{Does, DoesAlone};
ghost use Rattle.mat_ops.specs.Changing as spec;

use crate::current::{before_current, set_matrix};
use crate::matrices::{rotation, scaling, six, store_matrix, translation};
use ps_kinds::{ErrorName, Matrix, Objects, Operands, Refusal, State};
use ps_operator::Mem;
use real_operands::{point_at, real_at};

/// What `translate`, `scale` and `rotate` do.
#[derive(Clone, Copy)]
pub(crate) enum Motion {
    Translation,
    Scaling,
    Rotation,
}

/// Whether the operand that is `depth` below the newest is an array.
pub(crate) fn is_array_at(operands: &Objects, depth: usize) -> bool
    ensures { result ≡ spec.is_array_at depth operands.now }
{
    operands.array(depth).is_ok()
}

/// How many numbers a motion takes.
#[tactic(auto, unfolding(crate::specs::Changing::numbers))]
fn numbers(motion: Motion) -> usize
    ensures value { result ≡ spec.numbers motion }
    ensures few { result ≤ 2 }
{
    match motion {
        Motion::Translation | Motion::Scaling => 2,
        Motion::Rotation => 1,
    }
}

/// The matrix of a motion by the numbers from that depth on: stackunderflow, typecheck.
#[tactic(auto, unfolding(crate::specs::Changing::motion_at))]
pub(crate) fn motion_at(
    motion: Motion,
    operands: &Objects,
    depth: usize,
) -> Result<Matrix, ErrorName>
    requires { depth ≤ 1 }
    ensures { result ≡ spec.motion_at motion depth operands.now }
{
    match motion {
        Motion::Translation => {
            let (x, y) = point_at(operands, depth)?;
            Ok(translation(x, y))
        }
        Motion::Scaling => {
            let (x, y) = point_at(operands, depth)?;
            Ok(scaling(x, y))
        }
        Motion::Rotation => {
            let angle = real_at(operands, depth)?;
            Ok(rotation(angle))
        }
    }
}

/// Changes the current matrix by a motion.
fn change_current(motion: Motion, state: &mut State) -> Result<(), Refusal>
    ensures { DoesAlone (spec.moves motion) state.old result state.new }
{
    let operands = &state.regs.operands;
    let count = numbers(motion);
    operands.need(count)?;
    let matrix = motion_at(motion, operands, 0)?;
    let product = before_current(&matrix, state)?;
    state.regs.operands.shrink(count);
    set_matrix(&mut state.regs.state, product);
    Ok(())
}

/// Fills the array that is the newest operand with the matrix of a motion.
#[tactic(auto, using(ps_operator::proofs::Standing::array_stands, ps_operator::proofs::StoreSteps::items_take_none, crate::proofs::Filling::six_items))]
fn fill_array<M: Mem>(motion: Motion, state: &mut State, mem: &mut M) -> Result<(), Refusal>
    requires { Ready state.old (M.log mem.old).view }
    ensures { Does (spec.fills_with motion) state.old (M.log mem.old)
        result state.new (M.log mem.new) }
{
    let operands = &mut state.regs.operands;
    let count = numbers(motion);
    operands.need(count + 1)?;
    let array = operands.array(0)?;
    let object = operands.object(0)?.copy()?;
    let matrix = motion_at(motion, operands, 1)?;
    operands.writable(0)?;
    six(array)?;
    store_matrix(mem, array, &matrix)?;
    operands.shrink(count + 1);
    operands.push(object)?;
    Ok(())
}

/// What `translate`, `scale` and `rotate` do: the newest operand tells where.
#[tactic(auto, using(crate::proofs::Going::does_first, crate::proofs::Going::does_second))]
pub(crate) fn change<M: Mem>(motion: Motion, state: &mut State, mem: &mut M) -> Result<(), Refusal>
    requires { Ready state.old (M.log mem.old).view }
    ensures { Does (spec.changes motion) state.old (M.log mem.old)
        result state.new (M.log mem.new) }
{
    if is_array_at(&state.regs.operands, 0) {
        fill_array(motion, state, mem)
    } else {
        change_current(motion, state)
    }
}
