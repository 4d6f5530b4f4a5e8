//! Points and distances under a matrix and under its inverse (section 4.3.2 of the language manual).
#![tactic(auto)]

ghost use Rattle.std.specs.Prelude.{◌≡◌, ◌∷◌, ◌≤◌, drop, length, OnOk};
ghost use Rattle.ps_meaning.specs.Ready.{Ready};
ghost use Rattle.ps_operator.specs.Owes.{Does, DoesAlone};
ghost use Rattle.mat_ops.specs.Carrying as spec;
ghost use Rattle.mat_ops.specs.Matrices.{item};

use crate::changing::is_array_at;
use crate::matrices::{look_matrix, six};
use ps_fixed::{Undefined, apply, apply_delta, mat_invert};
use ps_kinds::{Kind, Matrix, NoMemory, Objects, Operands, Real, Refusal, State};
use ps_operator::{Mem, literal};
use real_operands::{defined, point_at};

/// What `transform`, `dtransform`, `itransform` and `idtransform` do.
#[derive(Clone, Copy)]
pub(crate) enum Way {
    Point,
    Distance,
    PointBack,
    DistanceBack,
}

/// (x, y) under a matrix or under its inverse. Undefined where a step leaves the range, or there is no inverse.
pub(crate) fn carried(
    way: Way,
    matrix: &Matrix,
    x: Real,
    y: Real,
) -> Result<(Real, Real), Undefined>
    ensures { result ≡ spec.carried way matrix.now x y }
{
    match way {
        Way::Point => apply(matrix, x, y),
        Way::Distance => apply_delta(matrix, x, y),
        Way::PointBack => {
            let inverse = mat_invert(matrix)?;
            apply(&inverse, x, y)
        }
        Way::DistanceBack => {
            let inverse = mat_invert(matrix)?;
            apply_delta(&inverse, x, y)
        }
    }
}

/// Puts two numbers in the place of the newest `n` operands.
fn leave_point(operands: &mut Objects, n: usize, x: Real, y: Real) -> Result<(), NoMemory>
    requires { n ≤ length operands.old }
    ensures { OnOk result (operands.new ≡ item y ∷ item x ∷ drop n operands.old) }
{
    operands.shrink(n);
    operands.push(literal(Kind::Real(x)))?;
    operands.push(literal(Kind::Real(y)))
}

/// Carries two numbers by the current matrix.
fn by_current(way: Way, state: &mut State) -> Result<(), Refusal>
    ensures { DoesAlone (spec.by_current way) state.old result state.new }
{
    let operands = &mut state.regs.operands;
    operands.need(2)?;
    let (x, y) = point_at(operands, 0)?;
    let (right, up) = defined(carried(way, &state.regs.state.ctm, x, y))?;
    leave_point(operands, 2, right, up)?;
    Ok(())
}

/// Carries two numbers by the matrix in an array.
#[tactic(auto, using(ps_operator::proofs::Then::answer_then, ps_operator::proofs::Standing::array_stands))]
fn by_array<M: Mem>(way: Way, state: &mut State, mem: &mut M) -> Result<(), Refusal>
    requires { Ready state.old (M.log mem.old).view }
    ensures { Does (spec.by_array way) state.old (M.log mem.old)
        result state.new (M.log mem.new) }
{
    let operands = &mut state.regs.operands;
    operands.need(3)?;
    let array = operands.array(0)?;
    let (x, y) = point_at(operands, 1)?;
    operands.readable(0)?;
    six(array)?;
    let matrix = look_matrix(operands.alloc(), array, mem)?;
    let (right, up) = defined(carried(way, &matrix, x, y))?;
    leave_point(operands, 3, right, up)?;
    Ok(())
}

/// What `transform`, `dtransform`, `itransform` and `idtransform` do: the newest operand tells by which matrix.
#[tactic(auto, using(crate::proofs::Going::does_first, crate::proofs::Going::does_second))]
pub(crate) fn carry<M: Mem>(way: Way, state: &mut State, mem: &mut M) -> Result<(), Refusal>
    requires { Ready state.old (M.log mem.old).view }
    ensures { Does (spec.carries way) state.old (M.log mem.old)
        result state.new (M.log mem.new) }
{
    if is_array_at(&state.regs.operands, 0) {
        by_array(way, state, mem)
    } else {
        by_current(way, state)
    }
}
