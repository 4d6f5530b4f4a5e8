//! Matrices as arrays of six numbers (section 4.3.3 of the language manual).
#![tactic(auto, using(ps_operator::proofs::Then::reads_then))]

ghost use Rattle.std.specs.Prelude.{◌≡◌, true, OnOk};
ghost use Rattle.ps_meaning.specs.Answer.{changed_in};
ghost use Rattle.ps_operator.specs.Owes.{Yields};
ghost use Rattle.ps_operator.specs.Standing.{is_array};
ghost use Rattle.mat_ops.specs.Matrices as spec;

use ps_fixed::{cos, sin};
use ps_kinds::{ErrorName, Interval, Kind, Matrix, NoMemory, Number, ONE, Object, Real, Refusal};
use ps_operator::{Mem, items_of, literal, store_item};
use real_operands::as_real;
use std::alloc::Global;

/// How many items a matrix has.
pub(crate) const ITEMS: u32 = 6;

/// Whether an array has six items: rangecheck.
pub(crate) fn six(array: Interval) -> Result<(), ErrorName>
    ensures { result ≡ spec.six array }
{
    if array.len == ITEMS {
        Ok(())
    } else {
        Err(ErrorName::RangeCheck)
    }
}

/// The real that an item tells: typecheck.
fn real_in(kind: &Kind) -> Result<Real, ErrorName>
    ensures { result ≡ spec.real_in kind.now }
{
    match kind {
        Kind::Integer(n) => Ok(as_real(Number::Integer(*n))),
        Kind::Real(real) => Ok(*real),
        _ => Err(ErrorName::TypeCheck),
    }
}

/// The real at a place among items: typecheck.
fn entry_at(items: &[Object], at: usize) -> Result<Real, ErrorName>
    ensures { result ≡ spec.entry_at at items.now }
{
    match items.get(at) {
        Some(object) => real_in(&object.kind),
        None => Err(ErrorName::RangeCheck),
    }
}

fn moved_by(items: &[Object], a: Real, b: Real, c: Real, d: Real) -> Result<Matrix, ErrorName>
    ensures { result ≡ spec.moved_by items.now a b c d }
{
    let tx = entry_at(items, 4)?;
    let ty = entry_at(items, 5)?;
    Ok(Matrix { a, b, c, d, tx, ty })
}

fn turned_by(items: &[Object], a: Real, b: Real) -> Result<Matrix, ErrorName>
    ensures { result ≡ spec.turned_by items.now a b }
{
    let c = entry_at(items, 2)?;
    let d = entry_at(items, 3)?;
    moved_by(items, a, b, c, d)
}

/// The matrix that six items tell: typecheck.
pub(crate) fn matrix_of(items: &[Object]) -> Result<Matrix, ErrorName>
    ensures { result ≡ spec.matrix_of items.now }
{
    let a = entry_at(items, 0)?;
    let b = entry_at(items, 1)?;
    turned_by(items, a, b)
}

/// The matrix in an array, all of whose items are looked at before one is judged: typecheck.
pub(crate) fn look_matrix<M: Mem>(
    alloc: Global,
    array: Interval,
    mem: &mut M,
) -> Result<Matrix, Refusal>
    requires { is_array (M.log mem.old).view array ≡ true }
    ensures view { OnOk result ((M.log mem.new).view ≡ (M.log mem.old).view) }
    ensures told { Yields (spec.matrix_in array) (M.log mem.old) result (M.log mem.new) }
{
    let items = items_of(alloc, array, mem)?;
    let matrix = matrix_of(items.as_slice())?;
    Ok(matrix)
}

fn item(real: Real) -> Object
    ensures { result ≡ spec.item real }
{
    literal(Kind::Real(real))
}

/// Stores a matrix in an array, item by item.
#[tactic(auto, using(crate::proofs::Filling::six_stored))]
pub(crate) fn store_matrix<M: Mem>(
    mem: &mut M,
    array: Interval,
    matrix: &Matrix,
) -> Result<(), NoMemory>
    requires array { is_array (M.log mem.old).view array ≡ true }
    requires six { array.len ≡ 6 }
    ensures { OnOk result (M.log mem.new
        ≡ changed_in (M.log mem.old) (spec.matrix_stores array matrix.now)) }
{
    store_item(mem, array, 0, item(matrix.a))?;
    store_item(mem, array, 1, item(matrix.b))?;
    store_item(mem, array, 2, item(matrix.c))?;
    store_item(mem, array, 3, item(matrix.d))?;
    store_item(mem, array, 4, item(matrix.tx))?;
    store_item(mem, array, 5, item(matrix.ty))?;
    Ok(())
}

const NOUGHT: Real = Real { count: 0 };

const UNIT: Real = Real { count: ONE };

pub(crate) fn translation(x: Real, y: Real) -> Matrix
    ensures { result ≡ spec.translation x y }
{
    Matrix {
        a: UNIT,
        b: NOUGHT,
        c: NOUGHT,
        d: UNIT,
        tx: x,
        ty: y,
    }
}

pub(crate) fn scaling(x: Real, y: Real) -> Matrix
    ensures { result ≡ spec.scaling x y }
{
    Matrix {
        a: x,
        b: NOUGHT,
        c: NOUGHT,
        d: y,
        tx: NOUGHT,
        ty: NOUGHT,
    }
}

pub(crate) fn identity() -> Matrix
    ensures { result ≡ spec.identity }
{
    translation(NOUGHT, NOUGHT)
}

/// The sine of an angle in degrees with the other sign.
fn sine_back(angle: Real) -> Real
    ensures { result ≡ spec.opposite (spec.sine angle) }
{
    Real {
        count: -sin(angle).count,
    }
}

/// The rotation by an angle in degrees, the x axis toward the y axis.
pub(crate) fn rotation(angle: Real) -> Matrix
    ensures { result ≡ spec.rotation angle }
{
    Matrix {
        a: cos(angle),
        b: sin(angle),
        c: sine_back(angle),
        d: cos(angle),
        tx: NOUGHT,
        ty: NOUGHT,
    }
}
