//! Points of a path in user space.
ghost use Rattle.std.specs.Prelude.{◌≡◌, OnOk};
ghost use Rattle.path_build.specs.Points as spec;

use ps_kinds::{DevicePoint, ErrorName, Kind, Matrix, NoMemory, Object, Objects, Real, Segment};
use ps_operator::literal;
use real_operands::{defined, placed};

/// The way from the device back to user space: undefinedresult.
pub(crate) fn way_back(matrix: &Matrix) -> Result<Matrix, ErrorName>
    ensures { result ≡ spec.way_back matrix.now }
{
    defined(ps_fixed::mat_invert(matrix))
}

/// A point of the device in user space, by the way back: undefinedresult.
pub(crate) fn told_by(back: &Matrix, point: DevicePoint) -> Result<(Real, Real), ErrorName>
    ensures { result ≡ spec.told_by back.now point }
{
    defined(ps_fixed::apply(back, point.x, point.y))
}

/// A point of the device in user space: undefinedresult.
pub(crate) fn user_point(matrix: &Matrix, point: DevicePoint) -> Result<(Real, Real), ErrorName>
    ensures { result ≡ spec.user_point matrix.now point }
{
    let back = way_back(matrix)?;
    told_by(&back, point)
}

/// The curve of three points of user space: undefinedresult, limitcheck.
pub(crate) fn curve_of(
    matrix: &Matrix,
    a: (Real, Real),
    b: (Real, Real),
    c: (Real, Real),
) -> Result<Segment, ErrorName>
    ensures { result ≡ spec.curve_of matrix.now a b c }
{
    let p = placed(matrix, a.0, a.1)?;
    let q = placed(matrix, b.0, b.1)?;
    let r = placed(matrix, c.0, c.1)?;
    Ok(Segment::Curve(p, q, r))
}

/// A real as an object.
pub(crate) fn real(real: Real) -> Object
    ensures { result ≡ spec.real real }
{
    literal(Kind::Real(real))
}

/// Pushes a point, its y on top.
pub(crate) fn push_point(operands: &mut Objects, point: (Real, Real)) -> Result<(), NoMemory>
    ensures { OnOk result (operands.new ≡ spec.with_point point operands.old) }
{
    operands.push(real(point.0))?;
    operands.push(real(point.1))
}
