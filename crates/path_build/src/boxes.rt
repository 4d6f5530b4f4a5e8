//! The box of the current path (section 8.2 of the language manual).
ghost use Rattle.std.specs.Prelude.{◌≡◌};
ghost use Rattle.ps_operator.specs.Owes.{DoesAlone};
ghost use Rattle.path_build.specs.Boxes as spec;

use crate::paths::point_of;
use crate::points::{push_point, way_back};
use ps_kinds::{DevicePoint, ErrorName, Matrix, Operands, Path, Real, Refusal, Segment, State};
use real_operands::defined;

/// A box with upright sides.
#[derive(Clone, Copy)]
pub(crate) struct Extent {
    pub left: Real,
    pub low: Real,
    pub right: Real,
    pub high: Real,
}

fn lesser(a: Real, b: Real) -> Real
    ensures { result ≡ spec.lesser a b }
{
    if a.count <= b.count { a } else { b }
}

fn greater(a: Real, b: Real) -> Real
    ensures { result ≡ spec.greater a b }
{
    if a.count <= b.count { b } else { a }
}

/// The box of one point.
fn box_at(x: Real, y: Real) -> Extent
    ensures { result ≡ spec.box_at x y }
{
    Extent {
        left: x,
        low: y,
        right: x,
        high: y,
    }
}

/// The least box that has one more point.
fn widened(extent: Extent, x: Real, y: Real) -> Extent
    ensures { result ≡ spec.widened extent x y }
{
    Extent {
        left: lesser(extent.left, x),
        low: lesser(extent.low, y),
        right: greater(extent.right, x),
        high: greater(extent.high, y),
    }
}

fn with_device(extent: Extent, point: DevicePoint) -> Extent
    ensures { result ≡ spec.with_device extent point }
{
    widened(extent, point.x, point.y)
}

/// With the points of a segment, the control points of a curve too.
fn with_points(extent: Extent, segment: &Segment) -> Extent
    ensures { result ≡ spec.with_points extent segment.now }
{
    match segment {
        Segment::Move(p) => with_device(extent, *p),
        Segment::Line(p) => with_device(extent, *p),
        Segment::Curve(p, q, r) => with_device(with_device(with_device(extent, *p), *q), *r),
        Segment::Close => extent,
    }
}

/// With the points of all these segments.
#[tactic(auto, using(crate::proofs::Boxing::one_more))]
fn box_from(first: Extent, segments: &[Segment]) -> Extent
    ensures { result ≡ spec.box_from first segments.now }
{
    let mut extent = first;
    for segment in segments {
        extent = with_points(extent, segment);
    }
    extent
}

/// The box of a path's points on the device, of which the current point is one: nocurrentpoint.
fn device_box(path: &Path) -> Result<Extent, ErrorName>
    ensures { result ≡ spec.device_box path.now }
{
    let point = point_of(path)?;
    Ok(box_from(box_at(point.x, point.y), path.as_slice()))
}

/// The least box that has four points of user space.
fn box_of_four(a: (Real, Real), b: (Real, Real), c: (Real, Real), d: (Real, Real)) -> Extent
    ensures { result ≡ spec.box_of_four a b c d }
{
    let two = widened(box_at(a.0, a.1), b.0, b.1);
    widened(widened(two, c.0, c.1), d.0, d.1)
}

/// A corner by the way back to user space: undefinedresult.
fn corner(back: &Matrix, x: Real, y: Real) -> Result<(Real, Real), ErrorName>
    ensures { result ≡ spec.corner back.now x y }
{
    defined(ps_fixed::apply(back, x, y))
}

/// The box of the four corners of a box of the device, in user space: undefinedresult.
fn user_box(matrix: &Matrix, extent: Extent) -> Result<Extent, ErrorName>
    ensures { result ≡ spec.user_box matrix.now extent }
{
    let back = way_back(matrix)?;
    let one = corner(&back, extent.left, extent.low)?;
    let two = corner(&back, extent.right, extent.low)?;
    let three = corner(&back, extent.right, extent.high)?;
    let four = corner(&back, extent.left, extent.high)?;
    Ok(box_of_four(one, two, three, four))
}

pub(crate) fn pathbbox(state: &mut State) -> Result<(), Refusal>
    ensures { DoesAlone spec.pathbbox state.old result state.new }
{
    let extent = device_box(&state.regs.state.path)?;
    let told = user_box(&state.regs.state.ctm, extent)?;
    let operands = &mut state.regs.operands;
    operands.room(4)?;
    push_point(operands, (told.left, told.low))?;
    push_point(operands, (told.right, told.high))?;
    Ok(())
}
