//! Paths whose curves are lines.
ghost use Rattle.std.specs.Prelude.{◌≡◌, ◌++◌, [], IsTrue, IfOk, OnOk};
ghost use Rattle.ps_shapes.specs.Path.{IsPath, is_move};
ghost use Rattle.path_flat.specs.Flattening as spec;
ghost use Rattle.path_flat.specs.Limits.{flat_points};
ghost use Rattle.path_flat.specs.Answers.{Answers};

use crate::curve::curve_point;
use crate::limit::flattens_within_limit;
use crate::refusal::FlatRefusal;
use copy_lists::NoMemory;
use ps_shapes::{DevicePoint, Path, Real, Segment};
use std::alloc::Global;

/// Where a path is being drawn.
#[derive(Clone, Copy)]
pub struct Pen {
    /// Where the subpath began.
    pub start: DevicePoint,
    /// The current point.
    pub at: DevicePoint,
}

/// The pen before the first segment.
pub fn resting() -> Pen
    ensures { result ≡ spec.resting }
{
    let corner = DevicePoint {
        x: Real { count: 0 },
        y: Real { count: 0 },
    };
    Pen {
        start: corner,
        at: corner,
    }
}

/// The pen after a segment.
pub fn pen_after(pen: Pen, segment: &Segment) -> Pen
    ensures { result ≡ spec.pen_after pen segment.now }
{
    match *segment {
        Segment::Move(point) => Pen {
            start: point,
            at: point,
        },
        Segment::Line(point) => Pen {
            start: pen.start,
            at: point,
        },
        Segment::Curve(_, _, end) => Pen {
            start: pen.start,
            at: end,
        },
        Segment::Close => Pen {
            start: pen.start,
            at: pen.start,
        },
    }
}

/// Appends lines to the 32 points of a curve.
#[tactic(auto, using(crate::proofs::Walking::lines_none, crate::proofs::Walking::lines_step))]
fn draw_curve(
    path: &mut Path,
    start: DevicePoint,
    first: DevicePoint,
    second: DevicePoint,
    end: DevicePoint,
) -> Result<(), NoMemory>
    requires { path.old ≡ [] → ⊥ }
    ensures { OnOk result (path.new ≡ path.old ++ spec.curve_lines 32 start first second end) }
{
    for part in 0..32 {
        let point = curve_point(part + 1, start, first, second, end);
        path.push(Segment::Line(point))?;
    }
    Ok(())
}

/// Appends a segment by lines.
#[tactic(auto, using(crate::proofs::Walking::is_begun))]
fn draw(path: &mut Path, pen: Pen, segment: &Segment) -> Result<(), NoMemory>
    requires { path.old ≡ [] → IsTrue (is_move segment.now) }
    ensures { OnOk result (path.new ≡ path.old ++ spec.drawn pen segment.now) }
{
    match *segment {
        Segment::Move(point) => path.push(Segment::Move(point)),
        Segment::Line(point) => path.push(Segment::Line(point)),
        Segment::Curve(first, second, end) => draw_curve(path, pen.at, first, second, end),
        Segment::Close => path.push(Segment::Close),
    }
}

/// The path with 32 lines in the place of each curve, and all else as it was.
#[tactic(auto, using(crate::proofs::Walking::drawn_step, crate::proofs::Walking::drawn_end, crate::proofs::Walking::still_begun, crate::proofs::Walking::first_is_move))]
fn draw_all(alloc: Global, segments: &[Segment]) -> Result<Path, NoMemory>
    requires { IsPath segments.now }
    ensures { IfOk result (λ path. path ≡ spec.flattened segments.now) }
{
    let mut path = Path::new(alloc);
    let mut pen = resting();
    for segment in segments {
        draw(&mut path, pen, segment)?;
        pen = pen_after(pen, segment);
    }
    Ok(path)
}

/// The path with 32 lines in the place of each curve, and all else as it was: Limit where it would have more than 100,000
/// points.
pub fn flattened(alloc: Global, path: &Path) -> Result<Path, FlatRefusal>
    ensures { Answers (flat_points path.now) (spec.flattened path.now) result }
{
    let segments = path.as_slice();
    if flattens_within_limit(segments) {
        Ok(draw_all(alloc, segments)?)
    } else {
        Err(FlatRefusal::Limit)
    }
}
