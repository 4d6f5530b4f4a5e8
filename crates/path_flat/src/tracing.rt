//! The subpaths of a path and its polygons, in 1/256 pixel.
ghost use Rattle.std.specs.Prelude.{◌≡◌, ◌++◌, ◌∷◌, map, IfOk, OnOk};
ghost use Rattle.path_flat.specs.Subpaths as spec;
ghost use Rattle.path_flat.specs.Limits.{flat_points};
ghost use Rattle.path_flat.specs.Answers.{Answers};

use crate::curve::{curve_point, pixel_point};
use crate::flattening::{Pen, pen_after, resting};
use crate::limit::flattens_within_limit;
use crate::refusal::FlatRefusal;
use copy_lists::{NoMemory, Sequence};
use ps_shapes::{DevicePoint, Path, Point, Polygon, Polygons, Segment};
use std::alloc::Global;
use std::mem;

/// A subpath by lines, in 1/256 pixel.
#[derive(Drop)]
pub struct Subpath {
    /// Where it begins, and the ends of its lines.
    pub points: Polygon,
    /// Whether a line leads back to where it begins.
    pub closed: bool,
}

/// Subpaths in the order of the path.
pub type SubpathList = Sequence<Subpath>;

/// A path's subpaths as they are drawn.
#[derive(Drop)]
pub struct Tracer {
    /// The subpaths that have ended.
    done: SubpathList,
    /// The points of the one that is being drawn.
    points: Polygon,
    pen: Pen,
}

/// Before the first segment.
fn untraced(alloc: Global) -> Tracer
    ensures { result ≡ spec.untraced }
{
    Tracer {
        done: SubpathList::new(alloc),
        points: Polygon::new(alloc),
        pen: resting(),
    }
}

/// Keeps a subpath that isn't closed; a lone point gives none.
fn keep_open(done: &mut SubpathList, points: Polygon) -> Result<(), NoMemory>
    ensures { OnOk result (done.new ≡ done.old ++ spec.left_open points) }
{
    if points.len() > 1 {
        done.push(Subpath {
            points,
            closed: false,
        })?;
    }
    Ok(())
}

/// Keeps a subpath that is closed; a lone point gives one of one point.
fn keep_closed(done: &mut SubpathList, points: Polygon) -> Result<(), NoMemory>
    ensures { OnOk result (done.new ≡ done.old ++ spec.left_closed points) }
{
    if !points.is_empty() {
        done.push(Subpath {
            points,
            closed: true,
        })?;
    }
    Ok(())
}

/// Begins a subpath where the last one began, where none is being drawn.
fn begin(points: &mut Polygon, start: DevicePoint) -> Result<(), NoMemory>
    ensures { OnOk result (points.new ≡ spec.begun start points.old) }
{
    if points.is_empty() {
        points.push(pixel_point(start))?;
    }
    Ok(())
}

/// Appends the 32 points of a curve.
#[tactic(auto, using(crate::proofs::Walking::points_none, crate::proofs::Walking::curve_step))]
fn trace_curve(
    points: &mut Polygon,
    start: DevicePoint,
    first: DevicePoint,
    second: DevicePoint,
    end: DevicePoint,
) -> Result<(), NoMemory>
    ensures { OnOk result (points.new ≡ points.old ++ spec.curve_points 32 start first second end) }
{
    for part in 0..32 {
        let point = curve_point(part + 1, start, first, second, end);
        points.push(pixel_point(point))?;
    }
    Ok(())
}

/// Follows a segment.
fn trace(alloc: Global, tracer: &mut Tracer, segment: &Segment) -> Result<(), NoMemory>
    ensures { OnOk result (tracer.new ≡ spec.traced tracer.old segment.now) }
{
    let pen = tracer.pen;
    tracer.pen = pen_after(pen, segment);
    match *segment {
        Segment::Move(point) => {
            let points = mem::replace(&mut tracer.points, Polygon::new(alloc));
            keep_open(&mut tracer.done, points)?;
            tracer.points.push(pixel_point(point))
        }
        Segment::Line(point) => {
            begin(&mut tracer.points, pen.start)?;
            tracer.points.push(pixel_point(point))
        }
        Segment::Curve(first, second, end) => {
            begin(&mut tracer.points, pen.start)?;
            trace_curve(&mut tracer.points, pen.at, first, second, end)
        }
        Segment::Close => {
            let points = mem::replace(&mut tracer.points, Polygon::new(alloc));
            keep_closed(&mut tracer.done, points)
        }
    }
}

/// The subpaths of a path within the limit.
#[tactic(auto, using(crate::proofs::Walking::traced_step, crate::proofs::Walking::traced_end))]
fn trace_all(alloc: Global, segments: &[Segment]) -> Result<SubpathList, NoMemory>
    ensures { IfOk result (λ subpaths. subpaths ≡ spec.subpaths segments.now) }
{
    let mut tracer = untraced(alloc);
    for segment in segments {
        trace(alloc, &mut tracer, segment)?;
    }
    let mut done = tracer.done;
    keep_open(&mut done, tracer.points)?;
    Ok(done)
}

/// The subpaths of a path, their curves as 32 lines, each point to the nearest 1/256 pixel: Limit where the flattened path
/// would have more than 100,000 points.
pub fn subpaths(alloc: Global, path: &Path) -> Result<SubpathList, FlatRefusal>
    ensures { Answers (flat_points path.now) (spec.subpaths path.now) result }
{
    let segments = path.as_slice();
    if flattens_within_limit(segments) {
        Ok(trace_all(alloc, segments)?)
    } else {
        Err(FlatRefusal::Limit)
    }
}

/// The points of each subpath.
fn polygons(alloc: Global, subpaths: SubpathList) -> Result<Polygons, NoMemory>
    ensures { IfOk result (λ polygons. polygons ≡ map (λ s. s.points) subpaths) }
{
    let mut polygons = Polygons::new(alloc);
    for subpath in subpaths.into_vec() {
        polygons.push(subpath.points)?;
    }
    Ok(polygons)
}

/// The polygons of a path in 1/256 pixel, none with a point that closes it: Limit where the flattened path would have more
/// than 100,000 points.
pub fn flat(alloc: Global, path: &Path) -> Result<Polygons, FlatRefusal>
    ensures { Answers (flat_points path.now) (spec.flat path.now) result }
{
    let subpaths = subpaths(alloc, path)?;
    Ok(polygons(alloc, subpaths)?)
}
