//! Paths: the current point, the points that count, and what one more segment makes of a path (section 4.4 of the language manual).
ghost use Rattle.std.specs.Prelude.{◌≡◌, ◌≤◌, [], ◌∷◌, ◌<◌, ◌++◌, length, reverse, slice_get, Some, OnOk, IsTrue};
ghost use Rattle.ps_shapes.specs.Path.{is_move};
ghost use Rattle.path_build.specs.Paths as spec;

use ps_kinds::{DevicePoint, ErrorName, NoMemory, Path, Segment};

/// The most points of a path.
pub const POINT_LIMIT: usize = 100_000;

/// The newest segment.
fn newest_of(path: &Path) -> Option<Segment>
    ensures { result ≡ spec.newest_of path.now }
{
    let segments = path.as_slice();
    if segments.is_empty() {
        None
    } else {
        Some(segments[segments.len() - 1])
    }
}

/// Where a segment begins a subpath.
fn begins(segment: Segment) -> Option<DevicePoint>
    ensures { result ≡ spec.begins segment }
{
    match segment {
        Segment::Move(point) => Some(point),
        Segment::Line(_) => None,
        Segment::Curve(_, _, _) => None,
        Segment::Close => None,
    }
}

/// The segment that is so far before the newest.
fn before_end(segments: &[Segment], back: usize) -> Segment
    requires { back < length segments.now }
    ensures { slice_get (reverse segments.now) back ≡ Some result }
{
    segments[segments.len() - 1 - back]
}

/// Where the newest subpath began.
#[tactic(auto, using(crate::proofs::Starts::begins_here, crate::proofs::Starts::begins_before))]
fn start_of(segments: &[Segment]) -> Option<DevicePoint>
    ensures { result ≡ spec.start_behind (reverse segments.now) }
{
    for back in 0..segments.len() {
        if let Some(point) = begins(before_end(segments, back)) {
            return Some(point);
        }
    }
    None
}

fn if_there(point: Option<DevicePoint>) -> Result<DevicePoint, ErrorName>
    ensures { result ≡ spec.if_there point }
{
    match point {
        Some(point) => Ok(point),
        None => Err(ErrorName::NoCurrentPoint),
    }
}

/// The current point: nocurrentpoint. Behind a closed subpath it walks back to where that began.
pub(crate) fn point_of(path: &Path) -> Result<DevicePoint, ErrorName>
    ensures { result ≡ spec.point_of path.now }
{
    match newest_of(path) {
        Some(Segment::Move(point)) => Ok(point),
        Some(Segment::Line(point)) => Ok(point),
        Some(Segment::Curve(_, _, point)) => Ok(point),
        Some(Segment::Close) => if_there(start_of(path.as_slice())),
        None => Err(ErrorName::NoCurrentPoint),
    }
}

/// Whether there is a current point: nocurrentpoint.
pub(crate) fn begun(path: &Path) -> Result<(), ErrorName>
    ensures { result ≡ spec.begun path.now }
{
    if path.as_slice().is_empty() {
        Err(ErrorName::NoCurrentPoint)
    } else {
        Ok(())
    }
}

/// How many points of a segment count.
fn points_of(segment: &Segment) -> usize
    ensures value { result ≡ spec.points_of segment.now }
    ensures few { result ≤ 3 }
{
    match segment {
        Segment::Move(_) => 1,
        Segment::Line(_) => 1,
        Segment::Curve(_, _, _) => 3,
        Segment::Close => 0,
    }
}

/// Whether the points of these segments are at most so many.
#[tactic(auto, using(crate::proofs::Counting::one_counted, crate::proofs::Counting::one_too_many))]
fn has_few(segments: &[Segment], most: usize) -> bool
    ensures { result ≡ spec.has_few most segments.now }
{
    let mut left = most;
    for segment in segments {
        let points = points_of(segment);
        if points > left {
            return false;
        }
        left -= points;
    }
    true
}

/// Whether `n` more points stay within the limit: limitcheck. They are counted only where there are so many segments that they may
/// be too many.
#[tactic(auto, using(crate::proofs::Counting::few_enough, crate::proofs::Counting::few_room))]
pub(crate) fn point_room(path: &Path, n: usize) -> Result<(), ErrorName>
    requires { n ≤ 1000 }
    ensures { result ≡ spec.point_room n path.now }
{
    let segments = path.as_slice();
    let most = POINT_LIMIT - n;
    if segments.len() <= most / 3 || has_few(segments, most) {
        Ok(())
    } else {
        Err(ErrorName::LimitCheck)
    }
}

/// Whether the newest segment is a Move, which another replaces.
fn ends_in_move(path: &Path) -> bool
    ensures { result ≡ spec.ends_in_move path.now }
{
    match newest_of(path) {
        Some(Segment::Move(_)) => true,
        Some(Segment::Line(_)) => false,
        Some(Segment::Curve(_, _, _)) => false,
        Some(Segment::Close) => false,
        None => false,
    }
}

/// Whether there is room for a Move, which takes none where it replaces another: limitcheck.
pub(crate) fn move_room(path: &Path) -> Result<(), ErrorName>
    ensures { result ≡ spec.move_room path.now }
{
    if ends_in_move(path) {
        Ok(())
    } else {
        point_room(path, 1)
    }
}

/// Begins a subpath: a Move after a Move replaces it.
pub(crate) fn move_to(path: &mut Path, point: DevicePoint) -> Result<(), NoMemory>
    ensures { OnOk result (path.new ≡ spec.moved_to path.old point) }
{
    if ends_in_move(path) {
        path.replace_last(Segment::Move(point));
        Ok(())
    } else {
        path.push(Segment::Move(point))
    }
}

/// Whether nothing is there to close.
fn is_closed(path: &Path) -> bool
    ensures { result ≡ spec.is_closed (spec.newest_of path.now) }
{
    match newest_of(path) {
        Some(Segment::Move(_)) => false,
        Some(Segment::Line(_)) => false,
        Some(Segment::Curve(_, _, _)) => false,
        Some(Segment::Close) => true,
        None => true,
    }
}

/// Closes the subpath, unless there is none or it is closed.
pub(crate) fn close(path: &mut Path) -> Result<(), NoMemory>
    ensures { OnOk result (path.new ≡ spec.closed path.old) }
{
    if is_closed(path) {
        Ok(())
    } else {
        path.push(Segment::Close)
    }
}
