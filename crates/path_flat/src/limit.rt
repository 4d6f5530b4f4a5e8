//! How many points a path may have.
ghost use Rattle.std.specs.Prelude.{◌≡◌, ◌≤◌, nat_le};
ghost use Rattle.path_flat.specs.Limits as spec;

use ps_shapes::Segment;

/// The greatest number of points of a path, and of a flattened path.
pub const POINT_LIMIT: usize = 100_000;

/// How many points a segment has once it is flattened: a curve ends in 32 lines.
fn flat_points_of(segment: &Segment) -> usize
    ensures points { result ≡ spec.flat_points_of segment.now }
    ensures few { result ≤ 32 }
{
    match segment {
        Segment::Move(_) => 1,
        Segment::Line(_) => 1,
        Segment::Curve(_, _, _) => 32,
        Segment::Close => 0,
    }
}

/// Whether the flattened path has 100,000 points or fewer.
#[tactic(auto, using(crate::proofs::Walking::points_step, crate::proofs::Walking::points_end))]
pub fn flattens_within_limit(segments: &[Segment]) -> bool
    ensures { result ≡ nat_le (spec.flat_points segments.now) 100000 }
{
    let mut points = 0;
    for segment in segments {
        points += flat_points_of(segment);
        if points > POINT_LIMIT {
            return false;
        }
    }
    true
}
