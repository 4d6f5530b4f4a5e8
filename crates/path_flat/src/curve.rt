//! Points of curves, and points in 1/256 pixel.
#![tactic(auto, using(crate::proofs::Rounded::curve_floor, crate::proofs::Rounded::pixel_floor))]

ghost use Rattle.std.specs.Prelude.{◌≡◌, ◌+◌, ◌-◌, ◌*◌, ◌≤◌, pos, ◌*ℤ◌};
ghost use Rattle.ps_shapes.specs.Near.{IsNear, IsOnDevice};
ghost use Rattle.path_flat.specs.Curves as spec;

use ps_shapes::{DevicePoint, Point, Real};

/// Into how many lines a curve is cut.
const PARTS: u32 = 32;

/// How much each of a curve's four points weighs, in 1/32768.
#[derive(Clone, Copy)]
struct Weights {
    start: u32,
    first: u32,
    second: u32,
    end: u32,
}

/// The weights at `part`/32 of a curve's way.
#[tactic(auto, using(crate::proofs::Weighing::weights_sum, crate::proofs::Weighing::square_small))]
fn weights_at(part: u32) -> Weights
    requires { part ≤ 32 }
    ensures start { result.start ≡ (32 - part) * (32 - part) * (32 - part) }
    ensures first { result.first ≡ 3 * part * (32 - part) * (32 - part) }
    ensures second { result.second ≡ 3 * part * part * (32 - part) }
    ensures end { result.end ≡ part * part * part }
    ensures whole { result.start + result.first + result.second + result.end ≡ 32768 }
{
    let left = PARTS - part;
    Weights {
        start: left * left * left,
        first: 3 * part * left * left,
        second: 3 * part * part * left,
        end: part * part * part,
    }
}

/// A coordinate, weighted.
#[tactic(auto, using(crate::proofs::Weighing::weighted_low, crate::proofs::Weighing::weighted_high))]
fn weighted(weight: u32, count: i64) -> i64
    requires weight { weight ≤ 32768 }
    requires count { IsOnDevice count }
    ensures { result ≡ pos weight *ℤ count }
{
    weight as i64 * count
}

/// The coordinate at `part`/32 of a curve whose four points have these coordinates, to the nearest count.
fn coordinate(part: u32, start: i64, first: i64, second: i64, end: i64) -> i64
    requires part { part ≤ 32 }
    requires start { IsOnDevice start }
    requires first { IsOnDevice first }
    requires second { IsOnDevice second }
    requires end { IsOnDevice end }
    ensures value { result ≡ spec.coordinate part start first second end }
    ensures near { IsOnDevice result }
{
    let weights = weights_at(part);
    let a = weighted(weights.start, start);
    let b = weighted(weights.first, first);
    let c = weighted(weights.second, second);
    let d = weighted(weights.end, end);
    (a + b + c + d + 16_384) >> 15
}

/// The point at `part`/32 of the way from `start` to `end`, by two control points.
pub fn curve_point(
    part: u32,
    start: DevicePoint,
    first: DevicePoint,
    second: DevicePoint,
    end: DevicePoint,
) -> DevicePoint
    requires { part ≤ 32 }
    ensures x { result.x.count
        ≡ spec.coordinate part start.x.count first.x.count second.x.count end.x.count }
    ensures y { result.y.count
        ≡ spec.coordinate part start.y.count first.y.count second.y.count end.y.count }
    ensures point { result ≡ spec.curve_point part start first second end }
{
    let x = coordinate(
        part,
        start.x.count,
        first.x.count,
        second.x.count,
        end.x.count,
    );
    let y = coordinate(
        part,
        start.y.count,
        first.y.count,
        second.y.count,
        end.y.count,
    );
    DevicePoint {
        x: Real { count: x },
        y: Real { count: y },
    }
}

/// A coordinate in 1/256 pixel, to the nearest.
fn rounded(count: i64) -> i32
    requires { IsOnDevice count }
    ensures value { result ≡ spec.rounded count }
    ensures near { IsNear result }
{
    ((count + 32_768) >> 16) as i32
}

/// The point in 1/256 pixel, each coordinate to the nearest, halves upward.
pub fn pixel_point(point: DevicePoint) -> Point
    ensures x { result.x ≡ spec.rounded point.x.count }
    ensures y { result.y ≡ spec.rounded point.y.count }
    ensures point { result ≡ spec.pixel_point point }
{
    let x = rounded(point.x.count);
    let y = rounded(point.y.count);
    Point { x, y }
}
