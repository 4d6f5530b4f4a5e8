//! Whole roots and rounded quotients.
ghost use Rattle.std.specs.Prelude.{◌≡◌, ◌+◌, ◌*◌, ◌/◌, ◌^◌, ◌<◌, ◌≤◌, pos, ◌*ℤ◌, unsigned_abs};
ghost use Rattle.ps_fixed.specs.Roots.{IsRoot, root_from};
ghost use Rattle.ps_fixed.specs.Rounding.{nearest_quotient};
ghost use Rattle.stroke_build.specs.Sides.{length_of, share};

use std::num::{nearest_u64_to_f64, saturating_f64_to_u64};

/// The greatest whole root of 64 bits.
const GREATEST: u64 = 0xffff_ffff;

fn square(r: u64) -> u128
    requires { r ≤ 2 ^ 32 }
    ensures { result ≡ r * r }
{
    r as u128 * r as u128
}

/// The greatest r with r·r ≤ n. The guess makes it fast; the loops make it right, whatever the guess.
fn root(n: u64) -> u64
    ensures root { IsRoot result n }
    ensures bound { result < 2 ^ 32 }
{
    let radicand = n as u128;
    let guess = saturating_f64_to_u64(nearest_u64_to_f64(n).sqrt());
    let mut root = guess.min(GREATEST);
    'down: while square(root) > radicand {
        root -= 1;
    }
    'up: while square(root + 1) <= radicand {
        root += 1;
    }
    root
}

fn squares(dx: i64, dy: i64) -> u64
    requires dx { unsigned_abs dx ≤ 2 ^ 31 }
    requires dy { unsigned_abs dy ≤ 2 ^ 31 }
    ensures { result ≡ unsigned_abs dx * unsigned_abs dx + unsigned_abs dy * unsigned_abs dy }
{
    dx.unsigned_abs() * dx.unsigned_abs() + dy.unsigned_abs() * dy.unsigned_abs()
}

/// The whole length of the distance (dx, dy), which is no less than either.
#[tactic(auto, using(crate::proofs::Quotients::length_is, crate::proofs::Quotients::across_below, crate::proofs::Quotients::down_below))]
pub(crate) fn length(dx: i64, dy: i64) -> u32
    requires dx { unsigned_abs dx ≤ 2 ^ 31 }
    requires dy { unsigned_abs dy ≤ 2 ^ 31 }
    ensures value { result ≡ length_of dx dy }
    ensures across { unsigned_abs dx ≤ result }
    ensures down { unsigned_abs dy ≤ result }
{
    root(squares(dx, dy)) as u32
}

/// p / q, to the nearest whole number.
pub fn nearest_quotient(p: i128, q: u128) -> i128
    requires dividend { unsigned_abs p ≤ 2 ^ 112 }
    requires positive { 0 < q }
    requires divisor { q < 2 ^ 112 }
    ensures value { result ≡ nearest_quotient p q }
    ensures bound { unsigned_abs result ≤ unsigned_abs p }
{
    if p < 0 {
        -(rounded(p.unsigned_abs(), q - 1, q) as i128)
    } else {
        rounded(p.unsigned_abs(), q, q) as i128
    }
}

/// (2·p + half) / (2·q).
#[tactic(auto, using(crate::proofs::Quotients::quotient_at_most))]
fn rounded(p: u128, half: u128, q: u128) -> u128
    requires dividend { p ≤ 2 ^ 112 }
    requires positive { 0 < q }
    requires divisor { q < 2 ^ 112 }
    requires half { half ≤ q }
    ensures value { result ≡ (2 * p + half) / (2 * q) }
    ensures bound { result ≤ p }
{
    (2 * p + half) / (2 * q)
}

/// d·radius / length, to the nearest whole number.
pub(crate) fn share(d: i64, radius: u32, length: u32) -> i32
    requires within { unsigned_abs d ≤ length }
    requires positive { 0 < length }
    requires radius { radius < 2 ^ 31 }
    ensures { result ≡ share d radius length }
{
    let magnitude = d.unsigned_abs() as u128 * radius as u128;
    if d < 0 {
        -(part(magnitude, length as u128 - 1, length as u128, radius) as i32)
    } else {
        part(magnitude, length as u128, length as u128, radius) as i32
    }
}

/// (2·p + half) / (2·length), which is at most the radius.
#[tactic(auto, using(crate::proofs::Quotients::part_at_most))]
fn part(p: u128, half: u128, length: u128, radius: u32) -> u32
    requires dividend { p ≤ length * radius }
    requires positive { 0 < length }
    requires length { length < 2 ^ 32 }
    requires half { half ≤ length }
    ensures value { result ≡ (2 * p + half) / (2 * length) }
    ensures bound { result ≤ radius }
{
    ((2 * p + half) / (2 * length)) as u32
}
