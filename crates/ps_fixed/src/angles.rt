//! Sines, cosines and arc tangents, in degrees.
ghost use Rattle.std.specs.Prelude.{◌≡◌, ◌+◌, ◌*◌, ◌/◌, ◌%◌, ◌^◌, ◌<◌, ◌≤◌, pos, neg_ℤ, ◌+ℤ◌, ◌-ℤ◌, ◌*ℤ◌, ◌≤ℤ◌, ◌<ℤ◌, IfOk};
ghost use Rattle.std.specs.Int.{int_min};
ghost use Rattle.ps_fixed.specs.Sines.{quarter_turn, full_turn, reduced_angle, next_term, series_sum, series_at, sine_series, sine_at, sine_of, cosine_of};
ghost use Rattle.ps_fixed.specs.ArcTangents.{is_no_steeper, bisection, IsBracketed, arc_tangent};

use crate::rounding::Undefined;
use ps_shapes::{ONE, Real};

const QUARTER_TURN: u64 = 90 << 24;

const HALF_TURN: u64 = 180 << 24;

const FULL_TURN: u64 = 360 << 24;

// π / 180 in counts of 2^-40.
const RADIANS: u128 = 19190098068;

// ---- sines

#[tactic(auto, unfolding(crate::specs::Sines::reduced_angle))]
fn reduced_angle(count: i64) -> u64
    ensures value { result ≡ reduced_angle count }
    ensures bound { result < full_turn }
{
    count.rem_euclid(FULL_TURN as i64) as u64
}

// The next term of the series. It is no greater than the last.
#[tactic(auto, using(crate::proofs::Series::term_less))]
fn next_term(t: u64, x2: u64, n: u64) -> u64
    requires t { t < 2 ^ 41 }
    requires x2 { x2 ≤ n * 2 ^ 40 }
    requires wide { x2 < 2 ^ 42 }
    requires positive { 0 < n }
    ensures value { result ≡ next_term t x2 n }
    ensures less { result ≤ t }
{
    ((t as u128 * x2 as u128) >> 40) as u64 / n
}

fn alternating_sum(t1: u64, t3: u64, t5: u64, t7: u64, t9: u64, t11: u64, t13: u64) -> u64
    requires first { t1 < 2 ^ 41 }
    requires third { t3 ≤ t1 }
    requires fifth { t5 ≤ t3 }
    requires seventh { t7 ≤ t5 }
    requires ninth { t9 ≤ t7 }
    requires eleventh { t11 ≤ t9 }
    requires thirteenth { t13 ≤ t11 }
    ensures value { pos result ≡
        pos t1 -ℤ pos t3 +ℤ pos t5 -ℤ pos t7 +ℤ pos t9 -ℤ pos t11 +ℤ pos t13 }
    ensures bound { result < 2 ^ 44 }
{
    (t1 - t3) + (t5 - t7) + (t9 - t11) + t13
}

// A sum in counts of 2^-40 as counts, and no more than 1.
fn capped_sine(sum: u64) -> i64
    requires { sum < 2 ^ 44 }
    ensures value { result ≡ int_min (pos (2 ^ 24)) (pos ((sum + 2 ^ 15) / 2 ^ 16)) }
    ensures low { pos 0 ≤ℤ result }
    ensures high { result ≤ℤ pos (2 ^ 24) }
{
    ONE.min(((sum + 0x8000) >> 16) as i64)
}

fn series_sum(t1: u64, t3: u64, t5: u64, t7: u64, t9: u64, t11: u64, t13: u64) -> i64
    requires first { t1 < 2 ^ 41 }
    requires third { t3 ≤ t1 }
    requires fifth { t5 ≤ t3 }
    requires seventh { t7 ≤ t5 }
    requires ninth { t9 ≤ t7 }
    requires eleventh { t11 ≤ t9 }
    requires thirteenth { t13 ≤ t11 }
    ensures value { result ≡ series_sum t1 t3 t5 t7 t9 t11 t13 }
    ensures low { pos 0 ≤ℤ result }
    ensures high { result ≤ℤ pos (2 ^ 24) }
{
    capped_sine(alternating_sum(t1, t3, t5, t7, t9, t11, t13))
}

fn series_at(x: u64, x2: u64) -> i64
    requires first { x < 2 ^ 41 }
    requires square { x2 ≤ 3 * 2 ^ 40 }
    ensures value { result ≡ series_at x x2 }
    ensures low { pos 0 ≤ℤ result }
    ensures high { result ≤ℤ pos (2 ^ 24) }
{
    let t3 = next_term(x, x2, 2 * 3);
    let t5 = next_term(t3, x2, 4 * 5);
    let t7 = next_term(t5, x2, 6 * 7);
    let t9 = next_term(t7, x2, 8 * 9);
    let t11 = next_term(t9, x2, 10 * 11);
    let t13 = next_term(t11, x2, 12 * 13);
    series_sum(x, t3, t5, t7, t9, t11, t13)
}

// s in radians, in counts of 2^-40.
fn radians(s: u64) -> u64
    requires { s ≤ quarter_turn }
    ensures value { result ≡ s * 19190098068 / 2 ^ 24 }
    ensures bound { result ≤ 1727108826120 }
{
    ((s as u128 * RADIANS) >> 24) as u64
}

fn square(x: u64) -> u64
    requires { x ≤ 1727108826120 }
    ensures value { result ≡ x * x / 2 ^ 40 }
    ensures bound { result ≤ 3 * 2 ^ 40 }
{
    ((x as u128 * x as u128) >> 40) as u64
}

#[tactic(auto, unfolding(crate::specs::Sines::sine_series))]
fn sine_series(s: u64) -> i64
    requires { s ≤ quarter_turn }
    ensures value { result ≡ sine_series s }
    ensures low { pos 0 ≤ℤ result }
    ensures high { result ≤ℤ pos (2 ^ 24) }
{
    let x = radians(s);
    let x2 = square(x);
    series_at(x, x2)
}

#[tactic(auto, unfolding(crate::specs::Sines::sine_at))]
fn sine_at(r: u64) -> i64
    requires { r < full_turn }
    ensures value { result ≡ sine_at r }
    ensures low { neg_ℤ (pos (2 ^ 24)) ≤ℤ result }
    ensures high { result ≤ℤ pos (2 ^ 24) }
{
    let quarter = r / QUARTER_TURN;
    let s = r % QUARTER_TURN;
    if s == 0 {
        match quarter {
            0 => 0,
            1 => ONE,
            2 => 0,
            _ => -ONE,
        }
    } else {
        match quarter {
            0 => sine_series(s),
            1 => sine_series(QUARTER_TURN - s),
            2 => -sine_series(s),
            _ => -sine_series(QUARTER_TURN - s),
        }
    }
}

fn sine(count: i64) -> i64
    ensures value { result ≡ sine_of count }
    ensures low { neg_ℤ (pos (2 ^ 24)) ≤ℤ result }
    ensures high { result ≤ℤ pos (2 ^ 24) }
{
    sine_at(reduced_angle(count))
}

fn quarter_turn_on(r: u64) -> u64
    requires { r < full_turn }
    ensures value { result ≡ (r + quarter_turn) % full_turn }
    ensures bound { result < full_turn }
{
    (r + QUARTER_TURN) % FULL_TURN
}

// The angle is reduced first, since 90 degrees on may leave an i64.
#[tactic(auto, using(crate::proofs::Series::reduced_later))]
fn cosine(count: i64) -> i64
    ensures value { result ≡ cosine_of count }
    ensures low { neg_ℤ (pos (2 ^ 24)) ≤ℤ result }
    ensures high { result ≤ℤ pos (2 ^ 24) }
{
    sine_at(quarter_turn_on(reduced_angle(count)))
}

/// The sine of a degrees.
pub fn sin(a: Real) -> Real
    ensures value { result ≡ record { count = sine_of a.count } }
    ensures low { neg_ℤ (pos (2 ^ 24)) ≤ℤ result.count }
    ensures high { result.count ≤ℤ pos (2 ^ 24) }
{
    Real {
        count: sine(a.count),
    }
}

/// The cosine of a degrees.
pub fn cos(a: Real) -> Real
    ensures value { result ≡ record { count = cosine_of a.count } }
    ensures low { neg_ℤ (pos (2 ^ 24)) ≤ℤ result.count }
    ensures high { result.count ≤ℤ pos (2 ^ 24) }
{
    Real {
        count: cosine(a.count),
    }
}

// ---- arc tangents

fn times(sine: i64, side: u64) -> i128
    requires low { neg_ℤ (pos (2 ^ 24)) ≤ℤ sine }
    requires high { sine ≤ℤ pos (2 ^ 24) }
    ensures { result ≡ sine *ℤ pos side }
{
    sine as i128 * side as i128
}

#[tactic(auto, unfolding(crate::specs::ArcTangents::is_no_steeper))]
fn is_no_steeper(place: u64, num: u64, den: u64) -> bool
    requires { place < 90 * 65536 }
    ensures { result ≡ is_no_steeper place num den }
{
    let angle = place as i64 * 256;
    times(sine(angle), den) <= times(cosine(angle), num)
}

// The place of the angle whose tangent is num / den, in 256 counts, from 0 to below 90 degrees.
#[tactic(auto, using(crate::proofs::Halving::step_low, crate::proofs::Halving::step_high, crate::proofs::Halving::at_end))]
fn bisection(num: u64, den: u64) -> u64
    ensures value { result ≡ bisection 0 (90 * 65536) num den }
    ensures bound { result < 90 * 65536 }
    ensures bracket { IsBracketed result num den }
{
    let mut low = 0;
    let mut high = 90 * 65536;
    'halve: while high - low > 1 {
        let middle = (low + high) / 2;
        if is_no_steeper(middle, num, den) {
            low = middle;
        } else {
            high = middle;
        }
    }
    low
}

fn angle_at(count: u64) -> Result<Real, Undefined>
    requires { count < full_turn }
    ensures { result ≡ Ok (record { count = pos count }) }
{
    Ok(Real {
        count: count as i64,
    })
}

/// The angle of the point (den, num), from 0 to below 360 degrees. Undefined at the origin.
pub fn atan(num: Real, den: Real) -> Result<Real, Undefined>
    ensures value { result ≡ arc_tangent num.count den.count }
    ensures range { IfOk result (λ x. (pos 0 ≤ℤ x.count) × (x.count <ℤ pos full_turn)) }
{
    if num.count == 0 {
        if den.count == 0 {
            Err(Undefined)
        } else if den.count < 0 {
            angle_at(HALF_TURN)
        } else {
            angle_at(0)
        }
    } else if den.count == 0 {
        if num.count < 0 {
            angle_at(HALF_TURN + QUARTER_TURN)
        } else {
            angle_at(QUARTER_TURN)
        }
    } else {
        let acute = 256 * bisection(num.count.unsigned_abs(), den.count.unsigned_abs());
        if num.count < 0 {
            if den.count < 0 {
                angle_at(HALF_TURN + acute)
            } else if acute == 0 {
                angle_at(0)
            } else {
                angle_at(FULL_TURN - acute)
            }
        } else if den.count < 0 {
            angle_at(HALF_TURN - acute)
        } else {
            angle_at(acute)
        }
    }
}
