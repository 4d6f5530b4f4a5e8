//! Sums, products and quotients.
#![tactic(auto, using(crate::proofs::Floors::real_of_inside, crate::proofs::Floors::real_of_outside, crate::proofs::Floors::nearest_count_is))]

ghost use Rattle.std.specs.Prelude.{◌≡◌, ◌+◌, ◌-◌, ◌*◌, ◌/◌, ◌^◌, ◌<◌, ◌≤◌, pos, neg_ℤ, ◌*ℤ◌, ◌≤ℤ◌, unsigned_abs};
ghost use Rattle.ps_fixed.specs.Rounding.{nearest_quotient};
ghost use Rattle.ps_fixed.specs.Arithmetic.{sum_of, difference_of, product_of, quotient_of};

use crate::rounding::{Undefined, nearest_count, real_of};
use ps_shapes::Real;
use std::num::{nearest_u64_to_f64, saturating_f64_to_u64};

const ONE: u128 = ps_shapes::ONE as u128;

/// The whole product, in counts of 2^-48.
pub fn product(a: Real, b: Real) -> i128
    ensures value { result ≡ a.count *ℤ b.count }
    ensures bound { unsigned_abs result ≤ 2 ^ 126 }
    ensures low { neg_ℤ (pos (2 ^ 126 - 2 ^ 63)) ≤ℤ result }
{
    a.count as i128 * b.count as i128
}

/// a + b. Undefined where it leaves the range.
pub fn add(a: Real, b: Real) -> Result<Real, Undefined>
    ensures { result ≡ sum_of a b }
{
    real_of(a.count as i128 + b.count as i128)
}

/// a - b. Undefined where it leaves the range.
pub fn sub(a: Real, b: Real) -> Result<Real, Undefined>
    ensures { result ≡ difference_of a b }
{
    real_of(a.count as i128 - b.count as i128)
}

/// a·b. Undefined where it leaves the range.
pub fn mul(a: Real, b: Real) -> Result<Real, Undefined>
    ensures { result ≡ product_of a b }
{
    real_of(nearest_count(product(a, b)))
}

// dividend / divisor. Where the guess is right, no division of 128 bits is done.
#[tactic(auto, using(crate::proofs::Floors::quotient_is))]
fn quotient_by_guess(guess: u64, dividend: u128, divisor: u128) -> u128
    requires positive { 0 < divisor }
    requires divisor { divisor ≤ 2 ^ 64 }
    ensures { result ≡ dividend / divisor }
{
    let product = guess as u128 * divisor;
    if product <= dividend && dividend - product < divisor {
        guess as u128
    } else {
        dividend / divisor
    }
}

// (2·a·2^24 + half) / (2·b): a·2^24 / b to the nearest, halves up where half is b, and down where it is b - 1.
#[tactic(auto, using(crate::proofs::Floors::quotient_bound))]
fn scaled_magnitude(a: u64, b: u64, half: u64) -> u128
    requires dividend { a ≤ 2 ^ 63 }
    requires positive { 0 < b }
    requires divisor { b ≤ 2 ^ 63 }
    requires half { half ≤ b }
    ensures value { result ≡ (2 * (a * 2 ^ 24) + half) / (2 * b) }
    ensures bound { result < 2 ^ 90 }
{
    let ratio = nearest_u64_to_f64(a) / nearest_u64_to_f64(b);
    let guess = saturating_f64_to_u64(ratio * 16777216.0 + 0.5);
    let dividend = 2 * (a as u128 * ONE) + half as u128;
    quotient_by_guess(guess, dividend, 2 * b as u128)
}

// a·2^24 / b, to the nearest whole number.
fn scaled_quotient(a: i128, b: u64) -> i128
    requires dividend { unsigned_abs a ≤ 2 ^ 63 }
    requires positive { 0 < b }
    requires divisor { b ≤ 2 ^ 63 }
    ensures { result ≡ nearest_quotient (a *ℤ pos (2 ^ 24)) b }
{
    let magnitude = a.unsigned_abs() as u64;
    if a < 0 {
        -(scaled_magnitude(magnitude, b, b - 1) as i128)
    } else {
        scaled_magnitude(magnitude, b, b) as i128
    }
}

/// a / b. Undefined where b is 0, and where it leaves the range.
pub fn div(a: Real, b: Real) -> Result<Real, Undefined>
    ensures { result ≡ quotient_of a b }
{
    if b.count == 0 {
        Err(Undefined)
    } else if b.count < 0 {
        real_of(scaled_quotient(-(a.count as i128), b.count.unsigned_abs()))
    } else {
        real_of(scaled_quotient(a.count as i128, b.count.unsigned_abs()))
    }
}
