//! The real nearest to a decimal.
#![tactic(auto, using(crate::proofs::Floors::real_of_inside, crate::proofs::Floors::real_of_outside))]

ghost use Rattle.std.specs.Prelude.{◌≡◌, ◌*◌, ◌^◌, ◌<◌, ◌≤◌, unsigned_abs};
ghost use Rattle.ps_fixed.specs.Decimals.{decimal_of, signed_by, decimal_up, decimal_down};

use crate::rounding::{Undefined, nearest_quotient, real_of};
use ps_shapes::Real;

const ONE: u128 = ps_shapes::ONE as u128;

fn signed_by(negative: bool, magnitude: u128) -> i128
    requires { magnitude < 2 ^ 127 }
    ensures value { result ≡ signed_by negative magnitude }
    ensures size { unsigned_abs result ≡ magnitude }
{
    if negative {
        -(magnitude as i128)
    } else {
        magnitude as i128
    }
}

#[tactic(auto, using(crate::proofs::DecimalProofs::power_small))]
fn power_of_ten(n: u32) -> u128
    requires { n ≤ 38 }
    ensures value { result ≡ 10 ^ n }
    ensures positive { 0 < result }
    ensures bound { result < 2 ^ 127 }
    ensures small { n ≤ 12 → result ≤ 10 ^ 12 }
{
    10u128.pow(n)
}

#[tactic(auto, using(crate::proofs::DecimalProofs::product_small))]
fn scaled_up(m: u64, n: u32) -> u128
    requires digits { m < 10 ^ 18 }
    requires power { n ≤ 12 }
    ensures value { result ≡ m * 2 ^ 24 * 10 ^ n }
    ensures bound { result < 2 ^ 127 }
{
    m as u128 * ONE * power_of_ten(n)
}

// m·10^n. From 10^13 on it leaves the range.
#[tactic(auto, using(crate::proofs::DecimalProofs::too_great), unfolding(crate::specs::Decimals::decimal_up))]
fn decimal_up(negative: bool, m: u64, n: u64) -> Result<Real, Undefined>
    requires positive { 0 < m }
    requires digits { m < 10 ^ 18 }
    ensures { result ≡ decimal_up negative m n }
{
    if n > 12 {
        Err(Undefined)
    } else {
        real_of(signed_by(negative, scaled_up(m, n as u32)))
    }
}

// m / 10^n. From 10^39 on it is nearest to 0.
#[tactic(auto, using(crate::proofs::DecimalProofs::too_small), unfolding(crate::specs::Decimals::decimal_down))]
fn decimal_down(negative: bool, m: u64, n: u64) -> Result<Real, Undefined>
    requires digits { m < 10 ^ 18 }
    ensures { result ≡ decimal_down negative m n }
{
    if n > 38 {
        Ok(Real { count: 0 })
    } else {
        let numerator = signed_by(negative, m as u128 * ONE);
        real_of(nearest_quotient(numerator, power_of_ten(n as u32)))
    }
}

/// m·10^exponent, or its negative, to the nearest count, halves upward. Undefined where it leaves the range.
#[tactic(auto, using(crate::proofs::DecimalProofs::nothing))]
pub fn decimal(negative: bool, m: u64, exponent: i64) -> Result<Real, Undefined>
    requires { m < 10 ^ 18 }
    ensures { result ≡ decimal_of negative m exponent }
{
    if m == 0 {
        Ok(Real { count: 0 })
    } else if exponent < 0 {
        decimal_down(negative, m, exponent.unsigned_abs())
    } else {
        decimal_up(negative, m, exponent as u64)
    }
}
