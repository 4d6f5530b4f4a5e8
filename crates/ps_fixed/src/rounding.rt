//! Rounding to whole counts, and the range of a real.
#![tactic(auto, using(crate::proofs::Floors::real_of_inside, crate::proofs::Floors::real_of_outside, crate::proofs::Floors::nearest_count_is))]

ghost use Rattle.std.specs.Prelude.{◌≡◌, ◌+◌, ◌*◌, ◌^◌, ◌<◌, ◌≤◌, pos, ◌+ℤ◌, ◌*ℤ◌, ◌≤ℤ◌, ◌<ℤ◌, FitsSigned, unsigned_abs};
ghost use Rattle.std.specs.Int.{w128};
ghost use Rattle.ps_fixed.specs.Rounding.{nearest_quotient, nearest_count, real_of};
ghost use Rattle.ps_fixed.specs.Arithmetic.{nearest_real};

use crate::Real;

/// The result leaves the range of a real, or there is none.
#[derive(Clone, Copy, Debug, PartialEq, Eq)]
pub struct Undefined;

const HALF: i128 = 0x80_0000;

/// The real of that count, where it is one.
pub fn real_of(count: i128) -> Result<Real, Undefined>
    ensures { result ≡ real_of count }
{
    if count < i64::MIN as i128 {
        Err(Undefined)
    } else if count > i64::MAX as i128 {
        Err(Undefined)
    } else {
        Ok(Real {
            count: count as i64,
        })
    }
}

/// p / 2^24, to the nearest whole number.
pub fn nearest_count(p: i128) -> i128
    requires { FitsSigned w128 (p +ℤ pos (2 ^ 23)) }
    ensures value { result ≡ nearest_count p }
    ensures low { (result *ℤ pos (2 ^ 24)) ≤ℤ (p +ℤ pos (2 ^ 23)) }
    ensures high { (p +ℤ pos (2 ^ 23)) <ℤ (result *ℤ pos (2 ^ 24) +ℤ pos (2 ^ 24)) }
{
    (p + HALF) >> 24
}

/// p / q, to the nearest whole number.
pub fn nearest_quotient(p: i128, q: u128) -> i128
    requires dividend { unsigned_abs p ≤ 2 ^ 112 }
    requires positive { 0 < q }
    requires divisor { q < 2 ^ 127 }
    ensures { result ≡ nearest_quotient p q }
{
    if p < 0 {
        -(((2 * p.unsigned_abs() + (q - 1)) / (2 * q)) as i128)
    } else {
        ((2 * p.unsigned_abs() + q) / (2 * q)) as i128
    }
}

/// The real nearest to p / d, for a divisor of either sign.
pub fn nearest_real(p: i128, d: i128) -> Result<Real, Undefined>
    requires dividend { unsigned_abs p ≤ 2 ^ 112 }
    requires divisor { unsigned_abs d < 2 ^ 127 }
    ensures { result ≡ nearest_real p d }
{
    if d == 0 {
        Err(Undefined)
    } else if d < 0 {
        real_of(nearest_quotient(-p, (-d) as u128))
    } else {
        real_of(nearest_quotient(p, d as u128))
    }
}
