//! The values of integers and reals as reals.
ghost use Rattle.std.specs.Prelude.{◌≡◌, ◌+◌, ◌<◌, ◌^◌, ◌≤◌, length, min, pos, neg_ℤ, ◌+ℤ◌, ◌-ℤ◌, ◌≤ℤ◌};
ghost use Rattle.ps_scan.specs.Numbers.{real_value};
ghost use Rattle.ps_scan.specs.Significands.{digit_behind, IsSignificand, capped_exponent, IsNear};

use crate::numbers::{
    MOST, after, digit_value, digits_value, exponent_place, is_negative, place_of, unsigned,
};
use ps_fixed::{Undefined, decimal};
use ps_objects::Real;

/// How many digits of a number count.
const DIGITS: u64 = 18;

/// The first digits of a number from its first digit that is not 0, and how many there are in all.
#[derive(Clone, Copy)]
struct Significand {
    value: u64,
    digits: u64,
}

/// One more digit behind the others.
#[tactic(auto, using(crate::proofs::RealLemmas::power_step, crate::proofs::RealLemmas::power_limit))]
fn with_digit(before: Significand, digit: u64) -> Significand
    requires digit { digit < 10 }
    requires value { before.value < 10 ^ min before.digits DIGITS }
    requires digits { before.digits < 2 ^ 63 }
    ensures next { result ≡ digit_behind before digit }
    ensures value { result.value < 10 ^ min result.digits DIGITS }
{
    if before.digits == 0 && digit == 0 {
        return before;
    }
    let value = if before.digits < DIGITS {
        before.value * 10 + digit
    } else {
        before.value
    };
    let digits = before.digits + 1;
    Significand { value, digits }
}

/// The significand of a mantissa.
#[tactic(auto, using(crate::proofs::RealLemmas::strip_push))]
fn significand_of(mantissa: &[u8]) -> Significand
    ensures is { IsSignificand result mantissa.now }
    ensures value { result.value < 10 ^ 18 }
    ensures digits { result.digits ≤ length mantissa.now }
{
    let mut found = Significand {
        value: 0,
        digits: 0,
    };
    for byte in mantissa {
        if byte.is_ascii_digit() {
            found = with_digit(found, digit_value(*byte));
        }
    }
    found
}

/// The value of an exponent, of at most `MOST`.
fn exponent_value(bytes: &[u8]) -> i128
    ensures value { result ≡ capped_exponent MOST bytes.now }
    ensures low { neg_ℤ (pos (2 ^ 64)) ≤ℤ result }
    ensures high { result ≤ℤ pos (2 ^ 64) }
{
    match bytes {
        [] => 0,
        [_, digits @ ..] => {
            let value = i128::from(digits_value(10, unsigned(digits)));
            if is_negative(digits) { -value } else { value }
        }
    }
}

/// A power of ten that gives the same real as the exponent less the fraction's digits and more the digits that
/// don't count, and that fits its type.
fn near_scale(exponent: i128, fraction: usize, later: u64) -> i64
    requires low { neg_ℤ (pos (2 ^ 64)) ≤ℤ exponent }
    requires high { exponent ≤ℤ pos (2 ^ 64) }
    ensures { IsNear result (exponent -ℤ pos fraction +ℤ pos later) }
{
    let scale = exponent - fraction as i128 + i128::from(later);
    if scale > 100 {
        100
    } else if scale < -100 {
        -100
    } else {
        scale as i64
    }
}

/// The value of an integer or a real, to the nearest count.
pub(crate) fn real_value(row: &[u8]) -> Result<Real, Undefined>
    ensures { result ≡ real_value row.now }
{
    let bytes = unsigned(row);
    let (mantissa, exponent) = bytes.split_at(exponent_place(bytes));
    let found = significand_of(mantissa);
    let fraction = after(mantissa, place_of(mantissa, b'.'));
    let later = found.digits.saturating_sub(DIGITS);
    let scale = near_scale(exponent_value(exponent), fraction.len(), later);
    decimal(is_negative(row), found.value, scale)
}
