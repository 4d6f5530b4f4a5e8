//! The texts of numbers.
ghost use Rattle.std.specs.Prelude.{◌≡◌, ◌++◌, ◌+◌, ◌-◌, ◌^◌, ◌<◌, ◌≤◌, OnOk};
ghost use Rattle.std.specs.Fmt.{signed_decimal};
ghost use Rattle.plain_texts.specs.Reals as spec;

use itoa::Buffer;
use ps_kinds::{NoMemory, Real, Text};

/// Appends the decimal digits of an integer, with its sign where it is negative.
pub fn push_integer(text: &mut Text, n: i32) -> Result<(), NoMemory>
    ensures { OnOk result (text.new ≡ text.old ++ signed_decimal n) }
{
    let mut buffer = Buffer::new();
    text.extend(buffer.format(n).as_bytes())
}

/// A count of 2^-24 in millionths, to the nearest, halves upward.
fn millionths(count: u64) -> u64
    requires { count ≤ 2 ^ 63 }
    ensures { result ≡ spec.millionths count }
{
    ((count as u128 * 1_000_000 + (1 << 23)) >> 24) as u64
}

fn digit_code(digit: u32) -> u8
    requires { digit < 10 }
    ensures { result ≡ 48 + digit }
{
    b'0' + digit as u8
}

/// What the first of so many digits counts.
#[tactic(auto, using(crate::proofs::Digits::first_unit_positive))]
fn first_unit(places: u32) -> u32
    requires some { 0 < places }
    requires few { places ≤ 5 }
    ensures value { result ≡ 10 ^ (places - 1) }
    ensures positive { 0 < result }
{
    10u32.pow(places - 1)
}

/// Appends the digits of a number of at most so many, without the zeros at their end.
#[tactic(auto, using(crate::proofs::Digits::nothing_more, crate::proofs::Digits::grows_by_one, crate::proofs::Digits::some_places, crate::proofs::Digits::digit_small, crate::proofs::Digits::rest_small))]
fn push_digits(text: &mut Text, rest: u32, places: u32) -> Result<(), NoMemory>
    requires places { places ≤ 5 }
    requires rest { rest < 10 ^ places }
    ensures { OnOk result (text.new ≡ text.old ++ spec.digits_to_the_last places rest) }
{
    if rest == 0 {
        return Ok(());
    }
    let unit = first_unit(places);
    text.push(digit_code(rest / unit))?;
    push_digits(text, rest % unit, places - 1)
}

/// Appends what stands behind the point of a real, of which so many millionths are left there.
fn push_fraction(text: &mut Text, rest: u32) -> Result<(), NoMemory>
    requires { rest < 10 ^ 6 }
    ensures { OnOk result (text.new ≡ text.old ++ spec.fraction rest) }
{
    text.push(digit_code(rest / 100_000))?;
    push_digits(text, rest % 100_000, 5)
}

fn push_sign(text: &mut Text, negative: bool) -> Result<(), NoMemory>
    ensures { OnOk result (text.new ≡ text.old ++ spec.sign negative) }
{
    if negative { text.push(b'-') } else { Ok(()) }
}

/// Appends a real with up to six digits behind its point, and one at least.
pub fn push_real(text: &mut Text, real: Real) -> Result<(), NoMemory>
    ensures { OnOk result (text.new ≡ text.old ++ spec.real_text real.count) }
{
    let millionths = millionths(real.count.unsigned_abs());
    let mut buffer = Buffer::new();
    push_sign(text, real.count < 0 && millionths > 0)?;
    text.extend(buffer.format(millionths / 1_000_000).as_bytes())?;
    text.push(b'.')?;
    push_fraction(text, (millionths % 1_000_000) as u32)
}
