//! Numbers from texts and texts from numbers.
ghost use Rattle.std.specs.Prelude.{◌≡◌, ◌++◌, ◌^◌, ◌<◌, ◌≤◌, length, true, IfOk, OnOk};
ghost use Rattle.std.specs.Fmt.{digits, digit_glyph};
ghost use Rattle.ps_objects.specs.Operands.{Reads};
ghost use Rattle.text_ops.specs.Numbers as spec;

use plain_texts::{push_integer, push_real};
use ps_kinds::{ErrorName, NoMemory, Number, ONE, Real, Refusal, Text};
use ps_scan::{Scan, Token, next};
use std::alloc::Global;

/// The number, where nothing but white space and comments is left.
fn number_alone(number: Number, rest: Scan) -> Result<Number, ErrorName>
    ensures { result ≡ spec.number_alone number rest }
{
    match rest {
        Scan::End => Ok(number),
        _ => Err(ErrorName::TypeCheck),
    }
}

/// The number that a token is, alone in its text: typecheck.
fn number_of_token(alloc: Global, text: &[u8], place: u64, token: Token) -> Result<Number, Refusal>
    requires { place ≤ length text.now }
    ensures { Reads (spec.number_of_token text.now place token) result }
{
    match token {
        Token::Integer(n) => Ok(number_alone(Number::Integer(n), next(alloc, text, place)?)?),
        Token::Real(real) => Ok(number_alone(Number::Real(real), next(alloc, text, place)?)?),
        _ => Err(Refusal::Error(ErrorName::TypeCheck)),
    }
}

/// The one number that a text spells: typecheck.
pub(crate) fn number_in(alloc: Global, text: &[u8]) -> Result<Number, Refusal>
    ensures { Reads (spec.number_in text.now) result }
{
    match next(alloc, text, 0)? {
        Scan::Token { token, next } => number_of_token(alloc, text, next, token),
        _ => Err(Refusal::Error(ErrorName::TypeCheck)),
    }
}

fn within_32_bits(whole: i64) -> Result<i32, ErrorName>
    ensures { result ≡ spec.within_32_bits whole }
{
    if whole >= -2_147_483_648 && whole <= 2_147_483_647 {
        Ok(whole as i32)
    } else {
        Err(ErrorName::RangeCheck)
    }
}

/// The number without its fraction: rangecheck.
pub(crate) fn integer_from(number: Number) -> Result<i32, ErrorName>
    ensures { result ≡ spec.integer_from number }
{
    match number {
        Number::Integer(n) => Ok(n),
        Number::Real(real) => within_32_bits(real.count / ONE),
    }
}

/// The number as a real.
pub(crate) fn real_from(number: Number) -> Real
    ensures { result ≡ spec.real_from number }
{
    match number {
        Number::Integer(n) => Real {
            count: n as i64 * ONE,
        },
        Number::Real(real) => real,
    }
}

/// A base from 2 to 36: rangecheck.
pub(crate) fn base_of(i: i32) -> Result<u32, ErrorName>
    ensures value { result ≡ spec.base_of i }
    ensures least { IfOk result (λ base. 2 ≤ base) }
    ensures most { IfOk result (λ base. base ≤ 36) }
{
    if i >= 2 && i <= 36 {
        Ok(i as u32)
    } else {
        Err(ErrorName::RangeCheck)
    }
}

fn glyph(digit: u32) -> u8
    requires { digit < 36 }
    ensures { result ≡ digit_glyph true digit }
{
    if digit < 10 {
        b'0' + digit as u8
    } else {
        b'A' + (digit - 10) as u8
    }
}

/// Appends the digits of a number of at most `bits` bits in a base.
#[tactic(auto, using(crate::proofs::Bases::first_digits, crate::proofs::Bases::last_digit, crate::proofs::Bases::shorter, crate::proofs::Bases::some_bits))]
fn push_digits(text: &mut Text, base: u32, n: u32, bits: u32) -> Result<(), NoMemory>
    requires least { 2 ≤ base }
    requires most { base ≤ 36 }
    requires some { 0 < bits }
    requires n { n < 2 ^ bits }
    ensures { OnOk result (text.new ≡ text.old ++ spec.digits_within bits base n) }
{
    let higher = n / base;
    if higher == 0 {
        return text.push(glyph(n % base));
    }
    push_digits(text, base, higher, bits - 1)?;
    text.push(glyph(n % base))
}

/// The digits of 32 bits without a sign in a base, in capitals.
#[tactic(auto, using(crate::proofs::Bases::enough_bits))]
fn digits_of(alloc: Global, base: u32, n: u32) -> Result<Text, NoMemory>
    requires least { 2 ≤ base }
    requires most { base ≤ 36 }
    ensures { IfOk result (λ text. text ≡ digits base true n) }
{
    let mut text = Text::new(alloc);
    push_digits(&mut text, base, n, 32)?;
    Ok(text)
}

/// The plain text of a number.
fn plain_number(alloc: Global, number: Number) -> Result<Text, NoMemory>
    ensures { IfOk result (λ text. text ≡ spec.plain_number number) }
{
    let mut text = Text::new(alloc);
    match number {
        Number::Integer(n) => push_integer(&mut text, n)?,
        Number::Real(real) => push_real(&mut text, real)?,
    }
    Ok(text)
}

/// The text of a number in a base: rangecheck.
pub(crate) fn number_text(alloc: Global, base: u32, number: Number) -> Result<Text, Refusal>
    requires least { 2 ≤ base }
    requires most { base ≤ 36 }
    ensures { Reads (spec.number_text base number) result }
{
    if base == 10 {
        return Ok(plain_number(alloc, number)?);
    }
    let n = integer_from(number)?;
    Ok(digits_of(alloc, base, n.cast_unsigned())?)
}
