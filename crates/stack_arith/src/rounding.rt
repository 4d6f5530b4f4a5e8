//! Absolute values, negation and rounding (section 8.2 of the language manual).
ghost use Rattle.std.specs.Prelude.{◌≡◌, pos, ◌*ℤ◌, ◌≤ℤ◌, ◌^◌, negsuc};
ghost use Rattle.ps_operator.specs.Owes.{DoesAlone};
ghost use Rattle.stack_arith.specs.Numbers.{defined};
ghost use Rattle.ps_fixed.specs.Rounding.{real_of};
ghost use Rattle.stack_arith.specs.Rounding as spec;

use crate::numbers::{defined, push_number};
use ps_fixed::real_of;
use ps_kinds::{ErrorName, Number, Operands, Real, Refusal, State};

const HALF: i128 = 0x80_0000;

/// A whole number as a real: undefinedresult.
fn whole_real(whole: i64) -> Result<Number, ErrorName>
    ensures { result ≡ defined (real_of (whole *ℤ pos 16777216)) }
{
    defined(real_of(whole as i128 * 16_777_216))
}

/// The absolute value: undefinedresult.
fn magnitude(a: Number) -> Result<Number, ErrorName>
    ensures { result ≡ spec.magnitude a }
{
    match a {
        Number::Integer(n) => match n.checked_abs() {
            Some(magnitude) => Ok(Number::Integer(magnitude)),
            None => whole_real(-(n as i64)),
        },
        Number::Real(real) => defined(real_of((real.count as i128).abs())),
    }
}

fn negative(a: Number) -> Result<Number, ErrorName>
    ensures { result ≡ spec.negative a }
{
    match a {
        Number::Integer(n) => match n.checked_neg() {
            Some(negative) => Ok(Number::Integer(negative)),
            None => whole_real(-(n as i64)),
        },
        Number::Real(real) => defined(real_of(-(real.count as i128))),
    }
}

/// The greatest whole number not above so many counts.
fn floor_of_count(count: i64) -> i64
    ensures { result ≡ spec.floor_of_count count }
{
    count >> 24
}

/// The least whole number not below so many counts.
fn ceiling_of_count(count: i64) -> i64
    ensures { result ≡ spec.ceiling_of_count count }
{
    let down = -(count as i128) >> 24;
    -down as i64
}

/// The nearest whole number to so many counts, the greater of two that are equally near.
fn nearest_to_count(count: i64) -> i64
    ensures { result ≡ spec.nearest_to_count count }
{
    ((count as i128 + HALF) >> 24) as i64
}

/// The whole part of so many counts.
fn whole_part(count: i64) -> i64
    ensures { result ≡ spec.whole_part count }
{
    count / 16_777_216
}

/// The least whole number not below a number: undefinedresult.
fn rounded_up(a: Number) -> Result<Number, ErrorName>
    ensures { result ≡ spec.rounded_up a }
{
    match a {
        Number::Integer(_) => Ok(a),
        Number::Real(real) => whole_real(ceiling_of_count(real.count)),
    }
}

/// The greatest whole number not above a number: undefinedresult.
fn rounded_down(a: Number) -> Result<Number, ErrorName>
    ensures { result ≡ spec.rounded_down a }
{
    match a {
        Number::Integer(_) => Ok(a),
        Number::Real(real) => whole_real(floor_of_count(real.count)),
    }
}

/// The nearest whole number, the greater of two that are equally near: undefinedresult.
fn rounded_to_nearest(a: Number) -> Result<Number, ErrorName>
    ensures { result ≡ spec.rounded_to_nearest a }
{
    match a {
        Number::Integer(_) => Ok(a),
        Number::Real(real) => whole_real(nearest_to_count(real.count)),
    }
}

/// A number without its fraction: undefinedresult.
fn without_fraction(a: Number) -> Result<Number, ErrorName>
    ensures { result ≡ spec.without_fraction a }
{
    match a {
        Number::Integer(_) => Ok(a),
        Number::Real(real) => whole_real(whole_part(real.count)),
    }
}

pub(crate) fn abs(state: &mut State) -> Result<(), Refusal>
    ensures { DoesAlone spec.abs state.old result state.new }
{
    let operands = &mut state.regs.operands;
    operands.need(1)?;
    let a = operands.number(0)?;
    push_number(operands, 1, magnitude(a)?)?;
    Ok(())
}

pub(crate) fn neg(state: &mut State) -> Result<(), Refusal>
    ensures { DoesAlone spec.neg state.old result state.new }
{
    let operands = &mut state.regs.operands;
    operands.need(1)?;
    let a = operands.number(0)?;
    push_number(operands, 1, negative(a)?)?;
    Ok(())
}

pub(crate) fn ceiling(state: &mut State) -> Result<(), Refusal>
    ensures { DoesAlone spec.ceiling state.old result state.new }
{
    let operands = &mut state.regs.operands;
    operands.need(1)?;
    let a = operands.number(0)?;
    push_number(operands, 1, rounded_up(a)?)?;
    Ok(())
}

pub(crate) fn floor(state: &mut State) -> Result<(), Refusal>
    ensures { DoesAlone spec.floor state.old result state.new }
{
    let operands = &mut state.regs.operands;
    operands.need(1)?;
    let a = operands.number(0)?;
    push_number(operands, 1, rounded_down(a)?)?;
    Ok(())
}

pub(crate) fn round(state: &mut State) -> Result<(), Refusal>
    ensures { DoesAlone spec.round state.old result state.new }
{
    let operands = &mut state.regs.operands;
    operands.need(1)?;
    let a = operands.number(0)?;
    push_number(operands, 1, rounded_to_nearest(a)?)?;
    Ok(())
}

pub(crate) fn truncate(state: &mut State) -> Result<(), Refusal>
    ensures { DoesAlone spec.truncate state.old result state.new }
{
    let operands = &mut state.regs.operands;
    operands.need(1)?;
    let a = operands.number(0)?;
    push_number(operands, 1, without_fraction(a)?)?;
    Ok(())
}
