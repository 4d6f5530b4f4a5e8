//! Sums, differences, products and quotients (section 8.2 of the language manual).
ghost use Rattle.std.specs.Prelude.{◌≡◌};
ghost use Rattle.ps_operator.specs.Owes.{DoesAlone};
ghost use Rattle.stack_arith.specs.Arithmetic as spec;

use crate::numbers::{as_real, defined, push_number};
use ps_kinds::{ErrorName, Kind, Number, Operands, Refusal, State};
use ps_operator::push_result;

fn sum(a: Number, b: Number) -> Result<Number, ErrorName>
    ensures { result ≡ spec.sum a b }
{
    if let Number::Integer(m) = a {
        if let Number::Integer(n) = b {
            if let Some(total) = m.checked_add(n) {
                return Ok(Number::Integer(total));
            }
        }
    }
    defined(ps_fixed::add(as_real(a), as_real(b)))
}

fn difference(a: Number, b: Number) -> Result<Number, ErrorName>
    ensures { result ≡ spec.difference a b }
{
    if let Number::Integer(m) = a {
        if let Number::Integer(n) = b {
            if let Some(rest) = m.checked_sub(n) {
                return Ok(Number::Integer(rest));
            }
        }
    }
    defined(ps_fixed::sub(as_real(a), as_real(b)))
}

fn product(a: Number, b: Number) -> Result<Number, ErrorName>
    ensures { result ≡ spec.product a b }
{
    if let Number::Integer(m) = a {
        if let Number::Integer(n) = b {
            if let Some(product) = m.checked_mul(n) {
                return Ok(Number::Integer(product));
            }
        }
    }
    defined(ps_fixed::mul(as_real(a), as_real(b)))
}

/// The quotient of two integers, cut toward 0: undefinedresult.
fn whole_quotient(a: i32, b: i32) -> Result<i32, ErrorName>
    ensures { result ≡ spec.whole_quotient a b }
{
    a.checked_div(b).ok_or(ErrorName::UndefinedResult)
}

/// What the whole quotient leaves: undefinedresult.
fn remainder(a: i32, b: i32) -> Result<i32, ErrorName>
    ensures { result ≡ spec.remainder a b }
{
    if b == 0 {
        return Err(ErrorName::UndefinedResult);
    }
    let rest = a as i64 % b as i64;
    Ok(rest as i32)
}

pub(crate) fn add(state: &mut State) -> Result<(), Refusal>
    ensures { DoesAlone spec.add state.old result state.new }
{
    let operands = &mut state.regs.operands;
    operands.need(2)?;
    let b = operands.number(0)?;
    let a = operands.number(1)?;
    push_number(operands, 2, sum(a, b)?)?;
    Ok(())
}

pub(crate) fn sub(state: &mut State) -> Result<(), Refusal>
    ensures { DoesAlone spec.sub state.old result state.new }
{
    let operands = &mut state.regs.operands;
    operands.need(2)?;
    let b = operands.number(0)?;
    let a = operands.number(1)?;
    push_number(operands, 2, difference(a, b)?)?;
    Ok(())
}

pub(crate) fn mul(state: &mut State) -> Result<(), Refusal>
    ensures { DoesAlone spec.mul state.old result state.new }
{
    let operands = &mut state.regs.operands;
    operands.need(2)?;
    let b = operands.number(0)?;
    let a = operands.number(1)?;
    push_number(operands, 2, product(a, b)?)?;
    Ok(())
}

pub(crate) fn div(state: &mut State) -> Result<(), Refusal>
    ensures { DoesAlone spec.div state.old result state.new }
{
    let operands = &mut state.regs.operands;
    operands.need(2)?;
    let b = operands.number(0)?;
    let a = operands.number(1)?;
    let quotient = defined(ps_fixed::div(as_real(a), as_real(b)))?;
    push_number(operands, 2, quotient)?;
    Ok(())
}

pub(crate) fn idiv(state: &mut State) -> Result<(), Refusal>
    ensures { DoesAlone spec.idiv state.old result state.new }
{
    let operands = &mut state.regs.operands;
    operands.need(2)?;
    let b = operands.integer(0)?;
    let a = operands.integer(1)?;
    let quotient = whole_quotient(a, b)?;
    push_result(operands, 2, Kind::Integer(quotient))?;
    Ok(())
}

pub(crate) fn mod_(state: &mut State) -> Result<(), Refusal>
    ensures { DoesAlone spec.mod_ state.old result state.new }
{
    let operands = &mut state.regs.operands;
    operands.need(2)?;
    let b = operands.integer(0)?;
    let a = operands.integer(1)?;
    let rest = remainder(a, b)?;
    push_result(operands, 2, Kind::Integer(rest))?;
    Ok(())
}
