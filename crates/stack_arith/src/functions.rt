//! Square roots, sines and arc tangents (section 8.2 of the language manual).
ghost use Rattle.std.specs.Prelude.{◌≡◌};
ghost use Rattle.ps_operator.specs.Owes.{DoesAlone};
ghost use Rattle.stack_arith.specs.Functions as spec;

use crate::numbers::{as_real, defined, push_number};
use ps_kinds::{ErrorName, Number, Operands, Refusal, State};

/// The square root: rangecheck below 0.
fn root(a: Number) -> Result<Number, ErrorName>
    ensures { result ≡ spec.root a }
{
    let real = as_real(a);
    if real.count < 0 {
        Err(ErrorName::RangeCheck)
    } else {
        Ok(Number::Real(ps_fixed::sqrt(real)))
    }
}

pub(crate) fn sqrt(state: &mut State) -> Result<(), Refusal>
    ensures { DoesAlone spec.sqrt state.old result state.new }
{
    let operands = &mut state.regs.operands;
    operands.need(1)?;
    let a = operands.number(0)?;
    push_number(operands, 1, root(a)?)?;
    Ok(())
}

pub(crate) fn sin(state: &mut State) -> Result<(), Refusal>
    ensures { DoesAlone spec.sin state.old result state.new }
{
    let operands = &mut state.regs.operands;
    operands.need(1)?;
    let angle = as_real(operands.number(0)?);
    push_number(operands, 1, Number::Real(ps_fixed::sin(angle)))?;
    Ok(())
}

pub(crate) fn cos(state: &mut State) -> Result<(), Refusal>
    ensures { DoesAlone spec.cos state.old result state.new }
{
    let operands = &mut state.regs.operands;
    operands.need(1)?;
    let angle = as_real(operands.number(0)?);
    push_number(operands, 1, Number::Real(ps_fixed::cos(angle)))?;
    Ok(())
}

pub(crate) fn atan(state: &mut State) -> Result<(), Refusal>
    ensures { DoesAlone spec.atan state.old result state.new }
{
    let operands = &mut state.regs.operands;
    operands.need(2)?;
    let den = as_real(operands.number(0)?);
    let num = as_real(operands.number(1)?);
    let angle = defined(ps_fixed::atan(num, den))?;
    push_number(operands, 2, angle)?;
    Ok(())
}
