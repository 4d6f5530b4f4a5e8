//! Operators that begin loops (section 8.2 of the language manual).
ghost use Rattle.std.specs.Prelude.{◌≡◌};
ghost use Rattle.ps_operator.specs.Owes.{ActsAlone};
ghost use Rattle.control_ops.specs.Loops as spec;

use ps_kinds::{Act, Frame, Number, Operands, Real, Refusal, State};
use ps_operator::{frames_room, natural_of};

pub(crate) fn repeat(state: &mut State) -> Result<Act, Refusal>
    ensures { ActsAlone spec.repeat state.old result state.new }
{
    let operands = &mut state.regs.operands;
    operands.need(2)?;
    operands.procedure(0)?;
    let count = operands.integer(1)?;
    operands.runnable(0)?;
    let left = natural_of(count)?;
    let body = operands.object(0)?;
    frames_room(&state.frames, 1)?;
    let frame = Frame::Repeat {
        body: body.copy()?,
        left,
    };
    operands.shrink(2);
    Ok(Act::Body(frame))
}

pub(crate) fn loop_(state: &mut State) -> Result<Act, Refusal>
    ensures { ActsAlone spec.loop_ state.old result state.new }
{
    let operands = &mut state.regs.operands;
    operands.need(1)?;
    operands.procedure(0)?;
    operands.runnable(0)?;
    let body = operands.object(0)?;
    frames_room(&state.frames, 1)?;
    let frame = Frame::Loop { body: body.copy()? };
    operands.shrink(1);
    Ok(Act::Body(frame))
}

/// The number as a real.
fn as_real(number: Number) -> Real
    ensures { result ≡ spec.as_real number }
{
    match number {
        Number::Integer(n) => Real {
            count: n as i64 * 16_777_216,
        },
        Number::Real(real) => real,
    }
}

fn is_integer(number: Number) -> bool
    ensures { result ≡ spec.is_integer number }
{
    match number {
        Number::Integer(_) => true,
        Number::Real(_) => false,
    }
}

pub(crate) fn for_(state: &mut State) -> Result<Act, Refusal>
    ensures { ActsAlone spec.for_ state.old result state.new }
{
    let operands = &mut state.regs.operands;
    operands.need(4)?;
    operands.procedure(0)?;
    let limit = operands.number(1)?;
    let increment = operands.number(2)?;
    let first = operands.number(3)?;
    operands.runnable(0)?;
    let body = operands.object(0)?;
    frames_room(&state.frames, 1)?;
    let frame = Frame::For {
        body: body.copy()?,
        next: Some(as_real(first)),
        increment: as_real(increment),
        limit: as_real(limit),
        whole: is_integer(first) && is_integer(increment),
    };
    operands.shrink(4);
    Ok(Act::Body(frame))
}
