//! Screens and transfer functions, which are kept and told and have no other effect (sections 6.3 and 6.4 of the
//! language manual).
ghost use Rattle.std.specs.Prelude.{◌≡◌};
ghost use Rattle.ps_operator.specs.Owes.{DoesAlone};
ghost use Rattle.colour_ops.specs.Screens as spec;

use crate::glyphs::settable;
use crate::setting::real;
use ps_kinds::{Operands, Refusal, State};
use real_operands::real_at;

pub(crate) fn setscreen(state: &mut State) -> Result<(), Refusal>
    ensures { DoesAlone spec.setscreen state.old result state.new }
{
    let operands = &mut state.regs.operands;
    operands.need(3)?;
    operands.procedure(0)?;
    let angle = real_at(operands, 1)?;
    let frequency = real_at(operands, 2)?;
    settable(&state.frames)?;
    let spot = operands.object(0)?.copy()?;
    operands.shrink(3);
    let graphics = &mut state.regs.state;
    graphics.frequency = frequency;
    graphics.angle = angle;
    graphics.spot = spot;
    Ok(())
}

pub(crate) fn currentscreen(state: &mut State) -> Result<(), Refusal>
    ensures { DoesAlone spec.currentscreen state.old result state.new }
{
    let graphics = &state.regs.state;
    let operands = &mut state.regs.operands;
    operands.room(3)?;
    operands.push(real(graphics.frequency))?;
    operands.push(real(graphics.angle))?;
    operands.push(graphics.spot.copy()?)?;
    Ok(())
}

pub(crate) fn settransfer(state: &mut State) -> Result<(), Refusal>
    ensures { DoesAlone spec.settransfer state.old result state.new }
{
    let operands = &mut state.regs.operands;
    operands.need(1)?;
    operands.procedure(0)?;
    let transfer = operands.object(0)?.copy()?;
    operands.shrink(1);
    state.regs.state.transfer = transfer;
    Ok(())
}

pub(crate) fn currenttransfer(state: &mut State) -> Result<(), Refusal>
    ensures { DoesAlone spec.currenttransfer state.old result state.new }
{
    let operands = &mut state.regs.operands;
    operands.room(1)?;
    operands.push(state.regs.state.transfer.copy()?)?;
    Ok(())
}
