//! Colours that are set and told (section 8.2 of the language manual).
ghost use Rattle.std.specs.Prelude.{◌≡◌, OnOk};
ghost use Rattle.ps_operator.specs.Owes.{DoesAlone};
ghost use Rattle.colour_ops.specs.Setting as spec;

use crate::colours::{cmyk_of, cut, gray_of, rgb_of};
use crate::glyphs::settable;
use ps_kinds::{
    Colour, Component, Kind, NoMemory, Object, Objects, Operands, Real, Refusal, State,
};
use ps_operator::literal;
use real_operands::real_at;

/// A real as an object.
pub(crate) fn real(real: Real) -> Object
    ensures { result ≡ spec.real real }
{
    literal(Kind::Real(real))
}

pub(crate) fn setgray(state: &mut State) -> Result<(), Refusal>
    ensures { DoesAlone spec.setgray state.old result state.new }
{
    let operands = &mut state.regs.operands;
    operands.need(1)?;
    let gray = real_at(operands, 0)?;
    settable(&state.frames)?;
    operands.shrink(1);
    state.regs.state.colour = Colour::Gray(cut(gray));
    Ok(())
}

pub(crate) fn currentgray(state: &mut State) -> Result<(), Refusal>
    ensures { DoesAlone spec.currentgray state.old result state.new }
{
    let operands = &mut state.regs.operands;
    operands.room(1)?;
    operands.push(real(gray_of(state.regs.state.colour).real()))?;
    Ok(())
}

pub(crate) fn setrgbcolor(state: &mut State) -> Result<(), Refusal>
    ensures { DoesAlone spec.setrgbcolor state.old result state.new }
{
    let operands = &mut state.regs.operands;
    operands.need(3)?;
    let blue = real_at(operands, 0)?;
    let green = real_at(operands, 1)?;
    let red = real_at(operands, 2)?;
    settable(&state.frames)?;
    operands.shrink(3);
    state.regs.state.colour = Colour::Rgb(cut(red), cut(green), cut(blue));
    Ok(())
}

/// Pushes three reals, the last on top.
fn push_rgb(
    operands: &mut Objects,
    colour: (Component, Component, Component),
) -> Result<(), NoMemory>
    ensures { OnOk result (operands.new ≡ spec.pushes_rgb colour operands.old) }
{
    let (red, green, blue) = colour;
    operands.push(real(red.real()))?;
    operands.push(real(green.real()))?;
    operands.push(real(blue.real()))
}

pub(crate) fn currentrgbcolor(state: &mut State) -> Result<(), Refusal>
    ensures { DoesAlone spec.currentrgbcolor state.old result state.new }
{
    let operands = &mut state.regs.operands;
    operands.room(3)?;
    push_rgb(operands, rgb_of(state.regs.state.colour))?;
    Ok(())
}

pub(crate) fn setcmykcolor(state: &mut State) -> Result<(), Refusal>
    ensures { DoesAlone spec.setcmykcolor state.old result state.new }
{
    let operands = &mut state.regs.operands;
    operands.need(4)?;
    let black = real_at(operands, 0)?;
    let yellow = real_at(operands, 1)?;
    let magenta = real_at(operands, 2)?;
    let cyan = real_at(operands, 3)?;
    settable(&state.frames)?;
    operands.shrink(4);
    state.regs.state.colour = Colour::Cmyk(cut(cyan), cut(magenta), cut(yellow), cut(black));
    Ok(())
}

/// Pushes four reals, the last on top.
fn push_cmyk(
    operands: &mut Objects,
    colour: (Component, Component, Component, Component),
) -> Result<(), NoMemory>
    ensures { OnOk result (operands.new ≡ spec.pushes_cmyk colour operands.old) }
{
    let (cyan, magenta, yellow, black) = colour;
    operands.push(real(cyan.real()))?;
    operands.push(real(magenta.real()))?;
    operands.push(real(yellow.real()))?;
    operands.push(real(black.real()))
}

pub(crate) fn currentcmykcolor(state: &mut State) -> Result<(), Refusal>
    ensures { DoesAlone spec.currentcmykcolor state.old result state.new }
{
    let operands = &mut state.regs.operands;
    operands.room(4)?;
    push_cmyk(operands, cmyk_of(state.regs.state.colour))?;
    Ok(())
}

pub(crate) fn setcolor(state: &mut State) -> Result<(), Refusal>
    ensures { DoesAlone spec.setcolor state.old result state.new }
{
    match state.regs.state.colour {
        Colour::Gray(_) => setgray(state),
        Colour::Rgb(_, _, _) => setrgbcolor(state),
        Colour::Cmyk(_, _, _, _) => setcmykcolor(state),
    }
}

pub(crate) fn currentcolor(state: &mut State) -> Result<(), Refusal>
    ensures { DoesAlone spec.currentcolor state.old result state.new }
{
    match state.regs.state.colour {
        Colour::Gray(_) => currentgray(state),
        Colour::Rgb(_, _, _) => currentrgbcolor(state),
        Colour::Cmyk(_, _, _, _) => currentcmykcolor(state),
    }
}
