//! Operators that build the current path (section 8.2 of the language manual).
ghost use Rattle.std.specs.Prelude.{◌≡◌};
ghost use Rattle.ps_operator.specs.Owes.{DoesAlone};
ghost use Rattle.path_build.specs.Building as spec;

use crate::paths::{begun, close, move_room, move_to, point_of, point_room};
use crate::points::{curve_of, push_point, user_point};
use ps_kinds::{DevicePoint, ErrorName, Matrix, Operands, Real, Refusal, Segment, State};
use real_operands::{moved, placed, point_at};

pub(crate) fn newpath(state: &mut State) -> Result<(), Refusal>
    ensures { DoesAlone spec.newpath state.old result state.new }
{
    state.regs.state.path.clear();
    Ok(())
}

pub(crate) fn currentpoint(state: &mut State) -> Result<(), Refusal>
    ensures { DoesAlone spec.currentpoint state.old result state.new }
{
    let point = point_of(&state.regs.state.path)?;
    let told = user_point(&state.regs.state.ctm, point)?;
    let operands = &mut state.regs.operands;
    operands.room(2)?;
    push_point(operands, told)?;
    Ok(())
}

pub(crate) fn moveto(state: &mut State) -> Result<(), Refusal>
    ensures { DoesAlone spec.moveto state.old result state.new }
{
    let operands = &mut state.regs.operands;
    operands.need(2)?;
    let (x, y) = point_at(operands, 0)?;
    let graphics = &mut state.regs.state;
    let point = placed(&graphics.ctm, x, y)?;
    move_room(&graphics.path)?;
    move_to(&mut graphics.path, point)?;
    operands.shrink(2);
    Ok(())
}

pub(crate) fn rmoveto(state: &mut State) -> Result<(), Refusal>
    ensures { DoesAlone spec.rmoveto state.old result state.new }
{
    let operands = &mut state.regs.operands;
    operands.need(2)?;
    let (x, y) = point_at(operands, 0)?;
    let graphics = &mut state.regs.state;
    let from = point_of(&graphics.path)?;
    let point = moved(&graphics.ctm, from, x, y)?;
    move_room(&graphics.path)?;
    move_to(&mut graphics.path, point)?;
    operands.shrink(2);
    Ok(())
}

pub(crate) fn lineto(state: &mut State) -> Result<(), Refusal>
    ensures { DoesAlone spec.lineto state.old result state.new }
{
    let operands = &mut state.regs.operands;
    operands.need(2)?;
    let (x, y) = point_at(operands, 0)?;
    let graphics = &mut state.regs.state;
    begun(&graphics.path)?;
    let point = placed(&graphics.ctm, x, y)?;
    point_room(&graphics.path, 1)?;
    graphics.path.push(Segment::Line(point))?;
    operands.shrink(2);
    Ok(())
}

pub(crate) fn rlineto(state: &mut State) -> Result<(), Refusal>
    ensures { DoesAlone spec.rlineto state.old result state.new }
{
    let operands = &mut state.regs.operands;
    operands.need(2)?;
    let (x, y) = point_at(operands, 0)?;
    let graphics = &mut state.regs.state;
    let from = point_of(&graphics.path)?;
    let point = moved(&graphics.ctm, from, x, y)?;
    point_room(&graphics.path, 1)?;
    graphics.path.push(Segment::Line(point))?;
    operands.shrink(2);
    Ok(())
}

pub(crate) fn curveto(state: &mut State) -> Result<(), Refusal>
    ensures { DoesAlone spec.curveto state.old result state.new }
{
    let operands = &mut state.regs.operands;
    operands.need(6)?;
    let c = point_at(operands, 0)?;
    let b = point_at(operands, 2)?;
    let a = point_at(operands, 4)?;
    let graphics = &mut state.regs.state;
    begun(&graphics.path)?;
    let curve = curve_of(&graphics.ctm, a, b, c)?;
    point_room(&graphics.path, 3)?;
    graphics.path.push(curve)?;
    operands.shrink(6);
    Ok(())
}

/// The curve by points that lie so far from one point: undefinedresult, limitcheck.
fn curve_from(
    matrix: &Matrix,
    from: DevicePoint,
    a: (Real, Real),
    b: (Real, Real),
    c: (Real, Real),
) -> Result<Segment, ErrorName>
    ensures { result ≡ spec.curve_from matrix.now from a b c }
{
    let p = moved(matrix, from, a.0, a.1)?;
    let q = moved(matrix, from, b.0, b.1)?;
    let r = moved(matrix, from, c.0, c.1)?;
    Ok(Segment::Curve(p, q, r))
}

pub(crate) fn rcurveto(state: &mut State) -> Result<(), Refusal>
    ensures { DoesAlone spec.rcurveto state.old result state.new }
{
    let operands = &mut state.regs.operands;
    operands.need(6)?;
    let c = point_at(operands, 0)?;
    let b = point_at(operands, 2)?;
    let a = point_at(operands, 4)?;
    let graphics = &mut state.regs.state;
    let from = point_of(&graphics.path)?;
    let curve = curve_from(&graphics.ctm, from, a, b, c)?;
    point_room(&graphics.path, 3)?;
    graphics.path.push(curve)?;
    operands.shrink(6);
    Ok(())
}

pub(crate) fn closepath(state: &mut State) -> Result<(), Refusal>
    ensures { DoesAlone spec.closepath state.old result state.new }
{
    close(&mut state.regs.state.path)?;
    Ok(())
}
