//! Widths, caps and joins of lines, the miter limit, flatness and stroke adjustment (section 8.2 of the language manual).
#![tactic(auto)]

ghost use Rattle.std.specs.Prelude.{◌≡◌};
ghost use Rattle.ps_operator.specs.Owes.{DoesAlone};
ghost use Rattle.gstate.specs.Lines as spec;
ghost use Rattle.gstate.specs.Setting.{tells};

use ps_fixed::real_of;
use ps_kinds::{
    ErrorName, GState, Kind, LineCap, LineJoin, LineWidth, MiterLimit, ONE, Operands, Real,
    Refusal, State,
};
use ps_operator::literal;
use real_operands::{defined, real_at};

/// The absolute value: undefinedresult.
fn magnitude(real: Real) -> Result<Real, ErrorName>
    ensures { result ≡ spec.width_of real }
{
    defined(real_of((real.count as i128).abs()))
}

/// The absolute value as a line width: undefinedresult.
fn width_of(real: Real) -> Result<LineWidth, ErrorName>
    ensures { result ≡ spec.width_of real }
{
    let width = magnitude(real)?;
    Ok(LineWidth::new(width))
}

/// The cap of a number from 0 to 2: rangecheck.
fn cap_of(n: i32) -> Result<LineCap, ErrorName>
    ensures { result ≡ spec.cap_of n }
{
    match n {
        0 => Ok(LineCap::Butt),
        1 => Ok(LineCap::Round),
        2 => Ok(LineCap::Square),
        _ => Err(ErrorName::RangeCheck),
    }
}

/// The number of a cap.
#[tactic(auto, unfolding(crate::specs::Lines::cap_kind))]
fn cap_kind(cap: LineCap) -> Kind
    ensures { result ≡ spec.cap_kind cap }
{
    match cap {
        LineCap::Butt => Kind::Integer(0),
        LineCap::Round => Kind::Integer(1),
        LineCap::Square => Kind::Integer(2),
    }
}

/// The join of a number from 0 to 2: rangecheck.
fn join_of(n: i32) -> Result<LineJoin, ErrorName>
    ensures { result ≡ spec.join_of n }
{
    match n {
        0 => Ok(LineJoin::Miter),
        1 => Ok(LineJoin::Round),
        2 => Ok(LineJoin::Bevel),
        _ => Err(ErrorName::RangeCheck),
    }
}

/// The number of a join.
#[tactic(auto, unfolding(crate::specs::Lines::join_kind))]
fn join_kind(join: LineJoin) -> Kind
    ensures { result ≡ spec.join_kind join }
{
    match join {
        LineJoin::Miter => Kind::Integer(0),
        LineJoin::Round => Kind::Integer(1),
        LineJoin::Bevel => Kind::Integer(2),
    }
}

/// A miter limit of 1 or more: rangecheck.
fn miter_of(real: Real) -> Result<MiterLimit, ErrorName>
    ensures { result ≡ spec.miter_of real }
{
    if ONE <= real.count {
        Ok(MiterLimit::new(real))
    } else {
        Err(ErrorName::RangeCheck)
    }
}

#[tactic(auto, unfolding(crate::specs::Lines::with_width))]
fn set_width(graphics: &mut GState, width: LineWidth)
    ensures { graphics.new ≡ spec.with_width graphics.old width }
{
    graphics.width = width;
}

#[tactic(auto, unfolding(crate::specs::Lines::with_cap))]
fn set_cap(graphics: &mut GState, cap: LineCap)
    ensures { graphics.new ≡ spec.with_cap graphics.old cap }
{
    graphics.cap = cap;
}

#[tactic(auto, unfolding(crate::specs::Lines::with_join))]
fn set_join(graphics: &mut GState, join: LineJoin)
    ensures { graphics.new ≡ spec.with_join graphics.old join }
{
    graphics.join = join;
}

#[tactic(auto, unfolding(crate::specs::Lines::with_miter))]
fn set_miter(graphics: &mut GState, miter: MiterLimit)
    ensures { graphics.new ≡ spec.with_miter graphics.old miter }
{
    graphics.miter = miter;
}

#[tactic(auto, unfolding(crate::specs::Lines::with_flat))]
fn set_flat(graphics: &mut GState, flat: Real)
    ensures { graphics.new ≡ spec.with_flat graphics.old flat }
{
    graphics.flat = flat;
}

#[tactic(auto, unfolding(crate::specs::Lines::with_adjust))]
fn set_adjust(graphics: &mut GState, adjust: bool)
    ensures { graphics.new ≡ spec.with_adjust graphics.old adjust }
{
    graphics.adjust = adjust;
}

pub(crate) fn setlinewidth(state: &mut State) -> Result<(), Refusal>
    ensures { DoesAlone spec.setlinewidth state.old result state.new }
{
    state.regs.operands.need(1)?;
    let width = width_of(real_at(&state.regs.operands, 0)?)?;
    state.regs.operands.shrink(1);
    set_width(&mut state.regs.state, width);
    Ok(())
}

pub(crate) fn setlinecap(state: &mut State) -> Result<(), Refusal>
    ensures { DoesAlone spec.setlinecap state.old result state.new }
{
    state.regs.operands.need(1)?;
    let cap = cap_of(state.regs.operands.integer(0)?)?;
    state.regs.operands.shrink(1);
    set_cap(&mut state.regs.state, cap);
    Ok(())
}

pub(crate) fn setlinejoin(state: &mut State) -> Result<(), Refusal>
    ensures { DoesAlone spec.setlinejoin state.old result state.new }
{
    state.regs.operands.need(1)?;
    let join = join_of(state.regs.operands.integer(0)?)?;
    state.regs.operands.shrink(1);
    set_join(&mut state.regs.state, join);
    Ok(())
}

pub(crate) fn setmiterlimit(state: &mut State) -> Result<(), Refusal>
    ensures { DoesAlone spec.setmiterlimit state.old result state.new }
{
    state.regs.operands.need(1)?;
    let miter = miter_of(real_at(&state.regs.operands, 0)?)?;
    state.regs.operands.shrink(1);
    set_miter(&mut state.regs.state, miter);
    Ok(())
}

pub(crate) fn setflat(state: &mut State) -> Result<(), Refusal>
    ensures { DoesAlone spec.setflat state.old result state.new }
{
    state.regs.operands.need(1)?;
    let flat = real_at(&state.regs.operands, 0)?;
    state.regs.operands.shrink(1);
    set_flat(&mut state.regs.state, flat);
    Ok(())
}

pub(crate) fn setstrokeadjust(state: &mut State) -> Result<(), Refusal>
    ensures { DoesAlone spec.setstrokeadjust state.old result state.new }
{
    state.regs.operands.need(1)?;
    let adjust = state.regs.operands.boolean(0)?;
    state.regs.operands.shrink(1);
    set_adjust(&mut state.regs.state, adjust);
    Ok(())
}

/// Pushes a literal object: stackoverflow.
fn tell(state: &mut State, kind: Kind) -> Result<(), Refusal>
    ensures { DoesAlone (tells kind) state.old result state.new }
{
    let operands = &mut state.regs.operands;
    operands.room(1)?;
    operands.push(literal(kind))?;
    Ok(())
}

pub(crate) fn currentlinewidth(state: &mut State) -> Result<(), Refusal>
    ensures { DoesAlone spec.currentlinewidth state.old result state.new }
{
    let width = state.regs.state.width.real();
    tell(state, Kind::Real(width))
}

pub(crate) fn currentlinecap(state: &mut State) -> Result<(), Refusal>
    ensures { DoesAlone spec.currentlinecap state.old result state.new }
{
    let cap = cap_kind(state.regs.state.cap);
    tell(state, cap)
}

pub(crate) fn currentlinejoin(state: &mut State) -> Result<(), Refusal>
    ensures { DoesAlone spec.currentlinejoin state.old result state.new }
{
    let join = join_kind(state.regs.state.join);
    tell(state, join)
}

pub(crate) fn currentmiterlimit(state: &mut State) -> Result<(), Refusal>
    ensures { DoesAlone spec.currentmiterlimit state.old result state.new }
{
    let miter = state.regs.state.miter.real();
    tell(state, Kind::Real(miter))
}

pub(crate) fn currentflat(state: &mut State) -> Result<(), Refusal>
    ensures { DoesAlone spec.currentflat state.old result state.new }
{
    let flat = state.regs.state.flat;
    tell(state, Kind::Real(flat))
}

pub(crate) fn currentstrokeadjust(state: &mut State) -> Result<(), Refusal>
    ensures { DoesAlone spec.currentstrokeadjust state.old result state.new }
{
    let adjust = state.regs.state.adjust;
    tell(state, Kind::Boolean(adjust))
}
