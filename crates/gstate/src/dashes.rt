//! Dash patterns (section 8.2 of the language manual).
#![tactic(auto)]

ghost use Rattle.std.specs.Prelude.{◌≡◌, ◌≤ℤ◌, pos, [], All, IfOk};
ghost use Rattle.ps_meaning.specs.Ready.{Ready};
ghost use Rattle.ps_objects.specs.Operands.{Reads};
ghost use Rattle.ps_operator.specs.Owes.{Does, DoesAlone};
ghost use Rattle.ps_operator.specs.Registers.{any_of};
ghost use Rattle.gstate.specs.Dashes as spec;

use ps_kinds::{
    ErrorName, GState, Kind, Lengths, Number, Object, Operands, Real, Refusal, Sequence, State,
};
use ps_operator::{Mem, items_of, literal};
use real_operands::{as_real, real_at};
use std::alloc::Global;

/// The most lengths of a pattern.
const LENGTH_LIMIT: usize = 32;

/// A length, which isn't negative: rangecheck.
fn not_negative(real: Real) -> Result<Real, ErrorName>
    ensures value { result ≡ spec.not_negative real }
    ensures positive { IfOk result (λ real. pos 0 ≤ℤ real.count) }
{
    if real.count < 0 {
        Err(ErrorName::RangeCheck)
    } else {
        Ok(real)
    }
}

/// The length that an item tells: rangecheck.
fn length_of(kind: &Kind) -> Result<Real, ErrorName>
    ensures value { result ≡ spec.length_of kind.now }
    ensures positive { IfOk result (λ real. pos 0 ≤ℤ real.count) }
{
    match kind {
        Kind::Integer(n) => not_negative(as_real(Number::Integer(*n))),
        Kind::Real(real) => not_negative(*real),
        _ => Err(ErrorName::RangeCheck),
    }
}

/// The lengths that items tell: rangecheck.
#[tactic(auto, using(crate::proofs::Dashing::length_read, crate::proofs::Dashing::length_refused, crate::proofs::Dashing::lengths_read, crate::proofs::Dashing::one_more))]
fn lengths_of(alloc: Global, items: &Sequence<Object>) -> Result<Sequence<Real>, Refusal>
    ensures value { Reads (spec.lengths_from [] items.now) result }
    ensures positive { IfOk result (λ lengths. All (λ real. pos 0 ≤ℤ real.count) lengths) }
{
    let mut lengths = Sequence::new(alloc);
    for at in 0..items.len() {
        match length_of(&items.at(at).kind) {
            Ok(length) => lengths.push(length)?,
            Err(error) => return Err(Refusal::Error(error)),
        }
    }
    Ok(lengths)
}

fn is_some(length: Real) -> bool
    ensures { result ≡ spec.is_some length }
{
    length.count > 0
}

/// Whether one of the lengths is more than 0.
#[tactic(auto, using(ps_operator::proofs::StoreSteps::any_hit, ps_operator::proofs::StoreSteps::any_miss))]
fn any_some(lengths: &Sequence<Real>) -> bool
    ensures { result ≡ any_of spec.is_some lengths.now }
{
    for at in 0..lengths.len() {
        if is_some(*lengths.at(at)) {
            return true;
        }
    }
    false
}

/// Whether there are lengths, none of which is more than 0.
fn is_idle(lengths: &Sequence<Real>) -> bool
    ensures { result ≡ spec.is_idle lengths.now }
{
    lengths.len() > 0 && !any_some(lengths)
}

/// The lengths as a pattern: rangecheck where all are 0, limitcheck.
#[tactic(auto, using(crate::proofs::Dashing::is_dash))]
fn pattern_of(lengths: Sequence<Real>) -> Result<Lengths, ErrorName>
    requires { All (λ real. pos 0 ≤ℤ real.count) lengths }
    ensures { result ≡ spec.pattern_of lengths }
{
    if is_idle(&lengths) {
        return Err(ErrorName::RangeCheck);
    }
    if lengths.len() > LENGTH_LIMIT {
        return Err(ErrorName::LimitCheck);
    }
    Ok(Lengths::from_vec(lengths.into_vec()))
}

/// The pattern that the items of an array tell: rangecheck, limitcheck.
fn dash_of(alloc: Global, items: &Sequence<Object>) -> Result<Lengths, Refusal>
    ensures { Reads (spec.dash_of items.now) result }
{
    let lengths = lengths_of(alloc, items)?;
    let pattern = pattern_of(lengths)?;
    Ok(pattern)
}

#[tactic(auto, unfolding(crate::specs::Dashes::with_dash))]
fn set_dash(graphics: &mut GState, dash: Object, offset: Real, lengths: Lengths)
    ensures { graphics.new ≡ spec.with_dash graphics.old dash offset lengths }
{
    graphics.dash = dash;
    graphics.offset = offset;
    graphics.lengths = lengths;
}

#[tactic(auto, using(ps_operator::proofs::Then::answer_then, ps_operator::proofs::Standing::array_stands))]
pub(crate) fn setdash<M: Mem>(state: &mut State, mem: &mut M) -> Result<(), Refusal>
    requires { Ready state.old (M.log mem.old).view }
    ensures { Does spec.setdash state.old (M.log mem.old) result state.new (M.log mem.new) }
{
    let operands = &mut state.regs.operands;
    let alloc = operands.alloc();
    operands.need(2)?;
    let offset = real_at(operands, 0)?;
    let array = operands.array(1)?;
    let dash = operands.object(1)?.copy()?;
    operands.readable(1)?;
    let items = Sequence::from_vec(items_of(alloc, array, mem)?);
    let lengths = dash_of(alloc, &items)?;
    operands.shrink(2);
    set_dash(&mut state.regs.state, dash, offset, lengths);
    Ok(())
}

pub(crate) fn currentdash(state: &mut State) -> Result<(), Refusal>
    ensures { DoesAlone spec.currentdash state.old result state.new }
{
    let dash = state.regs.state.dash.copy()?;
    let offset = state.regs.state.offset;
    let operands = &mut state.regs.operands;
    operands.room(2)?;
    operands.push(dash)?;
    operands.push(literal(Kind::Real(offset)))?;
    Ok(())
}
