//! Operators on booleans and on the bits of integers (section 8.2 of the language manual).
ghost use Rattle.std.specs.Prelude.{◌≡◌};
ghost use Rattle.ps_operator.specs.Owes.{DoesAlone};
ghost use Rattle.stack_arith.specs.Bits as spec;

use ps_kinds::{ErrorName, Kind, Operands, Refusal, State};
use ps_operator::push_result;

fn conjunction(x: &Kind, y: &Kind) -> Result<Kind, ErrorName>
    ensures { result ≡ spec.conjunction x.now y.now }
{
    match x {
        Kind::Boolean(a) => match y {
            Kind::Boolean(b) => Ok(Kind::Boolean(*a && *b)),
            _ => Err(ErrorName::TypeCheck),
        },
        Kind::Integer(a) => match y {
            Kind::Integer(b) => Ok(Kind::Integer(*a & *b)),
            _ => Err(ErrorName::TypeCheck),
        },
        _ => Err(ErrorName::TypeCheck),
    }
}

fn disjunction(x: &Kind, y: &Kind) -> Result<Kind, ErrorName>
    ensures { result ≡ spec.disjunction x.now y.now }
{
    match x {
        Kind::Boolean(a) => match y {
            Kind::Boolean(b) => Ok(Kind::Boolean(*a || *b)),
            _ => Err(ErrorName::TypeCheck),
        },
        Kind::Integer(a) => match y {
            Kind::Integer(b) => Ok(Kind::Integer(*a | *b)),
            _ => Err(ErrorName::TypeCheck),
        },
        _ => Err(ErrorName::TypeCheck),
    }
}

fn exclusion(x: &Kind, y: &Kind) -> Result<Kind, ErrorName>
    ensures { result ≡ spec.exclusion x.now y.now }
{
    match x {
        Kind::Boolean(a) => match y {
            Kind::Boolean(b) => Ok(Kind::Boolean(*a != *b)),
            _ => Err(ErrorName::TypeCheck),
        },
        Kind::Integer(a) => match y {
            Kind::Integer(b) => Ok(Kind::Integer(*a ^ *b)),
            _ => Err(ErrorName::TypeCheck),
        },
        _ => Err(ErrorName::TypeCheck),
    }
}

fn opposite(x: &Kind) -> Result<Kind, ErrorName>
    ensures { result ≡ spec.opposite x.now }
{
    match x {
        Kind::Boolean(b) => Ok(Kind::Boolean(!*b)),
        Kind::Integer(n) => Ok(Kind::Integer(!*n)),
        _ => Err(ErrorName::TypeCheck),
    }
}

/// Bits so many places to the left.
#[tactic(auto, using(crate::proofs::Shifts::all_left))]
fn left_by(bits: u32, places: u32) -> u32
    ensures { result ≡ spec.left_by bits places }
{
    if places >= 32 { 0 } else { bits << places }
}

/// Bits so many places to the right.
#[tactic(auto, using(crate::proofs::Shifts::all_right))]
fn right_by(bits: u32, places: u32) -> u32
    ensures { result ≡ spec.right_by bits places }
{
    if places >= 32 { 0 } else { bits >> places }
}

/// The bits of an integer shifted to the left, or for a negative number to the right.
fn shifted(n: i32, by: i32) -> i32
    ensures { result ≡ spec.shifted n by }
{
    let bits = n.cast_unsigned();
    if by >= 0 {
        left_by(bits, by as u32).cast_signed()
    } else {
        right_by(bits, by.unsigned_abs()).cast_signed()
    }
}

pub(crate) fn and(state: &mut State) -> Result<(), Refusal>
    ensures { DoesAlone spec.and state.old result state.new }
{
    let operands = &mut state.regs.operands;
    operands.need(2)?;
    let y = operands.object(0)?;
    let x = operands.object(1)?;
    let kind = conjunction(&x.kind, &y.kind)?;
    push_result(operands, 2, kind)?;
    Ok(())
}

pub(crate) fn or(state: &mut State) -> Result<(), Refusal>
    ensures { DoesAlone spec.or state.old result state.new }
{
    let operands = &mut state.regs.operands;
    operands.need(2)?;
    let y = operands.object(0)?;
    let x = operands.object(1)?;
    let kind = disjunction(&x.kind, &y.kind)?;
    push_result(operands, 2, kind)?;
    Ok(())
}

pub(crate) fn xor(state: &mut State) -> Result<(), Refusal>
    ensures { DoesAlone spec.xor state.old result state.new }
{
    let operands = &mut state.regs.operands;
    operands.need(2)?;
    let y = operands.object(0)?;
    let x = operands.object(1)?;
    let kind = exclusion(&x.kind, &y.kind)?;
    push_result(operands, 2, kind)?;
    Ok(())
}

pub(crate) fn not_(state: &mut State) -> Result<(), Refusal>
    ensures { DoesAlone spec.not_ state.old result state.new }
{
    let operands = &mut state.regs.operands;
    operands.need(1)?;
    let kind = opposite(&operands.object(0)?.kind)?;
    push_result(operands, 1, kind)?;
    Ok(())
}

pub(crate) fn bitshift(state: &mut State) -> Result<(), Refusal>
    ensures { DoesAlone spec.bitshift state.old result state.new }
{
    let operands = &mut state.regs.operands;
    operands.need(2)?;
    let by = operands.integer(0)?;
    let n = operands.integer(1)?;
    push_result(operands, 2, Kind::Integer(shifted(n, by)))?;
    Ok(())
}
