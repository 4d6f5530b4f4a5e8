//! Equality and order (section 8.2 of the language manual).
#![tactic(auto, using(ps_operator::proofs::Then::answer_then, ps_operator::proofs::Then::reads_then, ps_operator::proofs::Standing::object_stands, ps_operator::proofs::Standing::string_stands))]

ghost use Rattle.std.specs.Prelude.{◌≡◌, true, IfOk, OnOk};
ghost use Rattle.ps_meaning.specs.Ready.{Ready};
ghost use Rattle.ps_operator.specs.Standing.{is_named};
ghost use Rattle.ps_operator.specs.Keys.{key_right_of};
ghost use Rattle.ps_operator.specs.Registers.{ops};
ghost use Rattle.ps_operator.specs.Owes.{Does, Yields, Finds};
ghost use Rattle.stack_arith.specs.Comparison as spec;

use crate::numbers::as_real;
use ps_kinds::{ErrorName, Interval, Kind, NoMemory, Number, Object, Operands, Refusal, State};
use ps_operator::{Mem, bytes_of, push_result};
use std::alloc::Global;
use std::cmp::Ordering;

/// The count of a number.
fn count_of(kind: &Kind) -> Option<i64>
    ensures { result ≡ spec.count_of kind.now }
{
    match kind {
        Kind::Integer(n) => Some(as_real(Number::Integer(*n)).count),
        Kind::Real(real) => Some(real.count),
        _ => None,
    }
}

/// The interval of an array.
fn items_of(kind: &Kind) -> Option<Interval>
    ensures { result ≡ spec.items_of kind.now }
{
    match kind {
        Kind::Array { interval, .. } => Some(*interval),
        _ => None,
    }
}

/// Whether two objects that are no texts are equal.
fn same(x: &Kind, y: &Kind) -> bool
    ensures { result ≡ spec.same x.now y.now }
{
    if let Some(a) = count_of(x) {
        if let Some(b) = count_of(y) {
            return a == b;
        }
    }
    if let Some(a) = items_of(x) {
        if let Some(b) = items_of(y) {
            return a == b;
        }
    }
    *x == *y
}

fn is_text(kind: &Kind) -> bool
    ensures { result ≡ spec.is_text kind.now }
{
    match kind {
        Kind::Str(_) | Kind::Name(_) => true,
        _ => false,
    }
}

/// Whether a string may be read: invalidaccess.
fn text_right(object: &Object) -> Result<(), ErrorName>
    ensures { result ≡ key_right_of object.now.access object.now.kind }
{
    match object.kind {
        Kind::Str(_) => object.access.readable(),
        _ => Ok(()),
    }
}

/// The bytes of a text; a string is looked at whole.
fn text_of<M: Mem>(alloc: Global, kind: &Kind, mem: &mut M) -> Result<Vec<u8>, NoMemory>
    requires { is_named (M.log mem.old).view kind.now ≡ true }
    ensures view { OnOk result ((M.log mem.new).view ≡ (M.log mem.old).view) }
    ensures told { IfOk result (λ v.
        Finds (spec.text_of kind.now) (M.log mem.old) v.items (M.log mem.new)) }
{
    match kind {
        Kind::Str(string) => bytes_of(alloc, *string, mem),
        Kind::Name(name) => Ok(Vec::from_slice(alloc, name.as_slice())?),
        _ => Ok(Vec::new(alloc)),
    }
}

fn equal<M: Mem>(alloc: Global, x: &Object, y: &Object, mem: &mut M) -> Result<bool, Refusal>
    requires x { is_named (M.log mem.old).view x.now.kind ≡ true }
    requires y { is_named (M.log mem.old).view y.now.kind ≡ true }
    ensures { Yields (spec.equal x.now y.now) (M.log mem.old) result (M.log mem.new) }
{
    if is_text(&x.kind) && is_text(&y.kind) {
        text_right(y)?;
        text_right(x)?;
        let v = text_of(alloc, &y.kind, mem)?;
        let u = text_of(alloc, &x.kind, mem)?;
        return Ok(u.as_slice() == v.as_slice());
    }
    Ok(same(&x.kind, &y.kind))
}

pub(crate) fn eq<M: Mem>(state: &mut State, mem: &mut M) -> Result<(), Refusal>
    requires { Ready state.old (M.log mem.old).view }
    ensures { Does spec.eq state.old (M.log mem.old) result state.new (M.log mem.new) }
{
    let operands = &mut state.regs.operands;
    let alloc = operands.alloc();
    operands.need(2)?;
    let y = operands.object(0)?;
    let x = operands.object(1)?;
    let same = equal(alloc, x, y, mem)?;
    push_result(operands, 2, Kind::Boolean(same))?;
    Ok(())
}

pub(crate) fn ne<M: Mem>(state: &mut State, mem: &mut M) -> Result<(), Refusal>
    requires { Ready state.old (M.log mem.old).view }
    ensures { Does spec.ne state.old (M.log mem.old) result state.new (M.log mem.new) }
{
    let operands = &mut state.regs.operands;
    let alloc = operands.alloc();
    operands.need(2)?;
    let y = operands.object(0)?;
    let x = operands.object(1)?;
    let same = equal(alloc, x, y, mem)?;
    push_result(operands, 2, Kind::Boolean(!same))?;
    Ok(())
}

fn is_string(kind: &Kind) -> bool
    ensures { result ≡ spec.is_string kind.now }
{
    matches!(kind, Kind::Str(_))
}

/// The order of two strings by their bytes: typecheck, invalidaccess.
fn string_order<M: Mem>(state: &State, mem: &mut M) -> Result<Ordering, Refusal>
    requires { Ready state.now (M.log mem.old).view }
    ensures { Yields (spec.string_order (ops state.now)) (M.log mem.old) result (M.log mem.new) }
{
    let operands = &state.regs.operands;
    let alloc = operands.alloc();
    let b = operands.string(0)?;
    let a = operands.string(1)?;
    operands.readable(0)?;
    operands.readable(1)?;
    let v = bytes_of(alloc, b, mem)?;
    let u = bytes_of(alloc, a, mem)?;
    Ok(u.as_slice().cmp(v.as_slice()))
}

/// The order of two strings where the top operand is one, else of two numbers: typecheck, invalidaccess.
fn order<M: Mem>(state: &State, mem: &mut M) -> Result<Ordering, Refusal>
    requires { Ready state.now (M.log mem.old).view }
    ensures { Yields (spec.order (ops state.now)) (M.log mem.old) result (M.log mem.new) }
{
    let operands = &state.regs.operands;
    if is_string(&operands.object(0)?.kind) {
        return string_order(state, mem);
    }
    let b = as_real(operands.number(0)?);
    let a = as_real(operands.number(1)?);
    Ok(a.count.cmp(&b.count))
}

pub(crate) fn gt<M: Mem>(state: &mut State, mem: &mut M) -> Result<(), Refusal>
    requires { Ready state.old (M.log mem.old).view }
    ensures { Does spec.gt state.old (M.log mem.old) result state.new (M.log mem.new) }
{
    state.regs.operands.need(2)?;
    let order = order(state, mem)?;
    push_result(&mut state.regs.operands, 2, Kind::Boolean(order.is_gt()))?;
    Ok(())
}

pub(crate) fn ge<M: Mem>(state: &mut State, mem: &mut M) -> Result<(), Refusal>
    requires { Ready state.old (M.log mem.old).view }
    ensures { Does spec.ge state.old (M.log mem.old) result state.new (M.log mem.new) }
{
    state.regs.operands.need(2)?;
    let order = order(state, mem)?;
    push_result(&mut state.regs.operands, 2, Kind::Boolean(order.is_ge()))?;
    Ok(())
}

pub(crate) fn lt<M: Mem>(state: &mut State, mem: &mut M) -> Result<(), Refusal>
    requires { Ready state.old (M.log mem.old).view }
    ensures { Does spec.lt state.old (M.log mem.old) result state.new (M.log mem.new) }
{
    state.regs.operands.need(2)?;
    let order = order(state, mem)?;
    push_result(&mut state.regs.operands, 2, Kind::Boolean(order.is_lt()))?;
    Ok(())
}

pub(crate) fn le<M: Mem>(state: &mut State, mem: &mut M) -> Result<(), Refusal>
    requires { Ready state.old (M.log mem.old).view }
    ensures { Does spec.le state.old (M.log mem.old) result state.new (M.log mem.new) }
{
    state.regs.operands.need(2)?;
    let order = order(state, mem)?;
    push_result(&mut state.regs.operands, 2, Kind::Boolean(order.is_le()))?;
    Ok(())
}
