//! Single items and bytes, and how many there are (section 8.2 of the language manual).
ghost use Rattle.std.specs.Prelude.{◌≡◌, ◌≤◌, length, true};
ghost use Rattle.ps_meaning.specs.Ready.{Ready};
ghost use Rattle.ps_objects.specs.Operands.{typed};
ghost use Rattle.ps_operator.specs.Owes.{Does, DoesAlone};
ghost use Rattle.ps_operator.specs.Registers.{ops};
ghost use Rattle.ps_operator.specs.Standing.{is_array, is_string};
ghost use Rattle.array_ops.specs.Members as spec;

use crate::parts::{Part, part_at};
use ps_kinds::{ErrorName, Interval, Kind, Object, Objects, Operands, Refusal, State};
use ps_operator::{
    Mem, look_byte, look_item, place_in, push_result, storable, store_byte, store_item,
};

fn size_of(kind: &Kind) -> Result<usize, ErrorName>
    ensures { result ≡ spec.size_of kind.now }
{
    match kind {
        Kind::Array { interval, .. } => Ok(interval.len as usize),
        Kind::Str(interval) => Ok(interval.len as usize),
        Kind::Name(name) => Ok(name.as_slice().len()),
        _ => Err(ErrorName::TypeCheck),
    }
}

/// How many items, or bytes of a string or of a name, an operand has: typecheck.
fn size_at(operands: &Objects, depth: usize) -> Result<usize, ErrorName>
    ensures { result ≡ typed spec.size_of depth operands.now }
{
    size_of(&operands.object(depth)?.kind)
}

fn size_right(object: &Object) -> Result<(), ErrorName>
    ensures { result ≡ spec.size_right object.now.access object.now.kind }
{
    match object.kind {
        Kind::Array { .. } => object.access.readable(),
        Kind::Str(_) => object.access.readable(),
        _ => Ok(()),
    }
}

/// Whether an array or a string may be read, so that its length is told: invalidaccess.
fn size_right_at(operands: &Objects, depth: usize) -> Result<(), ErrorName>
    ensures { result ≡ spec.size_right_at depth operands.now }
{
    size_right(operands.object(depth)?)
}

/// A number that is told: limitcheck.
fn number_told(n: usize) -> Result<i32, ErrorName>
    ensures { result ≡ spec.number_told n }
{
    if n > 2_147_483_647 {
        Err(ErrorName::LimitCheck)
    } else {
        Ok(n as i32)
    }
}

/// What `length` does of an array, a string or a name.
pub(crate) fn size(state: &mut State) -> Result<(), Refusal>
    ensures { DoesAlone spec.size state.old result state.new }
{
    let operands = &mut state.regs.operands;
    operands.need(1)?;
    let size = size_at(operands, 0)?;
    size_right_at(operands, 0)?;
    let told = number_told(size)?;
    push_result(operands, 1, Kind::Integer(told))?;
    Ok(())
}

/// Leaves the item at a place of an array.
#[tactic(auto, using(ps_operator::proofs::Fitting::place_below))]
fn get_item<M: Mem>(state: &mut State, mem: &mut M, array: Interval) -> Result<(), Refusal>
    requires array { is_array (M.log mem.old).view array ≡ true }
    requires there { 2 ≤ length (ops state.old) }
    ensures { Does (λ s. spec.item_told s array) state.old (M.log mem.old)
        result state.new (M.log mem.new) }
{
    let operands = &mut state.regs.operands;
    let i = operands.integer(0)?;
    operands.readable(1)?;
    let at = place_in(array.len, i)?;
    let item = look_item(mem, array, at)?;
    operands.shrink(2);
    operands.push(item)?;
    Ok(())
}

/// Leaves the byte at a place of a string, as an integer.
#[tactic(auto, using(ps_operator::proofs::Fitting::place_below))]
fn get_byte<M: Mem>(state: &mut State, mem: &mut M, string: Interval) -> Result<(), Refusal>
    requires string { is_string (M.log mem.old).view string ≡ true }
    requires there { 2 ≤ length (ops state.old) }
    ensures { Does (λ s. spec.byte_told s string) state.old (M.log mem.old)
        result state.new (M.log mem.new) }
{
    let operands = &mut state.regs.operands;
    let i = operands.integer(0)?;
    operands.readable(1)?;
    let at = place_in(string.len, i)?;
    let byte = look_byte(mem, string, at)?;
    push_result(operands, 2, Kind::Integer(byte as i32))?;
    Ok(())
}

#[tactic(auto, using(crate::proofs::Standing::items_stand, crate::proofs::Standing::bytes_stand))]
pub(crate) fn get<M: Mem>(state: &mut State, mem: &mut M) -> Result<(), Refusal>
    requires { Ready state.old (M.log mem.old).view }
    ensures { Does spec.get state.old (M.log mem.old) result state.new (M.log mem.new) }
{
    let operands = &state.regs.operands;
    operands.need(2)?;
    match part_at(operands, 1)? {
        Part::Items(array) => get_item(state, mem, array),
        Part::Bytes(string) => get_byte(state, mem, string),
    }
}

/// A number that is a byte: rangecheck.
fn byte_of(n: i32) -> Result<u8, ErrorName>
    ensures { result ≡ spec.byte_of n }
{
    if n >= 0 && n < 256 {
        Ok(n as u8)
    } else {
        Err(ErrorName::RangeCheck)
    }
}

/// Puts the newest operand at a place of an array.
#[tactic(auto, using(ps_operator::proofs::Fitting::place_below))]
fn put_item<M: Mem>(state: &mut State, mem: &mut M, array: Interval) -> Result<(), Refusal>
    requires array { is_array (M.log mem.old).view array ≡ true }
    requires there { 3 ≤ length (ops state.old) }
    ensures { Does (λ s. spec.item_put s array) state.old (M.log mem.old)
        result state.new (M.log mem.new) }
{
    let operands = &mut state.regs.operands;
    let object = operands.object(0)?;
    let i = operands.integer(1)?;
    operands.writable(2)?;
    storable(array.cell, &object.kind)?;
    let at = place_in(array.len, i)?;
    store_item(mem, array, at, object.copy()?)?;
    operands.shrink(3);
    Ok(())
}

/// Puts the newest operand at a place of a string.
#[tactic(auto, using(ps_operator::proofs::Fitting::place_below))]
fn put_byte<M: Mem>(state: &mut State, mem: &mut M, string: Interval) -> Result<(), Refusal>
    requires string { is_string (M.log mem.old).view string ≡ true }
    requires there { 3 ≤ length (ops state.old) }
    ensures { Does (λ s. spec.byte_put s string) state.old (M.log mem.old)
        result state.new (M.log mem.new) }
{
    let operands = &mut state.regs.operands;
    let n = operands.integer(0)?;
    let i = operands.integer(1)?;
    operands.writable(2)?;
    let at = place_in(string.len, i)?;
    let byte = byte_of(n)?;
    store_byte(mem, string, at, byte)?;
    operands.shrink(3);
    Ok(())
}

#[tactic(auto, using(crate::proofs::Standing::items_stand, crate::proofs::Standing::bytes_stand))]
pub(crate) fn put<M: Mem>(state: &mut State, mem: &mut M) -> Result<(), Refusal>
    requires { Ready state.old (M.log mem.old).view }
    ensures { Does spec.put state.old (M.log mem.old) result state.new (M.log mem.new) }
{
    let operands = &state.regs.operands;
    operands.need(3)?;
    match part_at(operands, 2)? {
        Part::Items(array) => put_item(state, mem, array),
        Part::Bytes(string) => put_byte(state, mem, string),
    }
}
