//! Dictionaries and their entries.
#![tactic(auto, using(ps_operator::proofs::Then::answer_then, ps_operator::proofs::Standing::dict_stands, ps_operator::proofs::Standing::form_stands, ps_operator::proofs::Naming::next_free, crate::proofs::Looked::dict_may_ask))]

ghost use Rattle.std.specs.Prelude.{◌≡◌, true};
ghost use Rattle.ps_meaning.specs.Ready.{Ready};
ghost use Rattle.ps_memory.specs.Memory.{shape_of};
ghost use Rattle.ps_operator.specs.Owes.{Does};
ghost use Rattle.ps_operator.specs.Standing.{is_dict};
ghost use Rattle.dict_ops.specs.Entries as spec;

use ps_kinds::{Cell, ErrorName, Kind, Object, Operands, Refusal, Shape, State};
use ps_operator::{
    Mem, form_cell, key_length, key_of, key_right_at, length_of, literal, look_access, look_entry,
    look_keys, make_dict, natural_of, next_cell, push_result, remove_entry, storable_entry,
    store_entry, unit_room,
};

pub(crate) fn dict<M: Mem>(state: &mut State, mem: &mut M) -> Result<(), Refusal>
    requires { Ready state.old (M.log mem.old).view }
    ensures { Does spec.dict state.old (M.log mem.old) result state.new (M.log mem.new) }
{
    let operands = &state.regs.operands;
    operands.need(1)?;
    let capacity = length_of(natural_of(operands.integer(0)?)?)?;
    let cell = next_cell(state);
    make_dict(mem, cell, capacity)?;
    state.count += 1;
    push_result(&mut state.regs.operands, 1, Kind::Dict(cell))?;
    Ok(())
}

/// A number that is told: limitcheck.
pub(crate) fn number_told(n: usize) -> Result<i32, ErrorName>
    ensures { result ≡ spec.number_told n }
{
    if n > 2_147_483_647 {
        Err(ErrorName::LimitCheck)
    } else {
        Ok(n as i32)
    }
}

pub(crate) fn length<M: Mem>(state: &mut State, mem: &mut M) -> Result<(), Refusal>
    requires { Ready state.old (M.log mem.old).view }
    ensures { Does spec.dict_length state.old (M.log mem.old) result state.new (M.log mem.new) }
{
    let operands = &mut state.regs.operands;
    operands.need(1)?;
    let dict = operands.dict(0)?;
    look_access(mem, dict)?.readable()?;
    let keys = look_keys(mem, dict)?;
    let told = number_told(keys.len())?;
    push_result(operands, 1, Kind::Integer(told))?;
    Ok(())
}

fn capacity_of(shape: Shape) -> u32
    ensures { result ≡ spec.capacity_of shape }
{
    match shape {
        Shape::Dict { capacity } => capacity,
        Shape::Array { .. } | Shape::Str { .. } => 0,
    }
}

/// With how many entries a dictionary was made for.
fn capacity<M: Mem>(mem: &M, dict: Cell) -> u32
    requires { is_dict (M.log mem.now).view dict ≡ true }
    ensures { result ≡ spec.capacity_of (shape_of (M.log mem.now).view dict) }
{
    capacity_of(mem.shape(dict))
}

fn greater_of(m: usize, n: usize) -> usize
    ensures { result ≡ spec.greater_of m n }
{
    if m < n { n } else { m }
}

pub(crate) fn maxlength<M: Mem>(state: &mut State, mem: &mut M) -> Result<(), Refusal>
    requires { Ready state.old (M.log mem.old).view }
    ensures { Does spec.maxlength state.old (M.log mem.old) result state.new (M.log mem.new) }
{
    let operands = &mut state.regs.operands;
    operands.need(1)?;
    let dict = operands.dict(0)?;
    look_access(mem, dict)?.readable()?;
    let keys = look_keys(mem, dict)?;
    let most = greater_of(keys.len(), capacity(mem, dict) as usize);
    let told = number_told(most)?;
    push_result(operands, 1, Kind::Integer(told))?;
    Ok(())
}

pub(crate) fn known<M: Mem>(state: &mut State, mem: &mut M) -> Result<(), Refusal>
    requires { Ready state.old (M.log mem.old).view }
    ensures { Does spec.known state.old (M.log mem.old) result state.new (M.log mem.new) }
{
    let operands = &mut state.regs.operands;
    let alloc = operands.alloc();
    operands.need(2)?;
    let form = operands.key_form(0)?;
    let dict = operands.dict(1)?;
    look_access(mem, dict)?.readable()?;
    key_right_at(operands, 0)?;
    key_length(&form)?;
    let key = key_of(alloc, form, mem)?;
    let present = look_entry(mem, dict, key)?.is_some();
    push_result(operands, 2, Kind::Boolean(present))?;
    Ok(())
}

/// The value of an entry: undefined.
fn value_in(found: Option<Object>) -> Result<Object, ErrorName>
    ensures { result ≡ spec.value_in found }
{
    found.ok_or(ErrorName::Undefined)
}

pub(crate) fn get<M: Mem>(state: &mut State, mem: &mut M) -> Result<(), Refusal>
    requires { Ready state.old (M.log mem.old).view }
    ensures { Does spec.dict_get state.old (M.log mem.old) result state.new (M.log mem.new) }
{
    let operands = &mut state.regs.operands;
    let alloc = operands.alloc();
    operands.need(2)?;
    let form = operands.key_form(0)?;
    let dict = operands.dict(1)?;
    look_access(mem, dict)?.readable()?;
    key_right_at(operands, 0)?;
    key_length(&form)?;
    let key = key_of(alloc, form, mem)?;
    let object = value_in(look_entry(mem, dict, key)?)?;
    operands.shrink(2);
    operands.push(object)?;
    Ok(())
}

pub(crate) fn put<M: Mem>(state: &mut State, mem: &mut M) -> Result<(), Refusal>
    requires { Ready state.old (M.log mem.old).view }
    ensures { Does spec.dict_put state.old (M.log mem.old) result state.new (M.log mem.new) }
{
    let operands = &mut state.regs.operands;
    let alloc = operands.alloc();
    operands.need(3)?;
    let object = operands.object(0)?;
    let form = operands.key_form(1)?;
    let dict = operands.dict(2)?;
    look_access(mem, dict)?.writable()?;
    key_right_at(operands, 1)?;
    storable_entry(dict, form_cell(&form), &object.kind)?;
    key_length(&form)?;
    unit_room(state.kind, state.units, 1)?;
    let key = key_of(alloc, form, mem)?;
    store_entry(mem, dict, key, object.copy()?)?;
    state.units += 1;
    operands.shrink(3);
    Ok(())
}

/// Whether programs may change the entries of a dictionary at all: invalidaccess.
pub(crate) fn is_open(dict: Cell) -> Result<(), ErrorName>
    ensures { result ≡ spec.is_open dict }
{
    storable_entry(dict, None, &Kind::Null)
}

pub(crate) fn undef<M: Mem>(state: &mut State, mem: &mut M) -> Result<(), Refusal>
    requires { Ready state.old (M.log mem.old).view }
    ensures { Does spec.undef state.old (M.log mem.old) result state.new (M.log mem.new) }
{
    let operands = &mut state.regs.operands;
    let alloc = operands.alloc();
    operands.need(2)?;
    let form = operands.key_form(0)?;
    let dict = operands.dict(1)?;
    look_access(mem, dict)?.writable()?;
    is_open(dict)?;
    key_right_at(operands, 0)?;
    key_length(&form)?;
    let key = key_of(alloc, form, mem)?;
    remove_entry(mem, dict, &key)?;
    operands.shrink(2);
    Ok(())
}
