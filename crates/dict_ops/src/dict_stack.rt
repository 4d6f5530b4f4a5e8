//! The dictionary stack, and what is defined and sought there.
#![tactic(auto, using(ps_operator::proofs::Then::answer_then, ps_operator::proofs::Standing::dict_stands, ps_operator::proofs::Standing::array_stands, ps_operator::proofs::Standing::form_stands, ps_operator::proofs::Standing::dicts_stand, ps_operator::proofs::Standing::current_stands, crate::proofs::Held::held_stands, crate::proofs::Reading::holds_all, crate::proofs::Reading::objects_within))]

ghost use Rattle.std.specs.Prelude.{◌≡◌, ◌≤◌, ◌<◌, length, true, IfOk, OnOk};
ghost use Rattle.ps_meaning.specs.Ready.{Ready};
ghost use Rattle.ps_operator.specs.Owes.{Does, DoesAlone, Finds};
ghost use Rattle.ps_operator.specs.Registers.{any_of};
ghost use Rattle.ps_operator.specs.Standing.{is_dict, are_dicts};
ghost use Rattle.ps_operator.specs.Budgets.{is_local};
ghost use Rattle.dict_ops.specs.Stack as spec;

use crate::entries::number_told;
use ps_kinds::{
    Cell, DictStack, ErrorName, Interval, Key, Kind, NoMemory, Object, Operands, Refusal, Space,
    State, dict_room,
};
use ps_operator::{
    Mem, current, find, form_cell, glance_entry, key_length, key_of, key_right_at, literal,
    look_access, push_result, storable_entry, store_entry, store_items, unit_room,
};
use std::alloc::Global;
use vm_mem::hash_of;

/// How many dictionaries stay at the bottom of the stack.
const BOTTOM: usize = 3;

pub(crate) fn begin<M: Mem>(state: &mut State, mem: &mut M) -> Result<(), Refusal>
    requires { Ready state.old (M.log mem.old).view }
    ensures { Does spec.begin state.old (M.log mem.old) result state.new (M.log mem.new) }
{
    let operands = &mut state.regs.operands;
    operands.need(1)?;
    let dict = operands.dict(0)?;
    look_access(mem, dict)?.readable()?;
    dict_room(&state.regs.dicts)?;
    state.regs.dicts.push(dict)?;
    operands.shrink(1);
    Ok(())
}

/// Whether a dictionary lies above the bottom three: dictstackunderflow.
fn above_bottom(dicts: &DictStack) -> Result<(), ErrorName>
    ensures { result ≡ spec.above_bottom dicts.now }
{
    if dicts.len() > BOTTOM {
        Ok(())
    } else {
        Err(ErrorName::DictStackUnderflow)
    }
}

pub(crate) fn end(state: &mut State) -> Result<(), Refusal>
    ensures { DoesAlone spec.end state.old result state.new }
{
    let dicts = &mut state.regs.dicts;
    above_bottom(dicts)?;
    dicts.shrink(1);
    Ok(())
}

pub(crate) fn cleardictstack(state: &mut State) -> Result<(), Refusal>
    ensures { DoesAlone spec.cleardictstack state.old result state.new }
{
    let dicts = &mut state.regs.dicts;
    let above = dicts.len().saturating_sub(BOTTOM);
    dicts.shrink(above);
    Ok(())
}

pub(crate) fn currentdict(state: &mut State) -> Result<(), Refusal>
    ensures { DoesAlone spec.currentdict state.old result state.new }
{
    state.regs.operands.room(1)?;
    let dict = current(&state.regs.dicts);
    state.regs.operands.push(literal(Kind::Dict(dict)))?;
    Ok(())
}

pub(crate) fn countdictstack(state: &mut State) -> Result<(), Refusal>
    ensures { DoesAlone spec.countdictstack state.old result state.new }
{
    let told = number_told(state.regs.dicts.len())?;
    state.regs.operands.room(1)?;
    state.regs.operands.push(literal(Kind::Integer(told)))?;
    Ok(())
}

fn is_local(dict: Cell) -> bool
    ensures { result ≡ is_local (Some dict) }
{
    dict.space == Space::Local
}

/// Whether one of these dictionaries is local.
#[tactic(auto, using(ps_operator::proofs::StoreSteps::any_hit, ps_operator::proofs::StoreSteps::any_miss))]
fn any_local(dicts: &DictStack) -> bool
    ensures { result ≡ any_of (λ d. is_local (Some d)) dicts.now }
{
    for depth in 0..dicts.len() {
        if is_local(*dicts.at(depth)) {
            return true;
        }
    }
    false
}

/// Whether these dictionaries may lie in an array: invalidaccess.
fn stack_storable(array: Interval, dicts: &DictStack) -> Result<(), ErrorName>
    ensures { result ≡ spec.stack_storable array dicts.now }
{
    if array.cell.space == Space::Global && any_local(dicts) {
        Err(ErrorName::InvalidAccess)
    } else {
        Ok(())
    }
}

/// Whether an array holds as many objects as there are dictionaries: rangecheck.
fn holds(array: Interval, dicts: &DictStack) -> Result<(), ErrorName>
    ensures { result ≡ spec.holds array dicts.now }
{
    if (array.len as usize) < dicts.len() {
        Err(ErrorName::RangeCheck)
    } else {
        Ok(())
    }
}

/// The dictionaries as objects, from the bottom up.
#[tactic(auto, using(crate::proofs::Copying::list_step, crate::proofs::Copying::list_end))]
fn stack_objects(alloc: Global, dicts: &DictStack) -> Result<Vec<Object>, NoMemory>
    ensures { IfOk result (λ v. v.items ≡ spec.stack_objects dicts.now) }
{
    let mut objects = Vec::new(alloc);
    for depth in 0..dicts.len() {
        objects.push(literal(Kind::Dict(*dicts.at(depth))))?;
    }
    objects.reverse();
    Ok(objects)
}

/// The front of an array, with its attribute and its access.
fn front_of(object: &Object, len: u32) -> Result<Object, NoMemory>
    ensures { IfOk result (λ x. x ≡ spec.front_of len object.now) }
{
    let mut front = object.copy()?;
    if let Kind::Array { interval, packed } = object.kind {
        let interval = Interval { len, ..interval };
        front.kind = Kind::Array { interval, packed };
    }
    Ok(front)
}

#[tactic(auto, using(ps_operator::proofs::Standing::array_stands, ps_operator::proofs::StoreSteps::items_take_none, crate::proofs::Reading::holds_all, crate::proofs::Reading::objects_within))]
pub(crate) fn dictstack<M: Mem>(state: &mut State, mem: &mut M) -> Result<(), Refusal>
    requires { Ready state.old (M.log mem.old).view }
    ensures { Does spec.dictstack state.old (M.log mem.old) result state.new (M.log mem.new) }
{
    let operands = &mut state.regs.operands;
    let dicts = &state.regs.dicts;
    operands.need(1)?;
    let object = operands.object(0)?;
    let array = operands.array(0)?;
    operands.writable(0)?;
    stack_storable(array, dicts)?;
    holds(array, dicts)?;
    let front = front_of(object, dicts.len() as u32)?;
    let objects = stack_objects(operands.alloc(), dicts)?;
    store_items(mem, array, 0, objects.as_slice())?;
    operands.shrink(1);
    operands.push(front)?;
    Ok(())
}

pub(crate) fn def<M: Mem>(state: &mut State, mem: &mut M) -> Result<(), Refusal>
    requires { Ready state.old (M.log mem.old).view }
    ensures { Does spec.def state.old (M.log mem.old) result state.new (M.log mem.new) }
{
    let operands = &mut state.regs.operands;
    let alloc = operands.alloc();
    operands.need(2)?;
    let object = operands.object(0)?;
    let form = operands.key_form(1)?;
    let dict = current(&state.regs.dicts);
    look_access(mem, dict)?.writable()?;
    key_right_at(operands, 1)?;
    storable_entry(dict, form_cell(&form), &object.kind)?;
    key_length(&form)?;
    unit_room(state.kind, state.units, 1)?;
    let key = key_of(alloc, form, mem)?;
    store_entry(mem, dict, key, object.copy()?)?;
    state.units += 1;
    operands.shrink(2);
    Ok(())
}

pub(crate) fn load<M: Mem>(state: &mut State, mem: &mut M) -> Result<(), Refusal>
    requires { Ready state.old (M.log mem.old).view }
    ensures { Does spec.load state.old (M.log mem.old) result state.new (M.log mem.new) }
{
    let operands = &mut state.regs.operands;
    let alloc = operands.alloc();
    operands.need(1)?;
    let form = operands.key_form(0)?;
    key_right_at(operands, 0)?;
    key_length(&form)?;
    let key = key_of(alloc, form, mem)?;
    let object = find(&state.regs.dicts, key, mem)?;
    operands.shrink(1);
    operands.push(object)?;
    Ok(())
}

/// The newest dictionary that has a key.
#[tactic(auto, using(crate::proofs::Held::held_hit, crate::proofs::Held::held_miss, ps_operator::proofs::Looked::dict_among))]
fn holder<M: Mem>(dicts: &DictStack, key: &Key, mem: &mut M) -> Result<Option<Cell>, NoMemory>
    requires { are_dicts (M.log mem.old).view dicts.now ≡ true }
    ensures view { OnOk result ((M.log mem.new).view ≡ (M.log mem.old).view) }
    ensures stands { IfOk result (λ there. spec.holder_stands (M.log mem.new).view there ≡ true) }
    ensures told { IfOk result (λ there. Finds (spec.holder dicts.now key.now) (M.log mem.old)
        there (M.log mem.new)) }
{
    let hash = hash_of(key);
    for depth in 0..dicts.len() {
        let dict = *dicts.at(depth);
        let glance = glance_entry(mem, dict, key, hash)?;
        if !glance.is_absent() {
            return Ok(Some(dict));
        }
    }
    Ok(None)
}

fn or_current(dicts: &DictStack, there: Option<Cell>) -> Cell
    ensures { result ≡ spec.or_current dicts.now there }
{
    match there {
        Some(dict) => dict,
        None => current(dicts),
    }
}

pub(crate) fn store<M: Mem>(state: &mut State, mem: &mut M) -> Result<(), Refusal>
    requires { Ready state.old (M.log mem.old).view }
    ensures { Does spec.store state.old (M.log mem.old) result state.new (M.log mem.new) }
{
    let operands = &mut state.regs.operands;
    let alloc = operands.alloc();
    operands.need(2)?;
    let object = operands.object(0)?;
    let form = operands.key_form(1)?;
    let cell = form_cell(&form);
    key_right_at(operands, 1)?;
    key_length(&form)?;
    let key = key_of(alloc, form, mem)?;
    let there = holder(&state.regs.dicts, &key, mem)?;
    let dict = or_current(&state.regs.dicts, there);
    look_access(mem, dict)?.writable()?;
    storable_entry(dict, cell, &object.kind)?;
    unit_room(state.kind, state.units, 1)?;
    store_entry(mem, dict, key, object.copy()?)?;
    state.units += 1;
    operands.shrink(2);
    Ok(())
}

pub(crate) fn where_<M: Mem>(state: &mut State, mem: &mut M) -> Result<(), Refusal>
    requires { Ready state.old (M.log mem.old).view }
    ensures { Does spec.where_ state.old (M.log mem.old) result state.new (M.log mem.new) }
{
    let operands = &mut state.regs.operands;
    let alloc = operands.alloc();
    operands.need(1)?;
    let form = operands.key_form(0)?;
    key_right_at(operands, 0)?;
    key_length(&form)?;
    let key = key_of(alloc, form, mem)?;
    match holder(&state.regs.dicts, &key, mem)? {
        Some(dict) => {
            operands.room(1)?;
            push_result(operands, 1, Kind::Dict(dict))?;
            operands.push(literal(Kind::Boolean(true)))?;
        }
        None => push_result(operands, 1, Kind::Boolean(false))?,
    }
    Ok(())
}
