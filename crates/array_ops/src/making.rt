//! New arrays, and the packing mode (section 8.2 of the language manual).
#![tactic(auto, using(ps_operator::proofs::Naming::next_free))]

ghost use Rattle.std.specs.Prelude.{◌≡◌, ◌+◌, ◌<◌, ◌≤◌, drop, length, take, slice_get, Some, true, Ok, IfOk, OnOk};
ghost use Rattle.ps_meaning.specs.Answer.{changed_in};
ghost use Rattle.ps_meaning.specs.Ready.{Ready};
ghost use Rattle.ps_objects.specs.Object.{whole_of};
ghost use Rattle.ps_operator.specs.Owes.{Does, DoesAlone};
ghost use Rattle.ps_operator.specs.Budgets.{is_local};
ghost use Rattle.ps_operator.specs.Registers.{any_of, ops};
ghost use Rattle.ps_operator.specs.Standing.{is_array};
ghost use Rattle.ps_operator.specs.Storing.{item_stores};
ghost use Rattle.array_ops.specs.Making as spec;

use crate::parts::count_at;
use ps_kinds::{
    Access, Cell, ErrorName, Interval, Kind, NoMemory, Object, Objects, Operands, Refusal, Space,
    State,
};
use ps_operator::{
    Mem, above_mark, length_of, literal, make_array, natural_of, next_cell, store_item, unit_room,
};

/// The whole of an array.
fn whole_of(cell: Cell, len: u32) -> Interval
    ensures { result ≡ whole_of cell len }
{
    Interval {
        cell,
        start: 0,
        len,
    }
}

/// A literal array; a packed one is only read.
fn array_object(packed: bool, interval: Interval) -> Object
    ensures { result ≡ spec.array_object packed interval }
{
    Object {
        kind: Kind::Array { interval, packed },
        exec: false,
        access: if packed {
            Access::ReadOnly
        } else {
            Access::Unlimited
        },
    }
}

pub(crate) fn array<M: Mem>(state: &mut State, mem: &mut M) -> Result<(), Refusal>
    requires { Ready state.old (M.log mem.old).view }
    ensures { Does spec.array state.old (M.log mem.old) result state.new (M.log mem.new) }
{
    let operands = &state.regs.operands;
    operands.need(1)?;
    let len = length_of(natural_of(operands.integer(0)?)?)?;
    unit_room(state.kind, state.units, len as u64)?;
    let cell = next_cell(state);
    make_array(mem, cell, len)?;
    state.count += 1;
    state.units += len as u64;
    let operands = &mut state.regs.operands;
    operands.shrink(1);
    operands.push(array_object(false, whole_of(cell, len)))?;
    Ok(())
}

fn is_local(cell: Option<Cell>) -> bool
    ensures { result ≡ is_local cell }
{
    match cell {
        Some(cell) => cell.space == Space::Local,
        None => false,
    }
}

/// Whether an object names a local cell.
fn names_local(object: &Object) -> bool
    ensures { result ≡ spec.names_local object.now }
{
    is_local(object.kind.cell())
}

/// Whether one of some operands names a local cell.
#[tactic(auto, using(crate::proofs::Gathering::run_hit, crate::proofs::Gathering::run_miss, crate::proofs::Gathering::run_end))]
fn any_local(operands: &Objects, below: usize, count: usize) -> bool
    requires few { below ≤ 1 }
    requires there { below + count ≤ length operands.now }
    ensures { result ≡ any_of spec.names_local (take count (drop below operands.now)) }
{
    for n in 0..count {
        if names_local(operands.at(below + n)) {
            return true;
        }
    }
    false
}

/// Whether some operands may lie in a cell: invalidaccess.
pub(crate) fn all_storable(
    cell: Cell,
    operands: &Objects,
    below: usize,
    count: usize,
) -> Result<(), ErrorName>
    requires few { below ≤ 1 }
    requires there { below + count ≤ length operands.now }
    ensures { result ≡ spec.all_storable cell (take count (drop below operands.now)) }
{
    if cell.space == Space::Global && any_local(operands, below, count) {
        Err(ErrorName::InvalidAccess)
    } else {
        Ok(())
    }
}

fn copy_at(operands: &Objects, depth: usize) -> Result<Object, NoMemory>
    requires { depth < length operands.now }
    ensures { IfOk result (λ x. slice_get operands.now depth ≡ Some x) }
{
    operands.at(depth).copy()
}

/// Stores operands, which lie below the newest few, in an array of as many items, the lowest first.
#[tactic(auto, using(crate::proofs::Gathering::gather_step, crate::proofs::Gathering::gather_end))]
pub(crate) fn store_operands<M: Mem>(
    mem: &mut M,
    array: Interval,
    operands: &Objects,
    below: usize,
) -> Result<(), NoMemory>
    requires array { is_array (M.log mem.old).view array ≡ true }
    requires few { below ≤ 1 }
    requires there { below + array.len ≤ length operands.now }
    ensures { OnOk result (M.log mem.new ≡ changed_in (M.log mem.old)
        (item_stores array 0 (spec.taken below array.len operands.now))) }
{
    let past = below + array.len as usize;
    for at in 0..array.len {
        store_item(mem, array, at, copy_at(operands, past - 1 - at as usize)?)?;
    }
    Ok(())
}

/// Puts a new array of operands, which lie below the newest few, in their place and in that of one operand more.
#[tactic(auto, using(ps_operator::proofs::Naming::next_free, ps_operator::proofs::StoreSteps::items_take_none, crate::proofs::Gathering::room_small))]
fn gather<M: Mem>(
    state: &mut State,
    mem: &mut M,
    below: usize,
    count: usize,
    packed: bool,
) -> Result<(), Refusal>
    requires ready { Ready state.old (M.log mem.old).view }
    requires few { below ≤ 1 }
    requires there { below + count ≤ length (ops state.old) }
    requires more { count + 1 ≤ length (ops state.old) }
    ensures { Does (λ s. spec.gathers s below count packed) state.old (M.log mem.old)
        result state.new (M.log mem.new) }
{
    let cell = next_cell(state);
    let operands = &mut state.regs.operands;
    all_storable(cell, operands, below, count)?;
    unit_room(state.kind, state.units, count as u64)?;
    let array = whole_of(cell, count as u32);
    make_array(mem, cell, array.len)?;
    store_operands(mem, array, operands, below)?;
    state.count += 1;
    state.units += count as u64;
    operands.shrink(count + 1);
    operands.push(array_object(packed, array))?;
    Ok(())
}

pub(crate) fn right_bracket<M: Mem>(state: &mut State, mem: &mut M) -> Result<(), Refusal>
    requires { Ready state.old (M.log mem.old).view }
    ensures { Does spec.right_bracket state.old (M.log mem.old) result state.new (M.log mem.new) }
{
    let count = above_mark(&state.regs.operands)?;
    gather(state, mem, 0, count, false)
}

pub(crate) fn packedarray<M: Mem>(state: &mut State, mem: &mut M) -> Result<(), Refusal>
    requires { Ready state.old (M.log mem.old).view }
    ensures { Does spec.packedarray state.old (M.log mem.old) result state.new (M.log mem.new) }
{
    let operands = &state.regs.operands;
    operands.need(1)?;
    let count = count_at(operands, 0)? as usize;
    operands.need(count + 1)?;
    gather(state, mem, 1, count, true)
}

pub(crate) fn setpacking(state: &mut State) -> Result<(), Refusal>
    ensures { DoesAlone spec.setpacking state.old result state.new }
{
    let operands = &mut state.regs.operands;
    operands.need(1)?;
    let packing = operands.boolean(0)?;
    operands.shrink(1);
    state.regs.packing = packing;
    Ok(())
}

pub(crate) fn currentpacking(state: &mut State) -> Result<(), Refusal>
    ensures { DoesAlone spec.currentpacking state.old result state.new }
{
    let operands = &mut state.regs.operands;
    operands.room(1)?;
    operands.push(literal(Kind::Boolean(state.regs.packing)))?;
    Ok(())
}
