//! What is recorded of an error in `$error`.
ghost use Rattle.std.specs.Prelude.{◌≡◌, ◌≢◌, ◌<◌, ◌≤◌, ◌^◌, ◌+◌, nat_le, false, length, slice_get, Some, true, IfOk, OnOk};
ghost use Rattle.ps_memory.specs.Tree.{action_of};
ghost use Rattle.ps_meaning.specs.Answer.{acted_in, changed_in};
ghost use Rattle.ps_meaning.specs.Budgets.{unit_budget};
ghost use Rattle.ps_names.specs.ErrorName.{bytes_of};
ghost use Rattle.ps_meaning.specs.Ready.{Ready};
ghost use Rattle.ps_meaning.specs.Start.{error_record};
ghost use Rattle.vm_mem.specs.Conditions.{MayMake};
ghost use Rattle.ps_operator.specs.Owes.{Acts};
ghost use Rattle.ps_operator.specs.Standing.{is_array, is_dict, Stays};
ghost use Rattle.ps_operator.specs.Registers.{literal};
ghost use Rattle.ps_objects.specs.declared.object.Kind.TheVariants as kind;
ghost use Rattle.error_ops.specs.Recording as spec;

use ps_kinds::{
    Act, Cell, DictStack, ErrorName, Interval, Key, Kind, Name, NoMemory, Object, Objects,
    Operands, Refusal, SectionKind, Space, State,
};
use ps_operator::{Mem, literal, make_array, store_entry, store_item, unit_room};
use std::alloc::Global;

fn copy_at(objects: &Objects, depth: usize) -> Result<Object, NoMemory>
    requires { depth < length objects.now }
    ensures { IfOk result (λ x. slice_get objects.now depth ≡ Some x) }
{
    objects.at(depth).copy()
}

/// Stores the objects of a stack in an array of as many items, the bottom first.
#[tactic(auto, using(crate::proofs::Turned::stack_step, crate::proofs::Turned::stack_end, ps_operator::proofs::StoreSteps::stays_itself, ps_operator::proofs::StoreSteps::stays_on))]
fn store_stack<M: Mem>(mem: &mut M, array: Interval, objects: &Objects) -> Result<(), NoMemory>
    requires len { array.len ≡ length objects.now }
    requires array { is_array (M.log mem.old).view array ≡ true }
    ensures stored { OnOk result
        (M.log mem.new ≡ changed_in (M.log mem.old) (spec.stack_stores array objects.now)) }
    ensures stays { OnOk result (Stays (M.log mem.old).view (M.log mem.new).view) }
{
    let len = objects.len();
    for at in 0..len {
        store_item(mem, array, at as u32, copy_at(objects, len - 1 - at)?)?;
    }
    Ok(())
}

fn dict_at(dicts: &DictStack, depth: usize) -> Cell
    requires { depth < length dicts.now }
    ensures { slice_get dicts.now depth ≡ Some result }
{
    *dicts.at(depth)
}

/// Stores the dictionaries of a stack in an array of as many items, the bottom first.
#[tactic(auto, using(crate::proofs::Turned::dicts_step, crate::proofs::Turned::dicts_end, ps_operator::proofs::StoreSteps::stays_itself, ps_operator::proofs::StoreSteps::stays_on))]
fn store_dicts<M: Mem>(mem: &mut M, array: Interval, dicts: &DictStack) -> Result<(), NoMemory>
    requires len { array.len ≡ length dicts.now }
    requires array { is_array (M.log mem.old).view array ≡ true }
    ensures stored { OnOk result (M.log mem.new
        ≡ changed_in (M.log mem.old) (spec.stack_stores array (spec.dict_objects dicts.now))) }
    ensures stays { OnOk result (Stays (M.log mem.old).view (M.log mem.new).view) }
{
    let len = dicts.len();
    for at in 0..len {
        store_item(
            mem,
            array,
            at as u32,
            literal(Kind::Dict(dict_at(dicts, len - 1 - at))),
        )?;
    }
    Ok(())
}

/// A whole array of so many items.
fn array_for(cell: Cell, len: usize) -> Interval
    requires { len < 2 ^ 32 }
    ensures { result ≡ spec.array_for cell len }
{
    Interval {
        cell,
        start: 0,
        len: len as u32,
    }
}

/// Makes two arrays, fills them with the operands and the dictionaries, and gives them.
#[tactic(auto, using(crate::proofs::Told::stacks_joined))]
fn record_stacks<M: Mem>(
    mem: &mut M,
    first: Cell,
    second: Cell,
    operands: &Objects,
    dicts: &DictStack,
) -> Result<(Interval, Interval), NoMemory>
    requires operands { length operands.now < 2 ^ 32 }
    requires dicts { length dicts.now < 2 ^ 32 }
    requires first { MayMake (M.log mem.old).view first }
    requires second { MayMake (M.log mem.old).view second }
    requires apart { second.count ≢ first.count }
    ensures arrays { IfOk result (λ r. r
        ≡ (spec.array_for first (length operands.now), spec.array_for second (length dicts.now))) }
    ensures told { OnOk result (M.log mem.new ≡ changed_in (M.log mem.old)
        (spec.stacks_told first second operands.now dicts.now)) }
    ensures dicts { OnOk result (spec.KeepsDicts (M.log mem.old).view (M.log mem.new).view) }
{
    let ostack = array_for(first, operands.len());
    let dstack = array_for(second, dicts.len());
    make_array(mem, first, ostack.len)?;
    make_array(mem, second, dstack.len)?;
    store_stack(mem, ostack, operands)?;
    store_dicts(mem, dstack, dicts)?;
    Ok((ostack, dstack))
}

/// The cell of `$error`.
fn error_record() -> Cell
    ensures { result ≡ error_record }
{
    Cell {
        section: 0,
        count: 4,
        space: Space::Local,
    }
}

/// Stores an entry of `$error`.
fn tell<M: Mem>(alloc: Global, mem: &mut M, name: &[u8], object: Object) -> Result<(), NoMemory>
    requires name { length name.now ≤ 127 }
    requires dict { is_dict (M.log mem.old).view error_record ≡ true }
    ensures told { OnOk result
        (M.log mem.new ≡ acted_in (M.log mem.old) (action_of (spec.told_under name.now object))) }
    ensures dict { OnOk result (is_dict (M.log mem.new).view error_record ≡ true) }
{
    let key = Key::Name(Name::from_bytes(alloc, name)?);
    store_entry(mem, error_record(), key, object)
}

fn truth() -> Object
    ensures { result ≡ literal (kind.Boolean true) }
{
    literal(Kind::Boolean(true))
}

/// The name of an error, as an object.
fn name_of(alloc: Global, error: ErrorName) -> Result<Object, NoMemory>
    ensures { IfOk result (λ x. x ≡ literal (kind.Name (bytes_of error))) }
{
    Ok(literal(Kind::Name(Name::from_bytes(alloc, error.as_bytes())?)))
}

fn array_of(interval: Interval) -> Object
    ensures { result ≡ literal (kind.Array interval false) }
{
    literal(Kind::Array {
        interval,
        packed: false,
    })
}

/// Stores the entries of `$error`: that it is new, its name, the object that was executed, and the two arrays.
fn tell_error<M: Mem>(
    alloc: Global,
    mem: &mut M,
    error: ErrorName,
    command: Object,
    operands: Interval,
    dicts: Interval,
) -> Result<(), NoMemory>
    requires { is_dict (M.log mem.old).view error_record ≡ true }
    ensures { OnOk result (M.log mem.new
        ≡ changed_in (M.log mem.old) (spec.error_told error command operands dicts)) }
{
    tell(alloc, mem, b"newerror", truth())?;
    tell(alloc, mem, b"errorname", name_of(alloc, error)?)?;
    tell(alloc, mem, b"command", command)?;
    tell(alloc, mem, b"ostack", array_of(operands))?;
    tell(alloc, mem, b"dstack", array_of(dicts))?;
    Ok(())
}

/// A new local cell, after `n` others.
fn local_cell(state: &State, n: u32) -> Cell
    requires { state.now.count + n < 2 ^ 32 }
    ensures { result ≡ spec.local_cell state.now n }
{
    Cell {
        section: state.section,
        count: state.count + n,
        space: Space::Local,
    }
}

/// Makes the arrays of two stacks, and stores all that is recorded of an error.
#[tactic(auto, using(crate::proofs::Told::record_joined))]
fn record<M: Mem>(
    mem: &mut M,
    error: ErrorName,
    command: Object,
    cells: (Cell, Cell),
    operands: &Objects,
    dicts: &DictStack,
) -> Result<(), NoMemory>
    requires operands { length operands.now < 2 ^ 32 }
    requires dicts { length dicts.now < 2 ^ 32 }
    requires first { MayMake (M.log mem.old).view cells.0 }
    requires second { MayMake (M.log mem.old).view cells.1 }
    requires apart { cells.1.count ≢ cells.0.count }
    requires record { is_dict (M.log mem.old).view error_record ≡ true }
    ensures { OnOk result (M.log mem.new ≡ changed_in (M.log mem.old)
        (spec.recorded error command cells.0 cells.1 operands.now dicts.now)) }
{
    let (first, second) = cells;
    let (ostack, dstack) = record_stacks(mem, first, second, operands, dicts)?;
    tell_error(operands.alloc(), mem, error, command, ostack, dstack)
}

/// Whether units for the items of both stacks are within the section's budget.
#[tactic(auto, using(crate::proofs::Units::small_sum, crate::proofs::Units::first_exceeds, crate::proofs::Units::both_fit))]
fn has_units(kind: SectionKind, units: u64, operands: u64, dicts: u64) -> bool
    ensures { result ≡ nat_le (units + (operands + dicts)) (unit_budget kind) }
{
    if unit_room(kind, units, operands).is_err() {
        return false;
    }
    unit_room(kind, units + operands, dicts).is_ok()
}

/// Records an error, takes the command off the stack, and stops.
///
/// The arrays of the two stacks cost a unit for each item; where these would pass the section's units, two empty arrays are
/// recorded.
///
/// # Errors
///
/// `stackunderflow` where there is no command.
#[tactic(auto, using(crate::proofs::Recorded::record_stands, crate::proofs::Recorded::local_free, crate::proofs::Told::two_taken, crate::proofs::Units::operands_fit, crate::proofs::Units::dicts_fit))]
pub(crate) fn records<M: Mem>(
    error: ErrorName,
    state: &mut State,
    mem: &mut M,
) -> Result<Act, Refusal>
    requires { Ready state.old (M.log mem.old).view }
    ensures { Acts (spec.records error) state.old (M.log mem.old) result state.new (M.log mem.new) }
{
    let cells = (local_cell(state, 0), local_cell(state, 1));
    let operands = &mut state.regs.operands;
    operands.need(1)?;
    let command = operands.object(0)?.copy()?;
    operands.shrink(1);
    let (operands, dicts) = (
        state.regs.operands.len() as u64,
        state.regs.dicts.len() as u64,
    );
    if has_units(state.kind, state.units, operands, dicts) {
        record(
            mem,
            error,
            command,
            cells,
            &state.regs.operands,
            &state.regs.dicts,
        )?;
        state.units += operands + dicts;
    } else {
        let alloc = state.regs.operands.alloc();
        record(
            mem,
            error,
            command,
            cells,
            &Objects::new(alloc),
            &DictStack::new(alloc),
        )?;
    }
    state.count += 2;
    Ok(Act::Stop)
}
