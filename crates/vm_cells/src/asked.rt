//! What may be done to a memory, asked as a test runs: each call's condition is then known.
ghost use Rattle.std.specs.Prelude.{◌≡◌, ◌≢◌, ◌∷◌, true, None, IsTrue, IfOk, IfSome};
ghost use Rattle.ps_objects.specs.declared.place.Value.TheVariants as value;
ghost use Rattle.ps_memory.specs.Memory.{value_at, is_kind, spot_of, copy_named, perform};
ghost use Rattle.ps_memory.specs.Frame.{Allowed, IsUnused, IsNewest, later};
ghost use Rattle.ps_memory.specs.Writes.{Applicable};
ghost use Rattle.vm_mem.specs.Conditions.{page_is_here, stands, NewerThanAll};
ghost use Rattle.vm_mem.specs.Writes.{action_of, actions};
ghost use Rattle.vm_journal.specs.Part.{LaterThanAll};
ghost use Rattle.vm_cells.specs.Closing.{ClosesOne};

use crate::script::Step;
use crate::{Base, Cells, Mem, RestoreRefusal, Write, Writes};
use ps_objects::{Cell, Loc, NoMemory, SaveName, Space, Value};
use std::alloc::Global;
use std::collections::BTreeMap;
use vm_journal::Locals;

#[tactic(auto, using(crate::proofs::Asking::paper_is_here))]
pub(crate) fn is_here(memory: &Cells) -> bool
    ensures { IsTrue result → page_is_here memory.now ≡ true }
{
    is_found(memory, &Loc::Paper)
}

/// Whether a place holds something.
fn is_found(memory: &Cells, at: &Loc) -> bool
    ensures { IsTrue result → value_at memory.now at.now ≢ value.Absent }
{
    !memory.same(at, &Value::Absent)
}

/// Whether a place may be looked at.
#[tactic(auto, using(crate::proofs::Asking::entry_stands, crate::proofs::Asking::keys_stand, crate::proofs::Asking::access_stands, crate::proofs::Asking::item_stands, crate::proofs::Asking::byte_stands))]
pub(crate) fn stands(memory: &Cells, at: &Loc) -> bool
    ensures { IsTrue result → stands memory.now at.now ≡ true }
{
    match at {
        Loc::Entry { dict, .. } => is_found(memory, &Loc::Access { dict: *dict }),
        Loc::Keys { .. } | Loc::Access { .. } | Loc::Item { .. } | Loc::Byte { .. } => {
            is_found(memory, at)
        }
        Loc::Rand => true,
        Loc::Paper => false,
    }
}

/// Whether a value may be stored at a place.
fn takes(at: &Loc, value: &Value) -> bool
    ensures { IsTrue result → is_kind (spot_of at.now) value.now ≡ true }
{
    match at {
        Loc::Entry { .. } => matches!(value, Value::Absent | Value::Object(_)),
        Loc::Keys { .. } => false,
        Loc::Access { .. } => matches!(value, Value::Access(_)),
        Loc::Item { .. } => matches!(value, Value::Object(_)),
        Loc::Byte { .. } => match value {
            Value::Byte(byte) => u32::from(*byte) < 256,
            _ => false,
        },
        Loc::Rand => match value {
            Value::Rand(state) => 0 < *state && *state < 2147483647,
            _ => false,
        },
        Loc::Paper => matches!(value, Value::Paper(_)),
    }
}

#[tactic(auto, using(crate::proofs::Asking::unused))]
fn is_unused(memory: &Cells, cell: Cell) -> bool
    ensures { IsTrue result → IsUnused memory.now cell }
{
    let local = Cell {
        section: cell.section,
        count: cell.count,
        space: Space::Local,
    };
    let global = Cell {
        section: cell.section,
        count: cell.count,
        space: Space::Global,
    };
    memory.content(local).is_none() && memory.content(global).is_none()
}

/// Whether no local cell that is newer than a save stands.
#[tactic(auto, using(crate::proofs::Asking::newest))]
fn is_newest(memory: &Cells, name: SaveName) -> bool
    ensures { IsTrue result → IsNewest memory.now name }
{
    let last = Cell {
        section: name.section,
        count: name.count,
        space: Space::Global,
    };
    memory.have_holders();
    memory.locals().next(Some(last)).is_none()
}

/// Closes the newest save of a local part, without its strings.
#[tactic(auto, using(crate::proofs::Asking::no_strings))]
fn close(locals: &mut Locals, alloc: Global) -> Result<Option<SaveName>, NoMemory>
    ensures { IfOk result (ClosesOne locals.old locals.new) }
{
    let mut strings = BTreeMap::new(alloc);
    let closed = locals.close(&mut strings)?;
    Ok(closed)
}

#[tactic(auto, using(vm_content::proofs::Cells::newer_after))]
fn is_later(name: SaveName, other: SaveName) -> bool
    ensures { IsTrue result → later name other ≡ true }
{
    let cell = Cell {
        section: name.section,
        count: name.count,
        space: Space::Local,
    };
    cell.comes_after(other)
}

/// Whether a save of this name is later than all that a local part keeps.
#[tactic(auto, using(crate::proofs::Asking::later_than_newest, crate::proofs::Asking::later_than_none))]
fn is_latest_in(locals: &Locals, alloc: Global, name: SaveName) -> Result<bool, NoMemory>
    ensures { IfOk result (λ b. IsTrue b → LaterThanAll name locals.now.kept) }
{
    let mut left = locals.copy()?;
    match close(&mut left, alloc)? {
        Some(newest) => Ok(is_later(name, newest)),
        None => Ok(true),
    }
}

/// Whether a local part keeps a copy for a save of this name.
#[tactic(auto, using(crate::proofs::Asking::this_open, crate::proofs::Asking::other_open))]
fn is_open_in(locals: &Locals, alloc: Global, name: SaveName) -> Result<bool, NoMemory>
    ensures { IfOk result (λ b. IsTrue b → copy_named name locals.now.kept ≢ None) }
{
    let mut left = locals.copy()?;
    while let Some(closed) = close(&mut left, alloc)? {
        if closed == name {
            return Ok(true);
        }
    }
    Ok(false)
}

/// Whether a save of this name is later than all open ones.
fn is_latest(memory: &Cells, name: SaveName) -> Result<bool, NoMemory>
    ensures { IfOk result (λ b. IsTrue b → LaterThanAll name memory.now.kept) }
{
    is_latest_in(memory.locals(), memory.alloc(), name)
}

/// Whether a save of this name is open.
fn is_open(memory: &Cells, name: SaveName) -> Result<bool, NoMemory>
    ensures { IfOk result (λ b. IsTrue b → copy_named name memory.now.kept ≢ None) }
{
    is_open_in(memory.locals(), memory.alloc(), name)
}

/// Whether a local cell is newer than all open saves.
#[tactic(auto, using(crate::proofs::Asking::newer_than_all))]
fn is_newer(memory: &Cells, cell: Cell) -> Result<bool, NoMemory>
    ensures { IfOk result (λ b. IsTrue b → NewerThanAll cell memory.now.kept) }
{
    let name = SaveName {
        section: cell.section,
        count: cell.count,
    };
    match cell.space {
        Space::Local => {
            let latest = is_latest(memory, name)?;
            Ok(latest)
        }
        Space::Global => Ok(true),
    }
}

/// Whether the condition of a write is met.
fn allows(memory: &Cells, write: &Write) -> Result<bool, NoMemory>
    ensures { IfOk result (λ b. IsTrue b → Allowed (action_of write.now) memory.now) }
{
    match write {
        Write::Fresh { cell, .. } => {
            if !is_unused(memory, *cell) {
                return Ok(false);
            }
            is_newer(memory, *cell)
        }
        Write::Put { at, value } => Ok(stands(memory, at) && takes(at, value)),
        Write::Remove { dict, .. } => Ok(stands(memory, &Loc::Access { dict: *dict })),
        Write::Save { name } => {
            if !is_newest(memory, *name) {
                return Ok(false);
            }
            is_latest(memory, *name)
        }
    }
}

/// Does a write through the calls of operators, if its condition is met.
#[tactic(auto, using(vm_mem::proofs::Conditions::may_make, vm_mem::proofs::Conditions::may_store, vm_mem::proofs::Conditions::may_open))]
pub(crate) fn act(memory: &mut Cells, write: Write) -> Result<bool, NoMemory> {
    if !is_here(memory) || !allows(memory, &write)? {
        return Ok(false);
    }
    match write {
        Write::Fresh { cell, shape } => memory.fresh(cell, shape)?,
        Write::Put { at, value } => memory.store(&at, value)?,
        Write::Remove { dict, key } => memory.remove(dict, &key)?,
        Write::Save { name } => memory.save(name)?,
    }
    Ok(true)
}

/// Restores a save, if it is open.
#[tactic(auto, using(vm_mem::proofs::Conditions::may_restore))]
pub(crate) fn restore(memory: &mut Cells, name: SaveName) -> Result<bool, NoMemory> {
    if !is_here(memory) || !is_open(memory, name)? {
        return Ok(false);
    }
    match memory.restore(name) {
        Ok(()) => Ok(true),
        Err(RestoreRefusal::Outer { .. }) => Ok(false),
        Err(RestoreRefusal::NoMemory) => Err(NoMemory),
    }
}

/// Does a write on a memory, if its condition is met, and adds it to others.
#[tactic(auto, using(vm_mem::proofs::Conditions::may_make, vm_mem::proofs::Conditions::may_store, vm_mem::proofs::Conditions::may_open))]
fn add(memory: &mut Cells, writes: &mut Writes, write: Write) -> Result<bool, NoMemory>
    ensures allowed { IfOk result (λ done. IsTrue done → Allowed (action_of write) memory.old) }
    ensures memory { IfOk result (λ done.
        IsTrue done → memory.new ≡ perform (action_of write) memory.old) }
    ensures writes { IfOk result (λ done. IsTrue done → writes.new ≡ write ∷ writes.old) }
{
    if !is_here(memory) || !allows(memory, &write)? {
        return Ok(false);
    }
    match &write {
        Write::Fresh { cell, shape } => memory.fresh(*cell, *shape)?,
        Write::Put { at, value } => memory.store(at, value.copy()?)?,
        Write::Remove { dict, key } => memory.remove(*dict, key)?,
        Write::Save { name } => memory.save(*name)?,
    }
    writes.push(write)?;
    Ok(true)
}

/// Steps as writes, if each of them is one and its condition is met where it is done.
#[tactic(auto, using(crate::proofs::Asking::one_more_applicable, crate::proofs::Asking::one_more_applied))]
fn written(memory: &Cells, steps: &[Step]) -> Result<Option<Writes>, NoMemory>
    ensures { IfOk result (λ writes.
        IfSome writes (λ writes. Applicable (actions writes) memory.now)) }
{
    let mut writes = Writes::new(memory.alloc());
    let mut after = memory.copy()?;
    for step in steps {
        let Some(write) = step.write() else {
            return Ok(None);
        };
        if !add(&mut after, &mut writes, write)? {
            return Ok(None);
        }
    }
    Ok(Some(writes))
}

/// Does steps at once, if each of them is a write whose condition is met.
#[tactic(auto, using(vm_mem::proofs::Conditions::may_apply))]
pub(crate) fn apply(memory: &mut Cells, steps: &[Step]) -> Result<bool, NoMemory> {
    if !is_here(memory) {
        return Ok(false);
    }
    let Some(writes) = written(memory, steps)? else {
        return Ok(false);
    };
    memory.apply(&writes)?;
    Ok(true)
}
