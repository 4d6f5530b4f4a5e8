//! The committed memory.
ghost use Rattle.std.specs.Prelude.{◌≡◌, ◌≢◌, true, None, Some, option_copied, IfOk, OnOk, OnErr};
ghost use Rattle.std.specs.FinMap.{get, insert, from_entries};
ghost use Rattle.ps_memory.specs.Order.{cell_cmp};
ghost use Rattle.ps_memory.specs.Memory.{part, with_part, value_at, value_found, in_string, page_found, is_slot, is_kind, held, byte, rand, paper, spot_of, characters, do_store, copy_named, older_than};
ghost use Rattle.vm_content.specs.Content.{slot_in};
ghost use Rattle.ps_memory.specs.Holders.{HaveHolders};
ghost use Rattle.vm_journal.specs.Part.{HaveCells, kept_from};
ghost use Rattle.vm_content.specs.Maps.{cells_of, AddsNone};
ghost use Rattle.vm_mem.specs.Conditions.{NewerThanAll};
ghost use Rattle.vm_committed.specs.Changes.{with_local, with_global, with_string, with_byte};

use crate::page::Page;
use ps_objects::{Cell, Loc, NoMemory, SaveName, Space, Value};
use std::alloc::Global;
use std::collections::BTreeMap;
use std::marker::Model;
use vm_content::{Bytes, Content, insert_cell, put_in_cell};
use vm_journal::Locals;

/// The committed memory: local and global cells, the bytes of strings, the state of the random numbers and the paper
/// (section 3.7 of the language manual: virtual memory).
///
/// A save costs constant time, a store under an open save notes the old value once, and a restore costs what was changed.
#[derive(Drop)]
pub struct Cells {
    pub(crate) alloc: Global,
    pub(crate) locals: Locals,
    pub(crate) globals: BTreeMap<Cell, Content>,
    pub(crate) strings: BTreeMap<Cell, Bytes>,
    pub(crate) rand: u32,
    pub(crate) page: Page,
}

impl Model for Cells {
    ghost use Rattle.std.specs.FinMap.{from_entries};
    ghost use Rattle.ps_memory.specs.Order.{cell_cmp};
    ghost use Rattle.ps_memory.specs.Memory.{Memory};
    ghost use Rattle.vm_committed.specs.Whole.{memory_code, memory_of};
    ghost use Rattle.ps_memory.specs.Holders.{HaveHolders};

    ghost Value = { Memory };

    ghost coded = { memory_code };

    ghost view = { λ m. memory_of m.locals m.globals m.strings m.rand m.page };

    ghost invariant = { λ m. HaveHolders (memory_of m.locals m.globals m.strings m.rand m.page) };
}

impl Cells {
    pub fn alloc(&self) -> Global {
        self.alloc
    }

    /// The local part: its cells and the open saves.
    pub fn locals(&self) -> &Locals
        ensures { result.now ≡ record { cells = self.now.locals; kept = self.now.kept } }
    {
        &self.locals
    }

    /// What a cell holds, if it stands.
    #[tactic(auto, using(vm_content::proofs::Cells::cell_found))]
    pub fn content(&self, cell: Cell) -> Option<&Content>
        ensures { option_copied result ≡ get (part self.now cell) cell }
    {
        match cell.space {
            Space::Local => self.locals.get(cell),
            Space::Global => self.globals.get(&cell),
        }
    }
}

// The kinds of places, one by one.
impl Cells {
    /// A copy of the value at a place of a cell.
    #[tactic(auto, using(crate::proofs::WholeValues::held_found, crate::proofs::WholeValues::held_missing))]
    pub(crate) fn held_value(&self, cell: Cell, at: &Loc) -> Result<Value, NoMemory>
        requires { spot_of at.now ≡ held cell (slot_in at.now) }
        ensures { IfOk result (λ value. value ≡ value_at self.now at.now) }
    {
        match self.content(cell) {
            Some(content) => content.value(at),
            None => Ok(Value::Absent),
        }
    }

    /// The byte at a place of a string.
    #[tactic(auto, using(vm_content::proofs::Cells::cell_found))]
    pub(crate) fn byte(&self, string: Cell, at: u32) -> Value
        ensures { result ≡ value_found (in_string (get self.now.strings string) at) }
    {
        match self.strings.get(&string) {
            Some(bytes) => match bytes.get(at) {
                Some(byte) => Value::Byte(byte),
                None => Value::Absent,
            },
            None => Value::Absent,
        }
    }

    /// A copy of the paper.
    pub(crate) fn paper(&self) -> Result<Value, NoMemory>
        ensures { IfOk result (λ value. value ≡ value_found (page_found self.now.page)) }
    {
        match &self.page {
            Page::Here(paper) => Ok(Value::Paper(paper.copy()?)),
            Page::Out { .. } => Ok(Value::Absent),
        }
    }

    /// Stores a value at a place of a cell.
    pub(crate) fn put_held(&mut self, cell: Cell, at: &Loc, value: Value) -> Result<(), NoMemory>
        requires spot { spot_of at.now ≡ held cell (slot_in at.now) }
        requires place { is_slot (get (part self.old cell) cell) (slot_in at.now) ≡ true }
        ensures ok { OnOk result (self.new ≡ do_store (held cell (slot_in at.now)) value self.old) }
        ensures err { OnErr result (self.new ≡ self.old) }
    {
        match cell.space {
            Space::Local => self.locals.put(cell, at, value),
            Space::Global => put_in_cell(&mut self.globals, at, value),
        }
    }

    pub(crate) fn put_byte(&mut self, string: Cell, at: u32, value: Value)
        requires { is_kind (byte string at) value ≡ true }
        ensures { self.new ≡ do_store (byte string at) value self.old }
    {
        match value {
            Value::Byte(byte) => put_byte_in(&mut self.strings, string, at, byte),
            _ => {}
        }
    }

    pub(crate) fn put_rand(&mut self, value: Value)
        requires { is_kind rand value ≡ true }
        ensures { self.new ≡ do_store rand value self.old }
    {
        match value {
            Value::Rand(state) => self.rand = state,
            _ => {}
        }
    }

    pub(crate) fn put_paper(&mut self, value: Value)
        requires { is_kind paper value ≡ true }
        ensures { self.new ≡ do_store paper value self.old }
    {
        match value {
            Value::Paper(paper) => self.page = Page::Here(paper),
            _ => {}
        }
    }
}

// New cells.
impl Cells {
    /// Adds a cell that isn't a string's.
    pub(crate) fn make_held(&mut self, cell: Cell, content: Content) -> Result<(), NoMemory>
        requires unused { get self.old.strings cell ≡ None }
        requires newest { NewerThanAll cell self.old.kept }
        ensures ok { OnOk result (self.new ≡ with_part self.old cell (λ m. insert m cell content)) }
        ensures err { OnErr result (self.new ≡ self.old) }
    {
        insert_held(&mut self.locals, &mut self.globals, cell, content)?;
        Ok(())
    }

    /// Adds a string's cell, and `len` zeros.
    pub(crate) fn make_string(
        &mut self,
        cell: Cell,
        len: u32,
        content: Content,
    ) -> Result<(), NoMemory>
        requires string { content ≡ characters len }
        requires unused { get self.old.strings cell ≡ None }
        requires newest { NewerThanAll cell self.old.kept }
        ensures ok { OnOk result (self.new ≡ with_string cell len content self.old) }
        ensures err { OnErr result (self.new ≡ self.old) }
    {
        let bytes = Bytes::zeros(self.alloc, len)?;
        insert_string(
            &mut self.locals,
            &mut self.globals,
            &mut self.strings,
            cell,
            content,
            bytes,
        )?;
        Ok(())
    }
}

/// Adds a string's cell and its bytes. Where memory runs out, nothing has changed.
#[tactic(auto, using(vm_content::proofs::Cells::cell_inserted))]
fn insert_string(
    locals: &mut Locals,
    globals: &mut BTreeMap<Cell, Content>,
    strings: &mut BTreeMap<Cell, Bytes>,
    cell: Cell,
    content: Content,
    bytes: Bytes,
) -> Result<(), NoMemory>
    requires unused { get (cells_of strings.old) cell ≡ None }
    requires newest { NewerThanAll cell locals.old.kept }
    ensures locals { OnOk result (locals.new ≡ with_local cell content locals.old) }
    ensures globals { OnOk result (cells_of globals.new ≡ with_global cell content globals.old) }
    ensures bytes { OnOk result (cells_of strings.new ≡ insert (cells_of strings.old) cell bytes) }
    ensures same_locals { OnErr result (locals.new ≡ locals.old) }
    ensures same_globals { OnErr result (cells_of globals.new ≡ cells_of globals.old) }
    ensures same_strings { OnErr result (cells_of strings.new ≡ cells_of strings.old) }
{
    strings.insert(cell, bytes)?;
    match insert_held(locals, globals, cell, content) {
        Ok(()) => Ok(()),
        Err(error) => {
            strings.remove(&cell);
            Err(error)
        }
    }
}

/// Adds a cell to its part.
fn insert_held(
    locals: &mut Locals,
    globals: &mut BTreeMap<Cell, Content>,
    cell: Cell,
    content: Content,
) -> Result<(), NoMemory>
    requires newest { NewerThanAll cell locals.old.kept }
    ensures locals { OnOk result (locals.new ≡ with_local cell content locals.old) }
    ensures globals { OnOk result (cells_of globals.new ≡ with_global cell content globals.old) }
    ensures same_locals { OnErr result (locals.new ≡ locals.old) }
    ensures same_globals { OnErr result (cells_of globals.new ≡ cells_of globals.old) }
{
    match cell.space {
        Space::Local => locals.insert(cell, content)?,
        Space::Global => insert_cell(globals, cell, content)?,
    }
    Ok(())
}

/// Stores a byte of a string, if the string is that long.
#[tactic(auto, using(vm_content::proofs::Cells::cell_written, vm_content::proofs::Cells::cell_missing))]
pub(crate) fn put_byte_in(strings: &mut BTreeMap<Cell, Bytes>, string: Cell, at: u32, byte: u8)
    ensures { cells_of strings.new ≡ with_byte string at byte (cells_of strings.old) }
{
    if let Some(bytes) = strings.get_mut(&string) {
        bytes.set(at, byte);
    }
}

/// Closes the open saves from the newest to the one of this name, which is open.
pub(crate) fn close_until(
    locals: &mut Locals,
    strings: &mut BTreeMap<Cell, Bytes>,
    name: SaveName,
) -> Result<(), NoMemory>
    requires cells { HaveCells (cells_of strings.old) locals.old.cells }
    requires open { copy_named name locals.old.kept ≢ None }
    ensures copy { OnOk result (copy_named name locals.old.kept ≡ Some locals.new.cells) }
    ensures kept { OnOk result (locals.new.kept ≡ older_than name locals.old.kept) }
    ensures strings { OnOk result (cells_of strings.new ≡ kept_from name (cells_of strings.old)) }
    ensures cells { HaveCells (cells_of strings.new) locals.new.cells }
    ensures fewer { AddsNone (cells_of strings.old) (cells_of strings.new) }
{
    while let Some(closed) = locals.close(strings)? {
        if name == closed {
            break;
        }
    }
    Ok(())
}
