//! The local part of a memory.
ghost use Rattle.std.specs.Prelude.{◌≡◌, Bool, true, false, [], ◌∷◌, None, option_copied, reverse, IfOk, IfSome, IfNone, OnOk, OnErr};
ghost use Rattle.std.specs.FinMap.{get, from_entries};
ghost use Rattle.std.specs.List.{AllByRecursion};
ghost use Rattle.ps_memory.specs.Order.{cell_cmp};
ghost use Rattle.ps_memory.specs.Memory.{is_global, newer, is_slot, held, spot_of};
ghost use Rattle.vm_content.specs.Content.{slot_in};
ghost use Rattle.vm_journal.specs.Journal.{is_rising, SameCopies, AllNoted, Reverts};
ghost use Rattle.vm_journal.specs.Part.{AreLocal, HaveCells, LaterThanAll, ClosesNewest, HoldAlike, part_put, part_with, part_without, part_saved, part_undone, is_empty, kept_from};
ghost use Rattle.vm_content.specs.Maps.{cells_of, AddsNone};

use crate::journal::OpenSave;
use ps_objects::{Cell, Loc, NoMemory, SaveName, Shape, Space, Value};
use std::alloc::Global;
use std::collections::BTreeMap;
use std::marker::Model;
use vm_content::{
    Before, Bytes, Content, copy_map, insert_cell, next_in, put_in_cell, remove_cell, undo_in_cell,
};

/// The local cells with the open saves, the oldest first.
#[derive(Drop)]
pub struct Locals {
    alloc: Global,
    cells: BTreeMap<Cell, Content>,
    saves: Vec<OpenSave>,
}

impl Model for Locals {
    ghost use Rattle.vm_content.specs.Maps.{cells_of};
    ghost use Rattle.std.specs.Prelude.{reverse};
    ghost use Rattle.std.specs.FinMap.{from_entries};
    ghost use Rattle.ps_memory.specs.Order.{cell_cmp};
    ghost use Rattle.vm_journal.specs.Journal.{copies};
    ghost use Rattle.vm_journal.specs.Part.{Part, part_code, IsPart};

    ghost Value = { Part };

    ghost coded = { part_code };

    ghost view = { λ part. record { cells = cells_of part.cells; kept = copies (reverse part.saves.items) (cells_of part.cells) } };

    ghost invariant = { λ part. IsPart (cells_of part.cells) part.saves.items };
}

impl Locals {
    /// The cells, with no save open.
    pub fn new(alloc: Global, cells: BTreeMap<Cell, Content>) -> Locals
        requires { AreLocal (cells_of cells) }
        ensures { result ≡ record { cells = cells_of cells; kept = [] } }
    {
        Locals {
            alloc,
            cells,
            saves: Vec::new(alloc),
        }
    }

    #[tactic(auto, using(vm_content::proofs::Cells::cell_found))]
    pub fn get(&self, cell: Cell) -> Option<&Content>
        ensures { option_copied result ≡ get self.now.cells cell }
    {
        self.cells.get(&cell)
    }

    /// Puts a value at a place of a cell, once the newest save has noted what it holds.
    #[tactic(auto, using(crate::proofs::Parting::local_put, crate::proofs::Parting::local_same, crate::proofs::Parting::part_put, crate::proofs::Parting::part_same))]
    pub fn put(&mut self, cell: Cell, at: &Loc, value: Value) -> Result<(), NoMemory>
        requires spot { spot_of at.now ≡ held cell (slot_in at.now) }
        requires local { is_global cell ≡ false }
        requires place { is_slot (get self.old.cells cell) (slot_in at.now) ≡ true }
        ensures ok { OnOk result (self.new ≡ part_put cell at.now value self.old) }
        ensures err { OnErr result (self.new ≡ self.old) }
    {
        note(&mut self.saves, &self.cells, cell, at)?;
        put_in_cell(&mut self.cells, at, value)?;
        Ok(())
    }

    /// Adds a cell that is newer than all open saves.
    #[tactic(auto, using(crate::proofs::Parting::part_inserted, crate::proofs::Parting::local_insert))]
    pub fn insert(&mut self, cell: Cell, content: Content) -> Result<(), NoMemory>
        requires local { is_global cell ≡ false }
        requires newest { AllByRecursion (λ k. newer cell k.0 ≡ true) self.old.kept }
        ensures ok { OnOk result (self.new ≡ part_with cell content self.old) }
        ensures err { OnErr result (self.new ≡ self.old) }
    {
        insert_cell(&mut self.cells, cell, content)?;
        Ok(())
    }

    /// Opens a save.
    #[tactic(auto, using(crate::proofs::Parting::part_opened, crate::proofs::Parting::rising_opened))]
    pub fn open(&mut self, name: SaveName) -> Result<(), NoMemory>
        requires latest { LaterThanAll name self.old.kept }
        requires newest { (c : Cell) → newer c name ≡ true → get self.old.cells c ≡ None }
        ensures ok { OnOk result (self.new ≡ part_saved name self.old) }
        ensures err { OnErr result (self.new ≡ self.old) }
    {
        let save = OpenSave::new(self.alloc, name);
        add_save(&mut self.saves, save)?;
        Ok(())
    }

    /// Closes the newest save, if one is open: gives the cells back as they were then, and takes the newer strings away.
    #[tactic(auto, using(crate::proofs::Closing::fewer_left))]
    pub fn close(
        &mut self,
        strings: &mut BTreeMap<Cell, Bytes>,
    ) -> Result<Option<SaveName>, NoMemory>
        requires { HaveCells (cells_of strings.old) self.old.cells }
        ensures closed { IfOk result (ClosesNewest self.old self.new strings.old strings.new) }
        ensures cells { HaveCells (cells_of strings.new) self.new.cells }
        ensures fewer { AddsNone (cells_of strings.old) (cells_of strings.new) }
    {
        let Some(save) = take_save(&mut self.saves) else {
            return Ok(None);
        };
        let name = save.name();
        drop_newer(&mut self.cells, strings, name);
        revert(&mut self.cells, save.into_notes())?;
        Ok(Some(name))
    }
}

// Changes that need no note, since no save is open.
impl Locals {
    /// Whether no save is open.
    #[tactic(auto, using(crate::proofs::Unnoted::none_kept))]
    pub fn has_no_save(&self) -> bool
        ensures { is_empty self.now.kept ≡ result }
    {
        self.saves.is_empty()
    }

    /// Gives back what a write to a cell changed.
    #[tactic(auto, using(crate::proofs::Unnoted::part_given, crate::proofs::Unnoted::local_given))]
    pub fn undo(&mut self, cell: Cell, before: Before)
        requires { self.old.kept ≡ [] }
        ensures { self.new ≡ part_undone cell before self.old }
    {
        undo_in_cell(&mut self.cells, cell, before);
    }

    /// Takes a cell away.
    #[tactic(auto, using(crate::proofs::Unnoted::part_forgotten, crate::proofs::Unnoted::local_forgotten))]
    pub fn remove(&mut self, cell: Cell)
        requires { self.old.kept ≡ [] }
        ensures { self.new ≡ part_without cell self.old }
    {
        remove_cell(&mut self.cells, cell);
    }
}

/// Has the newest save note what a place holds.
#[tactic(auto, using(crate::proofs::Parting::newest_same, crate::proofs::Parting::newest_noted, crate::proofs::Parting::newest_rising))]
fn note(
    saves: &mut Vec<OpenSave>,
    cells: &BTreeMap<Cell, Content>,
    cell: Cell,
    at: &Loc,
) -> Result<(), NoMemory>
    requires spot { spot_of at.now ≡ held cell (slot_in at.now) }
    requires place { is_slot (get (cells_of cells.now) cell) (slot_in at.now) ≡ true }
    ensures rising { is_rising (reverse saves.new.items) ≡ is_rising (reverse saves.old.items) }
    ensures same { SameCopies saves.old.items saves.new.items cells.now }
    ensures noted { OnOk result (AllNoted saves.old.items saves.new.items at.now cells.now) }
{
    match saves.last_mut() {
        Some(save) => save.note(cells, cell, at),
        None => Ok(()),
    }
}

#[tactic(auto, using(crate::proofs::Parting::pushed))]
fn add_save(saves: &mut Vec<OpenSave>, save: OpenSave) -> Result<(), NoMemory>
    ensures ok { OnOk result (reverse saves.new.items ≡ save ∷ reverse saves.old.items) }
    ensures err { OnErr result (saves.new.items ≡ saves.old.items) }
{
    saves.push(save)?;
    Ok(())
}

fn take_save(saves: &mut Vec<OpenSave>) -> Option<OpenSave>
    ensures none { IfNone result ((reverse saves.old.items ≡ []) × (reverse saves.new.items ≡ [])) }
    ensures some { IfSome result (λ s. reverse saves.old.items ≡ s ∷ reverse saves.new.items) }
{
    saves.pop()
}

/// Takes away the cells that are newer than a save, and their strings.
#[tactic(auto, using(crate::proofs::Dropping::none_dropped, crate::proofs::Dropping::no_cell_left, crate::proofs::Dropping::no_string_left))]
fn drop_newer(
    cells: &mut BTreeMap<Cell, Content>,
    strings: &mut BTreeMap<Cell, Bytes>,
    save: SaveName,
)
    requires local { AreLocal (cells_of cells.old) }
    requires cells { HaveCells (cells_of strings.old) (cells_of cells.old) }
    ensures cells { cells_of cells.new ≡ kept_from save (cells_of cells.old) }
    ensures strings { cells_of strings.new ≡ kept_from save (cells_of strings.old) }
{
    while let Some((last, _)) = cells.last_key_value() {
        if !last.comes_after(save) {
            break;
        }
        let cell = *last;
        cells.remove(&cell);
        strings.remove(&cell);
    }
}

/// Puts back what was noted.
#[tactic(auto, using(crate::proofs::Reverting::nothing_reverted, crate::proofs::Reverting::one_reverted, crate::proofs::Reverting::all_reverted, crate::proofs::Reverting::still_kinds, crate::proofs::Reverting::still_gone))]
fn revert(cells: &mut BTreeMap<Cell, Content>, notes: BTreeMap<Loc, Value>) -> Result<(), NoMemory>
    ensures ok { OnOk result (Reverts notes.entries (cells_of cells.old) (cells_of cells.new)) }
    ensures kinds { HoldAlike (cells_of cells.old) (cells_of cells.new) }
    ensures gone { AddsNone (cells_of cells.old) (cells_of cells.new) }
{
    let mut notes = notes;
    while let Some((at, value)) = notes.pop_first() {
        put_in_cell(cells, &at, value)?;
    }
    Ok(())
}

impl Locals {
    ghost use Rattle.ps_objects.specs.declared.cell.Space.TheVariants.{Local};
    ghost use Rattle.vm_content.specs.Next.{IsNextIn};

    /// The first local cell after another, or at all, with its shape.
    pub fn next(&self, after: Option<Cell>) -> Option<(Cell, Shape)>
        ensures { IsNextIn Local self.now.cells after result }
    {
        next_in(&self.cells, Space::Local, after)
    }

    /// A local part with the same cells and kept copies.
    pub fn copy(&self) -> Result<Locals, NoMemory>
        ensures { IfOk result (λ copy. copy ≡ self.now) }
    {
        let cells = copy_map(self.alloc, &self.cells)?;
        let saves = copy_saves(self.alloc, &self.saves)?;
        Ok(Locals {
            alloc: self.alloc,
            cells,
            saves,
        })
    }
}

fn copy_saves(alloc: Global, saves: &Vec<OpenSave>) -> Result<Vec<OpenSave>, NoMemory>
    ensures { IfOk result (λ copy. copy.items ≡ saves.now.items) }
{
    let mut copy = Vec::new(alloc);
    for save in saves.as_slice() {
        copy.push(save.copy(alloc)?)?;
    }
    Ok(copy)
}
