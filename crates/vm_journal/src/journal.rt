//! What an open save needs to give memory back.
ghost use Rattle.std.specs.Prelude.{◌≡◌, [], Some, None, is_some, IfOk, OnOk, OnErr, true, false};
ghost use Rattle.std.specs.Map.{lookup};
ghost use Rattle.std.specs.BTreeMap.{is_at, insert_entry};
ghost use Rattle.std.specs.FinMap.{get, from_entries};
ghost use Rattle.ps_memory.specs.Order.{cell_cmp};
ghost use Rattle.ps_memory.specs.Memory.{newer, is_slot, is_kind, held, spot_of};
ghost use Rattle.vm_content.specs.Content.{slot_in};
ghost use Rattle.vm_journal.specs.Journal.{loc_cmp, with_note, SameCopy, Noted};
ghost use Rattle.vm_content.specs.Maps.{cells_of};

use ps_objects::{Cell, Loc, NoMemory, SaveName, Space, Value};
use std::alloc::Global;
use std::collections::BTreeMap;
use std::marker::Model;
use vm_content::Content;

/// An open save: its name, and what each place that was changed since held then. New cells need no note, for they go.
#[derive(Drop)]
pub(crate) struct OpenSave {
    name: SaveName,
    before: BTreeMap<Loc, Value>,
}

impl Model for OpenSave {
    ghost use Rattle.std.specs.Prelude.{◌≡◌, true, List};
    ghost use Rattle.vm_journal.specs.Journal.{Saved, all_of_kind};

    ghost Value = { Saved };

    ghost view = { λ save. (save.name, save.before.entries) };

    ghost invariant = { λ save. all_of_kind save.before.entries ≡ true };
}

impl OpenSave {
    pub(crate) fn new(alloc: Global, name: SaveName) -> OpenSave
        ensures { result ≡ (name, []) }
    {
        OpenSave {
            name,
            before: BTreeMap::new(alloc),
        }
    }

    pub(crate) fn name(&self) -> SaveName
        ensures { result ≡ self.now.0 }
    {
        self.name
    }

    /// What was noted.
    pub(crate) fn into_notes(self) -> BTreeMap<Loc, Value>
        ensures { result.entries ≡ self.1 }
    {
        self.before
    }

    /// Notes what a place holds, once, before it is changed. A place of a cell that is newer than the save needs no note.
    #[tactic(auto, using(crate::proofs::Noting::newer_needs_none, crate::proofs::Noting::noted_already, crate::proofs::Noting::noted_now, crate::proofs::Noting::noted_and_put, crate::proofs::Noting::kind_of_old, crate::proofs::Noting::stands_there))]
    pub(crate) fn note(
        &mut self,
        cells: &BTreeMap<Cell, Content>,
        cell: Cell,
        at: &Loc,
    ) -> Result<(), NoMemory>
        requires spot { spot_of at.now ≡ held cell (slot_in at.now) }
        requires place { is_slot (get (cells_of cells.now) cell) (slot_in at.now) ≡ true }
        ensures name { self.new.0 ≡ self.old.0 }
        ensures same { SameCopy self.old self.new cells.now }
        ensures noted { OnOk result (Noted self.old self.new at.now cells.now) }
    {
        if cell.is_newer_than(self.name) {
            return Ok(());
        }
        if self.has(at) {
            return Ok(());
        }
        match cells.get(&cell) {
            Some(content) => self.add(at.copy()?, content.value(at)?),
            None => Ok(()),
        }
    }

    fn has(&self, at: &Loc) -> bool
        ensures { result ≡ is_some (lookup (is_at (loc_cmp at.now)) self.now.1) }
    {
        self.before.contains_key(at)
    }

    /// Adds a note at a place that has none.
    #[tactic(auto, using(crate::proofs::Noting::kinds_kept))]
    fn add(&mut self, at: Loc, value: Value) -> Result<(), NoMemory>
        requires kind { is_kind (spot_of at) value ≡ true }
        requires anew { is_some (lookup (is_at (loc_cmp at)) self.old.1) ≡ false }
        ensures ok { OnOk result (self.new ≡ with_note at value self.old) }
        ensures err { OnErr result (self.new ≡ self.old) }
    {
        self.before.insert(at, value)?;
        Ok(())
    }
}

impl OpenSave {
    /// A save of the same name with the same notes.
    pub(crate) fn copy(&self, alloc: Global) -> Result<OpenSave, NoMemory>
        ensures { IfOk result (λ copy. copy ≡ self.now) }
    {
        let before = copy_notes(alloc, &self.before)?;
        Ok(OpenSave {
            name: self.name,
            before,
        })
    }
}

fn copy_notes(alloc: Global, notes: &BTreeMap<Loc, Value>) -> Result<BTreeMap<Loc, Value>, NoMemory>
    ensures { IfOk result (λ copy. copy.entries ≡ notes.now.entries) }
{
    let mut copy = BTreeMap::new(alloc);
    for (at, value) in notes.iter() {
        insert(&mut copy, at.copy()?, value.copy()?)?;
    }
    Ok(copy)
}

/// Adds a note, or puts it in place of the one that is there.
fn insert(notes: &mut BTreeMap<Loc, Value>, at: Loc, value: Value) -> Result<(), NoMemory>
    ensures { OnOk result (notes.new.entries ≡ insert_entry loc_cmp notes.old.entries at value) }
{
    notes.insert(at, value)?;
    Ok(())
}
