//! Writes that are taken back.
ghost use Rattle.std.specs.Prelude.{◌≡◌, [], ◌∷◌, Bool, IsSome, OnOk, OnErr};
ghost use Rattle.ps_memory.specs.Memory.{is_global, spot_of};
ghost use Rattle.ps_memory.specs.Ownership.{outlives};
ghost use Rattle.ps_memory.specs.Writes.{survives, writes_left, is_open};
ghost use Rattle.access_log.specs.Index.{told_of, TellsAnew};
ghost use Rattle.overlay_steps.specs.Newest.{MadeOnce};
ghost use Rattle.overlay_steps.specs.Pile.{action_of, acts, TakesNewest};
ghost use Rattle.overlay_steps.specs.Steps.{saves_less, TellsLess, HasLess, IsThere, is_marked, opens, laid};

use crate::Steps;
use crate::pile::{Mark, Note, Step};
use ps_objects::{Cell, Loc, NoMemory, SaveName, Shape, Space, Stack};
use std::collections::BTreeMap;

impl Steps {
    /// Whether a save of this name is open among the writes.
    #[tactic(auto, using(crate::proofs::Placed::marked))]
    pub fn opens(&self, name: SaveName) -> bool
        ensures { result ≡ is_open name (acts self.now) }
    {
        is_marked(&self.saves, name)
    }

    /// Takes back what the restore of a save takes back. Where memory runs out, no writes are left.
    pub fn undo(&mut self, name: SaveName) -> Result<(), NoMemory>
        requires { MadeOnce (acts self.old) }
        ensures ok { OnOk result (acts self.new ≡ writes_left name (acts self.old)) }
        ensures err { OnErr result (self.new ≡ []) }
    {
        match self.undo_all(name) {
            Ok(()) => Ok(()),
            Err(error) => {
                self.clear();
                Err(error)
            }
        }
    }

    fn undo_all(&mut self, name: SaveName) -> Result<(), NoMemory>
        requires { MadeOnce (acts self.old) }
        ensures { OnOk result (acts self.new ≡ writes_left name (acts self.old)) }
    {
        let mut kept = Stack::new(self.saves.alloc());
        self.take_back(name, &mut kept)?;
        self.put_again(kept)?;
        Ok(())
    }

    /// Takes writes away until the one that opened the save, and keeps those that outlive its restore.
    #[tactic(auto, using(crate::proofs::Undoing::left_opened, crate::proofs::Undoing::left_kept, crate::proofs::Undoing::left_lost, crate::proofs::Undoing::left_none, crate::proofs::Undoing::once_less, crate::proofs::Undoing::fewer))]
    fn take_back(&mut self, name: SaveName, kept: &mut Stack<Note>) -> Result<(), NoMemory>
        requires { MadeOnce (acts self.old) }
        ensures { OnOk result (laid kept.new (acts self.new)
            ≡ laid kept.old (writes_left name (acts self.old))) }
    {
        while let Some(note) = self.pop() {
            if opens(&note, name) {
                return Ok(());
            }
            if survives(&note, name) {
                kept.push(note)?;
            }
        }
        Ok(())
    }

    /// Adds the writes that were kept, the oldest first.
    fn put_again(&mut self, kept: Stack<Note>) -> Result<(), NoMemory>
        ensures { OnOk result (acts self.new ≡ laid kept (acts self.old)) }
    {
        let mut kept = kept;
        while let Some(note) = kept.pop() {
            self.add_note(note)?;
        }
        Ok(())
    }

    fn add_note(&mut self, note: Note) -> Result<(), NoMemory>
        ensures { OnOk result (acts self.new ≡ action_of note ∷ acts self.old) }
    {
        match note {
            Note::Fresh { cell, shape } => self.fresh(cell, shape),
            Note::Put { at, value } => self.add(&at, value),
            Note::Save { name } => self.save(name),
        }
    }

    #[tactic(auto, using(crate::proofs::Placed::steps_nothing))]
    fn clear(&mut self)
        ensures { self.new ≡ [] }
    {
        self.pile.clear();
        self.saves.clear();
        self.index.clear();
        self.made.clear();
    }

    /// Takes the newest write away.
    pub fn pop(&mut self) -> Option<Note>
        requires { MadeOnce (acts self.old) }
        ensures { TakesNewest (acts self.old) (acts self.new) result }
    {
        match self.pile.pop() {
            None => None,
            Some(step) => {
                forget(&mut self.saves, &mut self.index, &mut self.made, &step);
                Some(step.note)
            }
        }
    }
}

/// Whether one of the marks is of a save of this name.
#[tactic(auto, using(crate::proofs::Undoing::mark_none))]
fn is_marked(saves: &Stack<Mark>, name: SaveName) -> bool
    ensures { result ≡ is_marked name saves.now }
{
    for depth in 0..saves.len() {
        if name == saves.at(depth).name {
            return true;
        }
    }
    false
}

/// Whether the step opens a save of this name.
fn opens(note: &Note, name: SaveName) -> bool
    ensures { result ≡ opens name note.now }
{
    match note {
        Note::Save { name: other } => name == *other,
        Note::Fresh { .. } | Note::Put { .. } => false,
    }
}

/// Whether the step outlives the restore of an older save.
fn survives(note: &Note, name: SaveName) -> bool
    ensures { result ≡ survives name (action_of note.now) }
{
    match note {
        Note::Fresh { cell, .. } => is_global(*cell),
        Note::Put { at, .. } => outlives(at, name),
        Note::Save { .. } => false,
    }
}

/// Whether what stands at a place outlives the restore of an older save.
fn outlives(at: &Loc, name: SaveName) -> bool
    ensures { result ≡ outlives name (spot_of at.now) }
{
    match at {
        Loc::Entry { dict, .. } | Loc::Keys { dict } | Loc::Access { dict } => is_global(*dict),
        Loc::Item { array, .. } => is_global(*array),
        Loc::Byte { string, .. } => !string.is_newer_than(name),
        Loc::Rand | Loc::Paper => true,
    }
}

fn is_global(cell: Cell) -> bool
    ensures { result ≡ is_global cell }
{
    match cell.space {
        Space::Local => false,
        Space::Global => true,
    }
}

/// Takes a step out of the maps.
fn forget(
    saves: &mut Stack<Mark>,
    index: &mut BTreeMap<Loc, usize>,
    made: &mut BTreeMap<Cell, Shape>,
    step: &Step,
)
    requires { IsThere step.now.note index.old.entries }
    ensures saves { saves.new ≡ saves_less step.now.note saves.old }
    ensures index { TellsLess step.now index.old.entries index.new.entries }
    ensures made { HasLess step.now.note made.old.entries made.new.entries }
{
    match &step.note {
        Note::Fresh { cell, .. } => {
            made.remove(cell);
        }
        Note::Put { at, .. } => unindex(index, at, step.under),
        Note::Save { .. } => {
            saves.pop();
        }
    }
}

/// Puts the index of a place, where it has one, back to an older store or to none.
fn unindex(index: &mut BTreeMap<Loc, usize>, at: &Loc, under: Option<usize>)
    requires { IsSome (told_of at.now index.old.entries) }
    ensures { TellsAnew at.now under index.old.entries index.new.entries }
{
    match under {
        Some(under) => {
            if let Some(place) = index.get_mut(at) {
                *place = under;
            }
        }
        None => {
            index.remove(at);
        }
    }
}
