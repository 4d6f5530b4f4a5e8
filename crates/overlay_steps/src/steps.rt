//! The writes of a page, with the newest store at each place.
ghost use Rattle.std.specs.Prelude.{◌≡◌, [], ◌∷◌, length, Some, None, List, ℕ, not, option_copied, IfOk, OnOk, OnErr};
ghost use Rattle.ps_memory.specs.Memory.{is_global, spot_of, store, fresh, save};
ghost use Rattle.ps_memory.specs.Memory.{paper as paper_spot};
ghost use Rattle.ps_memory.specs.Ownership.{is_kept};
ghost use Rattle.vm_mem.specs.Writes.{actions};
ghost use Rattle.overlay_steps.specs.Newest.{newest, newest_value, made, made_at, saved, put_at, put_value, is_anew};
ghost use Rattle.overlay_steps.specs.declared.pile.Note.TheVariants.{Fresh, Put, Save};
ghost use Rattle.overlay_steps.specs.Pile.{acts, step_over};
ghost use Rattle.access_log.specs.Index.{told_of, TellsAnew};
ghost use Rattle.overlay_steps.specs.Entries.{entries_put};
ghost use Rattle.overlay_steps.specs.Steps.{stored_over, paper_put, mark_over, HasAnew};

use crate::pile::{Mark, Note, Pile, Step};
use ps_objects::{Cell, Loc, NoMemory, Paper, SaveName, Shape, Space, Stack, Value};
use std::alloc::Global;
use std::collections::BTreeMap;
use std::marker::Model;
use vm_content::Content;
use vm_mem::Writes;

/// The writes of a page, seen with the newest first.
///
/// A store over an earlier one takes its place, but where a save that was opened between them keeps the earlier value.
#[derive(Drop)]
pub struct Steps {
    pub(crate) pile: Pile,
    pub(crate) saves: Stack<Mark>,
    pub(crate) index: BTreeMap<Loc, usize>,
    pub(crate) made: BTreeMap<Cell, Shape>,
}

impl Model for Steps {
    ghost use Rattle.std.specs.Prelude.{List};
    ghost use Rattle.overlay_steps.specs.declared.pile.Step.{Step};
    ghost use Rattle.overlay_steps.specs.Steps.{IsSteps};

    ghost Value = { List Step };

    ghost view = { λ steps. steps.pile };

    ghost invariant = { λ s. IsSteps s.pile s.saves s.index.entries s.made.entries };
}

impl Steps {
    #[tactic(auto, using(crate::proofs::Placed::steps_nothing))]
    pub fn new(alloc: Global) -> Steps
        ensures { result ≡ [] }
    {
        Steps {
            pile: Pile::new(alloc),
            saves: Stack::new(alloc),
            index: BTreeMap::new(alloc),
            made: BTreeMap::new(alloc),
        }
    }

    /// The place of the newest store at a place of memory.
    pub fn newest(&self, at: &Loc) -> Option<usize>
        ensures { result ≡ newest (spot_of at.now) (acts self.now) }
    {
        self.index.get(at).copied()
    }

    /// The value of the newest store at a place of memory.
    #[tactic(auto, using(crate::proofs::Finding::indexed_value))]
    pub fn find(&self, at: &Loc) -> Option<&Value>
        ensures { option_copied result ≡ newest_value (spot_of at.now) (acts self.now) }
    {
        match self.newest(at) {
            Some(place) => self.pile.value(place),
            None => None,
        }
    }

    /// The shape of a cell that was made.
    pub fn made(&self, cell: Cell) -> Option<Shape>
        ensures { result ≡ made cell (acts self.now) }
    {
        self.made.get(&cell).copied()
    }

    /// The shape of the cell of a place, if the cell was made.
    pub fn made_at(&self, at: &Loc) -> Option<Shape>
        ensures { result ≡ made_at (spot_of at.now) (acts self.now) }
    {
        match at {
            Loc::Entry { dict, .. } | Loc::Keys { dict } | Loc::Access { dict } => self.made(*dict),
            Loc::Item { array, .. } => self.made(*array),
            Loc::Byte { string, .. } => self.made(*string),
            Loc::Rand | Loc::Paper => None,
        }
    }

    /// Whether a save was opened after the store at this place, so that a new store doesn't take its place.
    #[tactic(auto, using(crate::proofs::Placed::saved_marks))]
    fn is_anew(&self, at: &Loc, place: usize) -> bool
        ensures { result ≡ is_anew (spot_of at.now) place (acts self.now) }
    {
        let saved = self.saved();
        is_kept(at) && place < saved
    }

    #[tactic(auto, using(crate::proofs::Placed::saved_marks))]
    fn saved(&self) -> usize
        ensures { result ≡ saved (acts self.now) }
    {
        match self.saves.get(0) {
            Some(mark) => mark.until,
            None => 0,
        }
    }

    pub fn fresh(&mut self, cell: Cell, shape: Shape) -> Result<(), NoMemory>
        ensures ok { OnOk result (acts self.new ≡ fresh cell shape ∷ acts self.old) }
        ensures err { OnErr result (self.new ≡ self.old) }
    {
        push_fresh(&mut self.pile, &mut self.made, cell, shape)?;
        Ok(())
    }

    pub fn save(&mut self, name: SaveName) -> Result<(), NoMemory>
        ensures ok { OnOk result (acts self.new ≡ save name ∷ acts self.old) }
        ensures err { OnErr result (self.new ≡ self.old) }
    {
        push_save(&mut self.pile, &mut self.saves, name)?;
        Ok(())
    }

    #[tactic(auto, using(crate::proofs::Placed::stored_there))]
    pub fn store(&mut self, at: &Loc, value: Value) -> Result<(), NoMemory>
        ensures ok { OnOk result (acts self.new ≡ stored_over at.now value (acts self.old)) }
        ensures err { OnErr result (self.new ≡ self.old) }
    {
        match self.newest(at) {
            Some(place) => {
                if self.is_anew(at, place) {
                    self.add(at, value)
                } else {
                    self.put(place, value);
                    Ok(())
                }
            }
            None => self.add(at, value),
        }
    }

    /// Puts paper in the place of what the newest store of paper put, and gives that. Where no paper was stored, nothing changes.
    #[tactic(auto, using(crate::proofs::Placed::stored_there, crate::proofs::Finding::indexed_value))]
    pub fn swap_paper(&mut self, paper: Paper) -> Option<Value>
        ensures old { result ≡ newest_value paper_spot (acts self.old) }
        ensures new { acts self.new ≡ paper_put result paper (acts self.old) }
    {
        match self.newest(&Loc::Paper) {
            Some(place) => self.put(place, Value::Paper(paper)),
            None => None,
        }
    }

    /// Does the stores at entries of a dictionary on what it held.
    pub fn put_entries(&self, dict: Cell, content: &mut Content) -> Result<(), NoMemory>
        ensures { OnOk result (content.new ≡ entries_put dict (acts self.now) content.old) }
    {
        self.pile.put_entries(dict, content)?;
        Ok(())
    }

    /// What the writes do, as a memory is told it.
    pub fn into_writes(self) -> Result<Writes, NoMemory>
        ensures { IfOk result (λ writes. actions writes ≡ acts self) }
    {
        let writes = self.pile.into_writes()?;
        Ok(writes)
    }

    #[tactic(auto, using(crate::proofs::Piles::acts_put))]
    fn put(&mut self, place: usize, value: Value) -> Option<Value>
        ensures new { acts self.new ≡ put_at place value (acts self.old) }
        ensures old { result ≡ put_value place (acts self.old) }
    {
        self.pile.put(place, value)
    }

    /// Adds a store on top, whatever was stored there.
    #[tactic(auto, using(crate::proofs::Placed::steps_store))]
    pub fn add(&mut self, at: &Loc, value: Value) -> Result<(), NoMemory>
        ensures ok { OnOk result (acts self.new ≡ store at.now value ∷ acts self.old) }
        ensures err { OnErr result (self.new ≡ self.old) }
    {
        push_store(&mut self.pile, &mut self.index, at, value)?;
        Ok(())
    }
}

/// Whether the restore of a save gives the place back.
fn is_kept(at: &Loc) -> bool
    ensures { result ≡ is_kept (spot_of at.now) }
{
    match at {
        Loc::Entry { dict, .. } | Loc::Keys { dict } | Loc::Access { dict } => is_local(*dict),
        Loc::Item { array, .. } => is_local(*array),
        Loc::Byte { .. } | Loc::Rand | Loc::Paper => false,
    }
}

fn is_local(cell: Cell) -> bool
    ensures { result ≡ not (is_global cell) }
{
    match cell.space {
        Space::Local => true,
        Space::Global => false,
    }
}

fn push_save(pile: &mut Pile, saves: &mut Stack<Mark>, name: SaveName) -> Result<(), NoMemory>
    ensures pile { OnOk result (pile.new ≡ step_over (Save name) None ∷ pile.old) }
    ensures saves { OnOk result (saves.new ≡ mark_over name (length pile.old) ∷ saves.old) }
    ensures same_pile { OnErr result (pile.new ≡ pile.old) }
    ensures same_saves { OnErr result (saves.new ≡ saves.old) }
{
    let note = Note::Save { name };
    pile.push(Step { note, under: None })?;
    let mark = Mark {
        name,
        until: pile.len(),
    };
    match saves.push(mark) {
        Ok(()) => Ok(()),
        Err(error) => {
            pile.pop();
            Err(error)
        }
    }
}

fn push_fresh(
    pile: &mut Pile,
    made: &mut BTreeMap<Cell, Shape>,
    cell: Cell,
    shape: Shape,
) -> Result<(), NoMemory>
    ensures pile { OnOk result (pile.new ≡ step_over (Fresh cell shape) None ∷ pile.old) }
    ensures made { OnOk result (HasAnew cell shape made.old.entries made.new.entries) }
    ensures same_pile { OnErr result (pile.new ≡ pile.old) }
    ensures same_made { OnErr result (made.new.entries ≡ made.old.entries) }
{
    let note = Note::Fresh { cell, shape };
    pile.push(Step { note, under: None })?;
    match made.insert(cell, shape) {
        Ok(_) => Ok(()),
        Err(_) => {
            pile.pop();
            Err(NoMemory)
        }
    }
}

fn push_store(
    pile: &mut Pile,
    index: &mut BTreeMap<Loc, usize>,
    at: &Loc,
    value: Value,
) -> Result<(), NoMemory>
    ensures pile { OnOk result (pile.new
        ≡ step_over (Put at.now value) (told_of at.now index.old.entries) ∷ pile.old) }
    ensures index { OnOk result (TellsAnew at.now (Some (length pile.old))
        index.old.entries index.new.entries) }
    ensures same_pile { OnErr result (pile.new ≡ pile.old) }
    ensures same_index { OnErr result (index.new.entries ≡ index.old.entries) }
{
    let place = pile.len();
    let under = index.get(at).copied();
    let key = at.copy()?;
    let note = Note::Put {
        at: at.copy()?,
        value,
    };
    pile.push(Step { note, under })?;
    match index.insert(key, place) {
        Ok(_) => Ok(()),
        Err(_) => {
            pile.pop();
            Err(NoMemory)
        }
    }
}
