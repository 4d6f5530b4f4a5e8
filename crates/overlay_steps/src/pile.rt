//! Steps in the order in which they were noted.
ghost use Rattle.std.specs.Prelude.{◌≡◌, [], ◌∷◌, length, slice_get, option_copied, IfOk, OnOk, OnErr};
ghost use Rattle.copy_lists.specs.Stacks.{Pops};
ghost use Rattle.overlay_steps.specs.Pile.{action_of, acts, step_value, with_value_at, put_in, revalued_step};
ghost use Rattle.overlay_steps.specs.Newest.{value_of, put_value};
ghost use Rattle.overlay_steps.specs.Steps.{laid};
ghost use Rattle.overlay_steps.specs.Entries.{value_put, entry_put, entries_put, entries_from};
ghost use Rattle.ps_memory.specs.Memory.{store};
ghost use Rattle.vm_mem.specs.Writes.{action_of as write_action, actions};

use ps_objects::{Cell, Loc, NoMemory, SaveName, Shape, Stack, Value};
use std::alloc::Global;
use std::marker::Model;
use std::mem;
use vm_content::Content;
use vm_mem::{Write, Writes};

/// What a run leaves to be done on a memory. The absent value takes an entry away.
#[derive(Drop)]
pub enum Note {
    Fresh { cell: Cell, shape: Shape },
    Put { at: Loc, value: Value },
    Save { name: SaveName },
}

/// A step, and the place of the newest older store where it stores.
#[derive(Drop)]
pub struct Step {
    pub note: Note,
    pub under: Option<usize>,
}

/// An open save, and how many steps it and what is older are.
#[derive(Clone, Copy, Debug, PartialEq, Eq)]
pub struct Mark {
    pub name: SaveName,
    pub until: usize,
}

/// Steps, seen with the newest first. A step's place is the number of steps before it.
#[derive(Drop)]
pub struct Pile {
    items: Vec<Step>,
}

impl Model for Pile {
    ghost use Rattle.std.specs.Prelude.{List, reverse};
    ghost use Rattle.overlay_steps.specs.declared.pile.Step.{Step};

    ghost Value = { List Step };

    ghost view = { λ pile. reverse pile.items.items };
}

impl Pile {
    pub fn new(alloc: Global) -> Pile
        ensures { result ≡ [] }
    {
        Pile {
            items: Vec::new(alloc),
        }
    }

    pub fn len(&self) -> usize
        ensures { result ≡ length self.now }
    {
        self.items.len()
    }

    pub fn push(&mut self, step: Step) -> Result<(), NoMemory>
        ensures ok { OnOk result (self.new ≡ step ∷ self.old) }
        ensures err { OnErr result (self.new ≡ self.old) }
    {
        self.items.push(step)?;
        Ok(())
    }

    pub fn pop(&mut self) -> Option<Step>
        ensures { Pops self.old self.new result }
    {
        self.items.pop()
    }

    pub fn clear(&mut self)
        ensures { self.new ≡ [] }
    {
        self.items.clear();
    }

    /// The value of the store at a place.
    #[tactic(auto, using(crate::proofs::Piles::turned_value))]
    pub fn value(&self, place: usize) -> Option<&Value>
        ensures { option_copied result ≡ put_value place (acts self.now) }
    {
        value_in(&self.items, place)
    }

    /// Puts another value into the store at a place, and gives the one that was there.
    #[tactic(auto, using(crate::proofs::Piles::turned_put, crate::proofs::Piles::turned_value))]
    pub fn put(&mut self, place: usize, value: Value) -> Option<Value>
        ensures new { self.new ≡ with_value_at place value self.old }
        ensures old { result ≡ put_value place (acts self.old) }
    {
        put_in(&mut self.items, place, value)
    }

    /// Does the stores at entries of a dictionary on what it held.
    #[tactic(auto, using(crate::proofs::Entries::turned_entries))]
    pub fn put_entries(&self, dict: Cell, content: &mut Content) -> Result<(), NoMemory>
        ensures { OnOk result (content.new ≡ entries_put dict (acts self.now) content.old) }
    {
        put_entries(&self.items, dict, content)?;
        Ok(())
    }

    /// What the steps do, as a memory is told it.
    pub fn into_writes(self) -> Result<Writes, NoMemory>
        ensures { IfOk result (λ writes. actions writes ≡ acts self) }
    {
        let alloc = *self.items.allocator();
        let turned = self.turned(alloc)?;
        let writes = writes_of(turned, alloc)?;
        Ok(writes)
    }

    /// The notes of the steps, the oldest on top.
    fn turned(self, alloc: Global) -> Result<Stack<Note>, NoMemory>
        ensures { IfOk result (λ notes. laid notes [] ≡ acts self) }
    {
        let mut pile = self;
        let mut notes = Stack::new(alloc);
        while let Some(step) = pile.pop() {
            notes.push(step.note)?;
        }
        Ok(notes)
    }
}

#[tactic(auto, using(crate::proofs::Entries::step_put, crate::proofs::Entries::all_put))]
fn put_entries(items: &[Step], dict: Cell, content: &mut Content) -> Result<(), NoMemory>
    ensures { OnOk result (content.new ≡ entries_from dict items.now content.old) }
{
    for place in 0..items.len() {
        put_entry(&items[place].note, dict, content)?;
    }
    Ok(())
}

fn put_entry(note: &Note, dict: Cell, content: &mut Content) -> Result<(), NoMemory>
    ensures { OnOk result (content.new ≡ entry_put dict (action_of note.now) content.old) }
{
    match note {
        Note::Put { at, value } => put_value(at, value, dict, content),
        Note::Fresh { .. } => Ok(()),
        Note::Save { .. } => Ok(()),
    }
}

fn put_value(at: &Loc, value: &Value, dict: Cell, content: &mut Content) -> Result<(), NoMemory>
    ensures { OnOk result (content.new ≡ value_put dict at.now value.now content.old) }
{
    match at {
        Loc::Entry { dict: other, .. } => {
            if dict.cmp(other).is_eq() {
                content.put(at, value.copy()?)?;
            }
            Ok(())
        }
        _ => Ok(()),
    }
}

/// What notes do, of which the oldest is on top.
fn writes_of(notes: Stack<Note>, alloc: Global) -> Result<Writes, NoMemory>
    ensures { IfOk result (λ writes. actions writes ≡ laid notes []) }
{
    let mut notes = notes;
    let mut writes = Stack::new(alloc);
    while let Some(note) = notes.pop() {
        writes.push(write_of(note))?;
    }
    Ok(writes)
}

fn write_of(note: Note) -> Write
    ensures { write_action result ≡ action_of note }
{
    match note {
        Note::Fresh { cell, shape } => Write::Fresh { cell, shape },
        Note::Put { at, value } => put_of(at, value),
        Note::Save { name } => Write::Save { name },
    }
}

/// A store of the absent value takes an entry away.
fn put_of(at: Loc, value: Value) -> Write
    ensures { write_action result ≡ store at value }
{
    match value {
        Value::Absent => match at {
            Loc::Entry { dict, key } => Write::Remove { dict, key },
            at => Write::Put {
                at,
                value: Value::Absent,
            },
        },
        value => Write::Put { at, value },
    }
}

fn put_in(items: &mut Vec<Step>, place: usize, value: Value) -> Option<Value>
    ensures new { items.new.items ≡ put_in place value items.old.items }
    ensures old { result ≡ step_value (slice_get items.old.items place) }
{
    match items.get_mut(place) {
        Some(step) => revalue(step, value),
        None => None,
    }
}

fn revalue(step: &mut Step, value: Value) -> Option<Value>
    ensures new { step.new ≡ revalued_step value step.old }
    ensures old { result ≡ value_of (action_of step.old.note) }
{
    match &mut step.note {
        Note::Put { value: old, .. } => Some(mem::replace(old, value)),
        Note::Fresh { .. } => None,
        Note::Save { .. } => None,
    }
}

fn value_in(items: &Vec<Step>, place: usize) -> Option<&Value>
    ensures { option_copied result ≡ step_value (slice_get items.now.items place) }
{
    match items.get(place) {
        Some(step) => note_value(&step.note),
        None => None,
    }
}

fn note_value(note: &Note) -> Option<&Value>
    ensures { option_copied result ≡ value_of (action_of note.now) }
{
    match note {
        Note::Put { value, .. } => Some(value),
        Note::Fresh { .. } => None,
        Note::Save { .. } => None,
    }
}
