//! What a write to a content changed.
ghost use Rattle.std.specs.Prelude.{◌≡◌, IfOk};
ghost use Rattle.ps_objects.specs.declared.place.Value.TheVariants as values;
ghost use Rattle.vm_content.specs.Back.{with_entries, content_undone, TakesBack};
ghost use Rattle.vm_content.specs.Maps.{entries_of};

use crate::content::{Inner, is_absent};
use crate::{Content, copy_map};
use ps_objects::{Key, Loc, NoMemory, Object, Value};
use std::collections::BTreeMap;

/// What a write to a content changed. To take the write back takes no memory.
#[derive(Drop)]
pub enum Before {
    /// Nothing was changed.
    Same,

    /// A place held this. An entry that held an object has one still.
    Place { at: Loc, value: Value },

    /// A dictionary had these entries.
    Entries(BTreeMap<Key, Object>),
}

impl Content {
    /// What a write of the value at a place will change.
    #[tactic(auto, using(crate::proofs::Back::place_back))]
    pub fn before(&self, at: &Loc, value: &Value) -> Result<Before, NoMemory>
        ensures { IfOk result (λ before. TakesBack before at.now value.now self.now) }
    {
        if is_absent(value) {
            return self.before_removal(at);
        }
        Ok(Before::Place {
            at: at.copy()?,
            value: self.value(at)?,
        })
    }

    /// To put an entry back that was taken away could want memory, so the entries are copied.
    #[tactic(auto, using(crate::proofs::Back::nothing_removed, crate::proofs::Back::entries_back, crate::proofs::Back::only_entries, crate::proofs::Back::characters_stay))]
    fn before_removal(&self, at: &Loc) -> Result<Before, NoMemory>
        ensures { IfOk result (λ before. TakesBack before at.now values.Absent self.now) }
    {
        if self.holds(at, &Value::Absent) {
            return Ok(Before::Same);
        }
        match &self.inner {
            Inner::Dictionary { alloc, entries, .. } => Ok(Before::Entries(copy_map(
                *alloc, entries,
            )?)),
            Inner::Items(_) | Inner::Characters(_) => Ok(Before::Same),
        }
    }

    /// Takes a write back.
    pub fn undo(&mut self, before: Before)
        ensures { self.new ≡ content_undone before self.old }
    {
        match before {
            Before::Same => {}
            Before::Place { at, value } => self.undo_place(&at, value),
            Before::Entries(entries) => self.set_entries(entries),
        }
    }

    /// A dictionary's entries are these.
    fn set_entries(&mut self, all: BTreeMap<Key, Object>)
        ensures { self.new ≡ with_entries (entries_of all) self.old }
    {
        if let Inner::Dictionary { entries, .. } = &mut self.inner {
            *entries = all;
        }
    }
}
