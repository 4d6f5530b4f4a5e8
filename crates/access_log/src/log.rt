//! The places that a page looked at, with their values.
ghost use Rattle.std.specs.Prelude.{◌≡◌, ◌<◌, ◌++◌, ◌∷◌, [], false, length, slice_get, option_copied, Some, IfOk, OnOk, OnErr};
ghost use Rattle.ps_objects.specs.declared.place.Loc.{Loc};
ghost use Rattle.ps_memory.specs.Memory.{value_at};
ghost use Rattle.ps_memory.specs.Ownership.{is_among};
ghost use Rattle.access_log.specs.Index.{TellsAnew};
ghost use Rattle.access_log.specs.Reads.{places, noted_at, value_in, IsOnce};

use ps_objects::{Loc, NoMemory, Value};
use std::alloc::Global;
use std::collections::BTreeMap;
use std::marker::Model;

/// A place, with the value there.
#[derive(Drop)]
pub struct Read {
    pub at: Loc,
    pub value: Value,
}

/// The places that a page looked at, with their values, each once, in the order of their first look.
#[derive(Drop)]
pub struct ReadLog {
    pub(crate) items: Vec<Read>,
    index: BTreeMap<Loc, usize>,
}

impl Model for ReadLog {
    ghost use Rattle.std.specs.Prelude.{List};
    ghost use Rattle.access_log.specs.declared.log.Read.{Read};
    ghost use Rattle.access_log.specs.Reads.{AreIndexed};

    ghost Value = { List Read };

    ghost view = { λ log. log.items.items };

    ghost invariant = { λ log. AreIndexed log.items.items log.index.entries };
}

impl ReadLog {
    /// A log of a page that hasn't looked at anything.
    pub fn new(alloc: Global) -> ReadLog
        ensures { result ≡ [] }
    {
        ReadLog {
            items: Vec::new(alloc),
            index: BTreeMap::new(alloc),
        }
    }

    pub fn len(&self) -> usize
        ensures { result ≡ length self.now }
    {
        self.items.len()
    }

    /// Whether a place was looked at. It takes no memory.
    #[tactic(auto, using(crate::proofs::Reading::among))]
    pub fn has(&self, at: &Loc) -> bool
        ensures { result ≡ is_among at.now (places self.now) }
    {
        self.index.contains_key(at)
    }

    /// The value that was noted at a place, if it was looked at. It takes no memory.
    #[tactic(auto, using(crate::proofs::Reading::noted))]
    pub fn find(&self, at: &Loc) -> Option<&Value>
        ensures { option_copied result ≡ noted_at at.now self.now }
    {
        match self.index.get(at) {
            Some(place) => value_in(&self.items, *place),
            None => None,
        }
    }

    /// Notes a look at a place that wasn't looked at before. Where memory runs out, nothing has changed.
    pub fn note(&mut self, read: Read) -> Result<(), NoMemory>
        requires { is_among read.at (places self.old) ≡ false }
        ensures ok { OnOk result (self.new ≡ self.old ++ read ∷ []) }
        ensures err { OnErr result (self.new ≡ self.old) }
    {
        push_read(&mut self.items, &mut self.index, read)?;
        Ok(())
    }

    /// No place stands in the log twice: what every log is known to have.
    pub fn has_each_once(&self)
        ensures { IsOnce (places self.now) }
    {
        let _ = &self.index; // it has each place once
    }
}

fn value_in(items: &Vec<Read>, place: usize) -> Option<&Value>
    ensures { option_copied result ≡ value_in (slice_get items.now.items place) }
{
    match items.get(place) {
        Some(read) => Some(&read.value),
        None => None,
    }
}

fn push_read(
    items: &mut Vec<Read>,
    index: &mut BTreeMap<Loc, usize>,
    read: Read,
) -> Result<(), NoMemory>
    ensures items { OnOk result (items.new.items ≡ items.old.items ++ read ∷ []) }
    ensures index { OnOk result (TellsAnew read.at (Some (length items.old.items))
        index.old.entries index.new.entries) }
    ensures same_items { OnErr result (items.new.items ≡ items.old.items) }
    ensures same_index { OnErr result (index.new.entries ≡ index.old.entries) }
{
    let place = items.len();
    let key = read.at.copy()?;
    items.push(read)?;
    match index.insert(key, place) {
        Ok(_) => Ok(()),
        Err(_) => {
            items.pop();
            Err(NoMemory)
        }
    }
}
