//! Dictionaries.
ghost use Rattle.std.specs.Prelude.{◌≡◌, None, option_copied, IfOk, OnOk, OnErr};
ghost use Rattle.std.specs.FinMap.{empty, get, insert, from_entries};
ghost use Rattle.ps_memory.specs.Order.{key_cmp};
ghost use Rattle.vm_mem.specs.Hashes.{key_hash};
ghost use Rattle.dense_dict.specs.Entries.{AreUnique};
ghost use Rattle.dense_dict.specs.Dict.{over_seat};

use crate::entries::{Entry, Seat, add, copy_entries, position, put_object, seat_at, seat_hash};
use crate::hash_index::HashIndex;
use copy_lists::{Duplicate, NoMemory};
use ps_objects::{Key, Object};
use std::alloc::Global;
use std::marker::Model;

/// A dictionary: seats by keys, in order of coming, with an index by hashes beside them. It is seen as a finite map.
///
/// A key whose entry is taken away keeps its seat, so that to put an object back takes no memory.
#[derive(Drop)]
pub struct Dict {
    index: HashIndex,
    entries: Vec<Entry>,
}

impl Model for Dict {
    ghost use Rattle.std.specs.FinMap as map;
    ghost use Rattle.std.specs.FinMap.{from_entries};
    ghost use Rattle.ps_objects.specs.contracts.key.Key as keys;
    ghost use Rattle.dense_dict.specs.contracts.entries.Seat as seats;
    ghost use Rattle.dense_dict.specs.declared.entries.Seat.{Seat};
    ghost use Rattle.ps_memory.specs.Order.{key_cmp};
    ghost use Rattle.dense_dict.specs.Entries.{IsIndexed};

    ghost Value = { map.FinMap key_cmp Seat };

    ghost coded = { map.code keys.the_row.coded seats.the_row.coded };

    ghost view = { λ dict. from_entries dict.entries.items };

    ghost invariant = { λ dict. IsIndexed dict.index dict.entries.items };
}

impl Dict {
    pub fn new(alloc: Global) -> Dict
        ensures { result ≡ empty }
    {
        Dict {
            index: HashIndex::new(alloc),
            entries: Vec::new(alloc),
        }
    }

    /// The seat of a key, whose hash is given.
    pub fn get(&self, key: &Key, hash: u64) -> Option<&Seat>
        requires { hash ≡ key_hash key.now }
        ensures { option_copied result ≡ get self.now key.now }
    {
        match position(&self.index, &self.entries, key, seat_hash(key, hash)) {
            Some(place) => seat_at(&self.entries, place),
            None => None,
        }
    }

    /// Puts an object into the seat of a key, or takes it away. Where the key has no seat, nothing changes.
    pub fn replace(&mut self, key: &Key, hash: u64, object: Option<Object>)
        requires { hash ≡ key_hash key.now }
        ensures { self.new ≡ over_seat key.now object self.old }
    {
        if let Some(place) = position(&self.index, &self.entries, key, seat_hash(key, hash)) {
            put_object(&mut self.entries, place, object);
        }
    }

    /// Gives a key a seat that has none. Where memory runs out nothing has changed.
    pub fn insert(&mut self, key: Key, hash: u64, seat: Seat) -> Result<(), NoMemory>
        requires hash { hash ≡ key_hash key }
        requires anew { get self.old key ≡ None }
        ensures ok { OnOk result (self.new ≡ insert self.old key seat) }
        ensures err { OnErr result (self.new ≡ self.old) }
    {
        let hash = seat_hash(&key, hash);
        add(&mut self.index, &mut self.entries, key, hash, seat)?;
        Ok(())
    }

    /// The keys with their seats, in order of coming. No key stands twice.
    pub fn as_slice(&self) -> &[Entry]
        ensures entries { from_entries result.now ≡ self.now }
        ensures unique { AreUnique result.now }
    {
        self.entries.as_slice()
    }

    pub fn copy(&self) -> Result<Dict, NoMemory>
        ensures { IfOk result (λ copy. copy ≡ self.now) }
    {
        let index = self.index.copy()?;
        let entries = copy_entries(*self.entries.allocator(), &self.entries)?;
        Ok(Dict { index, entries })
    }
}

impl Duplicate for Dict {
    fn duplicate(&self) -> Result<Dict, NoMemory> {
        self.copy()
    }
}
