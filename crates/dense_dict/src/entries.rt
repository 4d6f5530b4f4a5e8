//! The entries of a dictionary, in order of coming.
ghost use Rattle.std.specs.Prelude.{◌≡◌, ◌∷◌, ◌++◌, [], Some, None, length, slice_get, option_map, option_copied, IfOk, OnOk, OnErr};
ghost use Rattle.std.specs.Ordering.{is_eq};
ghost use Rattle.std.specs.FinMap.{find};
ghost use Rattle.ps_memory.specs.Order.{key_cmp};
ghost use Rattle.vm_mem.specs.Hashes.{key_hash};
ghost use Rattle.dense_dict.specs.Index.{passes};
ghost use Rattle.dense_dict.specs.Entries.{seat_hash, Finds, IsIndexed, with_object};

use crate::hash_index::HashIndex;
use copy_lists::{Duplicate, NoMemory};
use ps_objects::{Key, Object};
use std::alloc::Global;

/// What a dictionary keeps under a key: a number, and the object where the entry stands. An entry that is taken away leaves its
/// seat.
#[derive(Drop)]
pub struct Seat {
    pub number: u64,
    pub object: Option<Object>,
}

/// A key and its seat.
pub(crate) type Entry = (Key, Seat);

impl Seat {
    pub fn copy(&self) -> Result<Seat, NoMemory>
        ensures { IfOk result (λ seat. seat ≡ self.now) }
    {
        match &self.object {
            Some(object) => Ok(Seat {
                number: self.number,
                object: Some(object.copy()?),
            }),
            None => Ok(Seat {
                number: self.number,
                object: None,
            }),
        }
    }
}

impl Duplicate for Seat {
    fn duplicate(&self) -> Result<Seat, NoMemory> {
        self.copy()
    }
}

/// The hash under which a key's seat is found, from that of a name.
pub(crate) fn seat_hash(key: &Key, hash: u64) -> u64
    requires { hash ≡ key_hash key.now }
    ensures { result ≡ seat_hash key.now }
{
    match key {
        Key::Integer(n) => n.unsigned_abs() as u64,
        _ => hash,
    }
}

fn are_same(key: &Key, other: &Key) -> bool
    ensures { result ≡ is_eq (key_cmp key.now other.now) }
{
    *key == *other
}

/// Whether an entry has the key.
fn has_key(entries: &[Entry], place: usize, key: &Key) -> bool
    ensures { result ≡ passes (λ e. is_eq (key_cmp key.now e.0)) (slice_get entries.now place) }
{
    match entry_at(entries, place) {
        Some(entry) => are_same(key, &entry.0),
        None => false,
    }
}

fn entry_at(entries: &[Entry], place: usize) -> Option<&Entry>
    ensures { option_copied result ≡ slice_get entries.now place }
{
    entries.get(place)
}

/// The place of a key's entry.
pub(crate) fn position(index: &HashIndex, entries: &[Entry], key: &Key, hash: u64) -> Option<usize>
    requires indexed { IsIndexed index.now entries.now }
    requires hash { hash ≡ seat_hash key.now }
    ensures { Finds key.now entries.now result }
{
    let mut at = index.newest(hash);
    while at > 0 {
        if has_key(entries, at - 1, key) {
            return Some(at - 1);
        }
        at = index.older(at - 1, hash);
    }
    None
}

/// The seat at a place.
pub(crate) fn seat_at(entries: &[Entry], place: usize) -> Option<&Seat>
    ensures { option_copied result ≡ option_map (λ e. e.1) (slice_get entries.now place) }
{
    match entry_at(entries, place) {
        Some(entry) => Some(&entry.1),
        None => None,
    }
}

/// Puts an object at a place, or takes it away.
pub(crate) fn put_object(entries: &mut Vec<Entry>, place: usize, object: Option<Object>)
    ensures { entries.new.items ≡ with_object place object entries.old.items }
{
    if let Some(entry) = entries.get_mut(place) {
        entry.1.object = object;
    }
}

/// Adds an entry whose key is new. Where memory runs out nothing has changed.
pub(crate) fn add(
    index: &mut HashIndex,
    entries: &mut Vec<Entry>,
    key: Key,
    hash: u64,
    seat: Seat,
) -> Result<(), NoMemory>
    requires indexed { IsIndexed index.old entries.old.items }
    requires hash { hash ≡ seat_hash key }
    requires anew { find key_cmp key entries.old.items ≡ None }
    ensures indexed { IsIndexed index.new entries.new.items }
    ensures ok { OnOk result (entries.new.items ≡ entries.old.items ++ (key, seat) ∷ []) }
    ensures err { OnErr result (entries.new.items ≡ entries.old.items) }
{
    entries.push((key, seat))?;
    match index.push(hash) {
        Ok(()) => Ok(()),
        Err(error) => {
            entries.pop();
            Err(error)
        }
    }
}

pub(crate) fn copy_entries(alloc: Global, entries: &[Entry]) -> Result<Vec<Entry>, NoMemory>
    ensures { IfOk result (λ copy. copy.items ≡ entries.now) }
{
    let mut copy = Vec::new(alloc);
    for entry in entries {
        copy.push((entry.0.copy()?, entry.1.copy()?))?;
    }
    Ok(copy)
}
