//! What a cell of memory holds.
ghost use Rattle.std.specs.Prelude.{◌≡◌, replicate, IfOk, OnOk, OnErr, IsTrue, ◌↔◌, Some, option_copied};
ghost use Rattle.std.specs.FinMap.{from_entries};
ghost use Rattle.ps_memory.specs.Order.{key_cmp};
ghost use Rattle.ps_memory.specs.Memory.{dictionary, content_of, put_content, shape_in, in_content, whole, entry, access, item, value_found, keys_of, object_found, null_object, put_entry, put_item};
ghost use Rattle.ps_objects.specs.declared.place.Value.TheVariants as values;
ghost use Rattle.std.specs.Cmp.Lexicographic.{pointwise};
ghost use Rattle.std.specs.BTreeMap.{keys as map_keys, IsOrdered};
ghost use Rattle.ps_objects.specs.contracts.key.KeyPartialEq.TheImpl as key_eq;
ghost use Rattle.vm_content.specs.Content.{slot_in, value_in, found_value};
ghost use Rattle.vm_content.specs.Back.{over_entry, entry_undone, place_undone};
ghost use Rattle.vm_content.specs.Maps.{entries_of, entry_put};

use crate::copying::{copy_items, copy_map};
use ps_objects::{Access, Duplicate, Key, Keys, Kind, Loc, NoMemory, Object, Shape, Value};
use std::alloc::Global;
use std::collections::BTreeMap;
use std::marker::Model;

/// What a cell holds: a dictionary's entries, an array's items, or the length of a string, whose bytes lie apart
/// (section 3.3 of the language manual: data types and objects).
#[derive(Drop)]
pub struct Content {
    pub(crate) inner: Inner,
}

#[derive(Drop)]
pub(crate) enum Inner {
    Dictionary {
        alloc: Global,
        capacity: u32,
        access: Access,
        entries: BTreeMap<Key, Object>,
    },
    Items(Vec<Object>),
    Characters(u32),
}

impl Model for Content {
    ghost use Rattle.ps_memory.specs.Memory.{Content};
    ghost use Rattle.vm_content.specs.Coding.{content_code};

    ghost Value = { Content };

    ghost coded = { content_code };

    ghost use Rattle.vm_content.specs.Seen.{seen, IsSmall};

    ghost view = { λ content. seen content.inner };

    ghost invariant = { λ content. IsSmall content.inner };
}

impl Content {
    /// A dictionary of these entries.
    pub fn dictionary(
        alloc: Global,
        capacity: u32,
        access: Access,
        entries: BTreeMap<Key, Object>,
    ) -> Content
        ensures { result ≡ dictionary capacity access (entries_of entries) }
    {
        Content {
            inner: Inner::Dictionary {
                alloc,
                capacity,
                access,
                entries,
            },
        }
    }

    /// What a new cell holds: no entries with unlimited access, nulls, or a string's length.
    pub fn fresh(alloc: Global, shape: Shape) -> Result<Content, NoMemory>
        ensures { IfOk result (λ content. content ≡ content_of shape) }
    {
        match shape {
            Shape::Dict { capacity } => Ok(Content::dictionary(
                alloc,
                capacity,
                Access::Unlimited,
                BTreeMap::new(alloc),
            )),
            Shape::Array { len } => Ok(Content {
                inner: Inner::Items(nulls(alloc, len)?),
            }),
            Shape::Str { len } => Ok(Content {
                inner: Inner::Characters(len),
            }),
        }
    }

    /// The kind of the composite object and its size.
    pub fn shape(&self) -> Shape
        ensures { shape_in (in_content (Some self.now) whole) ≡ Some result }
    {
        match &self.inner {
            Inner::Dictionary { capacity, .. } => Shape::Dict {
                capacity: *capacity,
            },
            Inner::Items(items) => Shape::Array {
                len: items.len() as u32,
            },
            Inner::Characters(len) => Shape::Str { len: *len },
        }
    }

    /// A copy of the value at a place: absent where there is none.
    pub fn value(&self, at: &Loc) -> Result<Value, NoMemory>
        ensures { IfOk result (λ value. value ≡ value_in self.now at.now) }
    {
        match at {
            Loc::Entry { key, .. } => copy_found(self.entry(key)),
            Loc::Keys { .. } => self.keys(),
            Loc::Access { .. } => Ok(self.access()),
            Loc::Item { at, .. } => copy_found(self.item(*at)),
            _ => Ok(Value::Absent),
        }
    }

    /// Whether a place has the value. No memory is taken.
    pub fn holds(&self, at: &Loc, value: &Value) -> bool
        ensures { IsTrue result ↔ (value_in self.now at.now ≡ value.now) }
    {
        match at {
            Loc::Entry { key, .. } => is_found(self.entry(key), value),
            Loc::Keys { .. } => self.has_keys(value),
            Loc::Access { .. } => self.has_access(value),
            Loc::Item { at, .. } => is_found(self.item(*at), value),
            _ => is_absent(value),
        }
    }

    /// Puts a value at a place; an absent value takes an entry away. What doesn't fit there changes nothing.
    pub fn put(&mut self, at: &Loc, value: Value) -> Result<(), NoMemory>
        ensures ok { OnOk result (self.new ≡ put_content (slot_in at.now) value self.old) }
        ensures err { OnErr result (self.new ≡ self.old) }
    {
        match at {
            Loc::Entry { key, .. } => self.put_entry(key, value)?,
            Loc::Access { .. } => self.put_access(value),
            Loc::Item { at, .. } => self.put_item(*at, value),
            _ => {}
        }
        Ok(())
    }

    /// Puts back what a place held before. It takes no memory, since an object is put only where one is.
    pub fn undo_place(&mut self, at: &Loc, value: Value)
        ensures { self.new ≡ place_undone (slot_in at.now) value self.old }
    {
        match at {
            Loc::Entry { key, .. } => self.undo_entry(key, value),
            Loc::Access { .. } => self.put_access(value),
            Loc::Item { at, .. } => self.put_item(*at, value),
            _ => {}
        }
    }

    pub fn copy(&self) -> Result<Content, NoMemory>
        ensures { IfOk result (λ copy. copy ≡ self.now) }
    {
        match &self.inner {
            Inner::Dictionary {
                alloc,
                capacity,
                access,
                entries,
            } => Ok(Content::dictionary(*alloc, *capacity, *access, copy_map(*alloc, entries)?)),
            Inner::Items(items) => Ok(Content {
                inner: Inner::Items(copy_items(items)?),
            }),
            Inner::Characters(len) => Ok(Content {
                inner: Inner::Characters(*len),
            }),
        }
    }
}

impl Duplicate for Content {
    fn duplicate(&self) -> Result<Content, NoMemory> {
        self.copy()
    }
}

// The parts of a cell, one by one.
impl Content {
    /// The object under a key.
    #[tactic(auto, using(crate::proofs::Keyed::entry_found))]
    pub fn entry(&self, key: &Key) -> Option<&Object>
        ensures { object_found (option_copied result) ≡ in_content (Some self.now) (entry key.now) }
    {
        match &self.inner {
            Inner::Dictionary { entries, .. } => entries.get(key),
            _ => None,
        }
    }

    /// The object at a place of an array.
    pub fn item(&self, place: u32) -> Option<&Object>
        ensures { object_found (option_copied result) ≡ in_content (Some self.now) (item place) }
    {
        match &self.inner {
            Inner::Items(items) => items.get(place as usize),
            _ => None,
        }
    }

    fn access(&self) -> Value
        ensures { result ≡ value_found (in_content (Some self.now) access) }
    {
        match &self.inner {
            Inner::Dictionary { access, .. } => Value::Access(*access),
            _ => Value::Absent,
        }
    }

    fn has_access(&self, value: &Value) -> bool
        ensures { IsTrue result ↔ (value_found (in_content (Some self.now) access) ≡ value.now) }
    {
        match &self.inner {
            Inner::Dictionary { access, .. } => match value {
                Value::Access(other) => *access == *other,
                _ => false,
            },
            _ => is_absent(value),
        }
    }

    #[tactic(auto, using(crate::proofs::Ordered::dictionary_keys))]
    fn keys(&self) -> Result<Value, NoMemory>
        ensures { IfOk result (λ value. value ≡ keys_of (Some self.now)) }
    {
        match &self.inner {
            Inner::Dictionary { alloc, entries, .. } => Ok(Value::Keys(copy_keys(
                *alloc, entries,
            )?)),
            _ => Ok(Value::Absent),
        }
    }

    #[tactic(auto, using(crate::proofs::Ordered::dictionary_keys, crate::proofs::Same::keys_decide))]
    fn has_keys(&self, value: &Value) -> bool
        ensures { IsTrue result ↔ (keys_of (Some self.now) ≡ value.now) }
    {
        match &self.inner {
            Inner::Dictionary { entries, .. } => match value {
                Value::Keys(keys) => are_keys(entries, keys.as_slice()),
                _ => false,
            },
            _ => is_absent(value),
        }
    }

    fn put_entry(&mut self, key: &Key, value: Value) -> Result<(), NoMemory>
        ensures ok { OnOk result (self.new ≡ put_content (entry key.now) value self.old) }
        ensures err { OnErr result (self.new ≡ self.old) }
    {
        match &mut self.inner {
            Inner::Dictionary { entries, .. } => put_entry(entries, key, value),
            _ => Ok(()),
        }
    }

    fn undo_entry(&mut self, key: &Key, value: Value)
        ensures { self.new ≡ place_undone (entry key.now) value self.old }
    {
        if let Inner::Dictionary { entries, .. } = &mut self.inner {
            undo_entry(entries, key, value);
        }
    }

    fn put_access(&mut self, value: Value)
        ensures { self.new ≡ put_content access value self.old }
    {
        if let Inner::Dictionary { access, .. } = &mut self.inner {
            if let Value::Access(new) = value {
                *access = new;
            }
        }
    }

    fn put_item(&mut self, place: u32, value: Value)
        ensures { self.new ≡ put_content (item place) value self.old }
    {
        if let Inner::Items(items) = &mut self.inner {
            put_item(items, place as usize, value);
        }
    }
}

/// The item of a new array.
fn null() -> Object
    ensures { result ≡ null_object }
{
    Object {
        kind: Kind::Null,
        exec: false,
        access: Access::Unlimited,
    }
}

fn nulls(alloc: Global, len: u32) -> Result<Vec<Object>, NoMemory>
    ensures { IfOk result (λ items. items.items ≡ replicate len null_object) }
{
    let mut items = Vec::new(alloc);
    for _ in 0..len {
        items.push(null())?;
    }
    Ok(items)
}

pub(crate) fn is_absent(value: &Value) -> bool
    ensures { IsTrue result ↔ (values.Absent ≡ value.now) }
{
    match value {
        Value::Absent => true,
        _ => false,
    }
}

fn copy_found(object: Option<&Object>) -> Result<Value, NoMemory>
    ensures { IfOk result (λ value. value ≡ found_value (option_copied object.entry)) }
{
    match object {
        Some(object) => Ok(Value::Object(object.copy()?)),
        None => Ok(Value::Absent),
    }
}

fn is_found(object: Option<&Object>, value: &Value) -> bool
    ensures { IsTrue result ↔ (found_value (option_copied object.entry) ≡ value.now) }
{
    match object {
        Some(object) => match value {
            Value::Object(other) => are_equal(object, other),
            _ => false,
        },
        None => is_absent(value),
    }
}

#[tactic(auto, using(crate::proofs::Same::object_decides))]
fn are_equal(object: &Object, other: &Object) -> bool
    ensures { IsTrue result ↔ (object.now ≡ other.now) }
{
    *object == *other
}

/// Copies the keys, in their order.
fn copy_keys(alloc: Global, entries: &BTreeMap<Key, Object>) -> Result<Keys, NoMemory>
    ensures keys { IfOk result (λ keys. keys ≡ map_keys entries.now) }
    ensures ordered { IsOrdered key_cmp entries.now }
{
    let mut keys = Keys::new(alloc);
    for key in entries.keys() {
        keys.push(key.copy()?)?;
    }
    Ok(keys)
}

/// Whether these are the keys, in their order.
fn are_keys(entries: &BTreeMap<Key, Object>, keys: &[Key]) -> bool
    ensures same { result ≡ pointwise key_eq.ghosts.eq (map_keys entries.now) keys.now }
    ensures ordered { IsOrdered key_cmp entries.now }
{
    let mut rest = keys;
    for key in entries.keys() {
        let Some((first, others)) = rest.split_first() else {
            return false;
        };
        if *key != *first {
            return false;
        }
        rest = others;
    }
    rest.is_empty()
}

#[tactic(auto, using(crate::proofs::Keyed::entry_stored, crate::proofs::Keyed::entry_removed))]
fn put_entry(entries: &mut BTreeMap<Key, Object>, key: &Key, value: Value) -> Result<(), NoMemory>
    ensures ok { OnOk result (entries_of entries.new ≡ entry_put key.now value entries.old) }
    ensures err { OnErr result (entries.new.entries ≡ entries.old.entries) }
{
    match value {
        Value::Absent => {
            entries.remove(key);
        }
        Value::Object(object) => {
            entries.insert(key.copy()?, object)?;
        }
        _ => {}
    }
    Ok(())
}

#[tactic(auto, using(crate::proofs::Keyed::entry_removed))]
fn undo_entry(entries: &mut BTreeMap<Key, Object>, key: &Key, value: Value)
    ensures { entries_of entries.new ≡ entry_undone key.now value (entries_of entries.old) }
{
    match value {
        Value::Absent => {
            entries.remove(key);
        }
        Value::Object(object) => replace_entry(entries, key, object),
        _ => {}
    }
}

/// Puts an object in place of another, where there is one.
#[tactic(auto, using(crate::proofs::Back::nothing_over, crate::proofs::Back::written_over))]
fn replace_entry(entries: &mut BTreeMap<Key, Object>, key: &Key, object: Object)
    ensures { entries_of entries.new ≡ over_entry key.now object (entries_of entries.old) }
{
    if let Some(old) = entries.get_mut(key) {
        *old = object;
    }
}

fn put_item(items: &mut Vec<Object>, place: usize, value: Value)
    ensures { items.new.items ≡ put_item place value items.old.items }
{
    if let Value::Object(object) = value {
        if let Some(old) = items.get_mut(place) {
            *old = object;
        }
    }
}
