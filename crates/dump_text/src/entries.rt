//! The lines of the entries of a dictionary that differ from the start's.
ghost use Rattle.std.specs.Prelude.{◌≡◌, ◌++◌, OnOk};
ghost use Rattle.dump_text.specs.Entries as spec;

use copy_lists::{NoMemory, Text};
use dump_lines::push_object;
use ps_kinds::{Access, Key, Value};

/// Appends a value at an entry or an item.
pub(crate) fn push_value(text: &mut Text, value: &Value) -> Result<(), NoMemory>
    ensures { OnOk result (text.new ≡ text.old ++ spec.value_text value.now) }
{
    match value {
        Value::Object(object) => push_object(text, object),
        Value::Absent => text.extend(b"absent"),
        _ => Ok(()),
    }
}

/// Appends a key.
fn push_key(text: &mut Text, key: &Key) -> Result<(), NoMemory>
    ensures { OnOk result (text.new ≡ text.old ++ spec.key_text key.now) }
{
    let object = key.object()?;
    push_object(text, &object)
}

/// Appends a key and its value.
#[tactic(auto, using(dump_lines::proofs::Pieces::five_pieces), unfolding(crate::specs::Entries::pair_line))]
fn push_pair_line(text: &mut Text, key: &Key, value: &Value) -> Result<(), NoMemory>
    ensures { OnOk result (text.new ≡ text.old ++ spec.pair_line key.now value.now) }
{
    text.push(b' ')?;
    push_key(text, key)?;
    text.push(b' ')?;
    push_value(text, value)?;
    text.push(b'\n')
}

/// Appends a key and its value, where that isn't the start's.
#[tactic(auto, unfolding(crate::specs::Entries::entry_line))]
pub(crate) fn push_entry_line(
    text: &mut Text,
    key: &Key,
    now: &Value,
    before: &Value,
) -> Result<(), NoMemory>
    ensures { OnOk result (text.new ≡ text.old ++ spec.entry_line key.now now.now before.now) }
{
    if now == before {
        Ok(())
    } else {
        push_pair_line(text, key, now)
    }
}

/// The letter of an access.
fn access_letter(access: Access) -> &'static [u8]
    ensures { result.now ≡ spec.access_letter access }
{
    match access {
        Access::Unlimited => b"u",
        Access::ReadOnly => b"r",
        Access::ExecuteOnly => b"e",
        Access::NoAccess => b"n",
    }
}

/// The letter of a dictionary's access.
fn access_told(value: &Value) -> &'static [u8]
    ensures { result.now ≡ spec.access_told value.now }
{
    match value {
        Value::Access(access) => access_letter(*access),
        _ => b"u",
    }
}

/// Appends the access, where it isn't the start's, or that of a new dictionary.
#[tactic(auto, using(dump_lines::proofs::Pieces::three_pieces), unfolding(crate::specs::Entries::access_line))]
pub(crate) fn push_access_line(text: &mut Text, now: &Value, before: &Value) -> Result<(), NoMemory>
    ensures { OnOk result (text.new ≡ text.old ++ spec.access_line now.now before.now) }
{
    let letter = access_told(now);
    if letter == access_told(before) {
        return Ok(());
    }
    text.extend(b" access ")?;
    text.extend(letter)?;
    text.push(b'\n')
}
