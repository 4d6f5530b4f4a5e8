//! All items of an array, and all bytes of a string.
ghost use Rattle.std.specs.Prelude.{◌≡◌, ◌++◌, OnOk};
ghost use Rattle.dump_text.specs.Contents as spec;
ghost use Rattle.dump_text.specs.Contents.{counted};

use crate::entries::push_value;
use copy_lists::{NoMemory, Text};
use dump_lines::push_hex_byte;
use ps_kinds::{Cell, Loc, Value};
use vm_mem::Base;

/// Appends an item behind a space.
#[tactic(auto, using(dump_lines::proofs::Pieces::two_pieces), unfolding(crate::specs::Contents::item_text))]
fn push_item<B: Base>(text: &mut Text, mem: &B, array: Cell, at: u32) -> Result<(), NoMemory>
    ensures { OnOk result (text.new ≡ text.old ++ spec.item_text (B.log mem.now).view array at) }
{
    let value = mem.view_at(&Loc::Item { array, at })?;
    text.push(b' ')?;
    push_value(text, &value)
}

/// Appends all items of an array behind a space each.
#[tactic(auto, using(crate::proofs::Counts::one_counted, crate::proofs::Counts::none_counted))]
fn push_items<B: Base>(text: &mut Text, mem: &B, array: Cell, len: u32) -> Result<(), NoMemory>
    ensures { OnOk result (text.new ≡
        text.old ++ counted (spec.item_text (B.log mem.now).view array) len) }
{
    for at in 0..len {
        push_item(text, mem, array, at)?;
    }
    Ok(())
}

/// Appends the line of all items of an array.
#[tactic(auto, using(dump_lines::proofs::Pieces::three_pieces), unfolding(crate::specs::Contents::items_line))]
pub(crate) fn push_items_line<B: Base>(
    text: &mut Text,
    mem: &B,
    array: Cell,
    len: u32,
) -> Result<(), NoMemory>
    ensures { OnOk result (text.new ≡
        text.old ++ spec.items_line (B.log mem.now).view array len) }
{
    text.extend(b" items")?;
    push_items(text, mem, array, len)?;
    text.push(b'\n')
}

/// Appends a byte in hex.
fn push_byte_value(text: &mut Text, value: &Value) -> Result<(), NoMemory>
    ensures { OnOk result (text.new ≡ text.old ++ spec.byte_text value.now) }
{
    match value {
        Value::Byte(byte) => push_hex_byte(text, *byte),
        _ => Ok(()),
    }
}

/// What stands before a byte: a space before the first.
fn before_byte(at: u32) -> &'static [u8]
    ensures { result.now ≡ spec.before_byte at }
{
    if at == 0 { b" " } else { b"" }
}

/// Appends a byte of a string, the first behind a space.
#[tactic(auto, using(dump_lines::proofs::Pieces::two_pieces), unfolding(crate::specs::Contents::string_byte))]
fn push_byte<B: Base>(text: &mut Text, mem: &B, string: Cell, at: u32) -> Result<(), NoMemory>
    ensures { OnOk result (text.new ≡
        text.old ++ spec.string_byte (B.log mem.now).view string at) }
{
    let value = mem.view_at(&Loc::Byte { string, at })?;
    text.extend(before_byte(at))?;
    push_byte_value(text, &value)
}

/// Appends all bytes of a string.
#[tactic(auto, using(crate::proofs::Counts::one_counted, crate::proofs::Counts::none_counted))]
fn push_bytes<B: Base>(text: &mut Text, mem: &B, string: Cell, len: u32) -> Result<(), NoMemory>
    ensures { OnOk result (text.new ≡
        text.old ++ counted (spec.string_byte (B.log mem.now).view string) len) }
{
    for at in 0..len {
        push_byte(text, mem, string, at)?;
    }
    Ok(())
}

/// Appends the line of all bytes of a string.
#[tactic(auto, using(dump_lines::proofs::Pieces::three_pieces), unfolding(crate::specs::Contents::bytes_line))]
pub(crate) fn push_bytes_line<B: Base>(
    text: &mut Text,
    mem: &B,
    string: Cell,
    len: u32,
) -> Result<(), NoMemory>
    ensures { OnOk result (text.new ≡
        text.old ++ spec.bytes_line (B.log mem.now).view string len) }
{
    text.extend(b" bytes")?;
    push_bytes(text, mem, string, len)?;
    text.push(b'\n')
}
