//! The lines of the cells.
ghost use Rattle.std.specs.Prelude.{◌≡◌, ◌++◌, flat_map, IfOk, OnOk};
ghost use Rattle.ps_memory.specs.Memory.{shape_at};
ghost use Rattle.ps_meaning.specs.Sound.{IsUnique};
ghost use Rattle.dump_text.specs.Cells as spec;

use crate::contents::{push_bytes_line, push_items_line};
use crate::entries::{push_access_line, push_entry_line};
use crate::headers::{is_made, push_block};
use crate::keys::{keys_at, merged};
use copy_lists::{NoMemory, Text};
use ps_kinds::{Cell, Key, Loc, Shape};
use std::alloc::Global;
use vm_mem::Base;

/// Appends the line of the entry of a key, where it differs.
#[tactic(auto, unfolding(crate::specs::Cells::line_of_key))]
fn push_key_line<B: Base>(
    text: &mut Text,
    start: &B,
    mem: &B,
    dict: Cell,
    key: &Key,
) -> Result<(), NoMemory>
    ensures { OnOk result (text.new ≡ text.old ++
        spec.line_of_key (B.log start.now).view (B.log mem.now).view dict key.now) }
{
    let at = Loc::Entry {
        dict,
        key: key.copy()?,
    };
    let now = mem.view_at(&at)?;
    let before = start.view_at(&at)?;
    push_entry_line(text, key, &now, &before)
}

/// Appends the lines of the entries of keys, where they differ.
#[tactic(auto, using(dump_lines::proofs::Pieces::one_more))]
fn push_key_lines<B: Base>(
    text: &mut Text,
    start: &B,
    mem: &B,
    dict: Cell,
    keys: &[Key],
) -> Result<(), NoMemory>
    ensures { OnOk result (text.new ≡ text.old ++ flat_map
        (spec.line_of_key (B.log start.now).view (B.log mem.now).view dict) keys.now) }
{
    for key in keys {
        push_key_line(text, start, mem, dict, key)?;
    }
    Ok(())
}

/// Appends each entry that differs, in the order of the keys of both memories.
#[tactic(auto, unfolding(crate::specs::Cells::entry_lines))]
fn push_entry_lines<B: Base>(
    alloc: Global,
    text: &mut Text,
    start: &B,
    mem: &B,
    dict: Cell,
) -> Result<(), NoMemory>
    ensures { OnOk result (text.new ≡ text.old ++
        spec.entry_lines (B.log start.now).view (B.log mem.now).view dict) }
{
    let before = keys_at(alloc, start, dict)?;
    let now = keys_at(alloc, mem, dict)?;
    let keys = merged(alloc, before.as_slice(), now.as_slice())?;
    push_key_lines(text, start, mem, dict, keys.as_slice())
}

/// The access of a dictionary, where it differs, and then its entries.
#[tactic(auto, unfolding(crate::specs::Cells::dict_lines))]
fn dict_lines<B: Base>(alloc: Global, start: &B, mem: &B, dict: Cell) -> Result<Text, NoMemory>
    ensures { IfOk result (λ text.
        text ≡ spec.dict_lines (B.log start.now).view (B.log mem.now).view dict) }
{
    let mut text = Text::new(alloc);
    let now = mem.view_at(&Loc::Access { dict })?;
    let before = start.view_at(&Loc::Access { dict })?;
    push_access_line(&mut text, &now, &before)?;
    push_entry_lines(alloc, &mut text, start, mem, dict)?;
    Ok(text)
}

/// All items of an array that was made, or of one of the start that differs.
#[tactic(auto, unfolding(crate::specs::Cells::array_lines))]
fn array_lines<B: Base>(
    alloc: Global,
    start: &B,
    mem: &B,
    array: Cell,
    len: u32,
) -> Result<Text, NoMemory>
    ensures { IfOk result (λ text.
        text ≡ spec.array_lines (B.log start.now).view (B.log mem.now).view array len) }
{
    let mut now = Text::new(alloc);
    push_items_line(&mut now, mem, array, len)?;
    if is_made(array) {
        return Ok(now);
    }
    let mut before = Text::new(alloc);
    push_items_line(&mut before, start, array, len)?;
    if now.as_slice() == before.as_slice() {
        Ok(Text::new(alloc))
    } else {
        Ok(now)
    }
}

/// All bytes of a string that was made, or of one of the start that differs.
#[tactic(auto, unfolding(crate::specs::Cells::string_lines))]
fn string_lines<B: Base>(
    alloc: Global,
    start: &B,
    mem: &B,
    string: Cell,
    len: u32,
) -> Result<Text, NoMemory>
    ensures { IfOk result (λ text.
        text ≡ spec.string_lines (B.log start.now).view (B.log mem.now).view string len) }
{
    let mut now = Text::new(alloc);
    push_bytes_line(&mut now, mem, string, len)?;
    if is_made(string) {
        return Ok(now);
    }
    let mut before = Text::new(alloc);
    push_bytes_line(&mut before, start, string, len)?;
    if now.as_slice() == before.as_slice() {
        Ok(Text::new(alloc))
    } else {
        Ok(now)
    }
}

/// Appends what is told of a cell of this shape.
fn push_shape_lines<B: Base>(
    alloc: Global,
    text: &mut Text,
    start: &B,
    mem: &B,
    cell: Cell,
    shape: Shape,
) -> Result<(), NoMemory>
    ensures { OnOk result (text.new ≡ text.old ++
        spec.shape_lines (B.log start.now).view (B.log mem.now).view cell shape) }
{
    match shape {
        Shape::Dict { capacity } => {
            let told = dict_lines(alloc, start, mem, cell)?;
            push_block(text, cell, b" dict ", capacity, told.as_slice())
        }
        Shape::Array { len } => {
            let told = array_lines(alloc, start, mem, cell, len)?;
            push_block(text, cell, b" array ", len, told.as_slice())
        }
        Shape::Str { len } => {
            let told = string_lines(alloc, start, mem, cell, len)?;
            push_block(text, cell, b" string ", len, told.as_slice())
        }
    }
}

/// Appends what is told of the cells that stand, by section and then by count.
pub(crate) fn push_cells<B: Base>(
    alloc: Global,
    text: &mut Text,
    start: &B,
    mem: &B,
) -> Result<(), NoMemory>
    requires { IsUnique (shape_at (B.log mem.now).view) }
    ensures { OnOk result (text.new ≡ text.old ++ flat_map
        (spec.cell_lines (B.log start.now).view (B.log mem.now).view)
        (spec.cells_of (B.log mem.now).view)) }
{
    let mut last = None;
    'cells: while let Some((cell, shape)) = mem.cell_after(last) {
        push_shape_lines(alloc, text, start, mem, cell, shape)?;
        last = Some(cell);
    }
    Ok(())
}
