//! The lines of the registers.
ghost use Rattle.std.specs.Prelude.{◌≡◌, ◌++◌, length, reverse, flat_map, OnOk};
ghost use Rattle.std.specs.Fmt.{decimal};
ghost use Rattle.dump_lines.specs.Objects.{dict_text, object_text};
ghost use Rattle.dump_lines.specs.Values.{spaced};
ghost use Rattle.dump_lines.specs.Registers as spec;

use crate::fields::push_fields;
use crate::objects::{push_dict, push_object, push_save};
use copy_lists::{NoMemory, Text};
use itoa::Buffer;
use ps_kinds::{DictStack, GStack, GState, Layer, Objects, Regs, Saves};
use std::alloc::Global;

/// Appends objects behind a space each, the oldest first.
#[tactic(auto, using(crate::proofs::Pieces::one_older))]
fn push_objects(text: &mut Text, objects: &Objects) -> Result<(), NoMemory>
    ensures { OnOk result (text.new ≡ text.old ++ spaced object_text (reverse objects.now)) }
{
    let count = objects.len();
    for done in 0..count {
        let depth = count - 1 - done;
        text.push(b' ')?;
        push_object(text, objects.at(depth))?;
    }
    Ok(())
}

/// Appends dictionaries behind a space each, the oldest first.
#[tactic(auto, using(crate::proofs::Pieces::one_older))]
fn push_dicts(text: &mut Text, dicts: &DictStack) -> Result<(), NoMemory>
    ensures { OnOk result (text.new ≡ text.old ++ spaced dict_text (reverse dicts.now)) }
{
    let count = dicts.len();
    for done in 0..count {
        let depth = count - 1 - done;
        text.push(b' ')?;
        push_dict(text, *dicts.at(depth))?;
    }
    Ok(())
}

/// Appends the names of saves behind a space each, the oldest first.
#[tactic(auto, using(crate::proofs::Pieces::one_older))]
fn push_saves(text: &mut Text, saves: &Saves) -> Result<(), NoMemory>
    ensures { OnOk result (text.new ≡ text.old ++ spaced spec.mark_text (reverse saves.now)) }
{
    let count = saves.len();
    for done in 0..count {
        let depth = count - 1 - done;
        text.push(b' ')?;
        push_save(text, saves.at(depth).name)?;
    }
    Ok(())
}

/// Appends the line of the operands.
#[tactic(auto, using(crate::proofs::Pieces::three_pieces), unfolding(crate::specs::Registers::operands_line))]
fn push_operands_line(text: &mut Text, operands: &Objects) -> Result<(), NoMemory>
    ensures { OnOk result (text.new ≡ text.old ++ spec.operands_line operands.now) }
{
    text.extend(b"operands")?;
    push_objects(text, operands)?;
    text.push(b'\n')
}

/// Appends the line of the dictionary stack.
#[tactic(auto, using(crate::proofs::Pieces::three_pieces), unfolding(crate::specs::Registers::dicts_line))]
fn push_dicts_line(text: &mut Text, dicts: &DictStack) -> Result<(), NoMemory>
    ensures { OnOk result (text.new ≡ text.old ++ spec.dicts_line dicts.now) }
{
    text.extend(b"dicts")?;
    push_dicts(text, dicts)?;
    text.push(b'\n')
}

/// Appends the line of the saves.
#[tactic(auto, using(crate::proofs::Pieces::three_pieces), unfolding(crate::specs::Registers::saves_line))]
fn push_saves_line(text: &mut Text, saves: &Saves) -> Result<(), NoMemory>
    ensures { OnOk result (text.new ≡ text.old ++ spec.saves_line saves.now) }
{
    text.extend(b"saves")?;
    push_saves(text, saves)?;
    text.push(b'\n')
}

/// Where composite objects are made.
fn allocation(global: bool) -> &'static [u8]
    ensures { result.now ≡ spec.allocation global }
{
    if global {
        b"modes global"
    } else {
        b"modes local"
    }
}

/// How procedures are scanned.
fn scanning(packing: bool) -> &'static [u8]
    ensures { result.now ≡ spec.scanning packing }
{
    if packing {
        b" packed\n"
    } else {
        b" unpacked\n"
    }
}

/// Appends the line of the modes.
#[tactic(auto, using(crate::proofs::Pieces::two_pieces), unfolding(crate::specs::Registers::modes_line))]
fn push_modes_line(text: &mut Text, global: bool, packing: bool) -> Result<(), NoMemory>
    ensures { OnOk result (text.new ≡ text.old ++ spec.modes_line global packing) }
{
    text.extend(allocation(global))?;
    text.extend(scanning(packing))
}

/// Appends the line of a graphics state.
#[tactic(auto, using(crate::proofs::Pieces::three_pieces), unfolding(crate::specs::Registers::state_line))]
fn push_state_line(
    alloc: Global,
    text: &mut Text,
    label: &[u8],
    state: &GState,
    start: &GState,
) -> Result<(), NoMemory>
    ensures { OnOk result (text.new ≡ text.old ++ spec.state_line start.now label.now state.now) }
{
    text.extend(label)?;
    push_fields(alloc, text, state, start)?;
    text.push(b'\n')
}

/// The label of a layer.
fn layer_label(base: bool) -> &'static [u8]
    ensures { result.now ≡ spec.layer_label base }
{
    if base { b" base" } else { b" state" }
}

/// Appends the line of a layer.
#[tactic(auto, unfolding(crate::specs::Registers::layer_line))]
fn push_layer_line(
    alloc: Global,
    text: &mut Text,
    layer: &Layer,
    start: &GState,
) -> Result<(), NoMemory>
    ensures { OnOk result (text.new ≡ text.old ++ spec.layer_line start.now layer.now) }
{
    push_state_line(alloc, text, layer_label(layer.base), &layer.state, start)
}

/// Appends the lines of the layers, the newest first.
#[tactic(auto, using(crate::proofs::Pieces::one_newer))]
fn push_layers(
    alloc: Global,
    text: &mut Text,
    layers: &GStack,
    start: &GState,
) -> Result<(), NoMemory>
    ensures { OnOk result (text.new ≡ text.old ++ flat_map (spec.layer_line start.now) layers.now) }
{
    let count = layers.len();
    for depth in 0..count {
        push_layer_line(alloc, text, layers.at(depth), start)?;
    }
    Ok(())
}

/// Appends the line of the graphics stack's depth.
#[tactic(auto, using(crate::proofs::Pieces::three_pieces), unfolding(crate::specs::Registers::depth_line))]
fn push_depth_line(text: &mut Text, depth: usize) -> Result<(), NoMemory>
    ensures { OnOk result (text.new ≡ text.old ++ spec.depth_line depth) }
{
    let mut buffer = Buffer::new();
    text.extend(b"graphics ")?;
    text.extend(buffer.format(depth).as_bytes())?;
    text.push(b'\n')
}

/// Appends the lines of the graphics state and its stack.
#[tactic(auto, using(crate::proofs::Pieces::three_pieces), unfolding(crate::specs::Registers::graphics_lines))]
fn push_graphics(
    alloc: Global,
    text: &mut Text,
    regs: &Regs,
    start: &GState,
) -> Result<(), NoMemory>
    ensures { OnOk result (text.new ≡
        text.old ++ spec.graphics_lines start.now regs.now.state regs.now.states) }
{
    push_depth_line(text, regs.states.len())?;
    push_state_line(alloc, text, b" state", &regs.state, start)?;
    push_layers(alloc, text, &regs.states, start)
}

/// Appends the lines of the registers.
#[tactic(auto, using(crate::proofs::Pieces::five_pieces), unfolding(crate::specs::Registers::register_lines))]
pub fn push_registers(
    alloc: Global,
    text: &mut Text,
    regs: &Regs,
    start: &GState,
) -> Result<(), NoMemory>
    ensures { OnOk result (text.new ≡ text.old ++ spec.register_lines start.now regs.now) }
{
    push_operands_line(text, &regs.operands)?;
    push_dicts_line(text, &regs.dicts)?;
    push_saves_line(text, &regs.saves)?;
    push_modes_line(text, regs.global, regs.packing)?;
    push_graphics(alloc, text, regs, start)
}
