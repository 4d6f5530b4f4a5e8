//! Halftone dictionaries of types 1 and 3 (section 6.4.3 of the language manual).
#![tactic(auto, using(ps_operator::proofs::Then::answer_then, ps_operator::proofs::Then::reads_then, ps_operator::proofs::Standing::dict_stands, crate::proofs::Named::ready_in))]

ghost use Rattle.std.specs.Prelude.{◌≡◌, ◌<◌, ◌≤◌, length, true, OnOk, IfOk};
ghost use Rattle.ps_meaning.specs.Ready.{Ready};
ghost use Rattle.ps_operator.specs.Owes.{Does, DoesAlone, Finds, Yields};
ghost use Rattle.ps_operator.specs.Standing.{is_dict, is_string};
ghost use Rattle.ps_objects.specs.declared.key.Key.TheVariants as key;
ghost use Rattle.colour_ops.specs.Halftones as spec;

use crate::glyphs::settable;
use ps_kinds::{
    Access, Cell, ErrorName, Interval, Key, Kind, Name, NoMemory, Object, Operands, Refusal, State,
    Thresholds,
};
use ps_operator::{Mem, bytes_of, look_access, look_entry};
use std::alloc::Global;

/// An entry of a halftone dictionary.
#[derive(Clone, Copy)]
pub(crate) enum Entry {
    HalftoneType,
    Width,
    Height,
    Thresholds,
}

#[tactic(auto, unfolding(crate::specs::Halftones::name_of))]
fn name_of(entry: Entry) -> &'static [u8]
    ensures name { result.now ≡ spec.name_of entry }
    ensures short { length result.now ≤ 127 }
{
    match entry {
        Entry::HalftoneType => b"HalftoneType",
        Entry::Width => b"Width",
        Entry::Height => b"Height",
        Entry::Thresholds => b"Thresholds",
    }
}

fn key_of(alloc: Global, entry: Entry) -> Result<Key, NoMemory>
    ensures { IfOk result (λ k. k ≡ key.Name (spec.name_of entry)) }
{
    Ok(Key::Name(Name::from_bytes(alloc, name_of(entry))?))
}

/// A type of halftone dictionaries.
#[derive(Clone, Copy)]
pub(crate) enum HalftoneType {
    /// Type 1: a screen, by a spot function.
    Spot,

    /// Type 3: a table of thresholds.
    Threshold,
}

/// Types 1 and 3: rangecheck.
fn type_from(n: i32) -> Result<HalftoneType, ErrorName>
    ensures { result ≡ spec.type_from n }
{
    match n {
        1 => Ok(HalftoneType::Spot),
        3 => Ok(HalftoneType::Threshold),
        _ => Err(ErrorName::RangeCheck),
    }
}

fn integer_of(kind: &Kind) -> Result<i32, ErrorName>
    ensures { result ≡ spec.integer_of kind.now }
{
    match kind {
        Kind::Integer(n) => Ok(*n),
        _ => Err(ErrorName::RangeCheck),
    }
}

/// An integer: rangecheck.
fn integer_in(found: Option<Object>) -> Result<i32, ErrorName>
    ensures { result ≡ spec.integer_in found }
{
    match found {
        Some(object) => integer_of(&object.kind),
        None => Err(ErrorName::RangeCheck),
    }
}

/// An integer of 1 or more: rangecheck.
fn size_from(n: i32) -> Result<u32, ErrorName>
    ensures value { result ≡ spec.size_from n }
    ensures positive { IfOk result (λ size. 0 < size) }
{
    if n > 0 {
        Ok(n as u32)
    } else {
        Err(ErrorName::RangeCheck)
    }
}

/// Whether a string has so many bytes: rangecheck.
fn sized(bytes: u64, string: Interval) -> Result<(), ErrorName>
    ensures { result ≡ spec.sized bytes string }
{
    if u64::from(string.len) == bytes {
        Ok(())
    } else {
        Err(ErrorName::RangeCheck)
    }
}

fn string_of(access: Access, kind: &Kind) -> Result<Interval, ErrorName>
    ensures { result ≡ spec.string_of access kind.now }
{
    match kind {
        Kind::Str(string) => {
            access.readable()?;
            Ok(*string)
        }
        _ => Err(ErrorName::RangeCheck),
    }
}

/// A string that may be read: rangecheck, invalidaccess.
fn string_in(found: Option<Object>) -> Result<Interval, ErrorName>
    ensures { result ≡ spec.string_in found }
{
    match found {
        Some(object) => string_of(object.access, &object.kind),
        None => Err(ErrorName::RangeCheck),
    }
}

/// A type of halftone dictionaries: rangecheck.
fn type_under<M: Mem>(
    alloc: Global,
    dict: Cell,
    entry: Entry,
    mem: &mut M,
) -> Result<HalftoneType, Refusal>
    requires dict { is_dict (M.log mem.old).view dict ≡ true }
    ensures view { OnOk result ((M.log mem.new).view ≡ (M.log mem.old).view) }
    ensures told { Yields (spec.type_under dict entry) (M.log mem.old) result (M.log mem.new) }
{
    let key = key_of(alloc, entry)?;
    let type_ = type_from(integer_in(look_entry(mem, dict, key)?)?)?;
    Ok(type_)
}

/// A width or a height: rangecheck.
fn size_under<M: Mem>(alloc: Global, dict: Cell, entry: Entry, mem: &mut M) -> Result<u32, Refusal>
    requires dict { is_dict (M.log mem.old).view dict ≡ true }
    ensures view { OnOk result ((M.log mem.new).view ≡ (M.log mem.old).view) }
    ensures positive { IfOk result (λ size. 0 < size) }
    ensures told { Yields (spec.size_under dict entry) (M.log mem.old) result (M.log mem.new) }
{
    let key = key_of(alloc, entry)?;
    let size = size_from(integer_in(look_entry(mem, dict, key)?)?)?;
    Ok(size)
}

/// A string that may be read: rangecheck, invalidaccess.
#[tactic(auto, using(crate::proofs::Named::string_named))]
fn string_under<M: Mem>(
    alloc: Global,
    state: &State,
    dict: Cell,
    entry: Entry,
    mem: &mut M,
) -> Result<Interval, Refusal>
    requires ready { Ready state.now (M.log mem.old).view }
    requires dict { is_dict (M.log mem.old).view dict ≡ true }
    ensures view { OnOk result ((M.log mem.new).view ≡ (M.log mem.old).view) }
    ensures string { IfOk result (λ string. is_string (M.log mem.new).view string ≡ true) }
    ensures told { Yields (spec.string_under dict entry) (M.log mem.old) result (M.log mem.new) }
{
    let key = key_of(alloc, entry)?;
    let string = string_in(look_entry(mem, dict, key)?)?;
    Ok(string)
}

/// The thresholds of a dictionary of type 3: rangecheck, invalidaccess.
fn table_in<M: Mem>(
    alloc: Global,
    state: &State,
    dict: Cell,
    mem: &mut M,
) -> Result<Thresholds, Refusal>
    requires ready { Ready state.now (M.log mem.old).view }
    requires dict { is_dict (M.log mem.old).view dict ≡ true }
    ensures view { OnOk result ((M.log mem.new).view ≡ (M.log mem.old).view) }
    ensures told { Yields (spec.table_in dict) (M.log mem.old) result (M.log mem.new) }
{
    let width = size_under(alloc, dict, Entry::Width, mem)?;
    let height = size_under(alloc, dict, Entry::Height, mem)?;
    let string = string_under(alloc, state, dict, Entry::Thresholds, mem)?;
    sized(u64::from(width) * u64::from(height), string)?;
    let bytes = bytes_of(alloc, string, mem)?;
    let table = Thresholds::new(alloc, width, height, bytes.as_slice())?;
    Ok(table)
}

/// The thresholds of a halftone dictionary: rangecheck, invalidaccess.
fn thresholds_in<M: Mem>(
    alloc: Global,
    state: &State,
    dict: Cell,
    mem: &mut M,
) -> Result<Thresholds, Refusal>
    requires ready { Ready state.now (M.log mem.old).view }
    requires dict { is_dict (M.log mem.old).view dict ≡ true }
    ensures view { OnOk result ((M.log mem.new).view ≡ (M.log mem.old).view) }
    ensures told { Yields (spec.thresholds_in dict) (M.log mem.old) result (M.log mem.new) }
{
    match type_under(alloc, dict, Entry::HalftoneType, mem)? {
        HalftoneType::Spot => Ok(Thresholds::none(alloc)),
        HalftoneType::Threshold => {
            let table = table_in(alloc, state, dict, mem)?;
            Ok(table)
        }
    }
}

pub(crate) fn sethalftone<M: Mem>(state: &mut State, mem: &mut M) -> Result<(), Refusal>
    requires { Ready state.old (M.log mem.old).view }
    ensures { Does spec.sethalftone state.old (M.log mem.old) result state.new (M.log mem.new) }
{
    let operands = &state.regs.operands;
    let alloc = operands.alloc();
    operands.need(1)?;
    let dict = operands.dict(0)?;
    let halftone = operands.object(0)?.copy()?;
    settable(&state.frames)?;
    look_access(mem, dict)?.readable()?;
    let thresholds = thresholds_in(alloc, state, dict, mem)?;
    state.regs.operands.shrink(1);
    state.regs.state.halftone = halftone;
    state.regs.state.thresholds = thresholds;
    Ok(())
}

pub(crate) fn currenthalftone(state: &mut State) -> Result<(), Refusal>
    ensures { DoesAlone spec.currenthalftone state.old result state.new }
{
    let operands = &mut state.regs.operands;
    operands.room(1)?;
    operands.push(state.regs.state.halftone.copy()?)?;
    Ok(())
}
