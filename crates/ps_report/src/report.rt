//! The report of an error that stopped a section.
ghost use Rattle.std.specs.Prelude.{◌≡◌, ◌≤◌, true, List, Option, Some, option_map, length, IfOk, OnOk};
ghost use Rattle.ps_execution.specs.Section as meaning;
ghost use Rattle.ps_execution.specs.Section.{in_error_record};
ghost use Rattle.ps_meaning.specs.Answer.{looked_in};
ghost use Rattle.ps_meaning.specs.Registers.{world_of};
ghost use Rattle.ps_meaning.specs.Sound.{SoundMemory};
ghost use Rattle.ps_meaning.specs.Start.{error_record};
ghost use Rattle.ps_memory.specs.Memory.{value_at};
ghost use Rattle.ps_operator.specs.Looks.{or_absent};
ghost use Rattle.ps_operator.specs.Standing.{is_dict, is_string};
ghost use Rattle.ps_report.specs.Reports.{told_in, Reports, StaysSound, is_told, string_stands, string_in, forgotten_in, Leads, Onward};

use ps_kinds::{Cell, Interval, Key, Kind, NAME_LIMIT, Name, NoMemory, Object, Space, State, Text};
use ps_operator::{bytes_of, literal, look_entry, store_entry};
use std::alloc::Global;
use vm_mem::Mem;

/// An object that the report tells, and the bytes of its string.
#[derive(Drop)]
pub struct Told {
    pub object: Object,
    pub bytes: Text,
}

/// The entries `errorname` and `command` of `$error`, where they are there.
#[derive(Drop)]
pub struct Report {
    pub name: Option<Told>,
    pub command: Option<Told>,
}

/// The dictionary `$error`.
fn error_record() -> Cell
    ensures { result ≡ error_record }
{
    Cell {
        section: 0,
        count: 4,
        space: Space::Local,
    }
}

/// Looks at an entry of `$error`.
fn entry<M: Mem>(alloc: Global, name: &[u8], mem: &mut M) -> Result<Option<Object>, NoMemory>
    requires stands { is_dict (M.log mem.old).view error_record ≡ true }
    requires short { length name.now ≤ NAME_LIMIT }
    ensures value { IfOk result (λ x. value_at (M.log mem.old).view (in_error_record name.now)
        ≡ or_absent x) }
    ensures looked { OnOk result (M.log mem.new
        ≡ looked_in (M.log mem.old) (in_error_record name.now)) }
{
    let key = Key::Name(Name::from_bytes(alloc, name)?);
    look_entry(mem, error_record(), key)
}

fn is_true(object: &Option<Object>) -> bool
    ensures { result ≡ meaning.is_true (or_absent object.now) }
{
    match object {
        Some(object) => match object.kind {
            Kind::Boolean(b) => b,
            _ => false,
        },
        None => false,
    }
}

/// The interval of a string.
fn string_of(kind: &Kind) -> Option<Interval>
    ensures { result ≡ string_in kind.now }
{
    match kind {
        Kind::Str(part) => Some(*part),
        _ => None,
    }
}

/// What is told of an object.
#[tactic(auto, using(crate::proofs::Telling::told_string, crate::proofs::Telling::told_plain, crate::proofs::Telling::string_here))]
fn told_object<M: Mem>(alloc: Global, object: Object, mem: &mut M) -> Result<Told, NoMemory>
    requires { string_stands (M.log mem.old).view object.kind ≡ true }
    ensures view { OnOk result ((M.log mem.new).view ≡ (M.log mem.old).view) }
    ensures leads { IfOk result (λ t. (k : Onward meaning.Told) →
        Leads (meaning.told_kind object object.kind k) (M.log mem.old)
        (k (told_in t)) (M.log mem.new)) }
{
    match string_of(&object.kind) {
        Some(part) => {
            let bytes = bytes_of(alloc, part, mem)?;
            let bytes = Text::from_bytes(alloc, bytes.as_slice())?;
            Ok(Told { object, bytes })
        }
        None => {
            let bytes = Text::new(alloc);
            Ok(Told { object, bytes })
        }
    }
}

/// What is told of an entry.
fn told_entry<M: Mem>(
    alloc: Global,
    entry: Option<Object>,
    mem: &mut M,
) -> Result<Option<Told>, NoMemory>
    requires { is_told (M.log mem.old).view entry ≡ true }
    ensures view { OnOk result ((M.log mem.new).view ≡ (M.log mem.old).view) }
    ensures leads { IfOk result (λ t. (k : Onward (Option meaning.Told)) →
        Leads (meaning.told_value (or_absent entry) k) (M.log mem.old)
        (k (option_map told_in t)) (M.log mem.new)) }
{
    match entry {
        Some(object) => Ok(Some(told_object(alloc, object, mem)?)),
        None => Ok(None),
    }
}

/// Notes in `$error` that the error is told.
fn forget<M: Mem>(alloc: Global, mem: &mut M) -> Result<(), NoMemory>
    requires { is_dict (M.log mem.old).view error_record ≡ true }
    ensures { OnOk result (M.log mem.new ≡ forgotten_in (M.log mem.old)) }
{
    let key = Key::Name(Name::from_bytes(alloc, b"newerror")?);
    store_entry(mem, error_record(), key, literal(Kind::Boolean(false)))
}

/// Takes the report of the error that stopped a section: none where `newerror` isn't true in `$error`, and else the entries
/// `errorname` and `command`, with the bytes of their strings; then `newerror` is false. The looks are the section's.
#[tactic(auto, using(crate::proofs::Taking::none_new, crate::proofs::Taking::stays_sound))]
pub fn reports<M: Mem>(
    alloc: Global,
    state: &State,
    mem: &mut M,
) -> Result<Option<Report>, NoMemory>
    requires { SoundMemory (world_of state.now.section (M.log mem.old).view) (M.log mem.old).view }
    ensures told { IfOk result (λ r. Reports (M.log mem.old) r (M.log mem.new)) }
    ensures sound { OnOk result (StaysSound (M.log mem.old).view (M.log mem.new).view) }
{
    let new = entry(alloc, b"newerror", mem)?;
    if !is_true(&new) {
        return Ok(None);
    }
    let name = entry(alloc, b"errorname", mem)?;
    let command = entry(alloc, b"command", mem)?;
    let name = told_entry(alloc, name, mem)?;
    let command = told_entry(alloc, command, mem)?;
    forget(alloc, mem)?;
    Ok(Some(Report { name, command }))
}
