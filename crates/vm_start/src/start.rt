//! The maps of the memory with which a job starts.
ghost use Rattle.std.specs.Prelude.{◌≡◌, ◌≤◌, [], length, IfOk, OnOk};
ghost use Rattle.std.specs.FinMap.{from_entries, insert};
ghost use Rattle.ps_objects.specs.declared.access.Access.TheVariants.{Unlimited, ReadOnly};
ghost use Rattle.ps_memory.specs.Order.{cell_cmp, key_cmp};
ghost use Rattle.ps_memory.specs.Memory.{dictionary, items, characters};
ghost use Rattle.ps_meaning.specs.Start.{literal, operator, read_only_string, start_locals, start_globals, start_strings};
ghost use Rattle.vm_start.specs.StartMaps.{with_name, with_dict, with_system_values, operator_map, system_map, error_map, record_map};
ghost use Rattle.vm_content.specs.Maps.{cells_of, entries_of};

use ps_names::places::{FIRST_DEFAULT_ENTRY, OPERATOR_COUNT};
use ps_objects::{
    Access, Cell, Interval, Key, Kind, Name, NoMemory, Object, Op, Shape, Space, op_name,
};
use std::alloc::Global;
use std::collections::BTreeMap;
use vm_content::{Bytes, Content};

// The cells that a job starts with.
const SYSTEM_DICT: Cell = Cell {
    section: 0,
    count: 0,
    space: Space::Global,
};

const GLOBAL_DICT: Cell = Cell {
    section: 0,
    count: 1,
    space: Space::Global,
};

const USER_DICT: Cell = Cell {
    section: 0,
    count: 2,
    space: Space::Local,
};

const ERROR_DICT: Cell = Cell {
    section: 0,
    count: 3,
    space: Space::Local,
};

const ERROR_RECORD: Cell = Cell {
    section: 0,
    count: 4,
    space: Space::Local,
};

const STATUS_DICT: Cell = Cell {
    section: 0,
    count: 5,
    space: Space::Local,
};

const FONT_DIRECTORY: Cell = Cell {
    section: 0,
    count: 6,
    space: Space::Local,
};

const GLOBAL_FONT_DIRECTORY: Cell = Cell {
    section: 0,
    count: 7,
    space: Space::Global,
};

const VERSION: Cell = Cell {
    section: 0,
    count: 8,
    space: Space::Local,
};

const PRODUCT: Cell = Cell {
    section: 0,
    count: 9,
    space: Space::Global,
};

const EMPTY_DASH: Cell = Cell {
    section: 0,
    count: 10,
    space: Space::Local,
};

/// The entries of a dictionary.
type Entries = BTreeMap<Key, Object>;

/// A literal object with unlimited access.
fn literal(kind: Kind) -> Object
    ensures { result ≡ literal kind }
{
    Object {
        kind,
        exec: false,
        access: Access::Unlimited,
    }
}

/// Puts an object under a name.
#[tactic(auto, using(crate::proofs::StartSteps::key_put))]
fn put(alloc: Global, entries: &mut Entries, name: &[u8], object: Object) -> Result<(), NoMemory>
    requires { length name.now ≤ 127 }
    ensures { OnOk result (entries_of entries.new ≡ with_name name.now object entries.old) }
{
    let name = Name::from_bytes(alloc, name)?;
    entries.insert(Key::Name(name), object)?;
    Ok(())
}

/// The operators from a place in their list to before another, under their names.
#[tactic(auto, using(crate::proofs::StartSteps::none_put))]
fn operators(alloc: Global, from: u16, to: u16) -> Result<Entries, NoMemory>
    requires order { from ≤ to }
    requires listed { to ≤ OPERATOR_COUNT }
    ensures { IfOk result (λ entries. entries_of entries ≡ operator_map from to) }
{
    let mut entries = BTreeMap::new(alloc);
    for index in (from..to).rev() {
        let op = Op::at(index);
        put(alloc, &mut entries, op_name(op), operator(op))?;
    }
    Ok(entries)
}

/// An operator as the system dictionary holds it.
fn operator(op: Op) -> Object
    ensures { result ≡ operator op }
{
    Object {
        kind: Kind::Operator(op),
        exec: true,
        access: Access::Unlimited,
    }
}

/// The system dictionary: the operators, and the values that are none (section 3.7.5 of the language manual:
/// standard dictionaries).
fn system_dict(alloc: Global) -> Result<Content, NoMemory>
    ensures { IfOk result (λ content. content ≡ dictionary 0 ReadOnly system_map) }
{
    let mut entries = operators(alloc, 0, FIRST_DEFAULT_ENTRY)?;
    put_values(alloc, &mut entries)?;
    Ok(Content::dictionary(alloc, 0, Access::ReadOnly, entries))
}

/// Puts the values of the system dictionary that are no operators.
fn put_values(alloc: Global, entries: &mut Entries) -> Result<(), NoMemory>
    ensures { OnOk result (entries_of entries.new ≡ with_system_values entries.old) }
{
    put(alloc, entries, b"product", read_only_string(PRODUCT))?;
    put(alloc, entries, b"version", read_only_string(VERSION))?;
    put(alloc, entries, b"languagelevel", literal(Kind::Integer(2)))?;
    put_dict(
        alloc,
        entries,
        b"GlobalFontDirectory",
        GLOBAL_FONT_DIRECTORY,
    )?;
    put_dict(alloc, entries, b"FontDirectory", FONT_DIRECTORY)?;
    put_dict(alloc, entries, b"statusdict", STATUS_DICT)?;
    put_dict(alloc, entries, b"$error", ERROR_RECORD)?;
    put_dict(alloc, entries, b"errordict", ERROR_DICT)?;
    put_dict(alloc, entries, b"userdict", USER_DICT)?;
    put_dict(alloc, entries, b"globaldict", GLOBAL_DICT)?;
    put_dict(alloc, entries, b"systemdict", SYSTEM_DICT)?;
    put(alloc, entries, b"null", literal(Kind::Null))?;
    put(alloc, entries, b"false", literal(Kind::Boolean(false)))?;
    put(alloc, entries, b"true", literal(Kind::Boolean(true)))?;
    Ok(())
}

/// Puts a dictionary under a name.
fn put_dict(alloc: Global, entries: &mut Entries, name: &[u8], dict: Cell) -> Result<(), NoMemory>
    requires { length name.now ≤ 127 }
    ensures { OnOk result (entries_of entries.new ≡ with_dict name.now dict entries.old) }
{
    put(alloc, entries, name, literal(Kind::Dict(dict)))
}

/// A string of eight bytes that no program may write.
fn read_only_string(cell: Cell) -> Object
    ensures { result ≡ read_only_string cell }
{
    Object {
        kind: Kind::Str(Interval {
            cell,
            start: 0,
            len: 8,
        }),
        exec: false,
        access: Access::ReadOnly,
    }
}

/// The dictionary of errors: each one's default entry under its name (section 3.10 of the language manual: error
/// handling).
#[tactic(auto, using(crate::proofs::StartSteps::errors_made))]
fn error_dict(alloc: Global) -> Result<Content, NoMemory>
    ensures { IfOk result (λ content. content ≡ dictionary 0 Unlimited error_map) }
{
    let entries = operators(alloc, FIRST_DEFAULT_ENTRY, OPERATOR_COUNT)?;
    Ok(Content::dictionary(alloc, 0, Access::Unlimited, entries))
}

/// The record of the last error, of which there is none.
#[tactic(auto, using(crate::proofs::StartSteps::record_made))]
fn error_record(alloc: Global) -> Result<Content, NoMemory>
    ensures { IfOk result (λ content. content ≡ dictionary 0 Unlimited record_map) }
{
    let mut entries = BTreeMap::new(alloc);
    put(
        alloc,
        &mut entries,
        b"newerror",
        literal(Kind::Boolean(false)),
    )?;
    Ok(Content::dictionary(alloc, 0, Access::Unlimited, entries))
}

/// A dictionary without entries.
fn empty_dict(alloc: Global, access: Access) -> Content
    ensures { result ≡ dictionary 0 access (from_entries []) }
{
    Content::dictionary(alloc, 0, access, BTreeMap::new(alloc))
}

/// An array without items.
fn no_items(alloc: Global) -> Result<Content, NoMemory>
    ensures { IfOk result (λ content. content ≡ items []) }
{
    Content::fresh(alloc, Shape::Array { len: 0 })
}

/// A string of the length of the version's and the product's names.
fn eight_characters(alloc: Global) -> Result<Content, NoMemory>
    ensures { IfOk result (λ content. content ≡ characters 8) }
{
    Content::fresh(alloc, Shape::Str { len: 8 })
}

/// Puts what a cell holds.
#[tactic(auto, using(crate::proofs::StartSteps::content_put))]
fn hold(cells: &mut BTreeMap<Cell, Content>, cell: Cell, content: Content) -> Result<(), NoMemory>
    ensures { OnOk result (cells_of cells.new ≡ insert (cells_of cells.old) cell content) }
{
    cells.insert(cell, content)?;
    Ok(())
}

/// The local cells that a job starts with.
pub fn locals(alloc: Global) -> Result<BTreeMap<Cell, Content>, NoMemory>
    ensures { IfOk result (λ map. cells_of map ≡ from_entries start_locals) }
{
    let mut cells = BTreeMap::new(alloc);
    hold(&mut cells, EMPTY_DASH, no_items(alloc)?)?;
    hold(&mut cells, VERSION, eight_characters(alloc)?)?;
    hold(
        &mut cells,
        FONT_DIRECTORY,
        empty_dict(alloc, Access::ReadOnly),
    )?;
    hold(
        &mut cells,
        STATUS_DICT,
        empty_dict(alloc, Access::Unlimited),
    )?;
    hold(&mut cells, ERROR_RECORD, error_record(alloc)?)?;
    hold(&mut cells, ERROR_DICT, error_dict(alloc)?)?;
    hold(&mut cells, USER_DICT, empty_dict(alloc, Access::Unlimited))?;
    Ok(cells)
}

/// The global cells that a job starts with.
pub fn globals(alloc: Global) -> Result<BTreeMap<Cell, Content>, NoMemory>
    ensures { IfOk result (λ map. cells_of map ≡ from_entries start_globals) }
{
    let mut cells = BTreeMap::new(alloc);
    hold(&mut cells, PRODUCT, eight_characters(alloc)?)?;
    hold(
        &mut cells,
        GLOBAL_FONT_DIRECTORY,
        empty_dict(alloc, Access::ReadOnly),
    )?;
    hold(
        &mut cells,
        GLOBAL_DICT,
        empty_dict(alloc, Access::Unlimited),
    )?;
    hold(&mut cells, SYSTEM_DICT, system_dict(alloc)?)?;
    Ok(cells)
}

/// The bytes of the strings that a job starts with.
#[tactic(auto, using(crate::proofs::StartSteps::bytes_put))]
pub fn strings(alloc: Global) -> Result<BTreeMap<Cell, Bytes>, NoMemory>
    ensures { IfOk result (λ map. cells_of map ≡ from_entries start_strings) }
{
    let mut strings = BTreeMap::new(alloc);
    strings.insert(PRODUCT, Bytes::from_slice(alloc, b"page-rip")?)?;
    strings.insert(VERSION, Bytes::from_slice(alloc, b"page-rip")?)?;
    Ok(strings)
}
