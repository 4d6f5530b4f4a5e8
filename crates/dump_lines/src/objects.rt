//! Object text.
ghost use Rattle.std.specs.Prelude.{◌≡◌, ◌++◌, OnOk};
ghost use Rattle.std.specs.Fmt.{decimal, signed_decimal};
ghost use Rattle.ps_objects.specs.declared.object.Kind.TheVariants as kind;
ghost use Rattle.dump_lines.specs.Objects as spec;

use crate::hex::push_hex_byte;
use copy_lists::{NoMemory, Text};
use itoa::Buffer;
use ps_kinds::{Access, Cell, Interval, Kind, Object, Op, Real, SaveName, op_name};

/// Appends a whole number.
pub fn push_decimal(text: &mut Text, n: u32) -> Result<(), NoMemory>
    ensures { OnOk result (text.new ≡ text.old ++ decimal n) }
{
    let mut buffer = Buffer::new();
    text.extend(buffer.format(n).as_bytes())
}

/// Appends a number with its sign.
pub(crate) fn push_signed(text: &mut Text, n: i64) -> Result<(), NoMemory>
    ensures { OnOk result (text.new ≡ text.old ++ signed_decimal n) }
{
    let mut buffer = Buffer::new();
    text.extend(buffer.format(n).as_bytes())
}

/// Whether a byte of a name stands for itself.
fn stands_plain(byte: u8) -> bool
    ensures { result ≡ spec.stands_plain byte }
{
    33 <= byte && byte <= 126 && byte != b'#' && byte != b'!'
}

/// Appends a byte of a name: itself, or `#` and its hex.
fn push_name_byte(text: &mut Text, byte: u8) -> Result<(), NoMemory>
    ensures { OnOk result (text.new ≡ text.old ++ spec.name_byte byte) }
{
    if stands_plain(byte) {
        text.push(byte)
    } else {
        text.push(b'#')?;
        push_hex_byte(text, byte)
    }
}

/// Appends the bytes of a name.
#[tactic(auto, using(crate::proofs::Pieces::one_more))]
fn push_name(text: &mut Text, name: &[u8]) -> Result<(), NoMemory>
    ensures { OnOk result (text.new ≡ text.old ++ spec.name_text name.now) }
{
    for byte in name {
        push_name_byte(text, *byte)?;
    }
    Ok(())
}

/// Appends a section and a count.
pub fn push_place(text: &mut Text, section: u32, count: u32) -> Result<(), NoMemory>
    ensures { OnOk result (text.new ≡ text.old ++ spec.place_text section count) }
{
    push_decimal(text, section)?;
    text.push(b'.')?;
    push_decimal(text, count)
}

/// Appends a cell's name behind a letter.
fn push_cell(text: &mut Text, letter: &[u8], cell: Cell) -> Result<(), NoMemory>
    ensures { OnOk result (text.new ≡ text.old ++ (letter.now ++ spec.cell_text cell)) }
{
    text.extend(letter)?;
    push_place(text, cell.section, cell.count)
}

/// Appends a dictionary.
pub(crate) fn push_dict(text: &mut Text, cell: Cell) -> Result<(), NoMemory>
    ensures { OnOk result (text.new ≡ text.old ++ spec.dict_text cell) }
{
    push_cell(text, b"d", cell)
}

/// Appends a save.
pub(crate) fn push_save(text: &mut Text, save: SaveName) -> Result<(), NoMemory>
    ensures { OnOk result (text.new ≡ text.old ++ spec.save_text save) }
{
    text.push(b'v')?;
    push_place(text, save.section, save.count)
}

/// Appends where a part begins and how long it is.
#[tactic(auto, using(crate::proofs::Pieces::five_pieces))]
fn push_range(text: &mut Text, part: Interval) -> Result<(), NoMemory>
    ensures { OnOk result (text.new ≡ text.old ++ spec.range_text part) }
{
    text.push(b'[')?;
    push_decimal(text, part.start)?;
    text.push(b':')?;
    push_decimal(text, part.len)?;
    text.push(b']')
}

/// Appends a part of an array or a string behind a letter.
#[tactic(auto, using(crate::proofs::Pieces::three_pieces))]
fn push_part(text: &mut Text, letter: &[u8], part: Interval) -> Result<(), NoMemory>
    ensures { OnOk result (text.new ≡ text.old ++ (letter.now ++ spec.part_text part)) }
{
    push_cell(text, letter, part.cell)?;
    push_range(text, part)
}

/// A truth value.
pub(crate) fn truth(b: bool) -> &'static [u8]
    ensures { result.now ≡ spec.truth_text b }
{
    if b { b"true" } else { b"false" }
}

/// The letter of an array.
fn array_letter(packed: bool) -> &'static [u8]
    ensures { result.now ≡ spec.array_letter packed }
{
    if packed { b"p" } else { b"a" }
}

/// Appends an operator's name.
fn push_operator(text: &mut Text, op: Op) -> Result<(), NoMemory>
    ensures { OnOk result (text.new ≡ text.old ++ spec.kind_text (kind.Operator op)) }
{
    text.push(b'@')?;
    text.extend(op_name(op))
}

/// Appends the text of a section as a file.
fn push_file(text: &mut Text, section: u32) -> Result<(), NoMemory>
    ensures { OnOk result (text.new ≡ text.old ++ spec.kind_text (kind.File section)) }
{
    text.push(b'f')?;
    push_decimal(text, section)
}

/// Appends a layer over the text of a section as a file.
fn push_filter(text: &mut Text, section: u32, layer: u32) -> Result<(), NoMemory>
    ensures { OnOk result (text.new ≡ text.old ++ spec.kind_text (kind.Filter section layer)) }
{
    text.push(b'f')?;
    push_place(text, section, layer)
}

/// Appends a name.
fn push_name_text(text: &mut Text, name: &[u8]) -> Result<(), NoMemory>
    ensures { OnOk result (text.new ≡ text.old ++ spec.kind_text (kind.Name name.now)) }
{
    text.push(b'/')?;
    push_name(text, name)
}

/// Appends a real as its count behind a letter.
fn push_real(text: &mut Text, real: Real) -> Result<(), NoMemory>
    ensures { OnOk result (text.new ≡ text.old ++ spec.kind_text (kind.Real real)) }
{
    text.push(b'r')?;
    push_signed(text, real.count)
}

/// Appends the text of a type and value.
fn push_kind(text: &mut Text, kind: &Kind) -> Result<(), NoMemory>
    ensures { OnOk result (text.new ≡ text.old ++ spec.kind_text kind.now) }
{
    match kind {
        Kind::Integer(n) => push_signed(text, *n as i64),
        Kind::Real(real) => push_real(text, *real),
        Kind::Boolean(b) => text.extend(truth(*b)),
        Kind::Null => text.extend(b"null"),
        Kind::Mark => text.extend(b"mark"),
        Kind::Name(name) => push_name_text(text, name.as_slice()),
        Kind::Operator(op) => push_operator(text, *op),
        Kind::Str(part) => push_part(text, b"s", *part),
        Kind::Array { interval, packed } => push_part(text, array_letter(*packed), *interval),
        Kind::Dict(cell) => push_dict(text, *cell),
        Kind::File { section } => push_file(text, *section),
        Kind::Filter { section, layer } => push_filter(text, *section, *layer),
        Kind::Save(save) => push_save(text, *save),
        Kind::FontId(cell) => push_cell(text, b"i", *cell),
    }
}

/// What is written behind an executable object; of an operator it isn't told.
fn exec_mark(kind: &Kind, exec: bool) -> &'static [u8]
    ensures { result.now ≡ spec.exec_mark kind.now exec }
{
    match kind {
        Kind::Operator(_) => b"",
        _ => { if exec { b"!" } else { b"" } }
    }
}

/// What is written for limited access.
fn access_mark(access: Access) -> &'static [u8]
    ensures { result.now ≡ spec.access_mark access }
{
    match access {
        Access::Unlimited => b"",
        Access::ReadOnly => b".r",
        Access::ExecuteOnly => b".e",
        Access::NoAccess => b".n",
    }
}

/// Appends the text of an object.
#[tactic(auto, using(crate::proofs::Pieces::three_pieces))]
pub fn push_object(text: &mut Text, object: &Object) -> Result<(), NoMemory>
    ensures { OnOk result (text.new ≡ text.old ++ spec.object_text object.now) }
{
    push_kind(text, &object.kind)?;
    text.extend(exec_mark(&object.kind, object.exec))?;
    text.extend(access_mark(object.access))
}
