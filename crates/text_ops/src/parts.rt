//! Parts of strings that are operands, and bytes that are stored at their fronts.
ghost use Rattle.std.specs.Prelude.{◌≡◌, ◌∷◌, ◌+◌, ◌^◌, ◌<◌, ◌≤◌, length, drop, true, OnOk};
ghost use Rattle.text_ops.specs.Parts as spec;

use ps_kinds::{Access, ErrorName, Interval, Kind, NoMemory, Object, Objects};
use ps_operator::literal;

/// A string that is an operand, with its attribute and access.
#[derive(Clone, Copy)]
pub(crate) struct Whole {
    pub interval: Interval,
    pub exec: bool,
    pub access: Access,
}

/// Bytes of a string from a place on, with the string's attribute and access.
fn piece(string: Whole, from: u32, len: u32) -> Object
    requires { string.interval.start + from < 2 ^ 32 }
    ensures { result ≡ spec.piece string.exec string.access string.interval from len }
{
    let interval = Interval {
        cell: string.interval.cell,
        start: string.interval.start + from,
        len,
    };
    Object {
        kind: Kind::Str(interval),
        exec: string.exec,
        access: string.access,
    }
}

/// Whether a string is so long: rangecheck.
pub(crate) fn fits_in(len: u32, n: usize) -> Result<(), ErrorName>
    ensures { result ≡ spec.fits_in len n }
{
    if n > len as usize {
        Err(ErrorName::RangeCheck)
    } else {
        Ok(())
    }
}

/// Puts the three parts of a string round a match in the place of the string and what was sought.
pub(crate) fn push_parted(
    operands: &mut Objects,
    string: Whole,
    at: u32,
    len: u32,
) -> Result<(), NoMemory>
    requires two { 2 ≤ length operands.old }
    requires within { at + len ≤ string.interval.len }
    requires ends { string.interval.start + string.interval.len < 2 ^ 32 }
    ensures { OnOk result (operands.new
        ≡ spec.parted string.exec string.access string.interval at len (drop 2 operands.old)) }
{
    operands.shrink(2);
    operands.push(piece(string, at + len, string.interval.len - (at + len)))?;
    operands.push(piece(string, at, len))?;
    operands.push(piece(string, 0, at))?;
    operands.push(literal(Kind::Boolean(true)))
}

/// Puts the two parts of a string, of which the front matches, in the place of the string and what was sought.
pub(crate) fn push_headed(operands: &mut Objects, string: Whole, len: u32) -> Result<(), NoMemory>
    requires two { 2 ≤ length operands.old }
    requires within { len ≤ string.interval.len }
    requires ends { string.interval.start + string.interval.len < 2 ^ 32 }
    ensures { OnOk result (operands.new
        ≡ spec.headed string.exec string.access string.interval len (drop 2 operands.old)) }
{
    operands.shrink(2);
    operands.push(piece(string, len, string.interval.len - len))?;
    operands.push(piece(string, 0, len))?;
    operands.push(literal(Kind::Boolean(true)))
}

/// The front of a string that is an operand.
pub(crate) fn front(string: Whole, len: u32) -> Object
    requires { string.interval.start < 2 ^ 32 }
    ensures { result ≡ spec.piece string.exec string.access string.interval 0 len }
{
    piece(string, 0, len)
}

/// Each byte of a text is one.
pub(crate) fn known_bytes(bytes: &[u8])
    ensures { spec.are_bytes bytes.now ≡ true }
{
    let _bytes = bytes;
}
