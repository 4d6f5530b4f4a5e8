//! Strings that are filled from a file.
ghost use Rattle.std.specs.Prelude.{◌≡◌, ◌+◌, ◌<◌, ◌≤◌, ◌^◌, length, true, OnOk};
ghost use Rattle.ps_operator.specs.Owes.{Does};
ghost use Rattle.ps_operator.specs.Standing.{is_string};
ghost use Rattle.file_ops.specs.Parts as spec;

use crate::files::own;
use ps_kinds::{Access, ErrorName, Interval, Kind, Object, Operands, Refusal, State};
use ps_operator::{Mem, literal, store_bytes};

/// A string that is an operand, with its attribute and access.
#[derive(Clone, Copy)]
pub(crate) struct Whole {
    pub interval: Interval,
    pub exec: bool,
    pub access: Access,
}

/// The string that is filled, above a file that is read.
///
/// # Errors
///
/// `stackunderflow`, `typecheck`, `invalidaccess`, and `ioerror` where the file isn't the section's own.
pub(crate) fn target_of(state: &State) -> Result<Whole, ErrorName>
    ensures target { result ≡ spec.target_of state.now }
    ensures two { OnOk result (2 ≤ length state.now.regs.operands) }
{
    let operands = &state.regs.operands;
    operands.need(2)?;
    let interval = operands.string(0)?;
    let file = operands.file(1)?;
    let object = operands.object(0)?;
    operands.writable(0)?;
    operands.readable(1)?;
    own(state, file)?;
    Ok(Whole {
        interval,
        exec: object.exec,
        access: object.access,
    })
}

/// Whether a string isn't empty: rangecheck.
pub(crate) fn some_room(len: u32) -> Result<(), ErrorName>
    ensures { result ≡ spec.some_room len }
{
    if len == 0 {
        Err(ErrorName::RangeCheck)
    } else {
        Ok(())
    }
}

/// Bytes of a string from a place on, with the string's attribute and access.
pub(crate) fn piece(string: Whole, from: u32, len: u32) -> Object
    requires { string.interval.start + from < 2 ^ 32 }
    ensures { result ≡ spec.piece string from len }
{
    let interval = Interval {
        cell: string.interval.cell,
        start: string.interval.start + from,
        len,
    };
    Object {
        kind: Kind::Str(interval),
        exec: string.exec,
        access: string.access,
    }
}

/// Each byte of a text is one.
fn known_bytes(bytes: &[u8])
    ensures { spec.are_bytes bytes.now ≡ true }
{
    let _bytes = bytes;
}

/// Stores bytes at the front of a string, puts that front, and whether all was read that was asked for, in the place of the
/// string and the file, and goes on at a place of the text.
#[tactic(auto, using(ps_operator::proofs::StoreSteps::bytes_take_none))]
pub(crate) fn fill<M: Mem>(
    string: Whole,
    bytes: &[u8],
    all: bool,
    place: u64,
    state: &mut State,
    mem: &mut M,
) -> Result<(), Refusal>
    requires two { 2 ≤ length state.old.regs.operands }
    requires string { is_string (M.log mem.old).view string.interval ≡ true }
    requires within { length bytes.now ≤ string.interval.len }
    ensures { Does (λ s. spec.fills s string bytes.now all place)
        state.old (M.log mem.old) result state.new (M.log mem.new) }
{
    known_bytes(bytes);
    store_bytes(mem, string.interval, 0, bytes)?;
    let operands = &mut state.regs.operands;
    operands.shrink(2);
    operands.push(piece(string, 0, bytes.len() as u32))?;
    operands.push(literal(Kind::Boolean(all)))?;
    state.place = place;
    Ok(())
}
