//! Strings between parentheses.
ghost use Rattle.std.specs.Prelude.{◌≡◌, ◌++◌, true, OnOk};
ghost use Rattle.ps_operator.specs.Standing.{is_string};
ghost use Rattle.full_texts.specs.Bytes as spec;
ghost use Rattle.full_texts.specs.Growing.{allowed, Grows, Makes};

use crate::growing::{keep, push_piece};
use ps_kinds::{Access, Interval, NoMemory, Refusal, State, Text};
use ps_operator::{Mem, look_byte};

fn is_marked(byte: u8) -> bool
    ensures { result ≡ spec.is_marked byte }
{
    byte == b'(' || byte == b')' || byte == b'\\'
}

fn is_printing(byte: u8) -> bool
    ensures { result ≡ spec.is_printing byte }
{
    byte >= b' ' && byte <= b'~'
}

/// Appends a byte of a string: behind a backslash where it is a parenthesis or a backslash, in octal where it doesn't print.
pub(crate) fn push_escaped(text: &mut Text, byte: u8) -> Result<(), NoMemory>
    ensures { OnOk result (text.new ≡ text.old ++ spec.escaped byte) }
{
    if is_marked(byte) {
        text.extend(&[b'\\', byte])
    } else if is_printing(byte) {
        text.push(byte)
    } else {
        text.extend(&[
            b'\\',
            b'0' + byte / 64,
            b'0' + byte / 8 % 8,
            b'0' + byte % 8,
        ])
    }
}

/// Appends the same, as a piece of a message: limitcheck.
fn push_byte(text: &mut Text, byte: u8, state: &State) -> Result<(), Refusal>
    ensures { Makes (allowed state.now (text.old ++ spec.escaped byte)) result text.new }
{
    push_escaped(text, byte)?;
    keep(text, state)
}

/// Appends the bytes of a string, each looked at: limitcheck.
#[tactic(auto, using(crate::proofs::Steps::byte_step, crate::proofs::Steps::byte_refused))]
fn push_bytes<M: Mem>(
    text: &mut Text,
    part: Interval,
    state: &State,
    mem: &mut M,
) -> Result<(), Refusal>
    requires { is_string (M.log mem.old).view part ≡ true }
    ensures view { OnOk result ((M.log mem.new).view ≡ (M.log mem.old).view) }
    ensures told { Grows (spec.bytes_shown state.now part 0 part.len text.old)
        (M.log mem.old) result text.new (M.log mem.new) }
{
    for at in 0..part.len {
        let byte = look_byte(mem, part, at)?;
        push_byte(text, byte, state)?;
    }
    Ok(())
}

/// Appends a string in parentheses: invalidaccess where it may not be read, limitcheck.
#[tactic(auto, using(ps_operator::proofs::Then::reads_then))]
pub(crate) fn push_string<M: Mem>(
    text: &mut Text,
    access: Access,
    part: Interval,
    state: &State,
    mem: &mut M,
) -> Result<(), Refusal>
    requires { is_string (M.log mem.old).view part ≡ true }
    ensures view { OnOk result ((M.log mem.new).view ≡ (M.log mem.old).view) }
    ensures told { Grows (spec.string_shown state.now access part text.old)
        (M.log mem.old) result text.new (M.log mem.new) }
{
    access.readable()?;
    push_piece(text, b"(", state)?;
    push_bytes(text, part, state, mem)?;
    push_piece(text, b")", state)
}
