//! Reading into strings (section 8.2 of the language manual).
#![tactic(auto, using(crate::proofs::Targets::target_stands))]

ghost use Rattle.std.specs.Prelude.{◌≡◌, ◌+◌, ◌<◌, ◌≤◌, ◌^◌, drop, length, take, IfOk, IfSome, OnOk};
ghost use Rattle.ps_meaning.specs.Ready.{ReadyIn};
ghost use Rattle.ps_operator.specs.Owes.{Does};
ghost use Rattle.file_ops.specs.Reading as spec;

use crate::parts::{fill, some_room, target_of};
use ps_kinds::{ErrorName, NoMemory, Refusal, State, Text};
use ps_operator::Mem;
use std::alloc::Global;

/// What is left of a text from a place on.
fn rest_of(text: &[u8], place: u64) -> &[u8]
    requires { place ≤ length text.now }
    ensures { result.now ≡ drop place text.now }
{
    let (_, rest) = text.split_at(place as usize);
    rest
}

/// At most so many bytes of a text.
fn front(text: &[u8], len: u32) -> &[u8]
    ensures front { result.now ≡ take len text.now }
    ensures within { length result.now ≤ len }
{
    if text.len() <= len as usize {
        return text;
    }
    let (front, _) = text.split_at(len as usize);
    front
}

/// Fills a string with the bytes that stand in the text.
///
/// # Errors
///
/// Those of [`target_of`], and `rangecheck` for an empty string.
pub(crate) fn readstring<M: Mem>(text: &[u8], state: &mut State, mem: &mut M) -> Result<(), Refusal>
    requires { ReadyIn text.now state.old (M.log mem.old).view }
    ensures { Does (spec.readstring text.now)
        state.old (M.log mem.old) result state.new (M.log mem.new) }
{
    let string = target_of(state)?;
    some_room(string.interval.len)?;
    let bytes = front(rest_of(text, state.place), string.interval.len);
    let all = bytes.len() as u32 == string.interval.len;
    let place = state.place + bytes.len() as u64;
    fill(string, bytes, all, place, state, mem)
}

/// What a hexadecimal digit counts.
fn digit_of(byte: u8) -> Option<u8>
    ensures digit { result ≡ spec.digit_of byte }
    ensures small { IfSome result (λ d. d < 16) }
{
    match byte {
        b'0'..=b'9' => Some(byte - b'0'),
        b'A'..=b'F' => Some(byte - b'A' + 10),
        b'a'..=b'f' => Some(byte - b'a' + 10),
        _ => None,
    }
}

/// What is read of hexadecimal digits: the bytes, the first digit of the next one, and the place behind what was read.
#[derive(Drop)]
pub(crate) struct Hex {
    pub bytes: Text,
    pub first: Option<u8>,
    pub place: u64,
}

impl Hex {
    /// Takes one more byte of the text.
    fn take(&mut self, byte: u8) -> Result<(), NoMemory>
        requires place { self.old.place + 1 < 2 ^ 64 }
        requires small { IfSome self.old.first (λ f. f < 16) }
        ensures taken { OnOk result (self.new ≡ spec.with_byte self.old byte) }
        ensures small { OnOk result (IfSome self.new.first (λ f. f < 16)) }
    {
        self.place += 1;
        let Some(digit) = digit_of(byte) else {
            return Ok(());
        };
        match self.first {
            None => self.first = Some(digit),
            Some(first) => {
                self.bytes.push(16 * first + digit)?;
                self.first = None;
            }
        }
        Ok(())
    }
}

/// Reads hexadecimal digits from a place of the text on, which make at most so many bytes.
#[tactic(auto, using(crate::proofs::Hexadecimal::hex_step, crate::proofs::Hexadecimal::hex_full, crate::proofs::Hexadecimal::hex_end))]
fn hex_from(alloc: Global, len: u32, text: &[u8], place: u64) -> Result<Hex, NoMemory>
    requires { place ≤ length text.now }
    ensures hex { IfOk result (λ h. h ≡ spec.hex_from len (drop place text.now) (spec.no_hex place)) }
    ensures within { IfOk result (λ h. length h.bytes ≤ len) }
{
    let mut hex = Hex {
        bytes: Text::new(alloc),
        first: None,
        place,
    };
    for at in place as usize..text.len() {
        if hex.bytes.len() >= len as usize {
            return Ok(hex);
        }
        hex.take(text[at])?;
    }
    Ok(hex)
}

/// Fills a string with the bytes that hexadecimal digits of the text make; other bytes are passed over.
///
/// # Errors
///
/// Those of [`target_of`], and `rangecheck` for an empty string.
pub(crate) fn readhexstring<M: Mem>(
    text: &[u8],
    state: &mut State,
    mem: &mut M,
) -> Result<(), Refusal>
    requires { ReadyIn text.now state.old (M.log mem.old).view }
    ensures { Does (spec.readhexstring text.now)
        state.old (M.log mem.old) result state.new (M.log mem.new) }
{
    let string = target_of(state)?;
    some_room(string.interval.len)?;
    let alloc = state.regs.operands.alloc();
    let hex = hex_from(alloc, string.interval.len, text, state.place)?;
    let all = hex.bytes.len() as u32 == string.interval.len;
    fill(string, hex.bytes.as_slice(), all, hex.place, state, mem)
}

fn ends_line(byte: u8) -> bool
    ensures { result ≡ spec.ends_line byte }
{
    byte == b'\n' || byte == b'\r'
}

/// How many bytes stand before the first line end, or are left, at most so many: rangecheck.
#[tactic(auto, using(crate::proofs::Lines::line_stops, crate::proofs::Lines::line_goes_on, crate::proofs::Lines::line_is_long, crate::proofs::Lines::line_is_all))]
fn line_length(len: u32, text: &[u8]) -> Result<usize, ErrorName>
    ensures length { result ≡ spec.line_room len (spec.line_length text.now) }
    ensures within { IfOk result (λ n. n ≤ length text.now) }
    ensures short { IfOk result (λ n. n ≤ len) }
{
    for at in 0..text.len() {
        if ends_line(text[at]) {
            return Ok(at);
        }
        if at >= len as usize {
            return Err(ErrorName::RangeCheck);
        }
    }
    Ok(text.len())
}

fn begins_with_feed(text: &[u8]) -> bool
    ensures { result ≡ spec.begins_with_feed text.now }
{
    matches!(text, [b'\n', ..])
}

/// How many bytes of a line end stand at the front: a carriage return with a line feed is one line end.
fn end_length(text: &[u8]) -> usize
    ensures length { result ≡ spec.end_length text.now }
    ensures within { result ≤ length text.now }
{
    let Some((first, rest)) = text.split_first() else {
        return 0;
    };
    if *first == b'\r' && begins_with_feed(rest) {
        2
    } else {
        1
    }
}

/// Fills a string with a line, and takes the line end behind it.
///
/// # Errors
///
/// Those of [`target_of`], and `rangecheck` for a line that is longer than the string.
pub(crate) fn readline<M: Mem>(text: &[u8], state: &mut State, mem: &mut M) -> Result<(), Refusal>
    requires { ReadyIn text.now state.old (M.log mem.old).view }
    ensures { Does (spec.readline text.now)
        state.old (M.log mem.old) result state.new (M.log mem.new) }
{
    let string = target_of(state)?;
    let rest = rest_of(text, state.place);
    let len = line_length(string.interval.len, rest)?;
    let (line, behind) = rest.split_at(len);
    let end = end_length(behind);
    let place = state.place + (len + end) as u64;
    fill(string, line, end > 0, place, state, mem)
}
