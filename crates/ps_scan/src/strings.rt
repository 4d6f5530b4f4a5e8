//! What the bytes behind a parenthesis or an angle bracket spell.
ghost use Rattle.std.specs.Prelude.{◌≡◌, ℕ, ◌+◌, ◌<◌, ◌≤◌, ◌^◌, ◌++◌, ◌∷◌, ◌==◌, ◌&&◌, ◌*◌, List, [], length, take, filter, false, min, Option, option_to_list, IfOk, IfSome, OnOk};
ghost use Rattle.std.specs.Char.{digit_value};
ghost use Rattle.std.specs.List.{prefix_len};
ghost use Rattle.ps_scan.specs.Strings.{is_octal, octal_length, begins_with_feed, escape_length, escaped, escape_byte, piece_length, piece_byte, depth_after, string_body, is_hex_digit, is_hex, hex_bytes};
ghost use Rattle.ps_scan.specs.Limited.{Keeps, IsBody};

use crate::characters::is_white;
use crate::numbers::{digit_value, digits_value};
use ps_objects::{NoMemory, Text};
use std::alloc::Global;

/// The bytes of a string, at most.
pub(crate) const STRING_LIMIT: usize = 65_535;

fn is_octal(byte: u8) -> bool
    ensures { result ≡ is_octal byte }
{
    matches!(byte, b'0'..=b'7')
}

/// How many octal digits stand at the front, at most three.
fn octal_length(text: &[u8]) -> usize
    ensures length { result ≡ octal_length text.now }
    ensures within { result ≤ length text.now }
{
    match text {
        [a, b, c, ..] if is_octal(*a) && is_octal(*b) && is_octal(*c) => 3,
        [a, b, ..] if is_octal(*a) && is_octal(*b) => 2,
        [a, ..] if is_octal(*a) => 1,
        _ => 0,
    }
}

fn begins_with_feed(text: &[u8]) -> bool
    ensures { result ≡ begins_with_feed text.now }
{
    matches!(text, [b'\n', ..])
}

/// How many bytes behind a backslash belong to it.
#[tactic(auto, unfolding(crate::specs::Strings::escape_length))]
fn escape_length(text: &[u8]) -> usize
    ensures length { result ≡ escape_length text.now }
    ensures within { result ≤ length text.now }
{
    let Some((first, rest)) = text.split_first() else {
        return 0;
    };
    if is_octal(*first) {
        octal_length(text)
    } else if *first == b'\r' && begins_with_feed(rest) {
        2
    } else {
        1
    }
}

/// The byte that a backslash gives with the byte behind it, if any.
fn escaped(byte: u8) -> Option<u8>
    ensures { result ≡ escaped byte }
{
    match byte {
        b'n' => Some(b'\n'),
        b'r' => Some(b'\r'),
        b't' => Some(b'\t'),
        b'b' => Some(0x08),
        b'f' => Some(0x0c),
        b'\n' | b'\r' => None,
        other => Some(other),
    }
}

/// The byte that a backslash and what stands behind it give, if any.
#[tactic(auto, unfolding(crate::specs::Strings::escape_byte))]
fn escape_byte(text: &[u8]) -> Option<u8>
    ensures { result ≡ escape_byte text.now }
{
    let (first, _) = text.split_first()?;
    if is_octal(*first) {
        let (digits, _) = text.split_at(octal_length(text));
        Some((digits_value(8, digits) % 256) as u8)
    } else {
        escaped(*first)
    }
}

#[tactic(auto, unfolding(crate::specs::Strings::piece_length))]
fn piece_length(text: &[u8]) -> usize
    ensures length { result ≡ piece_length text.now }
    ensures some { 0 < length text.now → 0 < result }
    ensures within { result ≤ length text.now }
{
    let Some((first, rest)) = text.split_first() else {
        return 0;
    };
    if *first == b'\\' {
        1 + escape_length(rest)
    } else if *first == b'\r' && begins_with_feed(rest) {
        2
    } else {
        1
    }
}

#[tactic(auto, unfolding(crate::specs::Strings::piece_byte))]
fn piece_byte(text: &[u8]) -> Option<u8>
    ensures { result ≡ piece_byte text.now }
{
    let (first, rest) = text.split_first()?;
    match *first {
        b'\\' => escape_byte(rest),
        b'\r' => Some(b'\n'),
        other => Some(other),
    }
}

/// How many parentheses are open behind a byte.
fn depth_after(byte: u8, depth: usize) -> usize
    requires { depth < 2 ^ 63 }
    ensures { result ≡ depth_after byte depth }
{
    match byte {
        b'(' => depth + 1,
        b')' => depth.saturating_sub(1),
        _ => depth,
    }
}

/// Whether a byte closes the string, where so many parentheses are open in it.
fn is_closing(byte: u8, depth: usize) -> bool
    ensures { result ≡ (depth == 0 && byte == 41) }
{
    depth == 0 && byte == b')'
}

/// A string that is being read: its bytes up to the limit, and how many it has.
#[derive(Drop)]
pub(crate) struct Limited {
    pub(crate) text: Text,
    pub(crate) length: usize,
}

impl Limited {
    fn new(alloc: Global) -> Limited
        ensures { Keeps result [] }
    {
        Limited {
            text: Text::new(alloc),
            length: 0,
        }
    }

    fn push(&mut self, byte: u8) -> Result<(), NoMemory>
        requires { self.old.length < 2 ^ 63 }
        ensures keeps { OnOk result ((bytes : List ℕ) →
            Keeps self.old bytes → Keeps self.new (bytes ++ byte ∷ [])) }
        ensures length { OnOk result (self.new.length ≡ self.old.length + 1) }
    {
        if self.length >= STRING_LIMIT {
            self.length += 1;
            return Ok(());
        }
        self.text.push(byte)?;
        self.length += 1;
        Ok(())
    }

    /// Puts the byte of a piece, if any, behind the others.
    fn push_piece(&mut self, byte: Option<u8>) -> Result<(), NoMemory>
        requires { self.old.length < 2 ^ 63 }
        ensures keeps { OnOk result ((bytes : List ℕ) →
            Keeps self.old bytes → Keeps self.new (bytes ++ option_to_list byte)) }
        ensures length { OnOk result (self.new.length ≤ self.old.length + 1) }
    {
        if let Some(byte) = byte {
            self.push(byte)?;
        }
        Ok(())
    }
}

/// A string up to its closing parenthesis, and how many bytes it takes with it.
#[derive(Drop)]
pub(crate) struct Body {
    pub(crate) limited: Limited,
    pub(crate) taken: usize,
}

/// The string behind an opening parenthesis. None where the text ends before it is closed.
pub(crate) fn string_body(alloc: Global, text: &[u8]) -> Result<Option<Body>, NoMemory>
    ensures body { IfOk result (λ found. IsBody found (string_body 0 0 text.now)) }
    ensures within { IfOk result (λ found. IfSome found (λ body. body.taken ≤ length text.now)) }
{
    let mut limited = Limited::new(alloc);
    let mut depth = 0;
    let mut rest = text;
    'pieces: while let Some((first, _)) = rest.split_first() {
        if is_closing(*first, depth) {
            let taken = text.len() - rest.len() + 1;
            return Ok(Some(Body { limited, taken }));
        }
        limited.push_piece(piece_byte(rest))?;
        depth = depth_after(*first, depth);
        (_, rest) = rest.split_at(piece_length(rest));
    }
    Ok(None)
}

fn is_hex_digit(byte: u8) -> bool
    ensures { result ≡ is_hex_digit byte }
{
    digit_value(byte) < 16
}

/// The byte that two hexadecimal digits make.
fn hex_byte(high: u8, low: u8) -> u8
    requires high { digit_value high < 16 }
    requires low { digit_value low < 16 }
    ensures { result ≡ digit_value high * 16 + digit_value low }
{
    (digit_value(high) * 16 + digit_value(low)) as u8
}

fn is_hex(byte: u8) -> bool
    ensures { result ≡ is_hex byte }
{
    is_hex_digit(byte) || is_white(byte)
}

/// How many hexadecimal digits and bytes of white space stand at the front.
pub(crate) fn hex_length(text: &[u8]) -> usize
    ensures length { result ≡ prefix_len is_hex text.now }
    ensures within { result ≤ length text.now }
{
    for (i, byte) in text.iter().enumerate() {
        if !is_hex(*byte) {
            return i;
        }
    }
    text.len()
}

/// The bytes of a hexadecimal string.
#[tactic(auto, unfolding(crate::specs::Strings::hex_bytes))]
pub(crate) fn hex_bytes(alloc: Global, text: &[u8]) -> Result<Limited, NoMemory>
    requires { length text.now < 2 ^ 63 }
    ensures { IfOk result (λ limited. Keeps limited (hex_bytes text.now)) }
{
    let mut limited = Limited::new(alloc);
    let mut first = None;
    'digits: for byte in text {
        if is_hex_digit(*byte) {
            match first {
                None => first = Some(*byte),
                Some(high) => {
                    limited.push(hex_byte(high, *byte))?;
                    first = None;
                }
            }
        }
    }
    if let Some(high) = first {
        limited.push(hex_byte(high, b'0'))?;
    }
    Ok(limited)
}
