//! What is found behind the bytes of a code that were read.
ghost use Rattle.std.specs.Prelude.{◌≡◌, ◌<◌, ◌≤◌, ◌^◌, ◌-◌, drop};
ghost use Rattle.data_filters.specs.Codes.{cut_group, padded, word_of, word_code};
ghost use Rattle.data_filters.specs.Found.{without_digit, behind_digit, without_character, behind_tilde, behind_length, by_itself, whole, literal_found, part_end};

use crate::Given;
use crate::code::{Code, Found, gives};
use crate::digits::{hex_digit, word_of};
use filter_tower::CodeBytes;

/// Where no first digit comes.
pub(crate) fn without_digit(given: Given) -> Found
    ensures { result ≡ without_digit given }
{
    Found::whole(match given {
        Given::Byte(b'>') => Code::Ends { taken: 1 },
        Given::End => Code::EndsWithSource,
        _ => Code::Wrong,
    })
}

/// Behind a first digit of this value.
pub(crate) fn behind_digit(high: u8, given: Given) -> Found
    requires { high < 16 }
    ensures { result ≡ behind_digit high given }
{
    match given {
        Given::End | Given::Byte(b'>') => Found::cut(gives(&[high * 16], 1)),
        Given::Bad => Found::whole(Code::Wrong),
        Given::Byte(byte) => match hex_digit(byte) {
            Some(low) => Found::whole(gives(&[high * 16 + low], 2)),
            None => Found::whole(Code::Wrong),
        },
    }
}

/// The characters at the end, where so many are missing for a group.
fn cut_group(missing: usize, value: u64, end: Code) -> Code
    requires missing { missing ≤ 5 }
    requires value { value < 85 ^ (5 - missing) }
    ensures { result ≡ cut_group missing value end }
{
    match missing {
        5 => end,
        4 => Code::Wrong,
        _ => {
            let value = padded(missing, value);
            if value >= 4_294_967_296 {
                return Code::Wrong;
            }
            let word = word_of(value);
            gives(&word[..4 - missing], 5 - missing)
        }
    }
}

/// The value of a group that lacks so many characters, with the highest one in place of each.
fn padded(missing: usize, value: u64) -> u64
    requires missing { missing ≤ 5 }
    requires value { value < 85 ^ (5 - missing) }
    ensures value { result ≡ padded missing value }
    ensures bound { result < 2 ^ 33 }
{
    match missing {
        0 => value,
        1 => value * 85 + 84,
        2 => value * 7_225 + 7_224,
        3 => value * 614_125 + 614_124,
        4 => value * 52_200_625 + 52_200_624,
        _ => 4_437_053_124,
    }
}

/// Where a group lacks so many characters, and what comes is none.
pub(crate) fn without_character(missing: usize, value: u64, given: Given) -> Found
    requires missing { missing ≤ 5 }
    requires value { value < 85 ^ (5 - missing) }
    ensures { result ≡ without_character missing value given }
{
    match given {
        Given::End => Found::cut(cut_group(missing, value, Code::EndsWithSource)),
        Given::Byte(b'z') if missing == 5 => Found::whole(gives(&[0, 0, 0, 0], 1)),
        _ => Found::whole(Code::Wrong),
    }
}

/// Behind `~`.
pub(crate) fn behind_tilde(missing: usize, value: u64, given: Given) -> Found
    requires missing { missing ≤ 5 }
    requires value { value < 85 ^ (5 - missing) }
    ensures { result ≡ behind_tilde missing value given }
{
    match given {
        Given::Byte(b'>') => Found::cut(cut_group(missing, value, Code::Ends { taken: 2 })),
        _ => Found::whole(Code::Wrong),
    }
}

/// Behind the length of a repeat, which gives a byte once and then so often.
pub(crate) fn behind_length(more: usize, given: Given) -> Found
    requires { more < 128 }
    ensures { result ≡ behind_length more given }
{
    Found::whole(match given {
        Given::Byte(byte) => Code::Gives {
            bytes: CodeBytes::repeated(byte, more + 1),
            taken: 2,
        },
        Given::End => Code::Ends { taken: 1 },
        Given::Bad => Code::Wrong,
    })
}

/// Where a byte gives itself.
pub(crate) fn by_itself(given: Given) -> Found
    ensures { result ≡ by_itself given }
{
    Found::whole(match given {
        Given::Byte(byte) => gives(&[byte], 1),
        Given::End => Code::EndsWithSource,
        Given::Bad => Code::Wrong,
    })
}

/// The four bytes of a group.
pub(crate) fn group_of(value: u64) -> Found
    requires { value < 2 ^ 33 }
    ensures { result ≡ whole (word_code value) }
{
    if value < 4_294_967_296 {
        Found::whole(gives(&word_of(value), 5))
    } else {
        Found::whole(Code::Wrong)
    }
}

/// The bytes of a literal run, and whether the source ended behind them.
pub(crate) fn literal_found(bytes: CodeBytes, is_cut: bool) -> Found
    ensures { result ≡ literal_found bytes is_cut }
{
    if bytes.is_empty() {
        return Found {
            code: Code::Ends { taken: 1 },
            is_cut,
        };
    }
    let taken = bytes.len() + 1;
    Found {
        code: Code::Gives { bytes, taken },
        is_cut,
    }
}

/// The length of the end of a part of a source, where it comes: none where so many bytes were given, or the mark's.
pub(crate) fn end_of_part(
    text: &[u8],
    place: usize,
    count: u32,
    mark: &[u8],
    given: u64,
) -> Option<usize>
    ensures { result ≡ part_end count mark.now given (drop place text.now) }
{
    if mark.is_empty() {
        return if count != 0 && given == u64::from(count) {
            Some(0)
        } else {
            None
        };
    }
    if place <= text.len() && text[place..].starts_with(mark) {
        Some(mark.len())
    } else {
        None
    }
}
