//! The words of a comment's line, and what they count.
ghost use Rattle.std.specs.Prelude.{◌≡◌, ◌-◌, ◌^◌, ◌≤◌, length, min, if◌then◌else◌};
ghost use Rattle.std.specs.Iterator.{YieldsFirstRef, item_count};
ghost use Rattle.std.specs.List.{list_all, position_or_len, prefix_len};
ghost use Rattle.std.specs.Char.{is_ascii_digit};
ghost use Rattle.memchr.specs.Find.{is_byte2};
ghost use Rattle.dsc_split.specs.Comments.{is_blank, words, decimal_value, number_of, counted, counts_lines};

use memchr::memchr2;

pub(crate) fn is_blank(byte: u8) -> bool
    ensures { result ≡ is_blank byte }
{
    byte == b' ' || byte == b'\t'
}

/// How many bytes stand before the first of either byte, or all of them where neither comes.
#[tactic(auto, using(crate::proofs::Searches::first_place))]
pub(crate) fn length_before(either: u8, other: u8, text: &[u8]) -> usize
    ensures value { result ≡ position_or_len (is_byte2 either other) text.now }
    ensures bound { result ≤ length text.now }
{
    memchr2(either, other, text).unwrap_or(text.len())
}

/// The words of a text: its longest rows of bytes other than space and tab.
#[derive(Drop)]
pub(crate) struct Words<'a> {
    pub(crate) rest: &'a [u8],
}

impl<'a> Iterator for Words<'a> {
    type Item = &'a [u8];

    ghost next_gives = { YieldsFirstRef (λ w. words w.rest.now) };

    ghost remaining = { item_count (λ w. words w.rest.now) };

    fn next(&mut self) -> Option<&'a [u8]> {
        let (_, text) = self.rest.split_at(blank_len(self.rest));
        let (word, rest) = text.split_at(length_before(b' ', b'\t', text));
        self.rest = rest;
        if word.is_empty() { None } else { Some(word) }
    }
}

/// How many blanks a text begins with.
fn blank_len(text: &[u8]) -> usize
    ensures value { result ≡ prefix_len is_blank text.now }
    ensures bound { result ≤ length text.now }
{
    text.iter().take_while(|byte| is_blank(**byte)).count()
}

/// The number that a word writes, or `usize::MAX` where it is larger, or 0 where the word isn't a row of digits.
fn number_of(word: &[u8]) -> usize
    ensures { result ≡ min (number_of word.now) (2 ^ 64 - 1) }
{
    let mut value: usize = 0;
    for byte in word {
        if !byte.is_ascii_digit() {
            return 0;
        }
        value = value
            .saturating_mul(10)
            .saturating_add((*byte - b'0') as usize);
    }
    value
}

/// What the words of a comment count.
#[derive(Clone, Copy)]
pub(crate) struct Count {
    pub(crate) number: usize,
    pub(crate) by_lines: bool,
}

pub(crate) fn count_of(text: &[u8]) -> Count
    ensures number { result.number ≡ min (counted (words text.now)) (2 ^ 64 - 1) }
    ensures by_lines { result.by_lines ≡ counts_lines (words text.now) }
{
    let mut words = Words { rest: text };
    let Some(first) = words.next() else {
        return Count {
            number: 0,
            by_lines: false,
        };
    };
    let number = number_of(first);
    let Some(second) = words.next() else {
        return Count {
            number,
            by_lines: false,
        };
    };
    let unit = words.next().unwrap_or(second);
    Count {
        number,
        by_lines: unit == b"Lines".as_slice(),
    }
}
