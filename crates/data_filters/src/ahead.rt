//! Reading ahead: what a source would give, and the codes in it.
ghost use Rattle.std.specs.Prelude.{◌≡◌, ℕ, ◌+◌, ◌≤◌, ◌<◌, true, length, List, [], ◌∷◌, nat_eq};
ghost use Rattle.std.specs.List.{starts_with};
ghost use Rattle.filter_tower.specs.Layers.{IsTower, needs_text};
ghost use Rattle.filter_tower.specs.declared.tower.FilterKind.TheVariants as kind;
ghost use Rattle.data_filters.specs.Rests.{Yields, rest_of};
ghost use Rattle.data_filters.specs.Codes.{past_white, begins_with, literal_of};
ghost use Rattle.data_filters.specs.Layers.{source_of, rest};
ghost use Rattle.data_filters.specs.Found.{Finds, FindsLiteral, literal_found};

use crate::Given;
use crate::code::{Code, Found};
use crate::digits::{hex_digit, is_character, is_white};
use crate::found::{
    behind_digit, behind_length, behind_tilde, by_itself, end_of_part, group_of, literal_found,
    without_character, without_digit,
};
use crate::reading::Reading;
use filter_tower::{CodeBytes, FilterKind, FilterLayer, FilterState};

/// The next byte that a source would give. It is given as it will be, but where the sources stand then isn't.
#[cycle(ahead)]
pub(crate) fn read(text: &[u8], layers: &[FilterLayer], ahead: &mut Reading, source: usize) -> Given
    requires tower { IsTower layers.now }
    requires stands { source ≤ length layers.now }
    requires room { length layers.now ≤ length ahead.old.standings }
    ensures yields { Yields (rest text.now (source_of layers.now source) ahead.old) result
        (rest text.now (source_of layers.now source) ahead.new) }
    ensures same { length ahead.new.standings ≡ length ahead.old.standings }
{
    if source == 0 {
        return ahead.text_byte(text);
    }
    let layer = source - 1;
    if let Some(byte) = ahead.pending_byte(layer) {
        return Given::Byte(byte);
    }
    let standing = ahead.standings.at(layer);
    match standing.state {
        FilterState::Ended => Given::End,
        FilterState::Failed => Given::Bad,
        FilterState::Open => {
            let given = standing.given;
            let below = layers[layer].below as usize;
            let found = next_code(text, layers, ahead, below, &layers[layer].kind, given);
            ahead.begin(layer, found, given)
        }
    }
}

/// The next code of a kind over a source.
#[cycle(ahead)]
pub(crate) fn next_code(
    text: &[u8],
    layers: &[FilterLayer],
    ahead: &mut Reading,
    source: usize,
    kind: &FilterKind,
    given: u64,
) -> Found
    requires tower { IsTower layers.now }
    requires stands { source ≤ length layers.now }
    requires room { length layers.now ≤ length ahead.old.standings }
    requires marks { needs_text kind.now ≡ true → source ≡ 0 }
    ensures found { Finds kind.now given (rest text.now (source_of layers.now source) ahead.old)
        result (rest text.now (source_of layers.now source) ahead.new) }
    ensures same { length ahead.new.standings ≡ length ahead.old.standings }
{
    match kind {
        FilterKind::Hex => hex_code(text, layers, ahead, source),
        FilterKind::Base85 => group_code(text, layers, ahead, source),
        FilterKind::RunLength => run_code(text, layers, ahead, source),
        FilterKind::SubFile { count, mark } => {
            if let Some(taken) = end_of_part(text, ahead.place, *count, mark.as_slice(), given) {
                return Found::whole(Code::Ends { taken });
            }
            by_itself(read(text, layers, ahead, source))
        }
    }
}

/// The next byte of a source that isn't white space.
#[cycle(ahead)]
fn unpassed(text: &[u8], layers: &[FilterLayer], ahead: &mut Reading, source: usize) -> Given
    requires tower { IsTower layers.now }
    requires stands { source ≤ length layers.now }
    requires room { length layers.now ≤ length ahead.old.standings }
    ensures yields { Yields (past_white (rest text.now (source_of layers.now source) ahead.old))
        result (rest text.now (source_of layers.now source) ahead.new) }
    ensures same { length ahead.new.standings ≡ length ahead.old.standings }
{
    'white: loop {
        match read(text, layers, ahead, source) {
            Given::Byte(byte) => {
                if !is_white(byte) {
                    return Given::Byte(byte);
                }
            }
            Given::End => return Given::End,
            Given::Bad => return Given::Bad,
        }
    }
}

/// The next hexadecimal code.
#[cycle(ahead)]
fn hex_code(text: &[u8], layers: &[FilterLayer], ahead: &mut Reading, source: usize) -> Found
    requires tower { IsTower layers.now }
    requires stands { source ≤ length layers.now }
    requires room { length layers.now ≤ length ahead.old.standings }
    ensures found { (so_far : ℕ) → Finds kind.Hex so_far
        (rest text.now (source_of layers.now source) ahead.old) result
        (rest text.now (source_of layers.now source) ahead.new) }
    ensures same { length ahead.new.standings ≡ length ahead.old.standings }
{
    let first = match unpassed(text, layers, ahead, source) {
        Given::End => return without_digit(Given::End),
        Given::Bad => return without_digit(Given::Bad),
        Given::Byte(byte) => byte,
    };
    match hex_digit(first) {
        None => without_digit(Given::Byte(first)),
        Some(high) => behind_digit(high, unpassed(text, layers, ahead, source)),
    }
}

/// The next code in base 85.
#[cycle(ahead)]
fn group_code(text: &[u8], layers: &[FilterLayer], ahead: &mut Reading, source: usize) -> Found
    requires tower { IsTower layers.now }
    requires stands { source ≤ length layers.now }
    requires room { length layers.now ≤ length ahead.old.standings }
    ensures found { (so_far : ℕ) → Finds kind.Base85 so_far
        (rest text.now (source_of layers.now source) ahead.old) result
        (rest text.now (source_of layers.now source) ahead.new) }
    ensures same { length ahead.new.standings ≡ length ahead.old.standings }
{
    let mut missing = 5;
    let mut value = 0;
    'characters: while missing > 0 {
        let byte = match unpassed(text, layers, ahead, source) {
            Given::End => return without_character(missing, value, Given::End),
            Given::Bad => return without_character(missing, value, Given::Bad),
            Given::Byte(byte) => byte,
        };
        if byte == b'~' {
            return behind_tilde(missing, value, read(text, layers, ahead, source));
        }
        if !is_character(byte) {
            return without_character(missing, value, Given::Byte(byte));
        }
        value = value * 85 + (byte - b'!') as u64;
        missing -= 1;
    }
    group_of(value)
}

/// The next run.
#[cycle(ahead)]
fn run_code(text: &[u8], layers: &[FilterLayer], ahead: &mut Reading, source: usize) -> Found
    requires tower { IsTower layers.now }
    requires stands { source ≤ length layers.now }
    requires room { length layers.now ≤ length ahead.old.standings }
    ensures found { (so_far : ℕ) → Finds kind.RunLength so_far
        (rest text.now (source_of layers.now source) ahead.old) result
        (rest text.now (source_of layers.now source) ahead.new) }
    ensures same { length ahead.new.standings ≡ length ahead.old.standings }
{
    let length = match read(text, layers, ahead, source) {
        Given::End => return Found::whole(Code::EndsWithSource),
        Given::Bad => return Found::whole(Code::Wrong),
        Given::Byte(byte) => byte as usize,
    };
    if length == 128 {
        return Found::whole(Code::Ends { taken: 1 });
    }
    if length < 128 {
        return literal_code(text, layers, ahead, source, length + 1);
    }
    behind_length(256 - length, read(text, layers, ahead, source))
}

/// The bytes of a literal run.
#[cycle(ahead)]
fn literal_code(
    text: &[u8],
    layers: &[FilterLayer],
    ahead: &mut Reading,
    source: usize,
    count: usize,
) -> Found
    requires tower { IsTower layers.now }
    requires stands { source ≤ length layers.now }
    requires room { length layers.now ≤ length ahead.old.standings }
    requires few { count ≤ 128 }
    ensures found { FindsLiteral count (rest text.now (source_of layers.now source) ahead.old)
        result (rest text.now (source_of layers.now source) ahead.new) }
    ensures same { length ahead.new.standings ≡ length ahead.old.standings }
{
    let mut bytes = CodeBytes::none();
    'bytes: while bytes.len() < count {
        match read(text, layers, ahead, source) {
            Given::Byte(byte) => bytes.push(byte),
            Given::End => return literal_found(bytes, true),
            Given::Bad => return Found::whole(Code::Wrong),
        }
    }
    literal_found(bytes, false)
}
