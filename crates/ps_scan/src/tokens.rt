//! Tokens.
ghost use Rattle.std.specs.Prelude.{◌≡◌, ◌+◌, ◌<◌, ◌≤◌, ◌^◌, ℤ, pos, neg_ℤ, ◌≤ℤ◌, ◌<ℤ◌, List, ◌∷◌, ◌++◌, ℕ, length, drop, IfOk, true};
ghost use Rattle.std.specs.Fmt.{signed_decimal};
ghost use Rattle.ps_scan.specs.Characters.{is_white, closing};
ghost use Rattle.ps_scan.specs.Token.{MovesOn, token_from, token_at};

use crate::characters::{blank_length, is_delimiter};
use crate::rows::row_at;
use crate::specials::special_at;
use ps_objects::{ErrorName, Name, NoMemory, Real, Text};
use std::alloc::Global;

/// A token of the language (section 3.2 of the language manual).
#[derive(Drop)]
pub enum Token {
    Integer(i32),
    Real(Real),
    /// A name behind `/`.
    Literal(Name),
    /// An executable name.
    Exec(Name),
    /// A name behind `//`.
    Now(Name),
    /// A string, in parentheses or hexadecimal.
    Str(Text),
    /// `{`
    BodyBegin,
    /// `}`
    BodyEnd,
}

/// What stands at a place of a text, and the place after it.
#[derive(Drop)]
pub enum Scan {
    Token { token: Token, next: u64 },
    /// The text ends.
    End,
    Bad { error: ErrorName, next: u64 },
}

/// The token at the front of a text that begins at the place.
#[tactic(auto, unfolding(crate::specs::Token::token_from))]
fn token_from(alloc: Global, place: u64, text: &[u8]) -> Result<Scan, NoMemory>
    requires { place + length text.now < 2 ^ 63 }
    ensures { IfOk result (λ scan. scan ≡ token_from place text.now) }
{
    let Some((first, rest)) = text.split_first() else {
        return Ok(Scan::End);
    };
    if is_delimiter(*first) {
        special_at(alloc, place + 1, *first, rest)
    } else {
        row_at(alloc, place, text)
    }
}

#[tactic(auto, unfolding(crate::specs::Token::token_at))]
fn token_at(alloc: Global, text: &[u8], place: usize) -> Result<Scan, NoMemory>
    requires { place ≤ length text.now }
    ensures { IfOk result (λ scan. scan ≡ token_at text.now place) }
{
    let (_, rest) = text.split_at(place);
    let (blanks, front) = rest.split_at(blank_length(rest));
    token_from(alloc, (place + blanks.len()) as u64, front)
}

/// Reads the token that stands behind the white space and comments at a place.
pub fn next(alloc: Global, text: &[u8], pos: u64) -> Result<Scan, NoMemory>
    requires { pos ≤ length text.now }
    ensures token { IfOk result (λ scan. scan ≡ token_at text.now pos) }
    ensures moves { IfOk result (λ scan. MovesOn pos (length text.now) scan) }
{
    token_at(alloc, text, pos as usize)
}

/// A printed integer followed by white space is scanned back, and the white space that ends it is taken.
pub fn printed_integers_scan()
    ensures { (z : ℤ) (white place : ℕ) (text rest : List ℕ) →
        neg_ℤ (pos (2 ^ 31)) ≤ℤ z → z <ℤ pos (2 ^ 31) → is_white white ≡ true →
        drop place text ≡ signed_decimal z ++ (white ∷ rest) →
        token_at text place ≡ Scan.Token (Token.Integer z)
        (place + length (signed_decimal z) + closing (white ∷ rest)) }
{}
