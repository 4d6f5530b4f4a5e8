//! Strings, brackets and braces.
ghost use Rattle.std.specs.Prelude.{◌≡◌, ◌+◌, ◌<◌, ◌≤◌, ◌^◌, ◌∷◌, [], List, ℕ, length, IfOk};
ghost use Rattle.ps_scan.specs.Limited.{Keeps};
ghost use Rattle.ps_scan.specs.Strings.{hex_bytes};
ghost use Rattle.ps_scan.specs.Token.{scan_of, string_token, string_at, hex_at, less_at, greater_at, bracket, special_at};

use crate::rows::slash_at;
use crate::strings::{Limited, STRING_LIMIT, hex_bytes, hex_length, string_body};
use crate::tokens::{Scan, Token};
use ps_objects::{ErrorName, NAME_LIMIT, Name, NoMemory};
use std::alloc::Global;

fn bad(error: ErrorName, next: u64) -> Scan
    ensures { result ≡ scan_of (Err error) next }
{
    Scan::Bad { error, next }
}

/// A string token, or a limitcheck where it is too long.
fn string_scan(limited: Limited, next: u64) -> Scan
    ensures { (bytes : List ℕ) → Keeps limited bytes → result ≡ scan_of (string_token bytes) next }
{
    if limited.length > STRING_LIMIT {
        return bad(ErrorName::LimitCheck, next);
    }
    let token = Token::Str(limited.text);
    Scan::Token { token, next }
}

/// What a parenthesis begins, at the bytes behind it.
#[tactic(auto, unfolding(crate::specs::Token::string_at))]
fn string_at(alloc: Global, place: u64, text: &[u8]) -> Result<Scan, NoMemory>
    requires { place + length text.now < 2 ^ 63 }
    ensures { IfOk result (λ scan. scan ≡ string_at place text.now) }
{
    match string_body(alloc, text)? {
        Some(body) => Ok(string_scan(body.limited, place + body.taken as u64)),
        None => Ok(bad(ErrorName::SyntaxError, place + text.len() as u64)),
    }
}

/// What `<` and bytes other than `<` begin.
#[tactic(auto, unfolding(crate::specs::Token::hex_at))]
fn hex_at(alloc: Global, place: u64, text: &[u8]) -> Result<Scan, NoMemory>
    requires { place + length text.now < 2 ^ 63 }
    ensures { IfOk result (λ scan. scan ≡ hex_at place text.now) }
{
    let (digits, rest) = text.split_at(hex_length(text));
    let end = place + digits.len() as u64;
    let Some((first, _)) = rest.split_first() else {
        return Ok(bad(ErrorName::SyntaxError, end));
    };
    if *first == b'>' {
        Ok(string_scan(hex_bytes(alloc, digits)?, end + 1))
    } else {
        Ok(bad(ErrorName::SyntaxError, end + 1))
    }
}

fn name(alloc: Global, bytes: &[u8], next: u64) -> Result<Scan, NoMemory>
    requires { length bytes.now ≤ NAME_LIMIT }
    ensures { IfOk result (λ scan. scan ≡ scan_of (Ok (Token.Exec bytes.now)) next) }
{
    let token = Token::Exec(Name::from_bytes(alloc, bytes)?);
    Ok(Scan::Token { token, next })
}

/// What `<` begins, at the bytes behind it.
#[tactic(auto, unfolding(crate::specs::Token::less_at))]
fn less_at(alloc: Global, place: u64, text: &[u8]) -> Result<Scan, NoMemory>
    requires { place + length text.now < 2 ^ 63 }
    ensures { IfOk result (λ scan. scan ≡ less_at place text.now) }
{
    match text.split_first() {
        Some((b'<', _)) => name(alloc, &[b'<', b'<'], place + 1),
        _ => hex_at(alloc, place, text),
    }
}

/// What `>` begins, at the bytes behind it.
#[tactic(auto, unfolding(crate::specs::Token::greater_at))]
fn greater_at(alloc: Global, place: u64, text: &[u8]) -> Result<Scan, NoMemory>
    requires { place + length text.now < 2 ^ 63 }
    ensures { IfOk result (λ scan. scan ≡ greater_at place text.now) }
{
    match text.split_first() {
        Some((b'>', _)) => name(alloc, &[b'>', b'>'], place + 1),
        _ => Ok(bad(ErrorName::SyntaxError, place)),
    }
}

/// A square bracket, a brace or an unmatched parenthesis.
#[tactic(auto, unfolding(crate::specs::Token::bracket))]
fn bracket(alloc: Global, place: u64, byte: u8) -> Result<Scan, NoMemory>
    ensures { IfOk result (λ scan. scan ≡ bracket place byte) }
{
    let next = place;
    match byte {
        b'[' | b']' => name(alloc, &[byte], next),
        b'{' => Ok(Scan::Token {
            token: Token::BodyBegin,
            next,
        }),
        b'}' => Ok(Scan::Token {
            token: Token::BodyEnd,
            next,
        }),
        _ => Ok(bad(ErrorName::SyntaxError, next)),
    }
}

/// What a special character begins, at the bytes behind it.
#[tactic(auto, unfolding(crate::specs::Token::special_at))]
pub(crate) fn special_at(
    alloc: Global,
    place: u64,
    special: u8,
    text: &[u8],
) -> Result<Scan, NoMemory>
    requires { place + length text.now < 2 ^ 63 }
    ensures { IfOk result (λ scan. scan ≡ special_at place special text.now) }
{
    match special {
        b'/' => slash_at(alloc, place, text),
        b'(' => string_at(alloc, place, text),
        b'<' => less_at(alloc, place, text),
        b'>' => greater_at(alloc, place, text),
        _ => bracket(alloc, place, special),
    }
}
