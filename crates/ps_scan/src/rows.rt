//! Numbers and names.
ghost use Rattle.std.specs.Prelude.{◌≡◌, ◌+◌, ◌<◌, ◌≤◌, ◌^◌, length, IfOk};
ghost use Rattle.ps_scan.specs.Numbers.{real_value};
ghost use Rattle.ps_scan.specs.Token.{scan_of, real_token, row_token, named, name_token, after_row, row_at, name_at, slash_at};

use crate::characters::{closing_length, split_row};
use crate::numbers::{integer_value, is_decimal, is_integer, is_radix, radix_value};
use crate::reals::real_value;
use crate::tokens::{Scan, Token};
use ps_objects::{ErrorName, NAME_LIMIT, Name, NoMemory};
use std::alloc::Global;

/// How a name is written: alone, behind `/`, or behind `//`.
#[derive(Clone, Copy)]
pub(crate) enum NameKind {
    Plain,
    Literal,
    Immediate,
}

fn named(kind: NameKind, name: Name) -> Token
    ensures { result ≡ named kind name }
{
    match kind {
        NameKind::Plain => Token::Exec(name),
        NameKind::Literal => Token::Literal(name),
        NameKind::Immediate => Token::Now(name),
    }
}

fn name_scan(alloc: Global, kind: NameKind, row: &[u8], next: u64) -> Result<Scan, NoMemory>
    ensures { IfOk result (λ scan. scan ≡ scan_of (name_token kind row.now) next) }
{
    if row.len() > NAME_LIMIT {
        let error = ErrorName::LimitCheck;
        return Ok(Scan::Bad { error, next });
    }
    let token = named(kind, Name::from_bytes(alloc, row)?);
    Ok(Scan::Token { token, next })
}

fn real_scan(row: &[u8], next: u64) -> Scan
    ensures { result ≡ scan_of (real_token (real_value row.now)) next }
{
    match real_value(row) {
        Ok(real) => Scan::Token {
            token: Token::Real(real),
            next,
        },
        Err(_) => Scan::Bad {
            error: ErrorName::LimitCheck,
            next,
        },
    }
}

/// The number or the name that a row is, and the place after it.
#[tactic(auto, unfolding(crate::specs::Token::row_token))]
fn row_scan(alloc: Global, row: &[u8], next: u64) -> Result<Scan, NoMemory>
    requires { length row.now < 2 ^ 63 }
    ensures { IfOk result (λ scan. scan ≡ scan_of (row_token row.now) next) }
{
    if is_integer(row) {
        return Ok(match integer_value(row) {
            Some(value) => Scan::Token {
                token: Token::Integer(value),
                next,
            },
            None => real_scan(row, next),
        });
    }
    if is_decimal(row) {
        return Ok(real_scan(row, next));
    }
    if is_radix(row) {
        return Ok(match radix_value(row) {
            Some(value) => Scan::Token {
                token: Token::Integer(value),
                next,
            },
            None => Scan::Bad {
                error: ErrorName::LimitCheck,
                next,
            },
        });
    }
    name_scan(alloc, NameKind::Plain, row, next)
}

/// The number or the name at the front of a text that begins at the place.
#[tactic(auto, unfolding(crate::specs::Token::row_at, crate::specs::Token::after_row))]
pub(crate) fn row_at(alloc: Global, place: u64, text: &[u8]) -> Result<Scan, NoMemory>
    requires { place + length text.now < 2 ^ 63 }
    ensures { IfOk result (λ scan. scan ≡ row_at place text.now) }
{
    let (row, after) = split_row(text);
    let next = place + row.len() as u64 + closing_length(after) as u64;
    row_scan(alloc, row, next)
}

/// A literal or an immediate name, of which the slashes are read.
#[tactic(auto, unfolding(crate::specs::Token::name_at, crate::specs::Token::after_row))]
fn name_at(alloc: Global, kind: NameKind, place: u64, text: &[u8]) -> Result<Scan, NoMemory>
    requires { place + length text.now < 2 ^ 63 }
    ensures { IfOk result (λ scan. scan ≡ name_at kind place text.now) }
{
    let (row, after) = split_row(text);
    let next = place + row.len() as u64 + closing_length(after) as u64;
    name_scan(alloc, kind, row, next)
}

/// What a slash begins, at the bytes behind it.
#[tactic(auto, unfolding(crate::specs::Token::slash_at))]
pub(crate) fn slash_at(alloc: Global, place: u64, text: &[u8]) -> Result<Scan, NoMemory>
    requires { place + length text.now < 2 ^ 63 }
    ensures { IfOk result (λ scan. scan ≡ slash_at place text.now) }
{
    match text.split_first() {
        Some((b'/', rest)) => name_at(alloc, NameKind::Immediate, place + 1, rest),
        _ => name_at(alloc, NameKind::Literal, place, text),
    }
}
