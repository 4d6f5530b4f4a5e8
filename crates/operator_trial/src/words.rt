//! The words of a row: objects, operators and errors.

use crate::trial::local_cell;
use ps_kinds::{Access, ErrorName, Interval, Kind, NoMemory, Object, Op, op_name, places};
use ps_operator::literal;
use ps_scan::{Scan, Token, next};
use std::alloc::Global;

/// What the version string holds.
const VERSION: &str = "page-rip";

/// The part of the version string that has these bytes.
fn part(bytes: &[u8]) -> Option<Kind> {
    let version = VERSION.as_bytes();
    let len = bytes.len();
    if len > version.len() {
        return None;
    }
    for start in 0..version.len() - len + 1 {
        if &version[start..start + len] == bytes {
            return Some(Kind::Str(Interval {
                cell: local_cell(8),
                start: start as u32,
                len: len as u32,
            }));
        }
    }
    None
}

/// An object that has a name in the rows; `secret` is a string that can't be read.
fn named(word: &str) -> Option<Object> {
    match word {
        "true" => Some(literal(Kind::Boolean(true))),
        "false" => Some(literal(Kind::Boolean(false))),
        "null" => Some(literal(Kind::Null)),
        "mark" => Some(literal(Kind::Mark)),
        "userdict" => Some(literal(Kind::Dict(local_cell(2)))),
        "errordict" => Some(literal(Kind::Dict(local_cell(3)))),
        "secret" => Some(Object {
            kind: part(VERSION.as_bytes())?,
            exec: false,
            access: Access::NoAccess,
        }),
        _ => None,
    }
}

/// The object of a word that was scanned.
fn object_in(token: Token, word: &str) -> Option<Object> {
    match token {
        Token::Integer(n) => Some(literal(Kind::Integer(n))),
        Token::Real(real) => Some(literal(Kind::Real(real))),
        Token::Literal(name) => Some(literal(Kind::Name(name))),
        Token::Str(text) => match part(text.as_slice()) {
            Some(kind) => Some(literal(kind)),
            None => None,
        },
        _ => named(word),
    }
}

/// The object that a word spells: a number, a literal name, a part of the version string, or a named one.
pub(crate) fn object_of(alloc: Global, word: &str) -> Result<Option<Object>, NoMemory> {
    match next(alloc, word.as_bytes(), 0)? {
        Scan::Token { token, .. } => Ok(object_in(token, word)),
        _ => Ok(None),
    }
}

/// The operator of a name.
pub(crate) fn operator_of(word: &str) -> Option<Op> {
    for place in 0..places::OPERATOR_COUNT {
        let op = Op::at(place);
        if op_name(op) == word.as_bytes() {
            return Some(op);
        }
    }
    None
}

/// The error of a name.
pub(crate) fn error_of(word: &str) -> Option<ErrorName> {
    match word {
        "stackunderflow" => Some(ErrorName::StackUnderflow),
        "typecheck" => Some(ErrorName::TypeCheck),
        "rangecheck" => Some(ErrorName::RangeCheck),
        "stackoverflow" => Some(ErrorName::StackOverflow),
        "undefinedresult" => Some(ErrorName::UndefinedResult),
        "unmatchedmark" => Some(ErrorName::UnmatchedMark),
        "invalidaccess" => Some(ErrorName::InvalidAccess),
        _ => None,
    }
}
