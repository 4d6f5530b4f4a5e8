//! What texts spell.
ghost use Rattle.std.specs.Prelude.{◌≤◌, length};

use crate::{Scan, Token, next};
use std::alloc::Global;
use std::test::Fail;

fn push_bytes(out: &mut String, bytes: &[u8]) -> Result<(), Fail> {
    for byte in bytes {
        out.push(char::from(*byte))?;
    }
    Ok(())
}

/// Integers in decimal, reals by their count and `r`, and names and strings as they are written.
fn push_token(out: &mut String, token: Token) -> Result<(), Fail> {
    match token {
        Token::Integer(value) => write!(out, "{value}")?,
        Token::Real(real) => write!(out, "{}r", real.count)?,
        Token::Literal(name) => {
            out.push('/')?;
            push_bytes(out, name.as_slice())?;
        }
        Token::Now(name) => {
            out.push_str("//")?;
            push_bytes(out, name.as_slice())?;
        }
        Token::Exec(name) => push_bytes(out, name.as_slice())?,
        Token::Str(text) => {
            out.push('(')?;
            push_bytes(out, text.as_slice())?;
            out.push(')')?;
        }
        Token::BodyBegin => out.push('{')?,
        Token::BodyEnd => out.push('}')?,
    }
    Ok(())
}

/// Each token or error of a text with the place after it.
fn spelled(alloc: Global, text: &[u8]) -> Result<String, Fail> {
    let mut out = String::new(alloc);
    let mut pos = 0;
    'tokens: for _ in 0..text.len() + 1 {
        match next(alloc, text, pos)? {
            Scan::End => return Ok(out),
            Scan::Bad { error, next } => {
                write!(out, "{error:?}:{next} ")?;
                pos = next;
            }
            Scan::Token { token, next } => {
                push_token(&mut out, token)?;
                write!(out, ":{next} ")?;
                pos = next;
            }
        }
    }
    Ok(out)
}

#[test]
fn texts_are_spelled(rt: HostRuntime) -> Result<(), Fail> {
    let cases: [(&[u8], &str); 36] = [
        (b"", ""),
        (b"\x00\t\n\x0c\r ", ""),
        (b"1 2 add", "1:2 2:4 add:7 "),
        (b"a\r\nb", "a:3 b:4 "),
        (b"a\n\rb", "a:2 b:4 "),
        (b"+7 -7 007", "7:3 -7:6 7:9 "),
        (b"2147483647 -2147483648", "2147483647:11 -2147483648:22 "),
        (b"2147483648", "36028797018963968r:10 "),
        (b"1e400 1", "LimitCheck:6 1:7 "),
        (b"99999999999999999999", "LimitCheck:20 "),
        (b"1. .5 -.5e-3", "16777216r:3 8388608r:6 -8389r:12 "),
        (b"+5E+3 1e-400", "83886080000r:6 0r:12 "),
        (b"2#101 36#Zz 16#FFFFFFFF", "5:6 1295:12 -1:23 "),
        (b"8#400000000000", "LimitCheck:14 "),
        (
            b"1#0 37#1 100#1 2#2 16# #1",
            "1#0:4 37#1:9 100#1:15 2#2:19 16#:23 #1:25 ",
        ),
        (
            b"--1 1.2.3 1e e1 . -",
            "--1:4 1.2.3:10 1e:13 e1:16 .:18 -:19 ",
        ),
        (b"1}2)", "1:1 }:2 2:3 SyntaxError:4 "),
        (b"%c (\nx%y\x0cz", "x:6 z:10 "),
        (b"/x //y / z/w", "/x:3 //y:7 /:9 z:10 /w:12 "),
        (b"///a", "//:2 /a:4 "),
        (b"{a}", "{:1 a:2 }:3 "),
        (b"[ 1]", "[:1 1:3 ]:4 "),
        (b"<<>> >", "<<:2 >>:4 SyntaxError:6 "),
        (b"(a(b)c)d", "(a(b)c):7 d:8 "),
        (b"(\\n\\r\\t\\b\\f)", "(\n\r\t\x08\x0c):12 "),
        (b"(\\\\\\(\\)\\q)", "(\\()q):10 "),
        (b"(\\101\\1234\\7\\400x)", "(AS4\x07\x00x):18 "),
        (b"(a\r\nb\rc\nd)", "(a\nb\nc\nd):10 "),
        (b"(a\\\r\nb\\\nc\\\rd)", "(abcd):13 "),
        (b"(a", "SyntaxError:2 "),
        (b"(a(b)", "SyntaxError:5 "),
        (b"(a\\", "SyntaxError:3 "),
        (b"<41 4 2\n5>", "(ABP):10 "),
        (b"<4>", "(@):3 "),
        (b"<41", "SyntaxError:3 "),
        (b"<4g1>", "SyntaxError:3 1:4 SyntaxError:5 "),
    ];
    for (text, expected) in cases {
        let found = spelled(rt.alloc(), text)?;
        assert_eq!(rt; found.as_str(), expected);
    }
    Ok(())
}

/// A string of this length in parentheses, and whether it is closed.
fn long_string(alloc: Global, length: usize, closed: bool) -> Result<Vec<u8>, Fail> {
    let mut text = Vec::new(alloc);
    text.push(b'(')?;
    for _ in 0..length {
        text.push(b'a')?;
    }
    if closed {
        text.push(b')')?;
    }
    Ok(text)
}

#[test]
fn long_strings_have_a_limit(rt: HostRuntime) -> Result<(), Fail> {
    let most = long_string(rt.alloc(), 65_535, true)?;
    let fits = matches!(
        next(rt.alloc(), &most, 0)?,
        Scan::Token {
            token: Token::Str(_),
            next: 65_537
        }
    );
    assert!(rt; fits);
    let longer = long_string(rt.alloc(), 65_536, true)?;
    let cut = long_string(rt.alloc(), 65_536, false)?;
    let cases = [
        (longer.as_slice(), "LimitCheck:65538 "),
        (cut.as_slice(), "SyntaxError:65537 "),
    ];
    for (text, expected) in cases {
        let found = spelled(rt.alloc(), text)?;
        assert_eq!(rt; found.as_str(), expected);
    }
    Ok(())
}
