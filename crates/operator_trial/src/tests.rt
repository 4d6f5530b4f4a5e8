//! What each operator does, and its refusals in their order, from the tables of the language.

use super::*;
use ps_kinds::ErrorName;
use std::alloc::Global;
use std::process::Abort;
use std::test::Fail;

// The operand stack.
const STACK: [(&str, &str); 35] = [
    ("1 2 pop", "1"),
    ("pop", "stackunderflow"),
    ("1 2 exch", "2 1"),
    ("1 exch", "stackunderflow"),
    ("/a dup", "/a /a"),
    ("(page) dup", "(page) (page)"),
    ("dup", "stackunderflow"),
    ("5 /x null count", "5 /x null 3"),
    ("count", "0"),
    ("1 mark 2 clear", ""),
    ("clear", ""),
    ("/a /b /c 0 index", "/a /b /c /c"),
    ("/a /b /c 2 index", "/a /b /c /a"),
    ("index", "stackunderflow"),
    ("/a true index", "typecheck"),
    ("/a -1 index", "rangecheck"),
    ("/a /b 2 index", "stackunderflow"),
    ("/a /b /c 3 1 roll", "/c /a /b"),
    ("/a /b /c 3 -1 roll", "/b /c /a"),
    ("/a /b /c 3 7 roll", "/c /a /b"),
    ("/a /b /c 0 5 roll", "/a /b /c"),
    ("1 roll", "stackunderflow"),
    ("/a true roll", "typecheck"),
    ("true 1 roll", "typecheck"),
    ("-1 1 roll", "rangecheck"),
    ("/a /b 3 1 roll", "stackunderflow"),
    ("1 mark", "1 mark"),
    ("[", "mark"),
    ("<<", "mark"),
    ("1 mark 2 3 cleartomark", "1"),
    ("mark mark 2 cleartomark", "mark"),
    ("1 2 cleartomark", "unmatchedmark"),
    ("mark 2 3 counttomark", "mark 2 3 2"),
    ("mark counttomark", "mark 0"),
    ("counttomark", "unmatchedmark"),
];

// Sums, products and quotients.
const ARITHMETIC: [(&str, &str); 35] = [
    ("3 4 add", "7"),
    ("2147483647 1 add", "2147483648.0"),
    ("9.5 1 add", "10.5"),
    ("549755813887.9 0.5 add", "undefinedresult"),
    ("1 add", "stackunderflow"),
    ("true add", "stackunderflow"),
    ("true 1 add", "typecheck"),
    ("1 true add", "typecheck"),
    ("3 4 sub", "-1"),
    ("-2147483648 1 sub", "-2147483649.0"),
    ("4 1.5 sub", "2.5"),
    ("3 4 mul", "12"),
    ("65536 32768 mul", "2147483648.0"),
    ("-65536 32768 mul", "-2147483648"),
    ("1048576 1048576 mul", "undefinedresult"),
    ("0.1 0.1 mul", "0.01"),
    ("3 2 div", "1.5"),
    ("1 3 div", "0.3333333"),
    ("-1 3 div", "-0.3333333"),
    ("4 2 div", "2.0"),
    ("1 0 div", "undefinedresult"),
    ("1 0.0 div", "undefinedresult"),
    ("7 2 idiv", "3"),
    ("-7 2 idiv", "-3"),
    ("7 -2 idiv", "-3"),
    ("7 0 idiv", "undefinedresult"),
    ("-2147483648 -1 idiv", "undefinedresult"),
    ("7.0 2 idiv", "typecheck"),
    ("7 2.0 idiv", "typecheck"),
    ("7 2 mod", "1"),
    ("-7 2 mod", "-1"),
    ("7 -2 mod", "1"),
    ("-2147483648 -1 mod", "0"),
    ("7 0 mod", "undefinedresult"),
    ("7 true mod", "typecheck"),
];

// Absolute values, negation and rounding.
const ROUNDING: [(&str, &str); 25] = [
    ("-5 abs", "5"),
    ("-2147483648 abs", "2147483648.0"),
    ("-4.5 abs", "4.5"),
    ("-549755813888.0 abs", "undefinedresult"),
    ("5 neg", "-5"),
    ("-2147483648 neg", "2147483648.0"),
    ("4.5 neg", "-4.5"),
    ("-549755813888.0 neg", "undefinedresult"),
    ("3 ceiling", "3"),
    ("3.2 ceiling", "4.0"),
    ("-4.8 ceiling", "-4.0"),
    ("549755813887.5 ceiling", "undefinedresult"),
    ("3 floor", "3"),
    ("3.2 floor", "3.0"),
    ("-4.8 floor", "-5.0"),
    ("3 round", "3"),
    ("3.5 round", "4.0"),
    ("-3.5 round", "-3.0"),
    ("6.4 round", "6.0"),
    ("549755813887.5 round", "undefinedresult"),
    ("3 truncate", "3"),
    ("3.9 truncate", "3.0"),
    ("-4.8 truncate", "-4.0"),
    ("true round", "typecheck"),
    ("abs", "stackunderflow"),
];

// Roots and angles.
const ANGLES: [(&str, &str); 25] = [
    ("4 sqrt", "2.0"),
    ("2 sqrt", "1.41421354"),
    ("0.25 sqrt", "0.5"),
    ("-1 sqrt", "rangecheck"),
    ("null sqrt", "typecheck"),
    ("0 sin", "0.0"),
    ("30 sin", "0.5"),
    ("-30 sin", "-0.5"),
    ("45 sin", "0.70710677"),
    ("450 sin", "1.0"),
    ("60 cos", "0.5"),
    ("180 cos", "-1.0"),
    ("null cos", "typecheck"),
    ("0 1 atan", "0.0"),
    ("1 0 atan", "90.0"),
    ("0 -1 atan", "180.0"),
    ("-1 0 atan", "270.0"),
    ("1 1 atan", "45.0"),
    ("1 -1 atan", "135.0"),
    ("-1 -1 atan", "225.0"),
    ("-1 1 atan", "315.0"),
    ("3 4 atan", "36.8698883"),
    ("0 0 atan", "undefinedresult"),
    ("true atan", "stackunderflow"),
    ("true 1 atan", "typecheck"),
];

// Random numbers, which begin at 1.
const RANDOM: [(&str, &str); 5] = [
    ("rand", "16807"),
    ("7 srand", ""),
    ("null srand", "typecheck"),
    ("srand", "stackunderflow"),
    ("rrand", "1"),
];

// Equality and order.
const COMPARISON: [(&str, &str); 39] = [
    ("4 4.0 eq", "true"),
    ("4 5 eq", "false"),
    ("(page) (page) eq", "true"),
    ("(page) (rip) eq", "false"),
    ("(page) (pag) eq", "false"),
    ("(p) /p eq", "true"),
    ("/p (r) eq", "false"),
    ("/abc /abc eq", "true"),
    ("/abc (page) ne", "true"),
    ("null null eq", "true"),
    ("mark mark eq", "true"),
    ("true false eq", "false"),
    ("true 1 eq", "false"),
    ("userdict userdict eq", "true"),
    ("userdict errordict eq", "false"),
    ("(page) 4 eq", "false"),
    ("secret (page) eq", "invalidaccess"),
    ("(page) secret eq", "invalidaccess"),
    ("secret 4 eq", "false"),
    ("4 eq", "stackunderflow"),
    ("4 5 ne", "true"),
    ("4 4.0 ne", "false"),
    ("4 3.5 gt", "true"),
    ("4 4 gt", "false"),
    ("4 4.0 ge", "true"),
    ("3 4 lt", "true"),
    ("(page) (rip) lt", "true"),
    ("(pag) (page) lt", "true"),
    ("(page) (pag) le", "false"),
    ("(rip) (page) gt", "true"),
    ("(page) (page) ge", "true"),
    ("4 4 le", "true"),
    ("(page) 4 lt", "typecheck"),
    ("4 (page) lt", "typecheck"),
    ("/page (page) lt", "typecheck"),
    ("true false gt", "typecheck"),
    ("(page) secret lt", "invalidaccess"),
    ("secret (page) lt", "invalidaccess"),
    ("1 lt", "stackunderflow"),
];

// Truth values and bits.
const BITS: [(&str, &str); 26] = [
    ("true false and", "false"),
    ("true true and", "true"),
    ("99 1 and", "1"),
    ("52 7 and", "4"),
    ("true false or", "true"),
    ("17 5 or", "21"),
    ("true true xor", "false"),
    ("7 3 xor", "4"),
    ("12 -1 xor", "-13"),
    ("true 1 and", "typecheck"),
    ("1 true or", "typecheck"),
    ("1.0 1 xor", "typecheck"),
    ("true not", "false"),
    ("52 not", "-53"),
    ("1.0 not", "typecheck"),
    ("not", "stackunderflow"),
    ("7 3 bitshift", "56"),
    ("142 -3 bitshift", "17"),
    ("1 31 bitshift", "-2147483648"),
    ("1 32 bitshift", "0"),
    ("-1 -1 bitshift", "2147483647"),
    ("-1 -32 bitshift", "0"),
    ("3 -2147483648 bitshift", "0"),
    ("1.0 1 bitshift", "typecheck"),
    ("1 1.0 bitshift", "typecheck"),
    ("1 bitshift", "stackunderflow"),
];

fn try_rows(rt: &impl Abort, alloc: Global, rows: &[(&str, &str)]) -> Result<(), Fail> {
    for (row, outcome) in rows {
        let came = attempt(alloc, row)?;
        let wanted = outcome_of(alloc, outcome)?;
        assert!(rt; came != Outcome::Other, "{row} can't be read");
        assert!(rt; came == wanted, "{row} gives something else than {outcome}");
    }
    Ok(())
}

#[test]
fn operators_of_stack_arith(rt: HostRuntime) -> Result<(), Fail> {
    try_rows(&rt, rt.alloc(), &STACK)?;
    try_rows(&rt, rt.alloc(), &ARITHMETIC)?;
    try_rows(&rt, rt.alloc(), &ROUNDING)?;
    try_rows(&rt, rt.alloc(), &ANGLES)?;
    try_rows(&rt, rt.alloc(), &RANDOM)?;
    try_rows(&rt, rt.alloc(), &COMPARISON)?;
    try_rows(&rt, rt.alloc(), &BITS)?;
    Ok(())
}

/// The stack at its limit: an operator that would leave one more operand is refused, and one that wouldn't isn't.
#[test]
fn full_stack(rt: HostRuntime) -> Result<(), Fail> {
    for (word, wanted) in [
        ("dup", Some(ErrorName::StackOverflow)),
        ("count", Some(ErrorName::StackOverflow)),
        ("mark", Some(ErrorName::StackOverflow)),
        ("rand", Some(ErrorName::StackOverflow)),
        ("rrand", Some(ErrorName::StackOverflow)),
        ("counttomark", Some(ErrorName::UnmatchedMark)),
        ("index", None),
        ("add", None),
    ] {
        let came = attempt_full(rt.alloc(), word)?;
        match wanted {
            Some(error) => assert!(rt; came == Outcome::Failed(error), "{word}"),
            None => assert!(rt; matches!(came, Outcome::Left(_)), "{word}"),
        }
    }
    Ok(())
}
