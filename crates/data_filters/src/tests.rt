//! What layers over texts give, and where the text stands then.
ghost use Rattle.std.specs.Prelude.{◌≡◌, ◌≤◌, length, IfOk};

use crate::{FilterKind, Given, Tower, add, close, filters_law, has_ended, next};
use copy_lists::{NoMemory, Text};
use std::alloc::Global;
use std::process::Abort;
use std::test::Fail;

/// A filter, as it is named here.
#[derive(Clone, Copy)]
enum Named {
    Hex,
    Base85,
    Run,
    Count(u32),
    Mark(&'static [u8]),
}

/// Filters over a text, each over the one before it, and what calls on the last one give: each byte in hexadecimal,
/// or `end` or `bad`, with the place of the text's next byte after it.
struct Case {
    layers: &'static [Named],
    text: &'static [u8],
    given: &'static str,
}

const CASES: [Case; 48] = [
    // hexadecimal digits
    Case {
        layers: &[Named::Hex],
        text: b"414243> = =",
        given: "41@2 42@4 43@7 end@7",
    },
    Case {
        layers: &[Named::Hex],
        text: b" 4 1\n42\t5>",
        given: "41@4 42@7 50@10 end@10",
    },
    Case {
        layers: &[Named::Hex],
        text: b"aBcDeF0> ",
        given: "ab@2 cd@4 ef@6 00@8 end@8",
    },
    Case {
        layers: &[Named::Hex],
        text: b"1234",
        given: "12@2 34@4 end@4",
    },
    Case {
        layers: &[Named::Hex],
        text: b"12 3 ",
        given: "12@2 30@5 end@5",
    },
    Case {
        layers: &[Named::Hex],
        text: b" >",
        given: "end@2",
    },
    Case {
        layers: &[Named::Hex],
        text: b" \n",
        given: "end@2",
    },
    Case {
        layers: &[Named::Hex],
        text: b"12\x0b34>",
        given: "12@2 bad@2 bad@2",
    },
    Case {
        layers: &[Named::Hex],
        text: b"1g>",
        given: "bad@0 bad@0",
    },
    Case {
        layers: &[Named::Hex],
        text: b"1<23>",
        given: "bad@0",
    },
    // base 85
    Case {
        layers: &[Named::Base85],
        text: b"9jqo^~> = =",
        given: "4d@5 61@5 6e@5 20@7 end@7",
    },
    Case {
        layers: &[Named::Base85],
        text: b" 9jq\no^ @/ ~>",
        given: "4d@7 61@7 6e@7 20@7 61@13 end@13",
    },
    Case {
        layers: &[Named::Base85],
        text: b"@:B~>x",
        given: "61@3 62@5 end@5",
    },
    Case {
        layers: &[Named::Base85],
        text: b"@:E^ ~>x",
        given: "61@4 62@4 63@7 end@7",
    },
    Case {
        layers: &[Named::Base85],
        text: b"@:E^",
        given: "61@4 62@4 63@4 end@4",
    },
    Case {
        layers: &[Named::Base85],
        text: b"z@:E_Wz",
        given: "00@1 00@1 00@1 00@1 61@6 62@6 63@6 64@6 00@7 00@7 00@7 00@7 end@7",
    },
    Case {
        layers: &[Named::Base85],
        text: b"s8W-!~>",
        given: "ff@5 ff@5 ff@5 ff@7 end@7",
    },
    Case {
        layers: &[Named::Base85],
        text: b"s8W-\"~>",
        given: "bad@0",
    },
    Case {
        layers: &[Named::Base85],
        text: b"s8W.~>",
        given: "bad@0",
    },
    Case {
        layers: &[Named::Base85],
        text: b"@~>",
        given: "bad@0",
    },
    Case {
        layers: &[Named::Base85],
        text: b"@z~>",
        given: "bad@0",
    },
    Case {
        layers: &[Named::Base85],
        text: b"z~ >",
        given: "00@1 00@1 00@1 00@1 bad@1",
    },
    Case {
        layers: &[Named::Base85],
        text: b"z~",
        given: "00@1 00@1 00@1 00@1 bad@1 bad@1",
    },
    Case {
        layers: &[Named::Base85],
        text: b"@:v~>",
        given: "bad@0",
    },
    Case {
        layers: &[Named::Base85],
        text: b"~>~>",
        given: "end@2 end@2",
    },
    // run lengths
    Case {
        layers: &[Named::Run],
        text: b"\xfeA\x01BC\x80 = =",
        given: "41@2 41@2 41@2 42@5 43@6 end@6",
    },
    Case {
        layers: &[Named::Run],
        text: b"\x00A\xffB",
        given: "41@2 42@4 42@4 end@4",
    },
    Case {
        layers: &[Named::Run],
        text: b"\x03AB",
        given: "41@3 42@3 end@3",
    },
    Case {
        layers: &[Named::Run],
        text: b"\x00A\x05",
        given: "41@3 end@3",
    },
    Case {
        layers: &[Named::Run],
        text: b"\x00A\xf0",
        given: "41@3 end@3",
    },
    Case {
        layers: &[Named::Run],
        text: b"\x00 \x00\x80\x80",
        given: "20@2 80@5 end@5",
    },
    Case {
        layers: &[Named::Run],
        text: b"",
        given: "end@0",
    },
    // parts
    Case {
        layers: &[Named::Count(3)],
        text: b"abcdef",
        given: "61@1 62@2 63@3 end@3",
    },
    Case {
        layers: &[Named::Count(3)],
        text: b"ab",
        given: "61@1 62@2 end@2",
    },
    Case {
        layers: &[Named::Count(0)],
        text: b"ab",
        given: "61@1 62@2 end@2",
    },
    Case {
        layers: &[Named::Mark(b"END")],
        text: b"aENEND END",
        given: "61@1 45@2 4e@6 end@6",
    },
    Case {
        layers: &[Named::Mark(b"abc")],
        text: b"xab",
        given: "78@1 61@2 62@3 end@3",
    },
    Case {
        layers: &[Named::Mark(b"a")],
        text: b"ab",
        given: "end@1",
    },
    // layers over layers
    Case {
        layers: &[Named::Hex, Named::Run],
        text: b"FE4101424380> = length =",
        given: "41@4 41@4 41@4 42@10 43@13 end@13",
    },
    Case {
        layers: &[Named::Hex, Named::Run],
        text: b"01 41 4g",
        given: "bad@0 bad@0",
    },
    Case {
        layers: &[Named::Hex, Named::Run],
        text: b"0041 4g",
        given: "41@4 bad@4",
    },
    Case {
        layers: &[Named::Hex, Named::Count(2)],
        text: b"41 42 43>",
        given: "41@2 42@5 end@5",
    },
    Case {
        layers: &[Named::Hex, Named::Hex],
        text: b"20 34 20 31 20 3e >",
        given: "41@19 end@19",
    },
    Case {
        layers: &[Named::Hex, Named::Hex],
        text: b"34 31 20 0a >",
        given: "41@13 end@13",
    },
    Case {
        layers: &[Named::Hex, Named::Base85],
        text: b"39 6a 71 6f 5e 40 2f 20 7e 3e 21",
        given: "4d@14 61@14 6e@14 20@14 61@29 end@29",
    },
    Case {
        layers: &[Named::Hex, Named::Run],
        text: b">",
        given: "end@0",
    },
    Case {
        layers: &[Named::Count(7), Named::Hex, Named::Run],
        text: b"FE41 0042 43",
        given: "41@4 41@4 41@7 end@7",
    },
    Case {
        layers: &[Named::Hex, Named::Count(1), Named::Count(2)],
        text: b"41 42",
        given: "41@2 end@2",
    },
];

/// Adds a filter over a layer.
fn add_named(
    rt: &impl Abort,
    alloc: Global,
    tower: &mut Tower,
    below: u32,
    named: Named,
) -> Result<u32, NoMemory> {
    assert!(rt; below as usize <= tower.layers.len());
    match named {
        Named::Hex => add(tower, below, FilterKind::Hex),
        Named::Base85 => add(tower, below, FilterKind::Base85),
        Named::Run => add(tower, below, FilterKind::RunLength),
        Named::Count(count) => {
            let mark = Text::new(alloc);
            add(tower, below, FilterKind::SubFile { count, mark })
        }
        Named::Mark(mark) => {
            assert!(rt; below == 0);
            let mark = Text::from_bytes(alloc, mark)?;
            add(tower, 0, FilterKind::SubFile { count: 0, mark })
        }
    }
}

/// What a call on a layer gives, with the place after it.
fn push_given(
    rt: &impl Abort,
    out: &mut String,
    tower: &mut Tower,
    layer: u32,
    text: &[u8],
    place: &mut u64,
) -> Result<(), Fail> {
    assert!(rt; layer as usize <= tower.layers.len());
    if !out.is_empty() {
        out.push(' ')?;
    }
    match next(tower, layer, text, place) {
        Given::Byte(byte) => write!(out, "{byte:02x}@{place}")?,
        Given::End => write!(out, "end@{place}")?,
        Given::Bad => write!(out, "bad@{place}")?,
    }
    Ok(())
}

/// What so many calls on the last of a case's layers give.
fn given_by(rt: &impl Abort, alloc: Global, case: &Case, calls: usize) -> Result<String, Fail> {
    let mut tower = Tower::new(alloc);
    let mut layer = 0;
    for named in case.layers {
        layer = add_named(rt, alloc, &mut tower, layer, *named)?;
    }
    let mut out = String::new(alloc);
    let mut place = 0;
    for _ in 0..calls {
        push_given(rt, &mut out, &mut tower, layer, case.text, &mut place)?;
    }
    Ok(out)
}

#[test]
fn layers_give(rt: HostRuntime) -> Result<(), Fail> {
    filters_law();
    for case in &CASES {
        let calls = case.given.split(' ').count();
        let given = given_by(&rt, rt.alloc(), case, calls)?;
        let text = case.text;
        assert_eq!(rt; given.as_str(), case.given, "{text:?}");
    }
    Ok(())
}

/// The bytes of a filter over a text, up to its end.
fn filtered(rt: &impl Abort, alloc: Global, named: Named, text: &[u8]) -> Result<Text, Fail> {
    let mut tower = Tower::new(alloc);
    let layer = add_named(rt, alloc, &mut tower, 0, named)?;
    let mut place = 0;
    let mut bytes = Text::new(alloc);
    'bytes: for _ in 0..100_000 {
        assert!(rt; layer as usize <= tower.layers.len());
        match next(&mut tower, layer, text, &mut place) {
            Given::Byte(byte) => bytes.push(byte)?,
            Given::End => return Ok(bytes),
            Given::Bad => return Err("a wrong byte".into()),
        }
    }
    Err("no end".into())
}

const SENTENCE: &[u8] =
    b"Man is distinguished, not only by his reason, but by this singular passion from other animals, which is a lust of the mind, that by a perseverance of delight in the continued and indefatigable generation of knowledge, exceeds the short vehemence of any carnal pleasure.";

const SENTENCE_IN_BASE_85: &[u8] =
    b"9jqo^BlbD-BleB1DJ+*+F(f,q/0JhKF<GL>Cj@.4Gp$d7F!,L7@<6@)/0JDEF<G%<+EV:2F!,\nO<DJ+*.@<*K0@<6L(Df-\\0Ec5e;DffZ(EZee.Bl.9pF\"AGXBPCsi+DGm>@3BB/F*&OCAfu2/AKY\ni(DIb:@FD,*)+C]U=@3BN#EcYf8ATD3s@q?d$AftVqCh[NqF<G:8+EV:.+Cf>-FD5W8ARlolDIa\nl(DId<j@<?3r@:F%a+D58'ATD4$Bl@l3De:,-DJs`8ARoFb/0JMK@qB4^F!,R<AKZ&-DfTqBG%G\n>uD.RTpAKYo'+CT/5+Cei#DII?(E,9)oF*2M7/c~>";

#[test]
fn decodes_a_sentence(rt: HostRuntime) -> Result<(), Fail> {
    let sentence = filtered(&rt, rt.alloc(), Named::Base85, SENTENCE_IN_BASE_85)?;
    assert_eq!(rt; sentence.as_slice(), SENTENCE);
    let mut spelled = String::new(rt.alloc());
    for byte in SENTENCE {
        write!(spelled, "{byte:02X}")?;
    }
    spelled.push('>')?;
    let sentence = filtered(&rt, rt.alloc(), Named::Hex, spelled.as_bytes())?;
    assert_eq!(rt; sentence.as_slice(), SENTENCE);
    Ok(())
}

#[test]
fn decodes_the_longest_runs(rt: HostRuntime) -> Result<(), Fail> {
    let mut text = Vec::from_slice(rt.alloc(), b"\x81x\x7f")?;
    text.extend_from_slice(&SENTENCE[..128])?;
    text.extend_from_slice(b"\x80\x00y")?;
    let bytes = filtered(&rt, rt.alloc(), Named::Run, text.as_slice())?;
    let given = bytes.as_slice();
    assert!(rt; given.len() == 256);
    let (repeated, literal) = given.split_at(128);
    assert!(rt; repeated.iter().all(|byte| *byte == b'x'));
    assert_eq!(rt; literal, &SENTENCE[..128]);
    Ok(())
}

#[test]
fn layers_share_a_source(rt: HostRuntime) -> Result<(), Fail> {
    let mut tower = Tower::new(rt.alloc());
    let hex = add_named(&rt, rt.alloc(), &mut tower, 0, Named::Hex)?;
    let run = add_named(&rt, rt.alloc(), &mut tower, hex, Named::Run)?;
    let part = add_named(&rt, rt.alloc(), &mut tower, hex, Named::Count(2))?;
    assert_eq!(rt; (hex, run, part), (1, 2, 3));
    let text = b"01 41 42 43 44 45 46>47";
    let mut place = 0;
    let mut out = String::new(rt.alloc());
    for layer in [run, part, run, hex, part, 0] {
        push_given(&rt, &mut out, &mut tower, layer, text, &mut place)?;
    }
    assert_eq!(rt; out.as_str(), "41@8 43@11 42@11 44@14 45@17 20@18");
    assert!(rt; tower.layers.len() == 3);
    assert!(rt; !has_ended(&tower, 1) && !has_ended(&tower, 2) && has_ended(&tower, 3));
    close(&mut tower, 1);
    assert!(rt; has_ended(&tower, 1));
    let mut out = String::new(rt.alloc());
    for layer in [hex, run, part] {
        push_given(&rt, &mut out, &mut tower, layer, text, &mut place)?;
    }
    assert_eq!(rt; out.as_str(), "end@18 end@18 end@18");
    Ok(())
}
