ghost use Rattle.std.specs.Prelude.{◌≡◌, [], ◌∷◌, OnOk, OnErr};
ghost use Rattle.out_writers.specs.Showing.{Shows, ShowsFront};
ghost use Rattle.rip_ports.specs.Ports.{Appends};

use crate::{Kept, OutRefusal, Outlet, ToSinks, header, report};
use ps_kinds::{NoMemory, Paper};
use ps_shapes::Span;
use rip_ports::{MemSink, Sink};
use std::alloc::Global;

const REPORT: &[u8] =
    b"%%[ Error: undefined; OffendingCommand: foo ]%%\n%%[ Flushing: rest of job (to end-of-file) will be ignored ]%%\n";

/// Eight rows of eight pixels, of which four times four in the middle are black.
fn square(alloc: Global) -> Result<Paper, NoMemory> {
    let mut paper = Paper::blank(alloc, 8, 8)?;
    for row in 2..6 {
        if paper.height() == 8 && paper.width() == 8 {
            paper.fill(
                Span {
                    row,
                    first: 2,
                    past: 6,
                },
                true,
            );
        }
    }
    Ok(paper)
}

/// Shows a paper to any outlet, of which nothing is known but the trait's clauses.
fn give<O: Outlet>(out: &mut O, paper: &Paper) -> Result<(), OutRefusal>
    ensures shown { OnOk result (O.since out.new out.old (paper.now ∷ []) []) }
    ensures cut { OnErr result (O.cut out.new out.old (paper.now ∷ []) []) }
{
    out.show(paper)
}

/// What comes of it on two sinks.
fn give_to_sinks<P: Sink, B: Sink>(
    alloc: Global,
    paper: &Paper,
    pages: &mut P,
    back: &mut B,
) -> Result<(), OutRefusal>
    ensures pages { OnOk result (Shows paper.now (P.holds pages.old) (P.holds pages.new)) }
    ensures back { OnOk result (Appends [] (B.holds back.old) (B.holds back.new)) }
    ensures cut { OnErr result (ShowsFront paper.now (P.holds pages.old) (P.holds pages.new)) }
{
    let mut both = ToSinks::new(alloc, pages, back);
    give(&mut both, paper)
}

#[test]
fn gives_texts(rt: HostRuntime) -> Result<(), NoMemory> {
    let alloc = rt.alloc();
    assert_eq!(rt; report(alloc, b"undefined", b"foo")?.as_slice(), REPORT);
    let wide = Paper::blank(alloc, 612, 792)?;
    assert_eq!(rt;
        header(alloc, &wide)?.as_slice(),
        b"P4\n612 792\n".as_slice()
    );
    Ok(())
}

#[test]
fn keeps_pages_and_text(rt: HostRuntime) -> Result<(), OutRefusal> {
    let alloc = rt.alloc();
    let mut kept = Kept::new(alloc);
    kept.say(b"one\n")?;
    kept.show(&square(alloc)?)?;
    kept.say(b"two\n")?;
    assert_eq!(rt; kept.text.as_slice(), b"one\ntwo\n".as_slice());
    assert_eq!(rt; kept.pages.len(), 1);
    assert!(rt; kept.pages.get(0) == Some(&square(alloc)?));
    Ok(())
}

#[test]
fn writes_to_two_sinks(rt: HostRuntime) -> Result<(), OutRefusal> {
    let alloc = rt.alloc();
    for (fails, text, bytes, answer) in [
        (
            0,
            "done",
            b"P4\n8 8\n\0\0\x3c\x3c\x3c\x3c\0\0".as_slice(),
            Ok(()),
        ),
        (
            2,
            "done",
            b"P4\n8 8\n\0\0\x3c\x3c".as_slice(),
            Err(OutRefusal::Failed),
        ),
        (1, "done", b"P4\n".as_slice(), Err(OutRefusal::Failed)),
    ] {
        let mut pages = MemSink::new(alloc, 100, Vec::from_slice(alloc, &[fails])?)?;
        let mut back = MemSink::new(alloc, 100, Vec::new(alloc))?;
        ToSinks::new(alloc, &mut pages, &mut back).say(text.as_bytes())?;
        assert!(rt; give_to_sinks(alloc, &square(alloc)?, &mut pages, &mut back) == answer);
        assert_eq!(rt; pages.bytes(), bytes);
        assert_eq!(rt; back.bytes(), text.as_bytes());
    }
    Ok(())
}
