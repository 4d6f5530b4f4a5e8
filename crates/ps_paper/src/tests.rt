ghost use Rattle.std.specs.Prelude.{IfOk};
ghost use Rattle.ps_shapes.specs.Span.{IsOnPaper};

use crate::paint;
use copy_lists::NoMemory;
use ps_shapes::{Paper, Real, Span, Spans, SpansList, Thresholds};
use std::alloc::Global;
use std::test::Fail;

const BLACK: Real = Real { count: 0 };

const HALF: Real = Real { count: 8_388_608 };

const THIRD: Real = Real { count: 5_592_405 };

const WHITE: Real = Real { count: 16_777_216 };

/// Two rows of ten pixels.
fn whole(alloc: Global) -> Result<Spans, NoMemory>
    ensures { IfOk result (λ spans. IsOnPaper 10 2 spans) }
{
    let mut spans = Spans::new(alloc);
    spans.push(Span {
        row: 0,
        first: 0,
        past: 10,
    })?;
    spans.push(Span {
        row: 1,
        first: 0,
        past: 10,
    })?;
    Ok(spans)
}

/// The columns from 2 up to 9 of the upper row, and of these all but 4 and 5.
fn clips(alloc: Global) -> Result<SpansList, NoMemory> {
    let mut wide = Spans::new(alloc);
    wide.push(Span {
        row: 0,
        first: 2,
        past: 9,
    })?;
    let mut parted = Spans::new(alloc);
    parted.push(Span {
        row: 0,
        first: 0,
        past: 4,
    })?;
    parted.push(Span {
        row: 0,
        first: 6,
        past: 10,
    })?;
    let mut list = SpansList::new(alloc);
    list.push(wide)?;
    list.push(parted)?;
    Ok(list)
}

/// Two rows of ten pixels, painted all over, and then inside the clips.
fn painted(
    alloc: Global,
    under: Real,
    clips: &SpansList,
    gray: Real,
    thresholds: &Thresholds,
) -> Result<Paper, NoMemory> {
    let spans = whole(alloc)?;
    let none = SpansList::new(alloc);
    let mut paper = Paper::blank(alloc, 10, 2)?;
    paint(&mut paper, &spans, &none, under, thresholds);
    paint(&mut paper, &spans, clips, gray, thresholds);
    Ok(paper)
}

#[test]
fn clips_and_grays(rt: HostRuntime) -> Result<(), Fail> {
    let alloc = rt.alloc();
    let start = Thresholds::none(alloc);
    let table = Thresholds::new(alloc, 2, 1, [128, 0].as_slice())?;
    let none = SpansList::new(alloc);
    let inside = clips(alloc)?;
    assert_eq!(rt;
        painted(alloc, WHITE, &inside, BLACK, &start)?.as_bytes(),
        [0x33, 0x80, 0, 0].as_slice()
    );
    assert_eq!(rt;
        painted(alloc, BLACK, &inside, WHITE, &start)?.as_bytes(),
        [0xcc, 0x40, 0xff, 0xc0].as_slice()
    );
    assert_eq!(rt;
        painted(alloc, BLACK, &none, HALF, &start)?.as_bytes(),
        [0x55, 0x40, 0xaa, 0x80].as_slice()
    );
    assert_eq!(rt;
        painted(alloc, BLACK, &inside, HALF, &start)?.as_bytes(),
        [0xdd, 0x40, 0xff, 0xc0].as_slice()
    );
    assert_eq!(rt;
        painted(alloc, WHITE, &none, THIRD, &table)?.as_bytes(),
        [0xaa, 0x80, 0xaa, 0x80].as_slice()
    );
    Ok(())
}
