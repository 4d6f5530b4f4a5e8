//! Rectangles, clips and pages.
use super::*;
use crate::covering::spans_of_clips;
use crate::measuring::is_measured;
use crate::pages::{copypage, showpage};
use crate::rectangles::rectangle_polygons;
use path_cover::cover;
use ps_kinds::{
    Act, Clip, Clips, ErrorName, Frames, LineWidth, NoMemory, Op, Paper, Polygons, Real, Refusal,
    Rule, SectionKind, Settings, State, Thresholds, places,
};
use ps_paper::paint;
use ps_start::{default_matrix, start_registers};
use std::alloc::Global;
use std::test::Fail;

const SETTINGS: Settings = Settings {
    dpi: 72,
    width: 8,
    height: 8,
    keep: false,
};

/// Half a point.
const HALF: i64 = 8_388_608;

/// The polygons of a rectangle on a page of 8 by 8 pixels, its numbers in halves of a point.
fn rectangle(alloc: Global, halves: &[i64]) -> Result<Polygons, Refusal> {
    let mut numbers = Vec::new(alloc);
    for &half in halves {
        numbers.push(Real {
            count: half.clamp(-100, 100) * HALF,
        })?;
    }
    rectangle_polygons(alloc, &default_matrix(72, 8), numbers.as_slice())
}

/// The page on which polygons were painted inside the clips.
fn page(alloc: Global, polygons: &Polygons, clips: &Clips) -> Result<Paper, NoMemory> {
    let spans = cover(alloc, polygons, Rule::NonZero, 8, 8)?;
    let lists = spans_of_clips(alloc, clips, 8, 8)?;
    let mut paper = Paper::blank(alloc, 8, 8)?;
    let _width = paper.width();
    let black = Real { count: 0 };
    paint(&mut paper, &spans, &lists, black, &Thresholds::none(alloc));
    Ok(paper)
}

/// Whether a rectangle painted inside the clips leaves these rows.
fn leaves(alloc: Global, halves: &[i64], clips: &Clips, rows: &[u8]) -> Result<bool, Refusal> {
    let polygons = rectangle(alloc, halves)?;
    let paper = page(alloc, &polygons, clips)?;
    Ok(paper.as_bytes() == rows)
}

#[test]
fn rectangles_are_painted_inside_clips(rt: HostRuntime) -> Result<(), Fail> {
    let alloc = rt.alloc();
    let mut clips = Clips::new(alloc);
    let square = [0, 0, 0x3C, 0x3C, 0x3C, 0x3C, 0, 0];
    assert!(rt; leaves(alloc, [4, 4, 8, 8].as_slice(), &clips, square.as_slice())?);
    assert!(rt;
        leaves(
            alloc,
            [0, 0, 5, 16].as_slice(),
            &clips,
            [0xC0; 8].as_slice()
        )?
    );
    assert!(rt;
        leaves(
            alloc,
            [5, 0, 5, 16].as_slice(),
            &clips,
            [0x38; 8].as_slice()
        )?
    );
    let low = [0, 0, 0, 0, 0, 0xFF, 0xFF, 0xFF];
    assert!(rt; leaves(alloc, [0, 0, 16, 5].as_slice(), &clips, low.as_slice())?);
    clips.push(Clip {
        rule: Rule::EvenOdd,
        polygons: rectangle(alloc, [0, 0, 5, 16].as_slice())?,
    })?;
    clips.push(Clip {
        rule: Rule::NonZero,
        polygons: rectangle(alloc, [0, 0, 16, 5].as_slice())?,
    })?;
    let corner = [0, 0, 0, 0, 0, 0xC0, 0xC0, 0xC0];
    assert!(rt; leaves(alloc, [0, 0, 16, 16].as_slice(), &clips, corner.as_slice())?);
    Ok(())
}

fn running(alloc: Global) -> Result<State, NoMemory> {
    Ok(State {
        regs: start_registers(alloc, &SETTINGS)?,
        settings: SETTINGS,
        moment: 0,
        section: 1,
        kind: SectionKind::Page,
        count: 0,
        turns: 0,
        units: 0,
        shows: 0,
        said: 0,
        place: 0,
        frames: Frames::new(alloc),
    })
}

/// Whether the page is given out and then wiped, or kept.
fn gives(answer: Result<Act, Refusal>, wiped: bool) -> bool {
    match answer {
        Ok(Act::Show { wipe }) => wipe == wiped,
        _ => false,
    }
}

/// Whether a page that is kept leaves the line width, and one that is wiped begins it again.
fn begins_after_wiping(state: &mut State) -> bool {
    state.regs.state.width = LineWidth::new(Real { count: HALF });
    let kept = gives(copypage(state), false);
    let left = state.regs.state.width.real().count;
    let wiped = gives(showpage(state), true);
    let begun = state.regs.state.width.real().count;
    kept && left == HALF && wiped && begun == 2 * HALF
}

/// Whether a page is refused for the budget.
fn is_over(answer: Result<Act, Refusal>) -> bool {
    matches!(answer, Err(Refusal::Error(ErrorName::LimitCheck)))
}

#[test]
fn eight_pages_are_given_out(rt: HostRuntime) -> Result<(), Fail> {
    let mut state = running(rt.alloc())?;
    let begins = begins_after_wiping(&mut state);
    assert!(rt; begins);
    for _ in 2..8 {
        let given = gives(copypage(&mut state), false);
        assert!(rt; given);
    }
    let over = is_over(copypage(&mut state));
    let measured = is_measured(&state.frames);
    assert!(rt; over && !measured && state.shows == 8);
    let own = belongs(Op::at(places::RECTFILL), &state);
    let other = belongs(Op::at(places::IMAGE), &state);
    assert!(rt; own && !other);
    paint_ops_lawful();
    Ok(())
}
