//! Colours, screens and halftones that are set and told.
use super::*;
use crate::halftones::currenthalftone;
use crate::screens::{currentscreen, currenttransfer, setscreen, settransfer};
use crate::setting::{
    currentcmykcolor, currentcolor, currentgray, currentrgbcolor, setcmykcolor, setcolor, setgray,
    setrgbcolor,
};
use ps_kinds::{
    Access, Cell, Clips, Colour, Component, DictStack, ErrorName, Frames, GStack, GState, Interval,
    Kind, Lengths, LineCap, LineJoin, LineWidth, Matrix, MiterLimit, ONE, Object, Objects, Op,
    PageSide, Path, Real, Refusal, Regs, Saves, SectionKind, Settings, Space, State, Thresholds,
};
use std::test::Fail;

const ZERO: Real = Real { count: 0 };

fn object(kind: Kind, exec: bool) -> Object {
    Object {
        kind,
        exec,
        access: Access::Unlimited,
    }
}

fn start(rt: &HostRuntime) -> GState {
    let one = Real { count: ONE };
    GState {
        ctm: Matrix {
            a: one,
            b: ZERO,
            c: ZERO,
            d: one,
            tx: ZERO,
            ty: ZERO,
        },
        path: Path::new(rt.alloc()),
        clips: Clips::new(rt.alloc()),
        colour: Colour::Gray(Component::new(ZERO)),
        width: LineWidth::new(one),
        cap: LineCap::Butt,
        join: LineJoin::Miter,
        miter: MiterLimit::new(one),
        dash: object(Kind::Null, false),
        offset: ZERO,
        lengths: Lengths::solid(rt.alloc()),
        flat: one,
        adjust: false,
        frequency: one,
        angle: ZERO,
        spot: object(Kind::Null, false),
        transfer: object(Kind::Null, false),
        halftone: object(Kind::Null, false),
        thresholds: Thresholds::none(rt.alloc()),
        font: object(Kind::Null, false),
        wide: PageSide::new(612),
        high: PageSide::new(792),
    }
}

/// A section's state with these operands.
fn running(rt: &HostRuntime, operands: Objects) -> State {
    State {
        regs: Regs {
            operands,
            dicts: DictStack::new(rt.alloc()),
            state: start(rt),
            states: GStack::new(rt.alloc()),
            saves: Saves::new(rt.alloc()),
            global: false,
            packing: false,
        },
        settings: Settings {
            dpi: 72,
            width: 612,
            height: 792,
            keep: false,
        },
        moment: 0,
        section: 1,
        kind: SectionKind::Page,
        count: 0,
        turns: 0,
        units: 0,
        shows: 0,
        said: 0,
        place: 0,
        frames: Frames::new(rt.alloc()),
    }
}

/// A state whose operands are these reals, the last on top.
fn with_reals(rt: &HostRuntime, counts: &[i64]) -> Result<State, Refusal> {
    let mut operands = Objects::new(rt.alloc());
    for at in 0..counts.len() {
        operands.push(object(Kind::Real(Real { count: counts[at] }), false))?;
    }
    Ok(running(rt, operands))
}

/// Whether the operands are these reals, the last on top.
fn has_reals(state: &State, counts: &[i64]) -> bool {
    if state.regs.operands.len() != counts.len() {
        return false;
    }
    for at in 0..counts.len() {
        if let Some(found) = state.regs.operands.get(counts.len() - 1 - at) {
            if found.kind != Kind::Real(Real { count: counts[at] }) {
                return false;
            }
        }
    }
    true
}

#[test]
fn colours_have_a_gray(rt: HostRuntime) -> Result<(), Fail> {
    colour_ops_lawful();
    let none = Component::new(ZERO);
    let quarter = Component::new(Real { count: ONE / 4 });
    let half = Component::new(Real { count: ONE / 2 });
    let full = Component::new(Real { count: ONE });
    assert!(rt; gray_of(Colour::Gray(half)) == half);
    assert!(rt; gray_of(Colour::Rgb(full, none, none)).real().count == 5_033_165);
    assert!(rt; gray_of(Colour::Rgb(none, full, none)).real().count == 9_898_557);
    assert!(rt; gray_of(Colour::Rgb(none, none, full)).real().count == 1_845_494);
    assert!(rt; gray_of(Colour::Rgb(full, full, full)) == full);
    assert!(rt;
        gray_of(Colour::Cmyk(half, none, none, quarter))
            .real()
            .count
            == 10_066_330
    );
    assert!(rt; gray_of(Colour::Cmyk(full, full, none, half)) == none);
    Ok(())
}

// What is asked of a state. Each test holds few values, since it may end at each of its steps, and lets go of them there.

/// Colours that are set in one space and told in others.
fn are_told(state: &mut State) -> Result<bool, Refusal> {
    setrgbcolor(state)?;
    currentrgbcolor(state)?;
    let cut = has_reals(state, &[ONE, ONE / 2, 0]);
    setcolor(state)?;
    currentcmykcolor(state)?;
    let inks = has_reals(state, &[0, ONE / 2, ONE, 0]);
    setcmykcolor(state)?;
    currentgray(state)?;
    let gray = has_reals(state, &[9_982_444]);
    setgray(state)?;
    currentcolor(state)?;
    Ok(cut && inks && gray && has_reals(state, &[9_982_444]))
}

/// A screen and a transfer function that are set and told.
fn are_kept(state: &mut State, procedure: Object) -> Result<bool, Refusal> {
    state.regs.operands.push(procedure)?;
    setscreen(state)?;
    currentscreen(state)?;
    settransfer(state)?;
    let screen = has_reals(state, &[60 * ONE, 45 * ONE]);
    currenttransfer(state)?;
    settransfer(state)?;
    currenthalftone(state)?;
    Ok(screen && settransfer(state) == Err(Refusal::Error(ErrorName::TypeCheck)))
}

fn procedure() -> Object {
    let cell = Cell {
        section: 0,
        count: 10,
        space: Space::Local,
    };
    let interval = Interval {
        cell,
        start: 0,
        len: 0,
    };
    object(
        Kind::Array {
            interval,
            packed: false,
        },
        true,
    )
}

#[test]
fn colours_are_set_and_told(rt: HostRuntime) -> Result<(), Fail> {
    let told = are_told(&mut with_reals(&rt, &[2 * ONE, ONE / 2, -1])?)?;
    assert!(rt; told);
    Ok(())
}

#[test]
fn screens_are_kept(rt: HostRuntime) -> Result<(), Fail> {
    let kept = are_kept(&mut with_reals(&rt, &[60 * ONE, 45 * ONE])?, procedure())?;
    assert!(rt; kept);
    Ok(())
}

#[test]
fn places_are_told(rt: HostRuntime) -> Result<(), Fail> {
    let state = running(&rt, Objects::new(rt.alloc()));
    let told = belongs(Op::at(168), &state) && !belongs(Op::at(174), &state);
    assert!(rt; told);
    Ok(())
}
