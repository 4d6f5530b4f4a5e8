use super::*;
use std::test::Fail;

fn null() -> Object {
    Object {
        kind: Kind::Null,
        exec: false,
        access: Access::Unlimited,
    }
}

fn start(rt: &HostRuntime) -> GState {
    let zero = Real { count: 0 };
    let one = Real { count: ONE };
    GState {
        ctm: Matrix {
            a: one,
            b: zero,
            c: zero,
            d: one,
            tx: zero,
            ty: zero,
        },
        path: Path::new(rt.alloc()),
        clips: Clips::new(rt.alloc()),
        colour: Colour::Gray(Component::new(zero)),
        width: LineWidth::new(one),
        cap: LineCap::Butt,
        join: LineJoin::Miter,
        miter: MiterLimit::new(one),
        dash: null(),
        offset: zero,
        lengths: Lengths::solid(rt.alloc()),
        flat: one,
        adjust: false,
        frequency: one,
        angle: zero,
        spot: null(),
        transfer: null(),
        halftone: null(),
        thresholds: Thresholds::none(rt.alloc()),
        font: null(),
        wide: PageSide::new(612),
        high: PageSide::new(792),
    }
}

/// A stack of one graphics state.
fn layers(rt: &HostRuntime) -> Result<GStack, NoMemory> {
    let mut states = GStack::new(rt.alloc());
    states.push(Layer {
        state: start(rt),
        base: true,
    })?;
    Ok(states)
}

fn mark(rt: &HostRuntime, states: GStack) -> SaveMark {
    SaveMark {
        name: SaveName {
            section: 1,
            count: 0,
        },
        state: start(rt),
        states,
        global: false,
        packing: true,
    }
}

/// The mark of one save.
fn saves(rt: &HostRuntime) -> Result<Saves, NoMemory> {
    let states = layers(rt)?;
    let mut saves = Saves::new(rt.alloc());
    saves.push(mark(rt, states))?;
    Ok(saves)
}

fn registers(rt: &HostRuntime, saves: Saves) -> Regs {
    Regs {
        operands: Objects::new(rt.alloc()),
        dicts: DictStack::new(rt.alloc()),
        state: start(rt),
        states: GStack::new(rt.alloc()),
        saves,
        global: true,
        packing: false,
    }
}

fn shown(rt: &HostRuntime) -> Result<Frame, NoMemory> {
    let run = ShowRun {
        string: null(),
        at: 3,
        form: ShowForm::Kshow { procedure: null() },
        phase: ShowPhase::Between,
    };
    Ok(Frame::Show(Boxed::new(rt.alloc(), run)?))
}

/// A string and a shown string that run.
fn frames(rt: &HostRuntime) -> Result<Frames, NoMemory> {
    let mut frames = Frames::new(rt.alloc());
    frames.push(Frame::Text {
        string: null(),
        bytes: Text::from_bytes(rt.alloc(), b"add")?,
        place: 2,
    })?;
    frames.push(shown(rt)?)?;
    Ok(frames)
}

/// A section's state with these frames.
fn running(rt: &HostRuntime, frames: Frames) -> State {
    State {
        regs: registers(rt, Saves::new(rt.alloc())),
        settings: Settings {
            dpi: 72,
            width: 612,
            height: 792,
            keep: false,
        },
        moment: 9,
        section: 1,
        kind: SectionKind::Page,
        count: 5,
        turns: 6,
        units: 7,
        shows: 1,
        said: 0,
        place: 8,
        frames,
    }
}

// What is asked of a copy. Each test holds few values, since it may end at each of its steps, and lets go of them there.

fn state_copies(state: &GState) -> Result<bool, NoMemory> {
    Ok(state.copy()? == *state)
}

fn stack_copies(states: &GStack) -> Result<bool, NoMemory> {
    Ok(states.copy()? == *states)
}

fn registers_copy(regs: &Regs) -> Result<bool, NoMemory> {
    let copy = regs.copy()?;
    Ok(copy == *regs && copy.first_difference(regs) == None)
}

fn difference_is_told(regs: &Regs) -> Result<bool, NoMemory> {
    let mut copy = regs.copy()?;
    copy.global = !copy.global;
    Ok(copy != *regs && copy.first_difference(regs) == Some(RegField::Global))
}

fn section_copies(state: &State) -> Result<bool, NoMemory> {
    let copy = state.copy()?;
    Ok(copy.regs == state.regs && copy.count == 5 && copy.frames.len() == 2)
}

#[test]
fn copies_of_graphics_states_are_equal(rt: HostRuntime) -> Result<(), Fail> {
    let same = state_copies(&start(&rt))?;
    assert!(rt; same);
    let same = stack_copies(&layers(&rt)?)?;
    assert!(rt; same);
    Ok(())
}

#[test]
fn copies_of_registers_are_equal(rt: HostRuntime) -> Result<(), Fail> {
    let same = registers_copy(&registers(&rt, saves(&rt)?))?;
    assert!(rt; same);
    Ok(())
}

#[test]
fn differences_of_registers_are_told(rt: HostRuntime) -> Result<(), Fail> {
    let is_told = difference_is_told(&registers(&rt, saves(&rt)?))?;
    assert!(rt; is_told);
    Ok(())
}

#[test]
fn copies_of_states_are_equal(rt: HostRuntime) -> Result<(), Fail> {
    let same = section_copies(&running(&rt, frames(&rt)?))?;
    assert!(rt; same);
    Ok(())
}

#[test]
fn acts_and_frames_answer(rt: HostRuntime) -> Result<(), Fail> {
    let said = Act::Say(Text::from_bytes(rt.alloc(), b"done")?);
    assert!(rt; matches!(said.copy()?, Act::Say(_)));
    assert!(rt; frames_room(&Frames::new(rt.alloc()), 1000) == Ok(()));
    Ok(())
}
