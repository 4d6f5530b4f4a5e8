//! The operator `pathforall`, and the steps of its walks (section 8.2 of the language manual).
#![tactic(auto, using(ps_operator::proofs::Then::answer_then))]

ghost use Rattle.std.specs.Prelude.{◌≡◌, OnOk, IfOk, Some, None, slice_get};
ghost use Rattle.ps_kinds.specs.declared.frame.Frame.TheVariants as frame;
ghost use Rattle.ps_operator.specs.Owes.{ActsAlone, StepsAlone};
ghost use Rattle.path_build.specs.Walks as spec;

use crate::calls::{call_of, is_empty};
use crate::points::{push_point, told_by, user_point, way_back};
use ps_kinds::{
    Act, Boxed, ErrorName, Frame, Matrix, NoMemory, Object, Objects, Operands, PathWalk, Real,
    Refusal, Segment, State,
};
use ps_operator::frames_room;

/// The points of a segment in user space.
#[derive(Clone, Copy)]
pub(crate) enum Told {
    Nothing,
    One((Real, Real)),
    Three((Real, Real), (Real, Real), (Real, Real)),
}

/// Whether all four operands are procedures that may be run: typecheck, invalidaccess.
fn are_bodies(operands: &Objects) -> Result<(), ErrorName>
    ensures { result ≡ spec.are_bodies operands.now }
{
    operands.procedure(0)?;
    operands.procedure(1)?;
    operands.procedure(2)?;
    operands.procedure(3)?;
    operands.runnable(0)?;
    operands.runnable(1)?;
    operands.runnable(2)?;
    operands.runnable(3)
}

pub(crate) fn pathforall(state: &mut State) -> Result<Act, Refusal>
    ensures { ActsAlone spec.pathforall state.old result state.new }
{
    let operands = &mut state.regs.operands;
    let alloc = operands.alloc();
    operands.need(4)?;
    are_bodies(operands)?;
    let close_path = operands.object(0)?;
    let curve_to = operands.object(1)?;
    let line_to = operands.object(2)?;
    let move_to = operands.object(3)?;
    frames_room(&state.frames, 1)?;
    let walk = PathWalk {
        path: state.regs.state.path.copy()?,
        at: 0,
        move_to: move_to.copy()?,
        line_to: line_to.copy()?,
        curve_to: curve_to.copy()?,
        close_path: close_path.copy()?,
    };
    let frame = Frame::Walk(Boxed::new(alloc, walk)?);
    operands.shrink(4);
    Ok(Act::Body(frame))
}

/// The points of a curve in user space: undefinedresult.
fn told_curve(matrix: &Matrix, segment: &Segment) -> Result<Told, ErrorName>
    ensures { result ≡ spec.told matrix.now segment.now }
{
    match segment {
        Segment::Move(p) => Ok(Told::One(user_point(matrix, *p)?)),
        Segment::Line(p) => Ok(Told::One(user_point(matrix, *p)?)),
        Segment::Curve(p, q, r) => {
            let back = way_back(matrix)?;
            let a = told_by(&back, *p)?;
            let b = told_by(&back, *q)?;
            let c = told_by(&back, *r)?;
            Ok(Told::Three(a, b, c))
        }
        Segment::Close => Ok(Told::Nothing),
    }
}

/// Whether there is room for their numbers: stackoverflow.
fn told_room(told: Told, operands: &Objects) -> Result<(), ErrorName>
    ensures { result ≡ spec.told_room told operands.now }
{
    match told {
        Told::Nothing => Ok(()),
        Told::One(_) => operands.room(2),
        Told::Three(_, _, _) => operands.room(6),
    }
}

/// Whether there is room for the frame of a procedure, over a frame that was taken off: execstackoverflow.
fn call_room(state: &State, body: &Object) -> Result<(), ErrorName>
    ensures { result ≡ spec.room_above body.now state.now.frames }
{
    if is_empty(&body.kind) {
        Ok(())
    } else {
        frames_room(&state.frames, 2)
    }
}

/// Pushes the points in their order.
fn push_told(operands: &mut Objects, told: Told) -> Result<(), NoMemory>
    ensures { OnOk result (operands.new ≡ spec.with_told told operands.old) }
{
    match told {
        Told::Nothing => Ok(()),
        Told::One(a) => push_point(operands, a),
        Told::Three(a, b, c) => {
            push_point(operands, a)?;
            push_point(operands, b)?;
            push_point(operands, c)
        }
    }
}

/// The points that are to be pushed for a segment, over a frame that was taken off: undefinedresult, stackoverflow,
/// execstackoverflow.
fn ready(segment: &Segment, body: &Object, state: &State) -> Result<Told, ErrorName>
    ensures { spec.IsReady segment.now body.now state.now result }
{
    let told = told_curve(&state.regs.state.ctm, segment)?;
    told_room(told, &state.regs.operands)?;
    call_room(state, body)?;
    Ok(told)
}

/// The segment that is next.
fn next_of(walk: &PathWalk) -> Option<Segment>
    ensures { result ≡ slice_get walk.now.path walk.now.at }
{
    let segments = walk.path.as_slice();
    if walk.at < segments.len() {
        Some(segments[walk.at])
    } else {
        None
    }
}

/// The procedure for a segment.
fn body_for<'a>(walk: &'a PathWalk, segment: &Segment) -> &'a Object
    ensures { result.now ≡ spec.body_for walk.now segment.now }
{
    match segment {
        Segment::Move(_) => &walk.move_to,
        Segment::Line(_) => &walk.line_to,
        Segment::Curve(_, _, _) => &walk.curve_to,
        Segment::Close => &walk.close_path,
    }
}

/// Fails, with the frame as it was.
fn put_back(state: &mut State, frame: Frame, error: ErrorName) -> Result<Act, Refusal>
    ensures { spec.PutsBack frame error state.old result state.new }
{
    state.frames.push(frame)?;
    Err(Refusal::Error(error))
}

/// A step of a walk whose frame was taken off. One that fails puts the frame back.
pub(crate) fn walk_step(walk: Boxed<PathWalk>, state: &mut State) -> Result<Act, Refusal>
    ensures { StepsAlone (spec.step (frame.Walk walk))
        (spec.with_frame (frame.Walk walk) state.old) result state.new }
{
    let Some(segment) = next_of(walk.as_ref()) else {
        return Ok(Act::Done);
    };
    let body = body_for(walk.as_ref(), &segment);
    let told = match ready(&segment, body, state) {
        Ok(told) => told,
        Err(error) => return put_back(state, Frame::Walk(walk), error),
    };
    let act = call_of(body)?;
    push_told(&mut state.regs.operands, told)?;
    let alloc = state.regs.operands.alloc();
    let mut rest = walk.into_inner();
    rest.at += 1;
    state.frames.push(Frame::Walk(Boxed::new(alloc, rest)?))?;
    Ok(act)
}
