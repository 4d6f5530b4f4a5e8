//! Steps of loops, walks and `stopped`. Each takes the parts of a frame that was taken off, and leaves what is left of it; one
//! that fails puts the frame back.
#![tactic(auto, using(ps_operator::proofs::Then::answer_then))]

ghost use Rattle.std.specs.Prelude.{◌≡◌, ◌<◌, ◌^◌, Some, true};
ghost use Rattle.ps_execution.specs.Frames as frames;
ghost use Rattle.ps_kinds.specs.declared.frame.Frame.TheVariants as frame;
ghost use Rattle.ps_operator.specs.Owes.{Steps, StepsAlone};
ghost use Rattle.ps_operator.specs.Standing.{is_named};
ghost use Rattle.control_ops.specs.Rounds as spec;

use crate::calls::{call_of, is_empty};
use ps_kinds::{
    Act, ErrorName, Frame, Interval, Kind, Object, Operands, Pair, Real, Refusal, Sequence, State,
};
use ps_operator::{Mem, frames_room, literal, look_byte, look_item};

/// Whether there is room for the frame of a body, over a frame that was taken off: execstackoverflow.
fn call_room(state: &State, body: &Object) -> Result<(), ErrorName>
    ensures { result ≡ spec.room_above body.now state.now.frames }
{
    if is_empty(&body.kind) {
        Ok(())
    } else {
        frames_room(&state.frames, 2)
    }
}

/// Whether there is room for `n` more operands, and then for the frame of the body: stackoverflow, execstackoverflow.
fn round_room(state: &State, n: usize, body: &Object) -> Result<(), ErrorName>
    requires { n < 2 ^ 32 }
    ensures { spec.HasRoom n body.now state.now result }
{
    state.regs.operands.room(n)?;
    if is_empty(&body.kind) {
        return Ok(());
    }
    frames_room(&state.frames, 2)
}

/// Fails, with the frame as it was.
fn put_back(state: &mut State, frame: Frame, error: ErrorName) -> Result<Act, Refusal>
    ensures { spec.PutsBack frame error state.old result state.new }
{
    state.frames.push(frame)?;
    Err(Refusal::Error(error))
}

fn is_past(value: Real, increment: Real, limit: Real) -> bool
    ensures { result ≡ frames.is_past (Some value) increment limit }
{
    (increment.count > 0 && value.count > limit.count)
        || (increment.count < 0 && value.count < limit.count)
}

/// The variable of a `for`: an integer where the loop is over integers and it has 32 bits.
fn variable(whole: bool, value: Real) -> Kind
    ensures { result ≡ spec.variable whole value }
{
    let integer = value.count / 16_777_216;
    if whole && integer >= i32::MIN as i64 && integer <= i32::MAX as i64 {
        Kind::Integer(integer as i32)
    } else {
        Kind::Real(value)
    }
}

/// The next variable of a `for`, unless it leaves the reals.
fn next_value(value: Real, increment: Real) -> Option<Real>
    ensures { result ≡ spec.next_value value increment }
{
    ps_fixed::add(value, increment).ok()
}

pub(crate) fn for_step(
    body: Object,
    next: Option<Real>,
    increment: Real,
    limit: Real,
    whole: bool,
    state: &mut State,
) -> Result<Act, Refusal>
    ensures { StepsAlone (spec.for_step body next increment limit whole)
        (spec.with_frame (frame.For body next increment limit whole) state.old) result state.new }
{
    let Some(value) = next else {
        return Ok(Act::Done);
    };
    if is_past(value, increment, limit) {
        return Ok(Act::Done);
    }
    if let Err(error) = round_room(state, 1, &body) {
        let frame = Frame::For {
            body,
            next,
            increment,
            limit,
            whole,
        };
        return put_back(state, frame, error);
    }
    let act = call_of(&body)?;
    state.regs.operands.push(literal(variable(whole, value)))?;
    state.frames.push(Frame::For {
        body,
        next: next_value(value, increment),
        increment,
        limit,
        whole,
    })?;
    Ok(act)
}

#[tactic(auto, using(crate::proofs::Stepping::repeat_refused))]
pub(crate) fn repeat_step(body: Object, left: u32, state: &mut State) -> Result<Act, Refusal>
    ensures { StepsAlone (spec.repeat_step body left)
        (spec.with_frame (frame.Repeat body left) state.old) result state.new }
{
    if left == 0 {
        return Ok(Act::Done);
    }
    if let Err(error) = call_room(state, &body) {
        return put_back(state, Frame::Repeat { body, left }, error);
    }
    let act = call_of(&body)?;
    state.frames.push(Frame::Repeat {
        body,
        left: left - 1,
    })?;
    Ok(act)
}

pub(crate) fn loop_step(body: Object, state: &mut State) -> Result<Act, Refusal>
    ensures { StepsAlone (spec.loop_step body)
        (spec.with_frame (frame.Loop body) state.old) result state.new }
{
    if let Err(error) = call_room(state, &body) {
        return put_back(state, Frame::Loop { body }, error);
    }
    let act = call_of(&body)?;
    state.frames.push(Frame::Loop { body })?;
    Ok(act)
}

/// The items that an array still has from a place on.
fn items_left(kind: &Kind, at: u32) -> Option<Interval>
    ensures { result ≡ spec.place_left (spec.items_in kind.now) at }
{
    match kind {
        Kind::Array { interval, .. } if at < interval.len => Some(*interval),
        _ => None,
    }
}

pub(crate) fn item_step<M: Mem>(
    array: Object,
    at: u32,
    body: Object,
    state: &mut State,
    mem: &mut M,
) -> Result<Act, Refusal>
    requires { is_named (M.log mem.old).view array.kind ≡ true }
    ensures { Steps (spec.step (frame.Items array at body))
        (spec.with_frame (frame.Items array at body) state.old) (M.log mem.old)
        result state.new (M.log mem.new) }
{
    let Some(part) = items_left(&array.kind, at) else {
        return Ok(Act::Done);
    };
    if let Err(error) = round_room(state, 1, &body) {
        return put_back(state, Frame::Items { array, at, body }, error);
    }
    let item = look_item(mem, part, at)?;
    let act = call_of(&body)?;
    state.regs.operands.push(item)?;
    state.frames.push(Frame::Items {
        array,
        at: at + 1,
        body,
    })?;
    Ok(act)
}

/// The bytes that a string still has from a place on.
fn bytes_left(kind: &Kind, at: u32) -> Option<Interval>
    ensures { result ≡ spec.place_left (spec.bytes_in kind.now) at }
{
    match kind {
        Kind::Str(interval) if at < interval.len => Some(*interval),
        _ => None,
    }
}

pub(crate) fn byte_step<M: Mem>(
    string: Object,
    at: u32,
    body: Object,
    state: &mut State,
    mem: &mut M,
) -> Result<Act, Refusal>
    requires { is_named (M.log mem.old).view string.kind ≡ true }
    ensures { Steps (spec.step (frame.Bytes string at body))
        (spec.with_frame (frame.Bytes string at body) state.old) (M.log mem.old)
        result state.new (M.log mem.new) }
{
    let Some(part) = bytes_left(&string.kind, at) else {
        return Ok(Act::Done);
    };
    if let Err(error) = round_room(state, 1, &body) {
        return put_back(state, Frame::Bytes { string, at, body }, error);
    }
    let byte = look_byte(mem, part, at)?;
    let act = call_of(&body)?;
    let object = literal(Kind::Integer(byte as i32));
    state.regs.operands.push(object)?;
    state.frames.push(Frame::Bytes {
        string,
        at: at + 1,
        body,
    })?;
    Ok(act)
}

pub(crate) fn pair_step(
    pairs: Sequence<Pair>,
    at: usize,
    body: Object,
    state: &mut State,
) -> Result<Act, Refusal>
    ensures { StepsAlone (spec.step (frame.Pairs pairs at body))
        (spec.with_frame (frame.Pairs pairs at body) state.old) result state.new }
{
    if at >= pairs.len() {
        return Ok(Act::Done);
    }
    if let Err(error) = round_room(state, 2, &body) {
        return put_back(state, Frame::Pairs { pairs, at, body }, error);
    }
    let pair = pairs.at(at);
    let key = pair.key.object()?;
    let value = pair.value.copy()?;
    let act = call_of(&body)?;
    state.regs.operands.push(key)?;
    state.regs.operands.push(value)?;
    state.frames.push(Frame::Pairs {
        pairs,
        at: at + 1,
        body,
    })?;
    Ok(act)
}

pub(crate) fn stopped_step(state: &mut State) -> Result<Act, Refusal>
    ensures { StepsAlone spec.stopped_step (spec.with_frame frame.Stopped state.old)
        result state.new }
{
    if let Err(error) = state.regs.operands.room(1) {
        return put_back(state, Frame::Stopped, error);
    }
    state.regs.operands.push(literal(Kind::Boolean(false)))?;
    Ok(Act::Done)
}
