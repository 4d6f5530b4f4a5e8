//! Operators that execute their operand (section 8.2 of the language manual).
#![tactic(auto, using(ps_operator::proofs::Then::answer_then, ps_operator::proofs::Then::reads_then, crate::proofs::Starts::scanned_stands))]

ghost use Rattle.std.specs.Prelude.{◌≡◌, true, IfOk, OnOk};
ghost use Rattle.ps_meaning.specs.Ready.{Ready};
ghost use Rattle.ps_operator.specs.Owes.{Acts, ActsAlone, Finds};
ghost use Rattle.ps_operator.specs.Standing.{is_string};
ghost use Rattle.control_ops.specs.Executing as spec;

use crate::calls::{call_of, call_room, is_empty};
use ps_kinds::{
    Act, ErrorName, Frame, Interval, Kind, NoMemory, Object, Operands, Refusal, State, Text,
};
use ps_operator::{Mem, bytes_of, frames_room};
use std::alloc::Global;

/// How an object begins where it is executed.
#[derive(Clone, Copy)]
pub(crate) enum Start {
    /// A literal object is pushed.
    Pushed,

    /// A procedure runs, and any other object is an item of its own.
    Called,

    /// A string is scanned.
    Scanned(Interval),
}

/// How an object begins where it is executed: invalidaccess.
fn start_of(object: &Object) -> Result<Start, ErrorName>
    ensures { result ≡ spec.start_of object.now }
{
    if !object.exec {
        return Ok(Start::Pushed);
    }
    match object.kind {
        Kind::Array { .. } => {
            object.access.runnable()?;
            Ok(Start::Called)
        }
        Kind::Str(string) => {
            object.access.runnable()?;
            Ok(Start::Scanned(string))
        }
        _ => Ok(Start::Called),
    }
}

/// The frame of a string, which is looked at whole.
fn text_of<M: Mem>(
    alloc: Global,
    object: &Object,
    string: Interval,
    mem: &mut M,
) -> Result<Frame, NoMemory>
    requires { is_string (M.log mem.old).view string ≡ true }
    ensures { IfOk result (λ f.
        Finds (spec.text_of object.now string) (M.log mem.old) f (M.log mem.new)) }
{
    let bytes = bytes_of(alloc, string, mem)?;
    Ok(Frame::Text {
        string: object.copy()?,
        bytes: Text::from_bytes(alloc, bytes.as_slice())?,
        place: 0,
    })
}

pub(crate) fn exec<M: Mem>(state: &mut State, mem: &mut M) -> Result<Act, Refusal>
    requires { Ready state.old (M.log mem.old).view }
    ensures { Acts spec.exec state.old (M.log mem.old) result state.new (M.log mem.new) }
{
    let operands = &mut state.regs.operands;
    let alloc = operands.alloc();
    operands.need(1)?;
    let object = operands.object(0)?;
    match start_of(object)? {
        Start::Pushed => {
            operands.room(0)?;
            Ok(Act::Done)
        }
        Start::Called => {
            call_room(object, &state.frames)?;
            let act = call_of(object)?;
            operands.shrink(1);
            Ok(act)
        }
        Start::Scanned(string) => {
            frames_room(&state.frames, 1)?;
            let frame = text_of(alloc, object, string, mem)?;
            operands.shrink(1);
            Ok(Act::Body(frame))
        }
    }
}

pub(crate) fn if_(state: &mut State) -> Result<Act, Refusal>
    ensures { ActsAlone spec.if_ state.old result state.new }
{
    let operands = &mut state.regs.operands;
    operands.need(2)?;
    operands.procedure(0)?;
    let chosen = operands.boolean(1)?;
    operands.runnable(0)?;
    let object = operands.object(0)?;
    if !chosen {
        operands.shrink(2);
        return Ok(Act::Done);
    }
    call_room(object, &state.frames)?;
    let act = call_of(object)?;
    operands.shrink(2);
    Ok(act)
}

/// How deep the procedure lies that is chosen.
fn chosen(first: bool) -> usize
    ensures { result ≡ spec.chosen first }
{
    if first { 1 } else { 0 }
}

pub(crate) fn ifelse(state: &mut State) -> Result<Act, Refusal>
    ensures { ActsAlone spec.ifelse state.old result state.new }
{
    let operands = &mut state.regs.operands;
    operands.need(3)?;
    operands.procedure(0)?;
    operands.procedure(1)?;
    let first = operands.boolean(2)?;
    operands.runnable(0)?;
    operands.runnable(1)?;
    let object = operands.object(chosen(first))?;
    call_room(object, &state.frames)?;
    let act = call_of(object)?;
    operands.shrink(3);
    Ok(act)
}

/// The frames of `stopped` and of what it calls.
fn stopped_frames(object: &Object) -> usize
    ensures { result ≡ spec.stopped_frames object.now }
{
    if is_empty(&object.kind) { 1 } else { 2 }
}

pub(crate) fn stopped<M: Mem>(state: &mut State, mem: &mut M) -> Result<Act, Refusal>
    requires { Ready state.old (M.log mem.old).view }
    ensures { Acts spec.stopped state.old (M.log mem.old) result state.new (M.log mem.new) }
{
    let operands = &mut state.regs.operands;
    let alloc = operands.alloc();
    operands.need(1)?;
    let object = operands.object(0)?;
    match start_of(object)? {
        Start::Pushed => {
            operands.room(0)?;
            frames_room(&state.frames, 1)?;
            state.frames.push(Frame::Stopped)?;
            Ok(Act::Done)
        }
        Start::Called => {
            frames_room(&state.frames, stopped_frames(object))?;
            let act = call_of(object)?;
            state.frames.push(Frame::Stopped)?;
            operands.shrink(1);
            Ok(act)
        }
        Start::Scanned(string) => {
            frames_room(&state.frames, 2)?;
            let frame = text_of(alloc, object, string, mem)?;
            state.frames.push(Frame::Stopped)?;
            operands.shrink(1);
            Ok(Act::Body(frame))
        }
    }
}
