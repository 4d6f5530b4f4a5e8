//! Executing an object.
ghost use Rattle.std.specs.Prelude.{◌≡◌, true, OnOk};
ghost use Rattle.ps_meaning.specs.Answer.{Log, answer};
ghost use Rattle.ps_execution.specs.Objects as spec;
ghost use Rattle.ps_execution.specs.Table.{Program};
ghost use Rattle.ps_operator.specs.Owes.{Runs};
ghost use Rattle.ps_operator.specs.Standing.{is_string};
ghost use Rattle.vm_mem.specs.Conditions.{page_is_here};
ghost use Rattle.ps_steps.specs.Executing.{operator_in, string_in, procedure_in, is_null, name_object, Calls, name_answer, met_answer, led, is_done};
ghost use Rattle.ps_steps.specs.Met.{object_of};
ghost use Rattle.ps_steps.specs.Next.{program, Comes};
ghost use Rattle.ps_steps.specs.Operators.{FitsHere, Executed};
ghost use Rattle.ps_reader.specs.Reading.{IsReady};

use crate::met::{Met, bound, found, integer};
use crate::settling::settle;
use crate::{Next, Operators};
use ps_kinds::{
    Access, Act, Frame, Interval, Key, Kind, NoMemory, Object, Op, Operands, Refusal, State, Text,
    frames_room,
};
use ps_operator::bytes_of;
use std::alloc::Global;
use vm_mem::Mem;

/// What stands for an object that is on its way.
fn nothing() -> Object {
    Object {
        kind: Kind::Null,
        exec: false,
        access: Access::Unlimited,
    }
}

fn pushed(object: Object, state: &mut State) -> Result<(Act, Object), NoMemory>
    ensures { (log : Log) → Executed object
        (answer (spec.pushes object state.old) state.old log) result state.new log }
{
    match state.regs.operands.room(1) {
        Ok(()) => {
            state.regs.operands.push(object)?;
            Ok((Act::Done, nothing()))
        }
        Err(error) => Ok((Act::Fail(error), object)),
    }
}

/// Pushes an object, or raises its error.
fn push_object(object: Object, state: &mut State) -> Result<Next, NoMemory>
    ensures { (P : Program) (log : Log) → Comes
        (led P object (answer (spec.pushes object state.old) state.old log))
        result state.new log }
{
    match state.regs.operands.room(1) {
        Ok(()) => {
            state.regs.operands.push(object)?;
            Ok(Next::Goes)
        }
        Err(error) => Ok(Next::Raised { error, object }),
    }
}

/// Whether an act is Done.
#[inline]
fn is_done(act: &Act) -> bool
    ensures { result ≡ is_done act.now }
{
    matches!(act, Act::Done)
}

fn procedure_run(object: Object, len: u32, state: &State) -> Result<(Act, Object), NoMemory>
    ensures { (log : Log) → Executed object
        (answer (spec.runs_procedure object len state.now) state.now log) result state.now log }
{
    if let Err(error) = object.access.runnable() {
        return Ok((Act::Fail(error), object));
    }
    if len == 0 {
        return Ok((Act::Done, object));
    }
    match frames_room(&state.frames, 1) {
        Ok(()) => Ok((
            Act::Body(Frame::Proc {
                body: object,
                at: 0,
            }),
            nothing(),
        )),
        Err(error) => Ok((Act::Fail(error), object)),
    }
}

#[tactic(auto, using(crate::proofs::Executes::string_denied, crate::proofs::Executes::string_full, crate::proofs::Executes::string_runs))]
fn string_run<M: Mem>(
    alloc: Global,
    object: Object,
    string: Interval,
    state: &State,
    mem: &mut M,
) -> Result<(Act, Object), NoMemory>
    requires { is_string (M.log mem.old).view string ≡ true }
    ensures meets { Executed object
        (answer (spec.runs_string object string state.now) state.now (M.log mem.old))
        result state.now (M.log mem.new) }
    ensures view { OnOk result ((M.log mem.new).view ≡ (M.log mem.old).view) }
{
    match object.access.runnable() {
        Ok(()) => {}
        Err(error) => return Ok((Act::Fail(error), object)),
    }
    match frames_room(&state.frames, 1) {
        Ok(()) => {}
        Err(error) => return Ok((Act::Fail(error), object)),
    }
    let bytes = bytes_of(alloc, string, mem)?;
    let bytes = Text::from_bytes(alloc, bytes.as_slice())?;
    Ok((
        Act::Body(Frame::Text {
            string: object,
            bytes,
            place: 0,
        }),
        nothing(),
    ))
}

fn operator_of(kind: &Kind) -> Option<Op>
    ensures { result ≡ operator_in kind.now }
{
    match kind {
        Kind::Operator(op) => Some(*op),
        _ => None,
    }
}

fn string_of(kind: &Kind) -> Option<Interval>
    ensures { result ≡ string_in kind.now }
{
    match kind {
        Kind::Str(part) => Some(*part),
        _ => None,
    }
}

fn procedure_of(kind: &Kind) -> Option<u32>
    ensures { result ≡ procedure_in kind.now }
{
    match kind {
        Kind::Array { interval, .. } => Some(interval.len),
        _ => None,
    }
}

fn is_null(kind: &Kind) -> bool
    ensures { result ≡ is_null kind.now }
{
    match kind {
        Kind::Null => true,
        _ => false,
    }
}

/// An executable object that was met.
#[derive(Drop)]
enum Executable {
    /// A name, as a key.
    Name { key: Key, access: Access },

    /// A procedure, which is pushed.
    Procedure(Object),

    /// Another, which is executed as if a name had led to it.
    Other(Object),
}

/// What an executable object is that was met.
fn called(object: Object) -> Executable
    requires { object.exec ≡ true }
    ensures { Calls object result }
{
    let exec = object.exec;
    let access = object.access;
    match object.kind {
        Kind::Name(name) => Executable::Name {
            key: Key::Name(name),
            access,
        },
        Kind::Array { interval, packed } => Executable::Procedure(Object {
            kind: Kind::Array { interval, packed },
            exec,
            access,
        }),
        kind => Executable::Other(Object { kind, exec, access }),
    }
}

/// The executable name that a key is.
fn named(key: Key, access: Access) -> Object
    ensures { result ≡ name_object key access }
{
    let kind = match key {
        Key::Name(name) => Kind::Name(name),
        _ => Kind::Null,
    };
    Object {
        kind,
        exec: true,
        access,
    }
}

/// Runs an operator. The paper is here afterwards.
#[tactic(auto, using(crate::proofs::Turns::ready_in))]
fn run_operator<M: Mem, T: Operators<M>>(
    op: Op,
    text: &[u8],
    state: &mut State,
    mem: &mut M,
) -> Result<Act, NoMemory>
    requires { IsReady 1 text.now state.old (M.log mem.old).view }
    ensures meets { Runs (T.table.run op text.now) state.old (M.log mem.old)
        result state.new (M.log mem.new) }
    ensures here { OnOk result (page_is_here (M.log mem.new).view ≡ true) }
{
    let act = T::run(op, text, state, mem)?;
    Ok(act)
}

/// Executes an object to which a name led, or an error's entry, and gives it back where that fails.
#[tactic(auto, using(crate::proofs::Executes::string_here, crate::proofs::Executes::value_operator, crate::proofs::Executes::value_literal, crate::proofs::Executes::value_procedure, crate::proofs::Executes::value_string, crate::proofs::Executes::value_null, crate::proofs::Executes::value_other, crate::proofs::Executes::by_push, crate::proofs::Executes::by_procedure))]
pub(crate) fn run_value<M: Mem, T: Operators<M>>(
    alloc: Global,
    object: Object,
    text: &[u8],
    state: &mut State,
    mem: &mut M,
) -> Result<(Act, Object), NoMemory>
    requires ready { IsReady 1 text.now state.old (M.log mem.old).view }
    requires fits { FitsHere (M.log mem.old).view object }
    ensures meets { Executed object
        (answer (spec.runs_value (program T.table text.now) object state.old) state.old
        (M.log mem.old)) result state.new (M.log mem.new) }
    ensures here { OnOk result (page_is_here (M.log mem.new).view ≡ true) }
{
    if let Some(op) = operator_of(&object.kind) {
        let act = run_operator::<M, T>(op, text, state, mem)?;
        return Ok((act, object));
    }
    if !object.exec {
        return pushed(object, state);
    }
    if let Some(len) = procedure_of(&object.kind) {
        return procedure_run(object, len, state);
    }
    if let Some(string) = string_of(&object.kind) {
        return string_run(alloc, object, string, state, mem);
    }
    if is_null(&object.kind) {
        return Ok((Act::Done, object));
    }
    pushed(object, state)
}

/// Lets an object go.
fn discard(_: Object) {}

/// Runs what a name led to.
fn run_found<M: Mem, T: Operators<M>>(
    alloc: Global,
    met: Met,
    text: &[u8],
    state: &mut State,
    mem: &mut M,
) -> Result<Act, NoMemory>
    requires ready { IsReady 1 text.now state.old (M.log mem.old).view }
    requires fits { FitsHere (M.log mem.old).view (object_of met) }
    ensures meets { Runs (spec.runs_value (program T.table text.now) (object_of met))
        state.old (M.log mem.old) result state.new (M.log mem.new) }
    ensures here { OnOk result (page_is_here (M.log mem.new).view ≡ true) }
{
    match met {
        Met::Operator(op) => {
            let act = run_operator::<M, T>(op, text, state, mem)?;
            Ok(act)
        }
        Met::Integer(n) => {
            let (act, object) = pushed(integer(n), state)?;
            discard(object);
            Ok(act)
        }
        Met::Object(value) => {
            let (act, value) = run_value::<M, T>(alloc, value, text, state, mem)?;
            discard(value);
            Ok(act)
        }
    }
}

/// Executes a name.
#[tactic(auto, using(crate::proofs::Searches::dicts_here, crate::proofs::Searches::found_here))]
fn run_name<M: Mem, T: Operators<M>>(
    alloc: Global,
    key: Key,
    access: Access,
    text: &[u8],
    state: &mut State,
    mem: &mut M,
) -> Result<Next, NoMemory>
    requires { IsReady 1 text.now state.old (M.log mem.old).view }
    ensures { Comes (led (program T.table text.now) (name_object key access)
        (name_answer (program T.table text.now) key state.old (M.log mem.old)))
        result state.new (M.log mem.new) }
{
    let met = match found(&state.regs.dicts, &key, mem) {
        Ok(met) => met,
        Err(Refusal::Error(error)) => {
            return Ok(Next::Raised {
                error,
                object: named(key, access),
            });
        }
        Err(Refusal::NoMemory) => return Err(NoMemory),
    };
    let act = run_found::<M, T>(alloc, met, text, state, mem)?;
    if is_done(&act) {
        return Ok(Next::Goes);
    }
    settle::<M, T>(act, named(key, access), text, state, mem)
}

/// Executes an object that was met as a token or an item.
#[tactic(auto, using(crate::proofs::Led::literal_led, crate::proofs::Led::other_led, crate::proofs::Led::called_led, crate::proofs::Led::procedure_led, crate::proofs::Led::other_fits))]
fn execute_object<M: Mem, T: Operators<M>>(
    alloc: Global,
    object: Object,
    text: &[u8],
    state: &mut State,
    mem: &mut M,
) -> Result<Next, NoMemory>
    requires ready { IsReady 1 text.now state.old (M.log mem.old).view }
    requires fits { FitsHere (M.log mem.old).view object }
    ensures { Comes (led (program T.table text.now) object
        (met_answer (program T.table text.now) object state.old (M.log mem.old)))
        result state.new (M.log mem.new) }
{
    if !object.exec {
        return push_object(object, state);
    }
    match called(object) {
        Executable::Name { key, access } => {
            run_name::<M, T>(alloc, key, access, text, state, mem)
        }
        Executable::Procedure(object) => push_object(object, state),
        Executable::Other(object) => {
            let (act, object) = run_value::<M, T>(alloc, object, text, state, mem)?;
            settle::<M, T>(act, object, text, state, mem)
        }
    }
}

/// Runs an operator that was met.
#[tactic(auto, using(crate::proofs::Led::bound_led, crate::proofs::Led::done_settled))]
fn run_bound<M: Mem, T: Operators<M>>(
    op: Op,
    text: &[u8],
    state: &mut State,
    mem: &mut M,
) -> Result<Next, NoMemory>
    requires { IsReady 1 text.now state.old (M.log mem.old).view }
    ensures { Comes (led (program T.table text.now) (object_of (Met.Operator op))
        (met_answer (program T.table text.now) (object_of (Met.Operator op)) state.old
        (M.log mem.old)))
        result state.new (M.log mem.new) }
{
    let act = run_operator::<M, T>(op, text, state, mem)?;
    if is_done(&act) {
        return Ok(Next::Goes);
    }
    settle::<M, T>(act, bound(op), text, state, mem)
}

/// Executes what was met as a token or an item.
pub(crate) fn execute<M: Mem, T: Operators<M>>(
    alloc: Global,
    met: Met,
    text: &[u8],
    state: &mut State,
    mem: &mut M,
) -> Result<Next, NoMemory>
    requires ready { IsReady 1 text.now state.old (M.log mem.old).view }
    requires fits { FitsHere (M.log mem.old).view (object_of met) }
    ensures { Comes (led (program T.table text.now) (object_of met)
        (met_answer (program T.table text.now) (object_of met) state.old (M.log mem.old)))
        result state.new (M.log mem.new) }
{
    match met {
        Met::Operator(op) => run_bound::<M, T>(op, text, state, mem),
        Met::Integer(n) => push_object(integer(n), state),
        Met::Object(object) => execute_object::<M, T>(alloc, object, text, state, mem),
    }
}
