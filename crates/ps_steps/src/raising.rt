//! Errors.
ghost use Rattle.std.specs.Prelude.{◌≡◌, length, OnOk, IfOk};
ghost use Rattle.ps_names.specs.Op.{default_entry};
ghost use Rattle.ps_memory.specs.Memory.{value_at};
ghost use Rattle.ps_meaning.specs.Answer.{looked_in};
ghost use Rattle.ps_meaning.specs.Start.{operator};
ghost use Rattle.ps_execution.specs.Execution.{failed};
ghost use Rattle.ps_execution.specs.Machine.{move_raise};
ghost use Rattle.ps_execution.specs.Objects as spec;
ghost use Rattle.ps_steps.specs.Next.{program, Makes};
ghost use Rattle.ps_steps.specs.Operators.{FitsHere};
ghost use Rattle.ps_reader.specs.Reading.{IsReady};

use crate::executing::run_value;
use crate::settling::settle;
use crate::turning::take_turn;
use crate::{Next, Operators, Outcome};
use ps_kinds::{
    Access, Cell, ErrorName, FRAME_LIMIT, Key, Kind, Loc, Name, NoMemory, OPERAND_LIMIT, Object,
    Op, Space, State, Value,
};
use std::alloc::Global;
use vm_mem::Mem;

/// Pushes the executed object of an error.
fn push_failed(object: Object, state: &mut State) -> Result<(), NoMemory>
    ensures { OnOk result (state.new ≡ failed object state.old) }
{
    if state.regs.operands.len() > OPERAND_LIMIT {
        state.regs.operands.shrink(1);
    }
    state.regs.operands.push(object)?;
    Ok(())
}

fn is_body_kind(kind: &Kind) -> bool
    ensures { result ≡ spec.is_body_kind kind.now }
{
    match kind {
        Kind::Array { .. } => true,
        Kind::Str { .. } => true,
        _ => false,
    }
}

fn default_object(error: ErrorName) -> Object
    ensures { result ≡ operator (default_entry error) }
{
    Object {
        kind: Kind::Operator(Op::default_entry(error)),
        exec: true,
        access: Access::Unlimited,
    }
}

fn chosen(error: ErrorName, frames: usize, value: Value) -> Object
    ensures { result ≡ spec.entry_in error frames value }
{
    match value {
        Value::Object(object) => {
            if object.exec && is_body_kind(&object.kind) && frames >= FRAME_LIMIT {
                default_object(error)
            } else {
                object
            }
        }
        _ => default_object(error),
    }
}

fn place_of(alloc: Global, error: ErrorName) -> Result<Loc, NoMemory>
    ensures { IfOk result (λ place. place ≡ spec.error_entry error) }
{
    let dict = Cell {
        section: 0,
        count: 3,
        space: Space::Local,
    };
    let key = Key::Name(Name::from_bytes(alloc, error.as_bytes())?);
    Ok(Loc::Entry { dict, key })
}

/// Looks at the entry of an error.
fn entry<M: Mem>(
    alloc: Global,
    error: ErrorName,
    text: &[u8],
    state: &State,
    mem: &mut M,
) -> Result<Object, NoMemory>
    requires { IsReady 1 text.now state.now (M.log mem.old).view }
    ensures value { IfOk result (λ x. x ≡ spec.entry_in error
        (length state.now.frames) (value_at (M.log mem.old).view (spec.error_entry error))) }
    ensures log { OnOk result (M.log mem.new ≡ looked_in (M.log mem.old) (spec.error_entry error)) }
{
    let place = place_of(alloc, error)?;
    let value = mem.look(&place)?;
    Ok(chosen(error, state.frames.len(), value))
}

/// Executes the entry of an error, in a turn of its own.
#[tactic(auto, using(crate::proofs::Raises::raise_spent, crate::proofs::Raises::raise_ready, crate::proofs::Raises::raise_fits, crate::proofs::Raises::entered_ready, crate::proofs::Raises::raise_came, crate::proofs::Turns::turn_ready))]
pub(crate) fn raise<M: Mem, T: Operators<M>>(
    alloc: Global,
    error: ErrorName,
    object: Object,
    text: &[u8],
    state: &mut State,
    mem: &mut M,
) -> Result<Next, NoMemory>
    requires ready { IsReady 1 text.now state.old (M.log mem.old).view }
    requires fits { FitsHere (M.log mem.old).view object }
    ensures { Makes (move_raise (program T.table text.now) error object state.old) (M.log mem.old)
        result state.new (M.log mem.new) }
{
    push_failed(object, state)?;
    if !take_turn(state) {
        state.frames.clear();
        return Ok(Next::Ended {
            outcome: Outcome::Spent,
        });
    }
    let entry = entry(alloc, error, text, state, mem)?;
    let (act, entry) = run_value::<M, T>(alloc, entry, text, state, mem)?;
    settle::<M, T>(act, entry, text, state, mem)
}
