//! Operands, items and bytes that are copied (section 8.2 of the language manual).
#![tactic(auto, using(ps_operator::proofs::Then::answer_then, ps_operator::proofs::Storing::space_within, ps_operator::proofs::StoreSteps::items_take_none, ps_operator::proofs::StoreSteps::bytes_take_none, crate::proofs::Standing::part_stands, crate::proofs::Standing::array_ends, crate::proofs::Standing::string_ends))]

ghost use Rattle.std.specs.Prelude.{◌≡◌, ◌+◌, ◌^◌, ◌<◌, ◌≤◌, ◌++◌, length, take, true, OnOk};
ghost use Rattle.ps_meaning.specs.Ready.{Ready};
ghost use Rattle.ps_operator.specs.Owes.{Does, DoesAlone};
ghost use Rattle.ps_operator.specs.Registers.{ops};
ghost use Rattle.ps_operator.specs.Standing.{is_array, is_string};
ghost use Rattle.array_ops.specs.Intervals as spec;

use crate::intervals::{Move, early_room, move_of, storable_items};
use crate::parts::{count_at, over_of, part_at, piece};
use ps_kinds::{ErrorName, Interval, NoMemory, Objects, Operands, Refusal, State};
use ps_operator::{Mem, bytes_of, push_copy, space_in, store_bytes, store_items};

/// Copies all items of an array to the front of another, which is the newest operand and is left.
fn copy_items<M: Mem>(
    state: &mut State,
    mem: &mut M,
    target: Interval,
    source: Interval,
) -> Result<(), Refusal>
    requires target { is_array (M.log mem.old).view target ≡ true }
    requires source { is_array (M.log mem.old).view source ≡ true }
    requires there { 2 ≤ length (ops state.old) }
    ensures { Does (λ s. spec.copy_to s (Move.Items target source)) state.old (M.log mem.old)
        result state.new (M.log mem.new) }
{
    let operands = &mut state.regs.operands;
    let object = operands.object(0)?;
    let room = space_in(target.len, source.len, 0);
    early_room(target, room)?;
    let items = storable_items(operands.alloc(), target.cell, source, mem)?;
    let at = room?;
    let front = over_of(piece(target, 0, source.len), object)?;
    store_items(mem, target, at, items.as_slice())?;
    operands.shrink(2);
    operands.push(front)?;
    Ok(())
}

/// Copies all bytes of a string to the front of another, which is the newest operand and is left.
fn copy_bytes<M: Mem>(
    state: &mut State,
    mem: &mut M,
    target: Interval,
    source: Interval,
) -> Result<(), Refusal>
    requires target { is_string (M.log mem.old).view target ≡ true }
    requires source { is_string (M.log mem.old).view source ≡ true }
    requires there { 2 ≤ length (ops state.old) }
    ensures { Does (λ s. spec.copy_to s (Move.Bytes target source)) state.old (M.log mem.old)
        result state.new (M.log mem.new) }
{
    let operands = &mut state.regs.operands;
    let object = operands.object(0)?;
    let at = space_in(target.len, source.len, 0)?;
    let front = over_of(piece(target, 0, source.len), object)?;
    let bytes = bytes_of(operands.alloc(), source, mem)?;
    store_bytes(mem, target, at, bytes.as_slice())?;
    operands.shrink(2);
    operands.push(front)?;
    Ok(())
}

/// What `copy` does of two arrays or two strings.
fn copy_part<M: Mem>(state: &mut State, mem: &mut M) -> Result<(), Refusal>
    requires { Ready state.old (M.log mem.old).view }
    ensures { Does spec.copy_part state.old (M.log mem.old) result state.new (M.log mem.new) }
{
    let operands = &state.regs.operands;
    operands.need(2)?;
    let target = part_at(operands, 0)?;
    let source = part_at(operands, 1)?;
    let both = move_of(target, source)?;
    operands.writable(0)?;
    operands.readable(1)?;
    match both {
        Move::Items { target, source } => copy_items(state, mem, target, source),
        Move::Bytes { target, source } => copy_bytes(state, mem, target, source),
    }
}

/// Whether `n` more operands stay within the limit, as none more always do: stackoverflow.
pub(crate) fn more_room(operands: &Objects, n: usize) -> Result<(), ErrorName>
    requires { n < 2 ^ 32 }
    ensures { result ≡ spec.more_room n operands.now }
{
    if n > 0 { operands.room(n) } else { Ok(()) }
}

/// Pushes copies of the newest `count` operands.
#[tactic(auto, using(crate::proofs::Copying::copies_begin, crate::proofs::Copying::copies_step, crate::proofs::Copying::copies_end, crate::proofs::Copying::enough))]
fn push_copies(operands: &mut Objects, count: usize) -> Result<(), NoMemory>
    requires { count ≤ length operands.old }
    ensures { OnOk result (operands.new ≡ take count operands.old ++ operands.old) }
{
    for _ in 0..count {
        push_copy(operands, count - 1)?;
    }
    Ok(())
}

/// What `copy` does of an integer and operands below it.
fn copy_operands(state: &mut State) -> Result<(), Refusal>
    ensures { DoesAlone spec.copy_operands state.old result state.new }
{
    let operands = &mut state.regs.operands;
    let count = count_at(operands, 0)? as usize;
    operands.need(count + 1)?;
    more_room(operands, count.saturating_sub(1))?;
    operands.shrink(1);
    push_copies(operands, count)?;
    Ok(())
}

fn is_integer_at(operands: &Objects, depth: usize) -> bool
    ensures { result ≡ spec.is_integer_at depth operands.now }
{
    operands.integer(depth).is_ok()
}

#[tactic(auto, using(crate::proofs::Going::does_as, crate::proofs::Going::operands_go, crate::proofs::Going::part_goes))]
pub(crate) fn copy<M: Mem>(state: &mut State, mem: &mut M) -> Result<(), Refusal>
    requires { Ready state.old (M.log mem.old).view }
    ensures { Does spec.copy state.old (M.log mem.old) result state.new (M.log mem.new) }
{
    let operands = &state.regs.operands;
    operands.need(1)?;
    if is_integer_at(operands, 0) {
        copy_operands(state)
    } else {
        copy_part(state, mem)
    }
}
