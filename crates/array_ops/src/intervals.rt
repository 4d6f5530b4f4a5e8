//! Parts that are cut out, and items and bytes that move from one part to another (section 8.2 of the language manual).
#![tactic(auto, using(ps_operator::proofs::Then::answer_then, ps_operator::proofs::Storing::space_within, ps_operator::proofs::StoreSteps::items_take_none, ps_operator::proofs::StoreSteps::bytes_take_none, crate::proofs::Standing::part_stands, crate::proofs::Standing::part_ends))]

ghost use Rattle.std.specs.Prelude.{◌≡◌, ◌≤◌, length, true, OnOk, IfOk};
ghost use Rattle.ps_meaning.specs.Ready.{Ready};
ghost use Rattle.ps_operator.specs.Owes.{Does, Yields};
ghost use Rattle.ps_operator.specs.Registers.{ops};
ghost use Rattle.ps_operator.specs.Standing.{is_array, is_string};
ghost use Rattle.array_ops.specs.Intervals as spec;

use crate::parts::{Part, interval_of, over_of, part_at, piece};
use ps_kinds::{
    Cell, ErrorName, Interval, Object, Objects, Operands, Refusal, Sequence, Space, State,
};
use ps_operator::{
    Mem, bytes_of, look_item, natural_of, space_in, storable, store_bytes, store_items,
};
use std::alloc::Global;

/// Two parts of one type, from one of which all goes to the other.
#[derive(Clone, Copy)]
pub(crate) enum Move {
    Items { target: Interval, source: Interval },
    Bytes { target: Interval, source: Interval },
}

pub(crate) fn getinterval<M: Mem>(state: &mut State, _mem: &M) -> Result<(), Refusal>
    requires { Ready state.old (M.log _mem.now).view }
    ensures { Does spec.getinterval state.old (M.log _mem.now) result state.new (M.log _mem.now) }
{
    let operands = &mut state.regs.operands;
    operands.need(3)?;
    let count = operands.integer(0)?;
    let i = operands.integer(1)?;
    let part = part_at(operands, 2)?;
    let object = operands.object(2)?;
    operands.readable(2)?;
    let len = natural_of(count)?;
    let at = space_in(interval_of(part).len, len, i)?;
    let cut = over_of(piece(interval_of(part), at, len), object)?;
    operands.shrink(3);
    operands.push(cut)?;
    Ok(())
}

/// Two parts of one type: typecheck.
pub(crate) fn move_of(target: Part, source: Part) -> Result<Move, ErrorName>
    ensures { result ≡ spec.move_of target source }
{
    match target {
        Part::Items(target) => match source {
            Part::Items(source) => Ok(Move::Items { target, source }),
            Part::Bytes(_) => Err(ErrorName::TypeCheck),
        },
        Part::Bytes(target) => match source {
            Part::Items(_) => Err(ErrorName::TypeCheck),
            Part::Bytes(source) => Ok(Move::Bytes { target, source }),
        },
    }
}

/// The items of an array, each looked at: invalidaccess where one may not lie in a cell.
#[tactic(auto, using(crate::proofs::Moving::item_passes, crate::proofs::Moving::item_refused))]
pub(crate) fn storable_items<M: Mem>(
    alloc: Global,
    cell: Cell,
    array: Interval,
    mem: &mut M,
) -> Result<Sequence<Object>, Refusal>
    requires { is_array (M.log mem.old).view array ≡ true }
    ensures view { OnOk result ((M.log mem.new).view ≡ (M.log mem.old).view) }
    ensures length { IfOk result (λ items. length items ≡ array.len) }
    ensures told { Yields (spec.storable_items cell array) (M.log mem.old)
        result (M.log mem.new) }
{
    let mut items = Sequence::new(alloc);
    for at in 0..array.len {
        let item = look_item(mem, array, at)?;
        if let Err(error) = storable(cell, &item.kind) {
            return Err(Refusal::Error(error));
        }
        items.push(item)?;
    }
    Ok(items)
}

/// Asks early for the room for items, where no item need be looked at to know what else is refused: rangecheck.
pub(crate) fn early_room(target: Interval, room: Result<u32, ErrorName>) -> Result<(), ErrorName>
    ensures { result ≡ spec.early_room target room }
{
    if target.cell.space == Space::Global {
        return Ok(());
    }
    room?;
    Ok(())
}

/// The place that an operand tells, from which on the source fits in the target: typecheck, rangecheck.
fn room_at(
    operands: &Objects,
    depth: usize,
    target: Interval,
    source: Interval,
) -> Result<u32, ErrorName>
    ensures { result ≡ spec.room_at depth target source operands.now }
{
    space_in(target.len, source.len, operands.integer(depth)?)
}

/// Puts all items of an array at a place of another. All are looked at before the first is stored, so they may be the same.
#[tactic(auto, using(ps_operator::proofs::Then::answer_then, crate::proofs::Standing::room_within, ps_operator::proofs::StoreSteps::items_take_none))]
fn put_items<M: Mem>(
    state: &mut State,
    mem: &mut M,
    target: Interval,
    source: Interval,
) -> Result<(), Refusal>
    requires target { is_array (M.log mem.old).view target ≡ true }
    requires source { is_array (M.log mem.old).view source ≡ true }
    requires there { 3 ≤ length (ops state.old) }
    ensures { Does (λ s. spec.put_move s (Move.Items target source)) state.old (M.log mem.old)
        result state.new (M.log mem.new) }
{
    let operands = &mut state.regs.operands;
    let room = room_at(operands, 1, target, source);
    early_room(target, room)?;
    let items = storable_items(operands.alloc(), target.cell, source, mem)?;
    let at = room?;
    store_items(mem, target, at, items.as_slice())?;
    operands.shrink(3);
    Ok(())
}

/// Puts all bytes of a string at a place of another.
#[tactic(auto, using(ps_operator::proofs::Then::answer_then, crate::proofs::Standing::room_within, ps_operator::proofs::StoreSteps::bytes_take_none))]
fn put_bytes<M: Mem>(
    state: &mut State,
    mem: &mut M,
    target: Interval,
    source: Interval,
) -> Result<(), Refusal>
    requires target { is_string (M.log mem.old).view target ≡ true }
    requires source { is_string (M.log mem.old).view source ≡ true }
    requires there { 3 ≤ length (ops state.old) }
    ensures { Does (λ s. spec.put_move s (Move.Bytes target source)) state.old (M.log mem.old)
        result state.new (M.log mem.new) }
{
    let operands = &mut state.regs.operands;
    let at = room_at(operands, 1, target, source)?;
    let bytes = bytes_of(operands.alloc(), source, mem)?;
    store_bytes(mem, target, at, bytes.as_slice())?;
    operands.shrink(3);
    Ok(())
}

pub(crate) fn putinterval<M: Mem>(state: &mut State, mem: &mut M) -> Result<(), Refusal>
    requires { Ready state.old (M.log mem.old).view }
    ensures { Does spec.putinterval state.old (M.log mem.old) result state.new (M.log mem.new) }
{
    let operands = &state.regs.operands;
    operands.need(3)?;
    let source = part_at(operands, 0)?;
    operands.integer(1)?;
    let target = part_at(operands, 2)?;
    let both = move_of(target, source)?;
    operands.readable(0)?;
    operands.writable(2)?;
    match both {
        Move::Items { target, source } => put_items(state, mem, target, source),
        Move::Bytes { target, source } => put_bytes(state, mem, target, source),
    }
}
