//! Arrays with their items, and objects of every type.
ghost use Rattle.std.specs.Prelude.{◌≡◌, ◌++◌, ◌-◌, ◌<◌, true, OnOk};
ghost use Rattle.ps_meaning.specs.Ready.{Ready};
ghost use Rattle.ps_operator.specs.Standing.{is_array, is_named};
ghost use Rattle.full_texts.specs.Full as spec;
ghost use Rattle.full_texts.specs.Growing.{Grows};

use crate::growing::push_piece;
use crate::simple::push_simple_piece;
use crate::strings::push_string;
use ps_kinds::{Interval, Kind, Object, Refusal, State, Text};
use ps_operator::{Mem, look_item};

/// The levels of arrays that are shown.
const LEVELS: u32 = 16;

/// What stands before the item at a place.
fn gap(at: u32) -> &'static [u8]
    ensures { result.now ≡ spec.gap at }
{
    if at == 0 { b"" } else { b" " }
}

fn opening(exec: bool) -> &'static [u8]
    ensures { result.now ≡ spec.opening exec }
{
    if exec { b"{" } else { b"[" }
}

fn closing(exec: bool) -> &'static [u8]
    ensures { result.now ≡ spec.closing exec }
{
    if exec { b"}" } else { b"]" }
}

/// Appends the items of an array, those that are arrays within so many levels.
#[cycle(shown)]
#[tactic(auto, using(crate::proofs::Steps::gap_refused, crate::proofs::Steps::item_refused, crate::proofs::Steps::item_step, crate::proofs::Named::ready_in, crate::proofs::Named::named_in))]
fn push_items<M: Mem>(
    text: &mut Text,
    array: Interval,
    levels: u32,
    state: &State,
    mem: &mut M,
) -> Result<(), Refusal>
    requires ready { Ready state.now (M.log mem.old).view }
    requires array { is_array (M.log mem.old).view array ≡ true }
    ensures view { OnOk result ((M.log mem.new).view ≡ (M.log mem.old).view) }
    ensures told { Grows (spec.items_within levels state.now array text.old)
        (M.log mem.old) result text.new (M.log mem.new) }
{
    for at in 0..array.len {
        push_piece(text, gap(at), state)?;
        let item = look_item(mem, array, at)?;
        push_within(text, &item, levels, state, mem)?;
    }
    Ok(())
}

/// Appends an array with its items, itself the first of so many levels.
#[cycle(shown)]
#[tactic(auto, using(crate::proofs::Steps::too_deep, crate::proofs::Steps::array_unread, crate::proofs::Steps::array_unopened, crate::proofs::Steps::array_cut, crate::proofs::Steps::array_closed))]
fn push_array<M: Mem>(
    text: &mut Text,
    object: &Object,
    array: Interval,
    levels: u32,
    state: &State,
    mem: &mut M,
) -> Result<(), Refusal>
    requires ready { Ready state.now (M.log mem.old).view }
    requires array { is_array (M.log mem.old).view array ≡ true }
    ensures view { OnOk result ((M.log mem.new).view ≡ (M.log mem.old).view) }
    ensures told { Grows
        (spec.levels_shown levels state.now object.now.exec object.now.access array text.old)
        (M.log mem.old) result text.new (M.log mem.new) }
{
    if levels == 0 {
        return push_piece(text, b"...", state);
    }
    if let Err(_) = object.access.readable() {
        return push_piece(text, b"-array-", state);
    }
    push_piece(text, opening(object.exec), state)?;
    push_items(text, array, levels - 1, state, mem)?;
    push_piece(text, closing(object.exec), state)
}

/// Appends an object, where it is an array the first of so many levels.
#[cycle(shown)]
fn push_within<M: Mem>(
    text: &mut Text,
    object: &Object,
    levels: u32,
    state: &State,
    mem: &mut M,
) -> Result<(), Refusal>
    requires ready { Ready state.now (M.log mem.old).view }
    requires named { is_named (M.log mem.old).view object.now.kind ≡ true }
    ensures view { OnOk result ((M.log mem.new).view ≡ (M.log mem.old).view) }
    ensures told { Grows (spec.shown_within levels state.now object.now text.old)
        (M.log mem.old) result text.new (M.log mem.new) }
{
    match &object.kind {
        Kind::Str(part) => push_string(text, object.access, *part, state, mem),
        Kind::Array { interval, .. } => push_array(text, object, *interval, levels, state, mem),
        _ => push_simple_piece(text, object, state),
    }
}

/// Appends the full text of an object: invalidaccess where a string in it may not be read, limitcheck as soon as the section may not say
/// so much.
pub fn push_full_text<M: Mem>(
    text: &mut Text,
    object: &Object,
    state: &State,
    mem: &mut M,
) -> Result<(), Refusal>
    requires ready { Ready state.now (M.log mem.old).view }
    requires named { is_named (M.log mem.old).view object.now.kind ≡ true }
    ensures view { OnOk result ((M.log mem.new).view ≡ (M.log mem.old).view) }
    ensures told { Grows (spec.full_text state.now object.now text.old)
        (M.log mem.old) result text.new (M.log mem.new) }
{
    push_within(text, object, LEVELS, state, mem)
}
