//! Arrays that are looked at whole, and stores along an array.
ghost use Rattle.std.specs.Prelude.{◌≡◌, ◌+◌, ◌<◌, ◌≤◌, length, slice_get, Some, true, IfOk, OnOk, vec_len};
ghost use Rattle.ps_meaning.specs.Answer.{changed_in};
ghost use Rattle.ps_operator.specs.Arrays as spec;
ghost use Rattle.ps_operator.specs.Owes.{Finds};
ghost use Rattle.ps_operator.specs.Standing.{is_array, Stays};
ghost use Rattle.ps_operator.specs.Storing.{item_stores};

use crate::{Mem, look_item, store_item};
use ps_kinds::{Interval, NoMemory, Object};
use std::alloc::Global;

/// The items of an interval of an array, each looked at.
#[tactic(auto, using(crate::proofs::LookSteps::items_step))]
pub fn items_of<M: Mem>(
    alloc: Global,
    array: Interval,
    mem: &mut M,
) -> Result<Vec<Object>, NoMemory>
    requires { is_array (M.log mem.old).view array ≡ true }
    ensures view { OnOk result ((M.log mem.new).view ≡ (M.log mem.old).view) }
    ensures length { IfOk result (λ v. vec_len v ≡ array.len) }
    ensures told { IfOk result (λ v.
        Finds (spec.items_of array) (M.log mem.old) v.items (M.log mem.new)) }
{
    let mut items = Vec::new(alloc);
    for at in 0..array.len {
        items.push(look_item(mem, array, at)?)?;
    }
    Ok(items)
}

fn copy_at(items: &[Object], at: usize) -> Result<Object, NoMemory>
    requires { at < length items.now }
    ensures { IfOk result (λ x. slice_get items.now at ≡ Some x) }
{
    items[at].copy()
}

/// Stores copies of objects from a place of an interval on.
#[tactic(auto, using(crate::proofs::StoreSteps::item_step, crate::proofs::StoreSteps::item_end, crate::proofs::StoreSteps::stays_itself, crate::proofs::StoreSteps::stays_on))]
pub fn store_items<M: Mem>(
    mem: &mut M,
    array: Interval,
    from: u32,
    items: &[Object],
) -> Result<(), NoMemory>
    requires array { is_array (M.log mem.old).view array ≡ true }
    requires within { from + length items.now ≤ array.len }
    ensures stored { OnOk result (M.log mem.new
        ≡ changed_in (M.log mem.old) (item_stores array from items.now)) }
    ensures stays { OnOk result (Stays (M.log mem.old).view (M.log mem.new).view) }
{
    for at in 0..items.len() {
        store_item(mem, array, from + at as u32, copy_at(items, at)?)?;
    }
    Ok(())
}
