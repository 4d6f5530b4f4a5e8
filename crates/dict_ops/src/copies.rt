//! Dictionaries that are copied.
#![tactic(auto, using(ps_operator::proofs::Then::answer_then, ps_operator::proofs::Standing::dict_stands, crate::proofs::Pairing::pairs_take_none))]

ghost use Rattle.std.specs.Prelude.{◌≡◌, [], true, OnOk};
ghost use Rattle.ps_meaning.specs.Ready.{Ready};
ghost use Rattle.ps_operator.specs.Owes.{Does, Yields};
ghost use Rattle.ps_operator.specs.Registers.{any_of};
ghost use Rattle.ps_operator.specs.Standing.{is_dict};
ghost use Rattle.ps_operator.specs.Budgets.{is_local};
ghost use Rattle.ps_objects.specs.Key.{cell_of_key};
ghost use Rattle.dict_ops.specs.Copies as spec;

use crate::entries::is_open;
use crate::pairs::store_pairs;
use ps_kinds::{
    Cell, ErrorName, Key, Keys, NoMemory, Object, Operands, Pair, Refusal, Space, Stack, State,
};
use ps_operator::{Mem, look_access, look_entry, look_keys, storable_entry, unit_room};
use std::alloc::Global;

fn is_local(key: &Key) -> bool
    ensures { result ≡ is_local (cell_of_key key.now) }
{
    match key.cell() {
        Some(cell) => cell.space == Space::Local,
        None => false,
    }
}

/// Whether one of these keys is a local composite.
#[tactic(auto, using(ps_operator::proofs::StoreSteps::any_hit, ps_operator::proofs::StoreSteps::any_miss))]
fn any_local(keys: &Keys) -> bool
    ensures { result ≡ any_of (λ k. is_local (cell_of_key k)) keys.now }
{
    for at in 0..keys.len() {
        if is_local(keys.at(at)) {
            return true;
        }
    }
    false
}

/// Whether these keys may stand in a dictionary: invalidaccess.
fn keys_storable(dict: Cell, keys: &Keys) -> Result<(), ErrorName>
    ensures { result ≡ spec.keys_storable dict keys.now }
{
    if dict.space == Space::Global && any_local(keys) {
        Err(ErrorName::InvalidAccess)
    } else {
        Ok(())
    }
}

/// Whether a value may stand under a key: invalidaccess.
fn value_storable(dict: Cell, key: &Key, value: &Option<Object>) -> Result<(), ErrorName>
    ensures { result ≡ spec.value_storable dict key.now value.now }
{
    match value {
        Some(object) => storable_entry(dict, key.cell(), &object.kind),
        None => Ok(()),
    }
}

/// Pushes the pair of a key, where an entry is there.
fn push_pair(pairs: &mut Stack<Pair>, key: Key, found: Option<Object>) -> Result<(), NoMemory>
    ensures { OnOk result (pairs.new ≡ spec.with_pair key found pairs.old) }
{
    if let Some(value) = found {
        pairs.push(Pair { key, value })?;
    }
    Ok(())
}

/// The pairs of a dictionary with these keys, the last first: invalidaccess where one may not lie in the other dictionary.
#[tactic(auto, using(crate::proofs::Copying::copy_step, crate::proofs::Copying::copy_refused))]
fn pairs_for<M: Mem>(
    alloc: Global,
    target: Cell,
    dict: Cell,
    keys: &Keys,
    mem: &mut M,
) -> Result<Stack<Pair>, Refusal>
    requires { is_dict (M.log mem.old).view dict ≡ true }
    ensures view { OnOk result ((M.log mem.new).view ≡ (M.log mem.old).view) }
    ensures told { Yields (spec.pairs_for target dict keys.now []) (M.log mem.old)
        result (M.log mem.new) }
{
    let mut pairs = Stack::new(alloc);
    for at in 0..keys.len() {
        let key = keys.at(at).copy()?;
        let found = look_entry(mem, dict, key.copy()?)?;
        if let Err(error) = value_storable(target, &key, &found) {
            return Err(Refusal::Error(error));
        }
        push_pair(&mut pairs, key, found)?;
    }
    Ok(pairs)
}

/// Room for `n` more units, where the entries need not be looked at to know what else is refused: VMerror.
fn early_room(state: &State, target: Cell, n: u64) -> Result<(), ErrorName>
    ensures { result ≡ spec.early_room state.now target n }
{
    if target.space == Space::Global {
        Ok(())
    } else {
        unit_room(state.kind, state.units, n)
    }
}

pub(crate) fn copy<M: Mem>(state: &mut State, mem: &mut M) -> Result<(), Refusal>
    requires { Ready state.old (M.log mem.old).view }
    ensures { Does spec.dict_copy state.old (M.log mem.old) result state.new (M.log mem.new) }
{
    let operands = &state.regs.operands;
    let alloc = operands.alloc();
    operands.need(2)?;
    let object = operands.object(0)?;
    let target = operands.dict(0)?;
    let source = operands.dict(1)?;
    look_access(mem, target)?.writable()?;
    look_access(mem, source)?.readable()?;
    is_open(target)?;
    let keys = look_keys(mem, source)?;
    keys_storable(target, &keys)?;
    let units = keys.len() as u64;
    early_room(state, target, units)?;
    let pairs = pairs_for(alloc, target, source, &keys, mem)?;
    unit_room(state.kind, state.units, units)?;
    let object = object.copy()?;
    store_pairs(mem, target, pairs)?;
    state.units += units;
    state.regs.operands.shrink(2);
    state.regs.operands.push(object)?;
    Ok(())
}
