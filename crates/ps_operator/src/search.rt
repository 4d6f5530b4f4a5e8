//! The search for a name.
ghost use Rattle.std.specs.Prelude.{◌≡◌, true, OnOk, IfOk};
ghost use Rattle.ps_operator.specs.Owes.{Yields};
ghost use Rattle.ps_operator.specs.Standing.{is_dict, are_dicts};
ghost use Rattle.ps_operator.specs.Keys as spec;

use crate::{Glance, Mem, glance_entry, look_entry};
use ps_kinds::{Cell, DictStack, ErrorName, Key, Object, Refusal};
use vm_mem::hash_of;

/// What a search found without a copy: the dictionary that has the key, and what a glance tells of the value there.
#[derive(Clone, Copy)]
pub struct Sought {
    pub dict: Cell,
    pub glance: Glance,
}

/// The newest dictionary that has a key, and what a glance tells of the value there: undefined.
#[tactic(auto, using(crate::proofs::LookSteps::seek_hit, crate::proofs::LookSteps::seek_miss, crate::proofs::Looked::dict_among))]
pub fn seek<M: Mem>(dicts: &DictStack, key: &Key, mem: &mut M) -> Result<Sought, Refusal>
    requires { are_dicts (M.log mem.old).view dicts.now ≡ true }
    ensures view { OnOk result ((M.log mem.new).view ≡ (M.log mem.old).view) }
    ensures dict { IfOk result (λ sought. is_dict (M.log mem.new).view sought.dict ≡ true) }
    ensures told { Yields (spec.seek dicts.now key.now) (M.log mem.old) result (M.log mem.new) }
{
    let hash = hash_of(key);
    for depth in 0..dicts.len() {
        let dict = *dicts.at(depth);
        let glance = glance_entry(mem, dict, key, hash)?;
        if !glance.is_absent() {
            return Ok(Sought { dict, glance });
        }
    }
    Err(Refusal::Error(ErrorName::Undefined))
}

/// The value of a key in the newest dictionary that has it: undefined.
#[tactic(auto, using(crate::proofs::LookSteps::sought_there, crate::proofs::LookSteps::sought_refused))]
pub fn find<M: Mem>(dicts: &DictStack, key: Key, mem: &mut M) -> Result<Object, Refusal>
    requires { are_dicts (M.log mem.old).view dicts.now ≡ true }
    ensures view { OnOk result ((M.log mem.new).view ≡ (M.log mem.old).view) }
    ensures told { Yields (spec.find dicts.now key) (M.log mem.old) result (M.log mem.new) }
{
    let sought = match seek(dicts, &key, mem) {
        Ok(sought) => sought,
        Err(refusal) => return Err(refusal),
    };
    if let Some(object) = sought.glance.object() {
        return Ok(object);
    }
    match look_entry(mem, sought.dict, key)? {
        Some(object) => Ok(object),
        None => unreachable!(),
    }
}
