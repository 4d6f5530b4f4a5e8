//! What is met as an item, or found under a name.
ghost use Rattle.std.specs.Prelude.{◌≡◌, ◌<◌, ◌+◌, true, option_map, IfOk, OnOk};
ghost use Rattle.ps_objects.specs.declared.place.Loc.TheVariants as loc;
ghost use Rattle.ps_memory.specs.Memory.{value_at};
ghost use Rattle.ps_meaning.specs.Answer.{looked_in};
ghost use Rattle.ps_execution.specs.Objects.{item_in};
ghost use Rattle.ps_operator.specs.Keys.{find};
ghost use Rattle.ps_operator.specs.Standing.{is_array, are_dicts};
ghost use Rattle.vm_mem.specs.Glances.{object_told};
ghost use Rattle.ps_steps.specs.Met.{object_of, Meets};

use ps_kinds::{Access, DictStack, Interval, Key, Kind, NoMemory, Object, Op, Refusal};
use ps_operator::{Glance, glance_item, look_entry, look_item, seek};
use vm_mem::Mem;

/// What is met as an item, or found under a name. Operators and integers are told without a copy of what stands there.
#[derive(Drop)]
pub(crate) enum Met {
    /// An executable operator with unlimited access.
    Operator(Op),

    /// A literal integer with unlimited access.
    Integer(i32),

    /// Any object.
    Object(Object),
}

/// An executable operator.
pub(crate) fn bound(op: Op) -> Object
    ensures { result ≡ object_of (Met.Operator op) }
{
    Object {
        kind: Kind::Operator(op),
        exec: true,
        access: Access::Unlimited,
    }
}

/// A literal integer.
pub(crate) fn integer(n: i32) -> Object
    ensures { result ≡ object_of (Met.Integer n) }
{
    Object {
        kind: Kind::Integer(n),
        exec: false,
        access: Access::Unlimited,
    }
}

/// What a glance tells whole.
#[inline]
fn told(glance: Glance) -> Option<Met>
    ensures { option_map object_of result ≡ object_told glance }
{
    match glance {
        Glance::Operator(op) => Some(Met::Operator(op)),
        Glance::Integer(n) => Some(Met::Integer(n)),
        Glance::Real(_) | Glance::Boolean(_) | Glance::Procedure { .. } => {
            match glance.object() {
                Some(object) => Some(Met::Object(object)),
                None => None,
            }
        }
        Glance::Absent | Glance::Other => None,
    }
}

/// The item at a place of an interval.
#[tactic(auto, using(crate::proofs::Glances::item_told, crate::proofs::Glances::item_still, crate::proofs::Glances::item_looked, crate::proofs::Glances::looked_twice))]
pub(crate) fn item<M: Mem>(array: Interval, at: u32, mem: &mut M) -> Result<Met, NoMemory>
    requires array { is_array (M.log mem.old).view array ≡ true }
    requires at { at < array.len }
    ensures value { IfOk result (λ m. object_of m
        ≡ item_in (value_at (M.log mem.old).view (loc.Item array.cell (array.start + at)))) }
    ensures log { OnOk result (M.log mem.new
        ≡ looked_in (M.log mem.old) (loc.Item array.cell (array.start + at))) }
{
    let glance = glance_item(mem, array, at)?;
    if let Some(met) = told(glance) {
        return Ok(met);
    }
    let object = look_item(mem, array, at)?;
    Ok(Met::Object(object))
}

/// The value of a key in the newest dictionary that has it: undefined. The key's hash is taken once.
#[tactic(auto, using(crate::proofs::Glances::sought_met, ps_operator::proofs::LookSteps::sought_there, ps_operator::proofs::LookSteps::sought_refused))]
pub(crate) fn found<M: Mem>(dicts: &DictStack, key: &Key, mem: &mut M) -> Result<Met, Refusal>
    requires { are_dicts (M.log mem.old).view dicts.now ≡ true }
    ensures view { OnOk result ((M.log mem.new).view ≡ (M.log mem.old).view) }
    ensures told { Meets (find dicts.now key.now) (M.log mem.old) result (M.log mem.new) }
{
    let sought = match seek(dicts, key, mem) {
        Ok(sought) => sought,
        Err(refusal) => return Err(refusal),
    };
    if let Some(met) = told(sought.glance) {
        return Ok(met);
    }
    let same = key.copy()?;
    match look_entry(mem, sought.dict, same)? {
        Some(object) => Ok(Met::Object(object)),
        None => unreachable!(),
    }
}
