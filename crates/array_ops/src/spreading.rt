//! Arrays that are spread over the operand stack, and filled from it (section 8.2 of the language manual).
#![tactic(auto, using(ps_operator::proofs::Then::answer_then, ps_operator::proofs::Standing::array_stands, ps_operator::proofs::StoreSteps::items_take_none))]

ghost use Rattle.std.specs.Prelude.{◌≡◌, true, OnOk};
ghost use Rattle.ps_meaning.specs.Ready.{Ready};
ghost use Rattle.ps_operator.specs.Owes.{Does, Finds};
ghost use Rattle.ps_operator.specs.Standing.{is_array};
ghost use Rattle.array_ops.specs.Spreading as spec;

use crate::copies::more_room;
use crate::making::{all_storable, store_operands};
use ps_kinds::{Interval, NoMemory, Objects, Operands, Refusal, State};
use ps_operator::{Mem, look_item};

/// Pushes all items of an array, each looked at.
#[tactic(auto, using(crate::proofs::Moving::push_step))]
fn push_items<M: Mem>(operands: &mut Objects, array: Interval, mem: &mut M) -> Result<(), NoMemory>
    requires { is_array (M.log mem.old).view array ≡ true }
    ensures { OnOk result (Finds (spec.pushed_from array 0 array.len operands.old)
        (M.log mem.old) operands.new (M.log mem.new)) }
{
    for at in 0..array.len {
        let item = look_item(mem, array, at)?;
        operands.push(item)?;
    }
    Ok(())
}

pub(crate) fn aload<M: Mem>(state: &mut State, mem: &mut M) -> Result<(), Refusal>
    requires { Ready state.old (M.log mem.old).view }
    ensures { Does spec.aload state.old (M.log mem.old) result state.new (M.log mem.new) }
{
    let operands = &mut state.regs.operands;
    operands.need(1)?;
    let array = operands.array(0)?;
    let object = operands.object(0)?;
    operands.readable(0)?;
    more_room(operands, array.len as usize)?;
    let object = object.copy()?;
    operands.shrink(1);
    push_items(operands, array, mem)?;
    operands.push(object)?;
    Ok(())
}

pub(crate) fn astore<M: Mem>(state: &mut State, mem: &mut M) -> Result<(), Refusal>
    requires { Ready state.old (M.log mem.old).view }
    ensures { Does spec.astore state.old (M.log mem.old) result state.new (M.log mem.new) }
{
    let operands = &mut state.regs.operands;
    operands.need(1)?;
    let array = operands.array(0)?;
    let object = operands.object(0)?;
    operands.writable(0)?;
    let count = array.len as usize;
    operands.need(count + 1)?;
    all_storable(array.cell, operands, 1, count)?;
    let object = object.copy()?;
    store_operands(mem, array, operands, 1)?;
    operands.shrink(count + 1);
    operands.push(object)?;
    Ok(())
}
