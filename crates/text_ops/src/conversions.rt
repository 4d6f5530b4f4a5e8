//! Conversions of texts, numbers and names (section 8.2 of the language manual).
#![tactic(auto, using(ps_operator::proofs::Then::answer_then, ps_operator::proofs::Then::reads_then, ps_operator::proofs::Standing::string_stands, ps_operator::proofs::Standing::object_stands, ps_operator::proofs::StoreSteps::bytes_take_none, crate::proofs::Ends::string_ends, crate::proofs::Ends::plain_stands))]

ghost use Rattle.std.specs.Prelude.{◌≡◌, ◌≤◌, ◌^◌, ◌<◌, ◌+◌, ◌∷◌, length, drop, true, OnOk};
ghost use Rattle.ps_meaning.specs.Ready.{Ready};
ghost use Rattle.ps_meaning.specs.Answer.{changed_in};
ghost use Rattle.ps_operator.specs.Owes.{Does, DoesAlone, Yields};
ghost use Rattle.ps_operator.specs.Standing.{is_named, is_string};
ghost use Rattle.ps_operator.specs.Storing.{byte_stores};
ghost use Rattle.text_ops.specs.Conversions as spec;
ghost use Rattle.text_ops.specs.Parts.{are_bytes, piece};

use crate::numbers::{base_of, integer_from, number_in, number_text, real_from};
use crate::parts::{Whole, fits_in, front, known_bytes};
use crate::plain::Plain;
use ps_kinds::{
    Access, ErrorName, Kind, NAME_LIMIT, Name, Number, Object, Operands, Refusal, State,
};
use ps_operator::{Mem, bytes_of, key_right_at, push_result, store_bytes};
use std::alloc::Global;

pub(crate) fn cvs<M: Mem>(state: &mut State, mem: &mut M) -> Result<(), Refusal>
    requires { Ready state.old (M.log mem.old).view }
    ensures { Does spec.cvs state.old (M.log mem.old) result state.new (M.log mem.new) }
{
    let operands = &mut state.regs.operands;
    let alloc = operands.alloc();
    operands.need(2)?;
    let interval = operands.string(0)?;
    let target = operands.object(0)?;
    let string = Whole {
        interval,
        exec: target.exec,
        access: target.access,
    };
    let object = operands.object(1)?;
    operands.writable(0)?;
    key_right_at(operands, 1)?;
    let plain = Plain::of(alloc, object)?;
    fits_in(interval.len, plain.len())?;
    let text = plain.told(alloc, mem)?;
    known_bytes(text.as_slice());
    store_bytes(mem, interval, 0, text.as_slice())?;
    operands.shrink(2);
    operands.push(front(string, text.len() as u32))?;
    Ok(())
}

pub(crate) fn cvrs<M: Mem>(state: &mut State, mem: &mut M) -> Result<(), Refusal>
    requires { Ready state.old (M.log mem.old).view }
    ensures { Does spec.cvrs state.old (M.log mem.old) result state.new (M.log mem.new) }
{
    let operands = &mut state.regs.operands;
    let alloc = operands.alloc();
    operands.need(3)?;
    let interval = operands.string(0)?;
    let i = operands.integer(1)?;
    let number = operands.number(2)?;
    let target = operands.object(0)?;
    let string = Whole {
        interval,
        exec: target.exec,
        access: target.access,
    };
    operands.writable(0)?;
    let base = base_of(i)?;
    let text = number_text(alloc, base, number)?;
    fits_in(interval.len, text.len())?;
    known_bytes(text.as_slice());
    store_bytes(mem, interval, 0, text.as_slice())?;
    operands.shrink(3);
    operands.push(front(string, text.len() as u32))?;
    Ok(())
}

/// Whether a name may be so long: limitcheck.
fn name_room(len: u32) -> Result<(), ErrorName>
    ensures { result ≡ spec.name_room len }
{
    if len as usize > NAME_LIMIT {
        Err(ErrorName::LimitCheck)
    } else {
        Ok(())
    }
}

pub(crate) fn cvn<M: Mem>(state: &mut State, mem: &mut M) -> Result<(), Refusal>
    requires { Ready state.old (M.log mem.old).view }
    ensures { Does spec.cvn state.old (M.log mem.old) result state.new (M.log mem.new) }
{
    let operands = &mut state.regs.operands;
    let alloc = operands.alloc();
    operands.need(1)?;
    let interval = operands.string(0)?;
    let exec = operands.object(0)?.exec;
    operands.readable(0)?;
    name_room(interval.len)?;
    let bytes = bytes_of(alloc, interval, mem)?;
    let name = Name::from_bytes(alloc, bytes.as_slice())?;
    operands.shrink(1);
    operands.push(Object {
        kind: Kind::Name(name),
        exec,
        access: Access::Unlimited,
    })?;
    Ok(())
}

/// A number, or the one that a string spells, which is looked at whole.
fn number_told<M: Mem>(alloc: Global, object: &Object, mem: &mut M) -> Result<Number, Refusal>
    requires { is_named (M.log mem.old).view object.now.kind ≡ true }
    ensures view { OnOk result ((M.log mem.new).view ≡ (M.log mem.old).view) }
    ensures told { Yields (spec.number_told object.now.access object.now.kind)
        (M.log mem.old) result (M.log mem.new) }
{
    match &object.kind {
        Kind::Integer(n) => Ok(Number::Integer(*n)),
        Kind::Real(real) => Ok(Number::Real(*real)),
        Kind::Str(part) => {
            object.access.readable()?;
            let text = bytes_of(alloc, *part, mem)?;
            let number = number_in(alloc, text.as_slice())?;
            Ok(number)
        }
        _ => Err(Refusal::Error(ErrorName::TypeCheck)),
    }
}

pub(crate) fn cvi<M: Mem>(state: &mut State, mem: &mut M) -> Result<(), Refusal>
    requires { Ready state.old (M.log mem.old).view }
    ensures { Does spec.cvi state.old (M.log mem.old) result state.new (M.log mem.new) }
{
    let operands = &mut state.regs.operands;
    let alloc = operands.alloc();
    operands.need(1)?;
    let object = operands.object(0)?;
    let number = number_told(alloc, object, mem)?;
    let n = integer_from(number)?;
    push_result(operands, 1, Kind::Integer(n))?;
    Ok(())
}

pub(crate) fn cvr<M: Mem>(state: &mut State, mem: &mut M) -> Result<(), Refusal>
    requires { Ready state.old (M.log mem.old).view }
    ensures { Does spec.cvr state.old (M.log mem.old) result state.new (M.log mem.new) }
{
    let operands = &mut state.regs.operands;
    let alloc = operands.alloc();
    operands.need(1)?;
    let object = operands.object(0)?;
    let number = number_told(alloc, object, mem)?;
    push_result(operands, 1, Kind::Real(real_from(number)))?;
    Ok(())
}
