//! New strings, and searches in strings (section 8.2 of the language manual).
#![tactic(auto, using(ps_operator::proofs::Then::answer_then, ps_operator::proofs::Standing::string_stands, crate::proofs::Ends::string_ends))]

ghost use Rattle.std.specs.Prelude.{◌≡◌};
ghost use Rattle.ps_meaning.specs.Ready.{Ready};
ghost use Rattle.ps_operator.specs.Owes.{Does};
ghost use Rattle.text_ops.specs.Strings as spec;

use crate::parts::{Whole, push_headed, push_parted};
use crate::searches::first_place;
use ps_kinds::{Interval, Kind, Operands, Refusal, State};
use ps_operator::{
    Mem, bytes_of, length_of, make_string, natural_of, next_cell, push_result, unit_room,
};

/// The units of a string.
fn string_units(len: u32) -> u64
    ensures { result ≡ spec.string_units len }
{
    (len as u64 + 7) / 8
}

#[tactic(auto, using(ps_operator::proofs::Naming::next_free))]
pub(crate) fn string<M: Mem>(state: &mut State, mem: &mut M) -> Result<(), Refusal>
    requires { Ready state.old (M.log mem.old).view }
    ensures { Does spec.string state.old (M.log mem.old) result state.new (M.log mem.new) }
{
    let operands = &state.regs.operands;
    operands.need(1)?;
    let len = length_of(natural_of(operands.integer(0)?)?)?;
    let units = string_units(len);
    unit_room(state.kind, state.units, units)?;
    let cell = next_cell(state);
    make_string(mem, cell, len)?;
    state.count += 1;
    state.units += units;
    let string = Interval {
        cell,
        start: 0,
        len,
    };
    push_result(&mut state.regs.operands, 1, Kind::Str(string))?;
    Ok(())
}

pub(crate) fn search<M: Mem>(state: &mut State, mem: &mut M) -> Result<(), Refusal>
    requires { Ready state.old (M.log mem.old).view }
    ensures { Does spec.search state.old (M.log mem.old) result state.new (M.log mem.new) }
{
    let operands = &mut state.regs.operands;
    let alloc = operands.alloc();
    operands.need(2)?;
    let seek = operands.string(0)?;
    let interval = operands.string(1)?;
    operands.readable(0)?;
    operands.readable(1)?;
    let object = operands.object(1)?;
    let string = Whole {
        interval,
        exec: object.exec,
        access: object.access,
    };
    let sought = bytes_of(alloc, seek, mem)?;
    let text = bytes_of(alloc, interval, mem)?;
    match first_place(text.as_slice(), sought.as_slice()) {
        Some(at) => {
            operands.room(2)?;
            push_parted(operands, string, at as u32, seek.len)?;
        }
        None => push_result(operands, 1, Kind::Boolean(false))?,
    }
    Ok(())
}

pub(crate) fn anchorsearch<M: Mem>(state: &mut State, mem: &mut M) -> Result<(), Refusal>
    requires { Ready state.old (M.log mem.old).view }
    ensures { Does spec.anchorsearch state.old (M.log mem.old) result state.new (M.log mem.new) }
{
    let operands = &mut state.regs.operands;
    let alloc = operands.alloc();
    operands.need(2)?;
    let seek = operands.string(0)?;
    let interval = operands.string(1)?;
    operands.readable(0)?;
    operands.readable(1)?;
    let object = operands.object(1)?;
    let string = Whole {
        interval,
        exec: object.exec,
        access: object.access,
    };
    let sought = bytes_of(alloc, seek, mem)?;
    let text = bytes_of(alloc, interval, mem)?;
    if text.as_slice().starts_with(sought.as_slice()) {
        operands.room(1)?;
        push_headed(operands, string, seek.len)?;
    } else {
        push_result(operands, 1, Kind::Boolean(false))?;
    }
    Ok(())
}
