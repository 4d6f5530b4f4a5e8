//! Messages (section 8.2 of the language manual).
#![tactic(auto, using(ps_operator::proofs::Then::answer_then, ps_operator::proofs::Standing::string_stands, crate::proofs::Ends::plain_stands))]

ghost use Rattle.std.specs.Prelude.{◌≡◌};
ghost use Rattle.ps_meaning.specs.Ready.{Ready};
ghost use Rattle.ps_operator.specs.Owes.{Acts};
ghost use Rattle.text_ops.specs.Messages as spec;

use crate::plain::Plain;
use ps_kinds::{Act, Operands, Refusal, State, Text};
use ps_operator::{Mem, bytes_of, key_right_at, message_room};

pub(crate) fn print<M: Mem>(state: &mut State, mem: &mut M) -> Result<Act, Refusal>
    requires { Ready state.old (M.log mem.old).view }
    ensures { Acts spec.print state.old (M.log mem.old) result state.new (M.log mem.new) }
{
    let operands = &mut state.regs.operands;
    let alloc = operands.alloc();
    operands.need(1)?;
    let part = operands.string(0)?;
    operands.readable(0)?;
    message_room(state.kind, state.said, part.len as u64)?;
    let bytes = bytes_of(alloc, part, mem)?;
    let text = Text::from_bytes(alloc, bytes.as_slice())?;
    operands.shrink(1);
    state.said += part.len as u64;
    Ok(Act::Say(text))
}

/// What `=` does.
pub(crate) fn equals_sign<M: Mem>(state: &mut State, mem: &mut M) -> Result<Act, Refusal>
    requires { Ready state.old (M.log mem.old).view }
    ensures { Acts spec.equals_sign state.old (M.log mem.old) result state.new (M.log mem.new) }
{
    let operands = &mut state.regs.operands;
    let alloc = operands.alloc();
    operands.need(1)?;
    let object = operands.object(0)?;
    key_right_at(operands, 0)?;
    let plain = Plain::of(alloc, object)?;
    let len = plain.len() as u64 + 1;
    message_room(state.kind, state.said, len)?;
    let mut text = plain.told(alloc, mem)?;
    text.push(b'\n')?;
    operands.shrink(1);
    state.said += len;
    Ok(Act::Say(text))
}
