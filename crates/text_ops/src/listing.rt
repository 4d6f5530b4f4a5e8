//! Messages that show operands: full texts, and the whole operand stack (section 8.2 of the language manual).
#![tactic(auto, using(ps_operator::proofs::Then::answer_then, ps_operator::proofs::Standing::object_stands))]

ghost use Rattle.std.specs.Prelude.{◌≡◌, ◌+◌, ◌^◌, ◌<◌, length, true, IfOk, OnOk};
ghost use Rattle.ps_meaning.specs.Ready.{Ready};
ghost use Rattle.ps_objects.specs.Operands.{Reads};
ghost use Rattle.ps_operator.specs.Owes.{Acts, Finds};
ghost use Rattle.ps_operator.specs.Registers.{ops};
ghost use Rattle.ps_operator.specs.Standing.{is_named};
ghost use Rattle.full_texts.specs.Growing.{Grows};
ghost use Rattle.text_ops.specs.Listing as spec;

use crate::plain::Plain;
use full_texts::{push_full_text, push_piece};
use ps_kinds::{Act, ErrorName, NoMemory, Object, Objects, Operands, Refusal, State, Text};
use ps_operator::{Mem, key_right_at, message_room};

/// Appends the full text of an object and a line end: limitcheck as soon as the section may not say so much.
#[tactic(auto, using(crate::proofs::Lines::line_cut, crate::proofs::Lines::line_ended))]
fn push_full_line<M: Mem>(
    text: &mut Text,
    object: &Object,
    state: &State,
    mem: &mut M,
) -> Result<(), Refusal>
    requires ready { Ready state.now (M.log mem.old).view }
    requires named { is_named (M.log mem.old).view object.now.kind ≡ true }
    ensures said { OnOk result (state.now.said + length text.new < 2 ^ 64) }
    ensures view { OnOk result ((M.log mem.new).view ≡ (M.log mem.old).view) }
    ensures told { Grows (spec.full_line state.now object.now text.old)
        (M.log mem.old) result text.new (M.log mem.new) }
{
    push_full_text(text, object, state, mem)?;
    push_piece(text, b"\n", state)
}

/// What `==` does.
pub(crate) fn two_equals_signs<M: Mem>(state: &mut State, mem: &mut M) -> Result<Act, Refusal>
    requires { Ready state.old (M.log mem.old).view }
    ensures { Acts spec.two_equals_signs state.old (M.log mem.old)
        result state.new (M.log mem.new) }
{
    let operands = &state.regs.operands;
    operands.need(1)?;
    let object = operands.object(0)?;
    let mut text = Text::new(operands.alloc());
    push_full_line(&mut text, object, state, mem)?;
    state.regs.operands.shrink(1);
    state.said += text.len() as u64;
    Ok(Act::Say(text))
}

/// Appends the full texts of the operands, each with a line end: limitcheck as soon as the section may not say so much.
#[tactic(auto, using(crate::proofs::Lines::named_at, crate::proofs::Lines::line_step, crate::proofs::Lines::line_refused, full_texts::proofs::Named::ready_in))]
fn push_full_lines<M: Mem>(text: &mut Text, state: &State, mem: &mut M) -> Result<(), Refusal>
    requires ready { Ready state.now (M.log mem.old).view }
    requires said { state.now.said + length text.old < 2 ^ 64 }
    ensures said { OnOk result (state.now.said + length text.new < 2 ^ 64) }
    ensures view { OnOk result ((M.log mem.new).view ≡ (M.log mem.old).view) }
    ensures told { Grows (spec.full_lines state.now (ops state.now) text.old)
        (M.log mem.old) result text.new (M.log mem.new) }
{
    let operands = &state.regs.operands;
    for depth in 0..operands.len() {
        push_full_line(text, operands.at(depth), state, mem)?;
    }
    Ok(())
}

pub(crate) fn pstack<M: Mem>(state: &mut State, mem: &mut M) -> Result<Act, Refusal>
    requires { Ready state.old (M.log mem.old).view }
    ensures { Acts spec.pstack state.old (M.log mem.old) result state.new (M.log mem.new) }
{
    let mut text = Text::new(state.regs.operands.alloc());
    push_full_lines(&mut text, state, mem)?;
    state.said += text.len() as u64;
    Ok(Act::Say(text))
}

/// Whether each string among the operands may be read: invalidaccess.
#[tactic(auto, using(crate::proofs::Lines::right_step, crate::proofs::Lines::right_refused))]
fn all_readable(operands: &Objects) -> Result<(), ErrorName>
    ensures { result ≡ spec.all_readable operands.now }
{
    for depth in 0..operands.len() {
        key_right_at(operands, depth)?;
    }
    Ok(())
}

/// How long the plain texts of the operands are, each with a line end: limitcheck where the section may not say so much.
#[tactic(auto, using(crate::proofs::Lines::length_step, crate::proofs::Lines::part_refused, crate::proofs::Lines::all_allowed, full_texts::proofs::Room::room_small))]
fn lines_length(state: &State) -> Result<u64, Refusal>
    ensures length { Reads (spec.lines_room state.now (ops state.now)) result }
    ensures said { IfOk result (λ n. state.now.said + n < 2 ^ 64) }
{
    let operands = &state.regs.operands;
    let alloc = operands.alloc();
    let mut len = 0;
    for depth in 0..operands.len() {
        message_room(state.kind, state.said, len)?;
        let plain = Plain::of(alloc, operands.at(depth))?;
        len += plain.len() as u64 + 1;
    }
    message_room(state.kind, state.said, len)?;
    Ok(len)
}

/// Appends the plain texts of the operands, each with a line end.
#[tactic(auto, using(crate::proofs::Lines::stands_at, crate::proofs::Lines::plain_step))]
fn push_plain_lines<M: Mem>(text: &mut Text, state: &State, mem: &mut M) -> Result<(), NoMemory>
    requires { Ready state.now (M.log mem.old).view }
    ensures view { OnOk result ((M.log mem.new).view ≡ (M.log mem.old).view) }
    ensures told { OnOk result
        (Finds (spec.plain_lines (ops state.now) text.old) (M.log mem.old) text.new (M.log mem.new)) }
{
    let operands = &state.regs.operands;
    let alloc = operands.alloc();
    for depth in 0..operands.len() {
        let plain = Plain::of(alloc, operands.at(depth))?;
        let line = plain.told(alloc, mem)?;
        text.extend(line.as_slice())?;
        text.push(b'\n')?;
    }
    Ok(())
}

pub(crate) fn stack<M: Mem>(state: &mut State, mem: &mut M) -> Result<Act, Refusal>
    requires { Ready state.old (M.log mem.old).view }
    ensures { Acts spec.stack state.old (M.log mem.old) result state.new (M.log mem.new) }
{
    all_readable(&state.regs.operands)?;
    let len = lines_length(state)?;
    let mut text = Text::new(state.regs.operands.alloc());
    push_plain_lines(&mut text, state, mem)?;
    state.said += len;
    Ok(Act::Say(text))
}
