//! The operator `forall` (section 8.2 of the language manual).
#![tactic(auto, using(ps_operator::proofs::Then::answer_then, crate::proofs::Starts::walked_stands))]

ghost use Rattle.std.specs.Prelude.{◌≡◌, [], true, OnOk, IfOk};
ghost use Rattle.ps_meaning.specs.Ready.{Ready};
ghost use Rattle.ps_operator.specs.Owes.{Acts, Finds};
ghost use Rattle.ps_operator.specs.Standing.{is_dict};
ghost use Rattle.control_ops.specs.Loops as spec;

use ps_kinds::{
    Act, Cell, ErrorName, Frame, Key, Keys, Kind, NoMemory, Object, Operands, Pair, Refusal,
    Sequence, State,
};
use ps_operator::{Mem, frames_room, look_access, look_entry, look_keys};
use std::alloc::Global;

/// What `forall` goes over.
#[derive(Clone, Copy)]
pub(crate) enum Walked {
    Items,
    Bytes,
    Pairs(Cell),
}

/// What a walk goes over: typecheck.
fn walked_of(kind: &Kind) -> Result<Walked, ErrorName>
    ensures { result ≡ spec.walked_of kind.now }
{
    match kind {
        Kind::Array { .. } => Ok(Walked::Items),
        Kind::Str(_) => Ok(Walked::Bytes),
        Kind::Dict(dict) => Ok(Walked::Pairs(*dict)),
        _ => Err(ErrorName::TypeCheck),
    }
}

/// Appends the pair of a key, where an entry is there.
fn push_pair(pairs: &mut Sequence<Pair>, key: Key, found: Option<Object>) -> Result<(), NoMemory>
    ensures { OnOk result (pairs.new ≡ spec.with_pair pairs.old key found) }
{
    if let Some(value) = found {
        pairs.push(Pair { key, value })?;
    }
    Ok(())
}

/// The pairs of a dictionary with these keys, in their order.
#[tactic(auto, using(crate::proofs::Pairing::pair_step))]
fn pairs_of<M: Mem>(
    alloc: Global,
    dict: Cell,
    keys: &Keys,
    mem: &mut M,
) -> Result<Sequence<Pair>, NoMemory>
    requires { is_dict (M.log mem.old).view dict ≡ true }
    ensures { IfOk result (λ pairs.
        Finds (spec.pairs_from dict keys.now []) (M.log mem.old) pairs (M.log mem.new)) }
{
    let mut pairs = Sequence::new(alloc);
    for at in 0..keys.len() {
        let key = keys.at(at).copy()?;
        let found = look_entry(mem, dict, key.copy()?)?;
        push_pair(&mut pairs, key, found)?;
    }
    Ok(pairs)
}

pub(crate) fn forall<M: Mem>(state: &mut State, mem: &mut M) -> Result<Act, Refusal>
    requires { Ready state.old (M.log mem.old).view }
    ensures { Acts spec.forall_ state.old (M.log mem.old) result state.new (M.log mem.new) }
{
    let operands = &mut state.regs.operands;
    let alloc = operands.alloc();
    operands.need(2)?;
    operands.procedure(0)?;
    let walked = operands.object(1)?;
    let kind = walked_of(&walked.kind)?;
    let body = operands.object(0)?;
    match kind {
        Walked::Items => {
            walked.access.readable()?;
            body.access.runnable()?;
            frames_room(&state.frames, 1)?;
            let frame = Frame::Items {
                array: walked.copy()?,
                at: 0,
                body: body.copy()?,
            };
            operands.shrink(2);
            Ok(Act::Body(frame))
        }
        Walked::Bytes => {
            walked.access.readable()?;
            body.access.runnable()?;
            frames_room(&state.frames, 1)?;
            let frame = Frame::Bytes {
                string: walked.copy()?,
                at: 0,
                body: body.copy()?,
            };
            operands.shrink(2);
            Ok(Act::Body(frame))
        }
        Walked::Pairs(dict) => {
            look_access(mem, dict)?.readable()?;
            body.access.runnable()?;
            frames_room(&state.frames, 1)?;
            let keys = look_keys(mem, dict)?;
            let pairs = pairs_of(alloc, dict, &keys, mem)?;
            let frame = Frame::Pairs {
                pairs,
                at: 0,
                body: body.copy()?,
            };
            operands.shrink(2);
            Ok(Act::Body(frame))
        }
    }
}
