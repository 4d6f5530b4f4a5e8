//! Dictionaries that are made of pairs.
#![tactic(auto)]

ghost use Rattle.std.specs.Prelude.{◌≡◌, ◌+◌, ◌*◌, ◌<◌, ◌^◌, true, Ok, [], OnOk};
ghost use Rattle.ps_meaning.specs.Answer.{changed_in};
ghost use Rattle.ps_meaning.specs.Ready.{Ready};
ghost use Rattle.ps_operator.specs.Owes.{Does, Yields};
ghost use Rattle.ps_operator.specs.Registers.{ops};
ghost use Rattle.ps_operator.specs.Standing.{is_dict, Stays};
ghost use Rattle.dict_ops.specs.Pairs as spec;

use ps_kinds::{
    Cell, ErrorName, Kind, NAME_LIMIT, NoMemory, Object, Objects, Operands, Pair, Refusal, Stack,
    State,
};
use ps_operator::{
    Mem, above_mark, key_of, key_right_at, make_dict, next_cell, push_result, storable_entry,
    store_entry, unit_room,
};

/// The stages in which the pairs of operands are read.
#[derive(Clone, Copy)]
pub(crate) enum Stage {
    /// Keys are no nulls: typecheck.
    Typed,

    /// Keys that are strings are read, and the pairs may lie in a dictionary: invalidaccess.
    Right(Cell),

    /// Keys that are strings have at most 127 bytes: limitcheck.
    Short,
}

/// Half of an even number: rangecheck.
fn pairs_in(n: usize) -> Result<usize, ErrorName>
    ensures { result ≡ spec.pairs_in n }
{
    if n % 2 == 0 {
        Ok(n / 2)
    } else {
        Err(ErrorName::RangeCheck)
    }
}

fn typed_key(kind: &Kind) -> Result<(), ErrorName>
    ensures { result ≡ spec.typed_key kind.now }
{
    match kind {
        Kind::Null => Err(ErrorName::TypeCheck),
        _ => Ok(()),
    }
}

fn short_key(kind: &Kind) -> Result<(), ErrorName>
    ensures { result ≡ spec.short_key kind.now }
{
    match kind {
        Kind::Str(string) => {
            if string.len as usize > NAME_LIMIT {
                Err(ErrorName::LimitCheck)
            } else {
                Ok(())
            }
        }
        _ => Ok(()),
    }
}

/// The cell that a key names.
fn key_cell(kind: &Kind) -> Option<Cell>
    ensures { result ≡ spec.key_cell kind.now }
{
    match kind {
        Kind::Str(_) => None,
        Kind::Array { interval, .. } => Some(interval.cell),
        Kind::Dict(cell) => Some(*cell),
        _ => None,
    }
}

fn value_depth(n: usize) -> usize
    requires { n * 2 < 2 ^ 64 }
    ensures { result ≡ spec.value_depth n }
{
    n * 2
}

fn key_depth(n: usize) -> usize
    requires { n * 2 + 1 < 2 ^ 64 }
    ensures { result ≡ spec.key_depth n }
{
    n * 2 + 1
}

/// Whether a string that is a key is read, and the pair may lie in a dictionary: invalidaccess.
fn pair_right(dict: Cell, operands: &Objects, n: usize) -> Result<(), ErrorName>
    requires { n * 2 + 1 < 2 ^ 64 }
    ensures { result ≡ spec.pair_right dict operands.now n }
{
    key_right_at(operands, key_depth(n))?;
    let key = operands.object(key_depth(n))?;
    let value = operands.object(value_depth(n))?;
    storable_entry(dict, key_cell(&key.kind), &value.kind)
}

/// Whether a pair passes a stage.
fn passes(stage: Stage, operands: &Objects, n: usize) -> Result<(), ErrorName>
    requires { n * 2 + 1 < 2 ^ 64 }
    ensures { result ≡ spec.passes stage operands.now n }
{
    match stage {
        Stage::Typed => typed_key(&operands.object(key_depth(n))?.kind),
        Stage::Right(dict) => pair_right(dict, operands, n),
        Stage::Short => short_key(&operands.object(key_depth(n))?.kind),
    }
}

/// Whether so many pairs pass a stage, the newest first.
#[tactic(auto, using(crate::proofs::Reading::pass_step, crate::proofs::Reading::pass_refused))]
fn all_pass(stage: Stage, operands: &Objects, pairs: usize) -> Result<(), ErrorName>
    requires { pairs * 2 < 2 ^ 64 }
    ensures { result ≡ spec.all_pass stage operands.now pairs }
{
    for n in 0..pairs {
        if let Err(error) = passes(stage, operands, n) {
            return Err(error);
        }
    }
    Ok(())
}

/// So many pairs of operands that passed all stages, the oldest first. The newest key is looked at first.
#[tactic(auto, using(crate::proofs::Reading::pair_step, crate::proofs::Reading::form_refused, crate::proofs::Reading::value_refused, crate::proofs::Reading::short_form, ps_operator::proofs::Standing::form_stands))]
fn pairs_of<M: Mem>(state: &State, pairs: usize, mem: &mut M) -> Result<Stack<Pair>, Refusal>
    requires ready { Ready state.now (M.log mem.old).view }
    requires pairs { pairs * 2 < 2 ^ 64 }
    requires short { spec.all_pass Stage.Short (ops state.now) pairs ≡ Ok tt }
    ensures view { OnOk result ((M.log mem.new).view ≡ (M.log mem.old).view) }
    ensures told { Yields (spec.pairs_from (ops state.now) 0 pairs []) (M.log mem.old)
        result (M.log mem.new) }
{
    let operands = &state.regs.operands;
    let alloc = operands.alloc();
    let mut found = Stack::new(alloc);
    for n in 0..pairs {
        let form = operands.key_form(key_depth(n))?;
        let value = operands.object(value_depth(n))?;
        let key = key_of(alloc, form, mem)?;
        found.push(Pair {
            key,
            value: value.copy()?,
        })?;
    }
    Ok(found)
}

/// Stores pairs in a dictionary, in their order.
pub(crate) fn store_pairs<M: Mem>(
    mem: &mut M,
    dict: Cell,
    pairs: Stack<Pair>,
) -> Result<(), NoMemory>
    requires { is_dict (M.log mem.old).view dict ≡ true }
    ensures { OnOk result (M.log mem.new
        ≡ changed_in (M.log mem.old) (spec.pair_stores dict pairs)) }
{
    let mut pairs = pairs;
    while let Some(pair) = pairs.pop() {
        store_entry(mem, dict, pair.key, pair.value)?;
    }
    Ok(())
}

/// What `>>` does.
#[tactic(auto, using(ps_operator::proofs::Then::answer_then, ps_operator::proofs::Naming::next_free, crate::proofs::Reading::half_within, crate::proofs::Reading::room_small, crate::proofs::Pairing::pairs_take_none))]
pub(crate) fn pairs_dict<M: Mem>(state: &mut State, mem: &mut M) -> Result<(), Refusal>
    requires { Ready state.old (M.log mem.old).view }
    ensures { Does spec.pairs_dict state.old (M.log mem.old) result state.new (M.log mem.new) }
{
    let operands = &state.regs.operands;
    let above = above_mark(operands)?;
    let pairs = pairs_in(above)?;
    let dict = next_cell(state);
    all_pass(Stage::Typed, operands, pairs)?;
    all_pass(Stage::Right(dict), operands, pairs)?;
    all_pass(Stage::Short, operands, pairs)?;
    unit_room(state.kind, state.units, pairs as u64)?;
    let found = pairs_of(state, pairs, mem)?;
    make_dict(mem, dict, pairs as u32)?;
    store_pairs(mem, dict, found)?;
    state.count += 1;
    state.units += pairs as u64;
    push_result(&mut state.regs.operands, above + 1, Kind::Dict(dict))?;
    Ok(())
}
