//! A row: operands and an operator, and what comes of them.
ghost use Rattle.std.specs.Prelude.{◌≡◌, [], true};
ghost use Rattle.ps_meaning.specs.Ready.{ReadyIn};

use crate::trial::{Trial, all_stand, begin};
use crate::words::{error_of, object_of, operator_of};
use ps_kinds::{Act, ErrorName, Kind, NoMemory, OPERAND_LIMIT, Objects, Op, State};
use ps_operator::{Mem, literal};
use std::alloc::Global;

/// What comes of an operator.
#[derive(PartialEq, Eq, Drop)]
pub enum Outcome {
    /// It is done, with these operands.
    Left(Objects),

    /// It failed, and left the operands as they were.
    Failed(ErrorName),

    /// It failed, and changed the operands.
    Spoilt,

    /// It did something else, or the row can't be read.
    Other,
}

/// Runs the operator of a crate.
fn run<M: Mem>(op: Op, state: &mut State, mem: &mut M) -> Result<Act, NoMemory>
    requires { ReadyIn [] state.old (M.log mem.old).view }
{
    if stack_arith::belongs(op, state) {
        stack_arith::run(op, b"", state, mem)
    } else {
        Ok(Act::Fail(ErrorName::Undefined))
    }
}

/// The operands of a page.
fn operands_of(trial: Trial) -> Objects {
    let state = trial.state;
    let regs = state.regs;
    regs.operands
}

/// What comes of an operator that answered with this act, before which there were these operands.
fn outcome_after(act: Act, before: &Objects, after: Objects) -> Outcome {
    match act {
        Act::Done => Outcome::Left(after),
        Act::Fail(error) => {
            if after == *before {
                Outcome::Failed(error)
            } else {
                Outcome::Spoilt
            }
        }
        _ => Outcome::Other,
    }
}

/// What comes of an operator on these operands.
fn come_of(alloc: Global, op: Op, operands: Objects) -> Result<Outcome, NoMemory> {
    if !all_stand(&operands) {
        return Ok(Outcome::Other);
    }
    let before = operands.copy()?;
    let mut trial = begin(alloc, operands)?;
    let act = run(op, &mut trial.state, &mut trial.memory)?;
    Ok(outcome_after(act, &before, operands_of(trial)))
}

/// What comes of a row: its words are operands from the lowest up, and the last is an operator.
pub fn attempt(alloc: Global, row: &str) -> Result<Outcome, NoMemory> {
    match row.rsplit_once(' ') {
        Some((words, last)) => run_on(alloc, objects_of(alloc, words)?, last),
        None => run_on(alloc, Some(Objects::new(alloc)), row),
    }
}

/// What comes of an operator on 5,000 operands, all of them 0.
pub fn attempt_full(alloc: Global, word: &str) -> Result<Outcome, NoMemory> {
    let mut operands = Objects::new(alloc);
    for _ in 0..OPERAND_LIMIT {
        operands.push(literal(Kind::Integer(0)))?;
    }
    run_on(alloc, Some(operands), word)
}

/// The objects that words spell, from the lowest up.
fn objects_of(alloc: Global, words: &str) -> Result<Option<Objects>, NoMemory> {
    let mut objects = Objects::new(alloc);
    for word in words.split(' ') {
        match object_of(alloc, word)? {
            Some(object) => objects.push(object)?,
            None => return Ok(None),
        }
    }
    Ok(Some(objects))
}

/// What comes of the operator of a name on these operands.
fn run_on(alloc: Global, operands: Option<Objects>, name: &str) -> Result<Outcome, NoMemory> {
    let Some(operands) = operands else {
        return Ok(Outcome::Other);
    };
    match operator_of(name) {
        Some(op) => come_of(alloc, op, operands),
        None => Ok(Outcome::Other),
    }
}

/// The outcome that a text tells: the operands that are left from the lowest up, or an error.
pub fn outcome_of(alloc: Global, text: &str) -> Result<Outcome, NoMemory> {
    if let Some(error) = error_of(text) {
        return Ok(Outcome::Failed(error));
    }
    if text.is_empty() {
        return Ok(Outcome::Left(Objects::new(alloc)));
    }
    match objects_of(alloc, text)? {
        Some(operands) => Ok(Outcome::Left(operands)),
        None => Ok(Outcome::Other),
    }
}
