//! What is done to a page on trial, one thing after another.
ghost use Rattle.std.specs.Prelude.{◌≡◌, [], ◌≤◌, ◌<◌, ◌^◌, true, IfOk, OnOk};
ghost use Rattle.ps_meaning.specs.Ready.{ReadyIn};

use crate::trial::Trial;
use ps_kinds::{Act, Interval, Kind, NoMemory, Op};
use ps_operator::{literal, make_string, next_cell};

/// The most names that a page may have taken before an operator.
const MOST_NAMES: u32 = 0x8000_0000;

/// Pushes an integer.
pub fn push_integer(trial: &mut Trial, n: i32) -> Result<(), NoMemory>
    requires { ReadyIn [] trial.old.state trial.old.memory }
    ensures { OnOk result (ReadyIn [] trial.new.state trial.new.memory) }
{
    trial.state.regs.operands.push(literal(Kind::Integer(n)))?;
    Ok(())
}

/// Pushes a new string of zeros. The answer is whether names are left.
#[tactic(auto, using(ps_operator::proofs::Naming::next_free))]
pub fn push_string(trial: &mut Trial, len: u32) -> Result<bool, NoMemory>
    requires { ReadyIn [] trial.old.state trial.old.memory }
    ensures { IfOk result (λ left. left ≡ true → ReadyIn [] trial.new.state trial.new.memory) }
{
    let cell = next_cell(&trial.state);
    make_string(&mut trial.memory, cell, len)?;
    trial.state.count += 1;
    let string = Kind::Str(Interval {
        cell,
        start: 0,
        len,
    });
    trial.state.regs.operands.push(literal(string))?;
    Ok(trial.state.count <= MOST_NAMES)
}

fn is_done(act: Act) -> bool {
    matches!(&act, Act::Done)
}

/// Runs an operator. The answer is whether it was done and names are left.
pub fn apply(trial: &mut Trial, op: Op) -> Result<bool, NoMemory>
    requires { ReadyIn [] trial.old.state trial.old.memory }
    ensures { IfOk result (λ left. left ≡ true → ReadyIn [] trial.new.state trial.new.memory) }
{
    if !stack_arith::belongs(op, &trial.state) {
        return Ok(false);
    }
    let act = stack_arith::run(op, b"", &mut trial.state, &mut trial.memory)?;
    if !is_done(act) {
        return Ok(false);
    }
    Ok(trial.state.count <= MOST_NAMES)
}
