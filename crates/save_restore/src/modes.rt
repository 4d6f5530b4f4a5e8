//! The mode of new objects, what memory holds, and times.
#![tactic(auto, using(crate::proofs::Small::turns_small, crate::proofs::Small::units_small))]

ghost use Rattle.std.specs.Prelude.{◌≡◌, ◌<◌, length, Ok, IfOk};
ghost use Rattle.ps_meaning.specs.Budgets.{IsInBudget, unit_budget};
ghost use Rattle.ps_operator.specs.Owes.{DoesAlone};
ghost use Rattle.save_restore.specs.Modes as spec;

use ps_kinds::{ErrorName, Kind, Object, Operands, Refusal, Saves, SectionKind, State};
use ps_operator::literal;

/// An integer that isn't negative, as an object.
fn integer(n: u64) -> Object
    requires { n < 2147483648 }
    ensures { result ≡ spec.integer n }
{
    literal(Kind::Integer(n as i32))
}

pub(crate) fn setglobal(state: &mut State) -> Result<(), Refusal>
    ensures { DoesAlone spec.setglobal state.old result state.new }
{
    let operands = &mut state.regs.operands;
    operands.need(1)?;
    let global = operands.boolean(0)?;
    operands.shrink(1);
    state.regs.global = global;
    Ok(())
}

pub(crate) fn currentglobal(state: &mut State) -> Result<(), Refusal>
    ensures { DoesAlone spec.currentglobal state.old result state.new }
{
    let operands = &mut state.regs.operands;
    operands.room(1)?;
    operands.push(literal(Kind::Boolean(state.regs.global)))?;
    Ok(())
}

/// How many saves are open: limitcheck.
fn level_told(saves: &Saves) -> Result<u64, ErrorName>
    ensures value { result ≡ spec.level_told (length saves.now) }
    ensures small { IfOk result (λ level. level < 2147483648) }
{
    let level = saves.len() as u64;
    if level > 2_147_483_647 {
        Err(ErrorName::LimitCheck)
    } else {
        Ok(level)
    }
}

fn unit_budget(kind: SectionKind) -> u64
    ensures value { result ≡ unit_budget kind }
    ensures small { result < 2147483648 }
{
    match kind {
        SectionKind::Page => 1_000_000,
        SectionKind::Prolog | SectionKind::Setup | SectionKind::Trailer => 8_000_000,
    }
}

pub(crate) fn vmstatus(state: &mut State) -> Result<(), Refusal>
    requires { IsInBudget state.old }
    ensures { DoesAlone spec.vmstatus state.old result state.new }
{
    let operands = &mut state.regs.operands;
    let level = level_told(&state.regs.saves)?;
    operands.room(3)?;
    operands.push(integer(level))?;
    operands.push(integer(state.units))?;
    operands.push(integer(unit_budget(state.kind)))?;
    Ok(())
}

pub(crate) fn vmreclaim(state: &mut State) -> Result<(), Refusal>
    ensures { DoesAlone spec.vmreclaim state.old result state.new }
{
    let operands = &mut state.regs.operands;
    operands.need(1)?;
    operands.integer(0)?;
    operands.shrink(1);
    Ok(())
}

pub(crate) fn realtime(state: &mut State) -> Result<(), Refusal>
    ensures { DoesAlone spec.realtime state.old result state.new }
{
    let operands = &mut state.regs.operands;
    operands.room(1)?;
    operands.push(integer(state.moment % 2_147_483_648))?;
    Ok(())
}

pub(crate) fn usertime(state: &mut State) -> Result<(), Refusal>
    requires { IsInBudget state.old }
    ensures { DoesAlone spec.usertime state.old result state.new }
{
    let operands = &mut state.regs.operands;
    operands.room(1)?;
    operands.push(integer(state.turns))?;
    Ok(())
}
