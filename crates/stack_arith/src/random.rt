//! Random numbers (section 8.2 of the language manual).
#![tactic(auto, using(ps_operator::proofs::Standing::random_stands, ps_operator::proofs::Standing::page_stands))]

ghost use Rattle.std.specs.Prelude.{◌≡◌, ◌<◌};
ghost use Rattle.ps_meaning.specs.Ready.{Ready};
ghost use Rattle.ps_operator.specs.Owes.{Does};
ghost use Rattle.stack_arith.specs.Random as spec;

use ps_kinds::{Kind, Operands, Refusal, State};
use ps_operator::{Mem, literal, look_rand, store_rand};

/// The state after a state.
fn next_rand(state: u32) -> u32
    requires positive { 0 < state }
    requires below { state < 2147483647 }
    ensures value { result ≡ spec.next_rand state }
    ensures positive { 0 < result }
    ensures below { result < 2147483647 }
{
    let next = state as u64 * 16_807 % 2_147_483_647;
    next as u32
}

pub(crate) fn rand<M: Mem>(state: &mut State, mem: &mut M) -> Result<(), Refusal>
    requires { Ready state.old (M.log mem.old).view }
    ensures { Does spec.rand state.old (M.log mem.old) result state.new (M.log mem.new) }
{
    state.regs.operands.room(1)?;
    let next = next_rand(look_rand(mem)?);
    store_rand(mem, next)?;
    state
        .regs
        .operands
        .push(literal(Kind::Integer(next as i32)))?;
    Ok(())
}

/// The state that a program sets by a number.
fn seed_of(n: i32) -> u32
    ensures value { result ≡ spec.seed_of n }
    ensures positive { 0 < result }
    ensures below { result < 2147483647 }
{
    let seed = (n as i64).rem_euclid(2_147_483_647);
    if seed == 0 { 1 } else { seed as u32 }
}

pub(crate) fn srand<M: Mem>(state: &mut State, mem: &mut M) -> Result<(), Refusal>
    requires { Ready state.old (M.log mem.old).view }
    ensures { Does spec.srand state.old (M.log mem.old) result state.new (M.log mem.new) }
{
    let operands = &mut state.regs.operands;
    operands.need(1)?;
    let n = operands.integer(0)?;
    store_rand(mem, seed_of(n))?;
    operands.shrink(1);
    Ok(())
}

pub(crate) fn rrand<M: Mem>(state: &mut State, mem: &mut M) -> Result<(), Refusal>
    requires { Ready state.old (M.log mem.old).view }
    ensures { Does spec.rrand state.old (M.log mem.old) result state.new (M.log mem.new) }
{
    state.regs.operands.room(1)?;
    let told = look_rand(mem)?;
    state
        .regs
        .operands
        .push(literal(Kind::Integer(told as i32)))?;
    Ok(())
}
