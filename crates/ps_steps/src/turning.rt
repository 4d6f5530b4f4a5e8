//! Turns.
ghost use Rattle.std.specs.Prelude.{◌≡◌, ◌<◌, nat_lt};
ghost use Rattle.ps_meaning.specs.Budgets as spec;
ghost use Rattle.ps_steps.specs.Executing.{object_turn};
ghost use Rattle.ps_steps.specs.Met.{object_of};
ghost use Rattle.ps_steps.specs.Next.{program, Makes};
ghost use Rattle.ps_steps.specs.Operators.{FitsHere, CountsTurn};
ghost use Rattle.ps_reader.specs.Reading.{IsReady};

use crate::executing::execute;
use crate::met::Met;
use crate::{Next, Operators, Outcome};
use ps_kinds::{NoMemory, SectionKind, State};
use std::alloc::Global;
use vm_mem::Mem;

fn turn_budget(kind: SectionKind) -> u64
    ensures { result ≡ spec.turn_budget kind }
{
    match kind {
        SectionKind::Prolog => 200_000_000,
        SectionKind::Setup => 200_000_000,
        SectionKind::Page => 20_000_000,
        SectionKind::Trailer => 200_000_000,
    }
}

/// Counts a turn, where one is left.
#[tactic(auto, using(crate::proofs::Turns::some_left, crate::proofs::Turns::none_left))]
pub(crate) fn take_turn(state: &mut State) -> bool
    ensures { CountsTurn result state.old state.new }
{
    if state.turns < turn_budget(state.kind) {
        state.turns += 1;
        true
    } else {
        false
    }
}

/// Executes what was met as a token or an item, in a turn of its own.
#[tactic(auto, using(crate::proofs::Turns::turn_spent, crate::proofs::Turns::turn_ready, crate::proofs::Turns::turn_led))]
pub(crate) fn turn<M: Mem, T: Operators<M>>(
    alloc: Global,
    met: Met,
    text: &[u8],
    state: &mut State,
    mem: &mut M,
) -> Result<Next, NoMemory>
    requires ready { IsReady 1 text.now state.old (M.log mem.old).view }
    requires fits { FitsHere (M.log mem.old).view (object_of met) }
    ensures { Makes (object_turn (program T.table text.now) (object_of met) state.old)
        (M.log mem.old) result state.new (M.log mem.new) }
{
    if !take_turn(state) {
        state.frames.clear();
        return Ok(Next::Ended {
            outcome: Outcome::Spent,
        });
    }
    execute::<M, T>(alloc, met, text, state, mem)
}
