//! Steps of loops, walks, images and shows.
ghost use Rattle.std.specs.Prelude.{◌≡◌, true, false};
ghost use Rattle.ps_steps.specs.Next.{program, Makes};
ghost use Rattle.ps_steps.specs.Operators.{takes_step};
ghost use Rattle.ps_reader.specs.Reading.{IsReady};
ghost use Rattle.ps_steps.specs.Walks.{walk_of, costs_next, begun_next, given_back};

use crate::settling::settle;
use crate::turning::take_turn;
use crate::{Next, Operators, Outcome};
use ps_kinds::{Act, NoMemory, Object, State};
use vm_mem::Mem;

/// Gives back the turn of a step that failed.
fn give_back(act: &Act, state: &mut State)
    ensures { state.new ≡ given_back act.now state.old }
{
    if let Act::Fail(_) = act {
        state.turns = state.turns.saturating_sub(1);
    }
}

/// A step that costs no turn.
#[tactic(auto, using(crate::proofs::Walks::free_came, crate::proofs::Turns::ready_in))]
pub(crate) fn free_step<M: Mem, T: Operators<M>>(
    object: Object,
    text: &[u8],
    state: &mut State,
    mem: &mut M,
) -> Result<Next, NoMemory>
    requires ready { IsReady 1 text.now state.old (M.log mem.old).view }
    requires takes_step { takes_step state.old.frames ≡ true }
    requires free { costs_next state.old.frames ≡ false }
    requires begun { object ≡ begun_next state.old.frames }
    ensures { Makes (walk_of (program T.table text.now) state.old.frames state.old) (M.log mem.old)
        result state.new (M.log mem.new) }
{
    let act = T::step(text, state, mem)?;
    settle::<M, T>(act, object, text, state, mem)
}

/// A step that costs a turn.
#[tactic(auto, using(crate::proofs::Walks::paid_came, crate::proofs::Walks::paid_spent, crate::proofs::Turns::turn_ready, crate::proofs::Turns::ready_in, crate::proofs::Walks::takes_counted))]
pub(crate) fn paid_step<M: Mem, T: Operators<M>>(
    object: Object,
    text: &[u8],
    state: &mut State,
    mem: &mut M,
) -> Result<Next, NoMemory>
    requires ready { IsReady 1 text.now state.old (M.log mem.old).view }
    requires takes_step { takes_step state.old.frames ≡ true }
    requires paid { costs_next state.old.frames ≡ true }
    requires begun { object ≡ begun_next state.old.frames }
    ensures { Makes (walk_of (program T.table text.now) state.old.frames state.old) (M.log mem.old)
        result state.new (M.log mem.new) }
{
    if !take_turn(state) {
        state.frames.clear();
        return Ok(Next::Ended {
            outcome: Outcome::Spent,
        });
    }
    let act = T::step(text, state, mem)?;
    give_back(&act, state);
    settle::<M, T>(act, object, text, state, mem)
}
