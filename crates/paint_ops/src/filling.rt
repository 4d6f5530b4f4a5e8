//! The inside of the current path is painted (section 4.5.2 of the language manual).
ghost use Rattle.std.specs.Prelude.{◌≡◌};
ghost use Rattle.ps_meaning.specs.Ready.{Ready};
ghost use Rattle.ps_operator.specs.Owes.{Does};
ghost use Rattle.paint_ops.specs.Filling as spec;

use crate::outlines::polygons_of;
use crate::painting::paint_polygons;
use ps_kinds::{Refusal, Rule, State};
use ps_operator::Mem;

/// Paints the path's inside, and empties the path: limitcheck.
#[tactic(auto, using(crate::proofs::Papers::paints_so))]
fn fill_by<M: Mem>(rule: Rule, state: &mut State, mem: &mut M) -> Result<(), Refusal>
    requires { Ready state.old (M.log mem.old).view }
    ensures { Does (spec.fills rule) state.old (M.log mem.old) result state.new (M.log mem.new) }
{
    let alloc = state.regs.operands.alloc();
    let polygons = polygons_of(alloc, &state.regs.state.path)?;
    paint_polygons(state, rule, &polygons, mem)?;
    state.regs.state.path.clear();
    Ok(())
}

pub(crate) fn fill<M: Mem>(state: &mut State, mem: &mut M) -> Result<(), Refusal>
    requires { Ready state.old (M.log mem.old).view }
    ensures { Does spec.fill state.old (M.log mem.old) result state.new (M.log mem.new) }
{
    fill_by(Rule::NonZero, state, mem)
}

pub(crate) fn eofill<M: Mem>(state: &mut State, mem: &mut M) -> Result<(), Refusal>
    requires { Ready state.old (M.log mem.old).view }
    ensures { Does spec.eofill state.old (M.log mem.old) result state.new (M.log mem.new) }
{
    fill_by(Rule::EvenOdd, state, mem)
}
