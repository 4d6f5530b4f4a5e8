//! Pages are wiped and given out (section 8.2 of the language manual).
ghost use Rattle.std.specs.Prelude.{◌≡◌};
ghost use Rattle.ps_meaning.specs.Ready.{Ready};
ghost use Rattle.ps_operator.specs.Owes.{ActsAlone, Does};
ghost use Rattle.paint_ops.specs.Pages as spec;

use gstate::begin;
use ps_kinds::{Act, Refusal, State};
use ps_operator::{Mem, show_room, wipe};

#[tactic(auto, using(ps_operator::proofs::Standing::page_stands))]
pub(crate) fn erasepage<M: Mem>(state: &State, mem: &mut M) -> Result<(), Refusal>
    requires { Ready state.now (M.log mem.old).view }
    ensures { Does spec.erasepage state.now (M.log mem.old) result state.now (M.log mem.new) }
{
    let graphics = &state.regs.state;
    wipe(mem, graphics.wide.pixels(), graphics.high.pixels())?;
    Ok(())
}

#[tactic(auto, using(crate::proofs::Judging::few_shown))]
pub(crate) fn showpage(state: &mut State) -> Result<Act, Refusal>
    ensures { ActsAlone spec.showpage state.old result state.new }
{
    show_room(state.kind, state.shows)?;
    state.shows += 1;
    let dpi = state.settings.dpi;
    let alloc = state.regs.operands.alloc();
    begin(&mut state.regs.state, dpi, alloc);
    Ok(Act::Show { wipe: true })
}

#[tactic(auto, using(crate::proofs::Judging::few_shown))]
pub(crate) fn copypage(state: &mut State) -> Result<Act, Refusal>
    ensures { ActsAlone spec.copypage state.old result state.new }
{
    show_room(state.kind, state.shows)?;
    state.shows += 1;
    Ok(Act::Show { wipe: false })
}
