//! The graphics stack (section 4.2 of the language manual).
#![tactic(auto)]

ghost use Rattle.std.specs.Prelude.{◌≡◌, ◌&&◌, nat_eq, true, false, IfOk, OnOk};
ghost use Rattle.ps_meaning.specs.Answer.{changed_in};
ghost use Rattle.ps_meaning.specs.Ready.{Ready};
ghost use Rattle.ps_operator.specs.Owes.{Does, DoesAlone};
ghost use Rattle.gstate.specs.Layers as spec;
ghost use Rattle.vm_mem.specs.Conditions.{page_is_here};

use ps_kinds::{GStack, GState, Layer, NoMemory, Refusal, Regs, State};
use ps_operator::{Mem, layer_room, wipe};

/// The graphics state as a layer that is no base.
fn plain_layer(graphics: &GState) -> Result<Layer, NoMemory>
    ensures { IfOk result (λ layer. layer ≡ record { state = graphics.now; base = false }) }
{
    Ok(Layer {
        state: graphics.copy()?,
        base: false,
    })
}

pub(crate) fn gsave(state: &mut State) -> Result<(), Refusal>
    ensures { DoesAlone spec.gsave state.old result state.new }
{
    layer_room(&state.regs.states)?;
    let layer = plain_layer(&state.regs.state)?;
    state.regs.states.push(layer)?;
    Ok(())
}

fn has_size(new: &GState, old: &GState) -> bool
    ensures { result ≡ (nat_eq new.now.wide old.now.wide && nat_eq new.now.high old.now.high) }
{
    new.wide.pixels() == old.wide.pixels() && new.high.pixels() == old.high.pixels()
}

/// Stores blank paper where the page's size changes.
#[tactic(auto, unfolding(crate::specs::Layers::size_changes))]
fn resize<M: Mem>(new: &GState, old: &GState, mem: &mut M) -> Result<(), NoMemory>
    requires { page_is_here (M.log mem.old).view ≡ true }
    ensures { OnOk result (M.log mem.new
        ≡ changed_in (M.log mem.old) (spec.size_changes new.now old.now)) }
{
    if has_size(new, old) {
        return Ok(());
    }
    wipe(mem, new.wide.pixels(), new.high.pixels())
}

/// The graphics state of a layer that was taken off: a base layer is put back.
fn state_of(layer: Layer, states: &mut GStack) -> Result<GState, NoMemory>
    ensures state { IfOk result (λ graphics. graphics ≡ layer.state) }
    ensures left { OnOk result (states.new ≡ spec.left_of layer states.old) }
{
    if layer.base {
        let copy = layer.state.copy()?;
        states.push(layer)?;
        Ok(copy)
    } else {
        Ok(layer.state)
    }
}

/// Goes back to the newest layer, where there is one.
#[tactic(auto, using(crate::proofs::Returning::size_stays, crate::proofs::Returning::none_taken, crate::proofs::Returning::layer_taken))]
fn go_back<M: Mem>(regs: &mut Regs, mem: &mut M) -> Result<(), NoMemory>
    requires { page_is_here (M.log mem.old).view ≡ true }
    ensures regs { OnOk result (regs.new ≡ spec.back regs.old regs.old.states) }
    ensures paper { OnOk result (M.log mem.new ≡ changed_in (M.log mem.old)
        (spec.size_changes (spec.taken_back regs.old.state regs.old.states).0 regs.old.state)) }
{
    let layer = match regs.states.pop() {
        Some(layer) => layer,
        None => return Ok(()),
    };
    resize(&layer.state, &regs.state, mem)?;
    regs.state = state_of(layer, &mut regs.states)?;
    Ok(())
}

#[tactic(auto, using(ps_operator::proofs::Standing::page_stands, crate::proofs::Returning::sizes_take_none))]
pub(crate) fn grestore<M: Mem>(state: &mut State, mem: &mut M) -> Result<(), Refusal>
    requires { Ready state.old (M.log mem.old).view }
    ensures { Does spec.grestore state.old (M.log mem.old) result state.new (M.log mem.new) }
{
    go_back(&mut state.regs, mem)?;
    Ok(())
}

fn is_base(layer: &Layer) -> bool
    ensures { result ≡ layer.now.base }
{
    layer.base
}

/// Takes off the layers above the newest base, or above the oldest layer.
#[tactic(auto, using(crate::proofs::Returning::lowest_here, crate::proofs::Returning::lowest_base, crate::proofs::Returning::lowest_below))]
fn go_down(states: &mut GStack)
    ensures { states.new ≡ spec.lowest states.old }
{
    while states.len() > 1 && !is_base(states.at(0)) {
        states.shrink(1);
    }
}

#[tactic(auto, using(ps_operator::proofs::Standing::page_stands, crate::proofs::Returning::sizes_take_none))]
pub(crate) fn grestoreall<M: Mem>(state: &mut State, mem: &mut M) -> Result<(), Refusal>
    requires { Ready state.old (M.log mem.old).view }
    ensures { Does spec.grestoreall state.old (M.log mem.old) result state.new (M.log mem.new) }
{
    go_down(&mut state.regs.states);
    go_back(&mut state.regs, mem)?;
    Ok(())
}
