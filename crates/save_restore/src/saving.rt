//! Opening a save (section 3.7 of the language manual: memory management).
#![tactic(auto, using(ps_operator::proofs::Naming::save_free))]

ghost use Rattle.std.specs.Prelude.{◌≡◌, true, IfOk};
ghost use Rattle.ps_meaning.specs.Ready.{Ready};
ghost use Rattle.ps_operator.specs.Owes.{Does};
ghost use Rattle.save_restore.specs.Saving as spec;

use ps_kinds::{Kind, Layer, NoMemory, Operands, Refusal, SaveMark, State};
use ps_operator::{Mem, layer_room, literal, next_save, open_save};

fn mark_of(state: &State) -> Result<SaveMark, NoMemory>
    ensures { IfOk result (λ mark. mark ≡ spec.mark_of state.now) }
{
    Ok(SaveMark {
        name: next_save(state),
        state: state.regs.state.copy()?,
        states: state.regs.states.copy()?,
        global: state.regs.global,
        packing: state.regs.packing,
    })
}

fn base_layer(state: &State) -> Result<Layer, NoMemory>
    ensures { IfOk result (λ layer. layer ≡ record { state = state.now.regs.state; base = true }) }
{
    Ok(Layer {
        state: state.regs.state.copy()?,
        base: true,
    })
}

pub(crate) fn save<M: Mem>(state: &mut State, mem: &mut M) -> Result<(), Refusal>
    requires { Ready state.old (M.log mem.old).view }
    ensures { Does spec.save state.old (M.log mem.old) result state.new (M.log mem.new) }
{
    layer_room(&state.regs.states)?;
    state.regs.operands.room(1)?;
    let name = next_save(state);
    open_save(mem, name)?;
    let mark = mark_of(state)?;
    state.regs.saves.push(mark)?;
    let layer = base_layer(state)?;
    state.regs.states.push(layer)?;
    state.count += 1;
    state.regs.operands.push(literal(Kind::Save(name)))?;
    Ok(())
}
