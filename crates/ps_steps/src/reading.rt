//! Texts: the section's own, and executable strings.
ghost use Rattle.std.specs.Prelude.{◌≡◌, ◌≤◌, ◌∷◌, [], length, IfOk};
ghost use Rattle.ps_kinds.specs.declared.frame.Frame.TheVariants as frame;
ghost use Rattle.ps_meaning.specs.Start.{literal};
ghost use Rattle.ps_execution.specs.Execution.{on};
ghost use Rattle.ps_steps.specs.Next.{program, Makes};
ghost use Rattle.ps_gather.specs.Ended.{spelt_of};
ghost use Rattle.ps_reader.specs.Reading.{IsReady, Reads};
ghost use Rattle.ps_steps.specs.Texts.{string_move, section_move};

use crate::met::Met;
use crate::turning::turn;
use crate::{Next, Operators, Outcome};
use ps_kinds::{Access, Frame, Kind, NoMemory, Object, State, Text};
use ps_reader::{Spelt, read};
use std::alloc::Global;
use vm_mem::Mem;

/// Reads the object that a string spells at a place.
fn read_string<M: Mem>(
    alloc: Global,
    bytes: &Text,
    place: u64,
    text: &[u8],
    state: &mut State,
    mem: &mut M,
) -> Result<(Spelt, u64), NoMemory>
    requires ready { IsReady 0 text.now state.old (M.log mem.old).view }
    requires place { place ≤ length bytes.now }
    ensures { IfOk result (λ r. Reads bytes.now place state.old (M.log mem.old)
        (record { spelt = spelt_of r.0; place = r.1; state = state.new }) (M.log mem.new)) }
{
    let spelt = read(alloc, bytes.as_slice(), place, text, state, mem)?;
    Ok(spelt)
}

/// What a string spells, whose frame was taken off.
#[tactic(auto, using(crate::proofs::Texts::string_ready, crate::proofs::Texts::string_place, crate::proofs::Texts::string_came, crate::proofs::Texts::again_ready, crate::proofs::Texts::again_fits))]
pub(crate) fn string_step<M: Mem, T: Operators<M>>(
    alloc: Global,
    string: Object,
    bytes: Text,
    place: u64,
    text: &[u8],
    state: &mut State,
    mem: &mut M,
) -> Result<Next, NoMemory>
    requires { IsReady 0 text.now (on (frame.Text string bytes place ∷ state.old.frames) state.old)
        (M.log mem.old).view }
    ensures { Makes (string_move (program T.table text.now) string bytes place state.old)
        (M.log mem.old) result state.new (M.log mem.new) }
{
    let (spelt, place) = read_string(alloc, &bytes, place, text, state, mem)?;
    match spelt {
        Spelt::Nothing => Ok(Next::Goes),
        Spelt::Bad { error } => {
            let object = string.copy()?;
            state.frames.push(Frame::Text {
                string,
                bytes,
                place,
            })?;
            Ok(Next::Raised { error, object })
        }
        Spelt::Object { object } => {
            state.frames.push(Frame::Text {
                string,
                bytes,
                place,
            })?;
            turn::<M, T>(alloc, Met::Object(object), text, state, mem)
        }
    }
}

fn file(section: u32) -> Object
    ensures { result ≡ literal (Kind.File section) }
{
    Object {
        kind: Kind::File { section },
        exec: false,
        access: Access::Unlimited,
    }
}

/// What the section's text spells, where no frame stands.
#[tactic(auto, using(crate::proofs::Texts::section_place, crate::proofs::Texts::section_came, crate::proofs::Texts::placed_ready, crate::proofs::Texts::placed_fits))]
pub(crate) fn section_step<M: Mem, T: Operators<M>>(
    alloc: Global,
    text: &[u8],
    state: &mut State,
    mem: &mut M,
) -> Result<Next, NoMemory>
    requires ready { IsReady 0 text.now state.old (M.log mem.old).view }
    requires none { state.old.frames ≡ [] }
    ensures { Makes (section_move (program T.table text.now) state.old) (M.log mem.old)
        result state.new (M.log mem.new) }
{
    let (spelt, place) = read(alloc, text, state.place, text, state, mem)?;
    state.place = place;
    match spelt {
        Spelt::Nothing => {
            state.frames.clear();
            Ok(Next::Ended {
                outcome: Outcome::Next,
            })
        }
        Spelt::Bad { error } => Ok(Next::Raised {
            error,
            object: file(state.section),
        }),
        Spelt::Object { object } => turn::<M, T>(alloc, Met::Object(object), text, state, mem),
    }
}
