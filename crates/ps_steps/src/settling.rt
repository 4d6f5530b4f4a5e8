//! What an act leads to.
ghost use Rattle.std.specs.Prelude.{◌≡◌, [], true};
ghost use Rattle.ps_execution.specs.Reached.{settled};
ghost use Rattle.vm_mem.specs.Conditions.{page_is_here};
ghost use Rattle.ps_steps.specs.Next.{program, Comes};

use crate::leaving::throw;
use crate::{Next, Operators, Outcome};
use ps_kinds::{Act, NoMemory, Object, State};
use vm_mem::Mem;

/// What an act leads to, where the frame that was left stands already. The object is the one that was executed.
pub(crate) fn settle<M: Mem, T: Operators<M>>(
    act: Act,
    object: Object,
    text: &[u8],
    state: &mut State,
    mem: &mut M,
) -> Result<Next, NoMemory>
    requires { page_is_here (M.log mem.old).view ≡ true }
    ensures { Comes (settled (program T.table text.now) object act state.old (M.log mem.old) [])
        result state.new (M.log mem.new) }
{
    match act {
        Act::Done => Ok(Next::Goes),
        Act::Body(frame) => {
            state.frames.push(frame)?;
            Ok(Next::Goes)
        }
        Act::Fail(error) => Ok(Next::Raised { error, object }),
        Act::Exit => throw::<M, T>(false, text, state, mem),
        Act::Stop => throw::<M, T>(true, text, state, mem),
        Act::Quit => {
            state.frames.clear();
            Ok(Next::Ended {
                outcome: Outcome::Quit,
            })
        }
        Act::Say(message) => Ok(Next::Says(message)),
        Act::Show { wipe } => Ok(Next::Shows { wipe }),
        Act::Outer { save } => Ok(Next::Outer { save }),
    }
}
