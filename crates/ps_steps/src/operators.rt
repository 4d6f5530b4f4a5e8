//! A table of operators.

use ps_kinds::{Act, NoMemory, Op, ShowRun, State};
use vm_mem::Mem;

/// What a table of operators does, in code.
///
/// A refusal is told as `Act::Fail`, and changes nothing but what was looked at.
pub trait Operators<M: Mem> {
    ghost use Rattle.std.specs.Prelude.{◌≡◌, true};
    ghost use Rattle.ps_execution.specs.Lawful.{LawfulTable};
    ghost use Rattle.ps_execution.specs.Table.{Table};
    ghost use Rattle.ps_meaning.specs.Ready.{ReadyIn};
    ghost use Rattle.ps_operator.specs.Owes.{Runs, RunsStep};
    ghost use Rattle.vm_mem.specs.Conditions.{page_is_here};
    ghost use Rattle.ps_steps.specs.Operators.{Leaves, takes_step, step_of};

    /// What each operator, each step and each leaving of a show does.
    ghost table: { Table };

    /// Runs an operator of a section with this text.
    fn run(op: Op, text: &[u8], state: &mut State, mem: &mut M) -> Result<Act, NoMemory>
        requires { ReadyIn text.now state.old (M.log mem.old).view }
        ensures { Runs (table.run op text.now) state.old (M.log mem.old)
            result state.new (M.log mem.new) };

    /// Does one step of the newest frame, which is that of a loop, `stopped`, a walk, an image or a show.
    fn step(text: &[u8], state: &mut State, mem: &mut M) -> Result<Act, NoMemory>
        requires ready { ReadyIn text.now state.old (M.log mem.old).view }
        requires takes_step { takes_step state.old.frames ≡ true }
        ensures { RunsStep (step_of table text.now) state.old (M.log mem.old)
            result state.new (M.log mem.new) };

    /// Leaves a show through which `stop` passes: its frame was taken off.
    fn leave(run: &ShowRun, state: &mut State, mem: &mut M) -> Result<(), NoMemory>
        requires { page_is_here (M.log mem.old).view ≡ true }
        ensures { Leaves (table.leave run.now) state.old (M.log mem.old)
            result state.new (M.log mem.new) };

    ghost lawful: { LawfulTable table };
}
