//! Messages and pages are given out.
ghost use Rattle.std.specs.Prelude.{◌≡◌, ◌≤◌, [], true, OnOk, OnErr};
ghost use Rattle.ps_memory.specs.Tree.{ends};
ghost use Rattle.ps_execution.specs.Execution.{shows};
ghost use Rattle.ps_execution.specs.Machine.{goes};
ghost use Rattle.ps_execution.specs.Reached.{reached, came};
ghost use Rattle.out_writers.specs.Faults.{HasRisen};
ghost use Rattle.vm_mem.specs.Conditions.{page_is_here};
ghost use Rattle.ps_machine.specs.Refusals.{IsFault};
ghost use Rattle.ps_machine.specs.Runs.{shown};
ghost use Rattle.ps_machine.specs.Lines as spec;
ghost use Rattle.ps_machine.specs.Lines.{papers_of};

use crate::RunRefusal;
use out_writers::Outlet;
use ps_kinds::{State, Text};
use vm_mem::Mem;

/// Gives a message out, of which an empty one leaves nothing to be given.
#[tactic(auto, using(crate::proofs::Texts::nothing_said))]
pub(crate) fn say<O: Outlet>(message: &Text, out: &mut O) -> Result<(), RunRefusal>
    ensures counted { O.faults out.old ≤ O.faults out.new }
    ensures failed { IsFault result → HasRisen (O.faults out.old) (O.faults out.new) }
    ensures said { OnOk result (O.since out.new out.old [] message.now) }
    ensures cut { OnErr result (O.cut out.new out.old [] message.now) }
{
    let bytes = message.as_slice();
    if bytes.is_empty() {
        return Ok(());
    }
    out.say(bytes)?;
    Ok(())
}

/// The last byte said, after this message.
#[tactic(auto, using(crate::proofs::Texts::last_said, crate::proofs::Texts::nothing_said))]
pub(crate) fn last_after(last: Option<u8>, message: &Text) -> Option<u8>
    ensures { result ≡ spec.last_after last message.now }
{
    let bytes = message.as_slice();
    if bytes.is_empty() {
        last
    } else {
        Some(bytes[bytes.len() - 1])
    }
}

/// Gives the page out, and then wipes it or keeps it.
#[tactic(auto, using(crate::proofs::Showing::may_lay_back))]
pub(crate) fn show<M: Mem, O: Outlet>(
    wipe: bool,
    state: &State,
    mem: &mut M,
    out: &mut O,
) -> Result<(), RunRefusal>
    requires { page_is_here (M.log mem.old).view ≡ true }
    ensures counted { O.faults out.old ≤ O.faults out.new }
    ensures failed { IsFault result → HasRisen (O.faults out.old) (O.faults out.new) }
    ensures shows { OnOk result (
        reached (shows wipe state.now (ends (goes state.now))) (M.log mem.old) []
        ≡ came (goes state.now) (M.log mem.new) (shown (M.log mem.old))) }
    ensures shown { OnOk result (O.since out.new out.old (papers_of (shown (M.log mem.old))) []) }
    ensures cut { OnErr result (O.cut out.new out.old (papers_of (shown (M.log mem.old))) []) }
{
    let paper = mem.lift()?;
    let shown = out.show(&paper);
    mem.lay(paper);
    shown?;
    if wipe {
        mem.wipe(
            state.regs.state.wide.pixels(),
            state.regs.state.high.pixels(),
        )?;
    }
    Ok(())
}
