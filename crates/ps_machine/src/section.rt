//! A section from its first byte to what is said of its end.
ghost use Rattle.std.specs.Prelude.{◌≡◌, ◌≤◌, IfOk, OnErr};
ghost use Rattle.ps_execution.specs.Section as spec;
ghost use Rattle.out_writers.specs.Faults.{HasRisen};
ghost use Rattle.ps_machine.specs.Refusals.{IsFault};
ghost use Rattle.ps_machine.specs.Sections.{section_by, RanTo, Wrote};
ghost use Rattle.ps_machine.specs.Starting.{MayRun};

use crate::RunRefusal;
use crate::ending::{close, line_end};
use crate::giving::say;
use crate::running::{Halt, run};
use out_writers::Outlet;
use ps_kinds::{Frames, Regs, SaveName, SectionKind, Settings, State};
use ps_steps::Operators;
use std::alloc::Global;
use vm_mem::Mem;

/// What a section runs from, beside registers and memory: its number, kind and text, by these settings and at this moment.
#[derive(Clone, Copy)]
pub struct SectionInput<'a> {
    pub settings: &'a Settings,
    pub moment: u64,
    pub number: u32,
    pub kind: SectionKind,
    pub text: &'a [u8],
}

/// How a section ends.
#[derive(Clone, Copy, Debug, PartialEq, Eq)]
pub enum SectionEnd {
    /// Its text was read to its end, or its file was closed.
    Through,

    /// A `stop` came to its top.
    Stopped,
    Quit,

    /// Its turns are spent.
    Spent,

    /// It was to restore a save that was made before it, over memory that keeps such saves apart. Registers and memory may only be
    /// dropped.
    Outer { save: SaveName },
}

/// The registers that a section leaves, and how it has ended.
#[derive(Drop)]
pub struct Ran {
    pub regs: Regs,
    pub end: SectionEnd,
}

/// The state before a section's first byte.
fn fresh_state(alloc: Global, input: &SectionInput<'_>, regs: Regs) -> State
    ensures { result ≡
        spec.fresh_state input.now.settings.now input.now.moment input.now.number input.now.kind
        regs }
{
    State {
        regs,
        settings: *input.settings,
        moment: input.moment,
        section: input.number,
        kind: input.kind,
        count: 0,
        turns: 0,
        units: 0,
        shows: 0,
        said: 0,
        place: 0,
        frames: Frames::new(alloc),
    }
}

/// Runs a section's text to its end by a table of operators, from these registers and on this memory. Its pages and its text, with
/// what is said of its end, go to the outlet.
///
/// # Errors
///
/// `OutFault` only where the outlet's count of faults has risen. After a refusal the memory may only be dropped.
pub fn run_section<M: Mem, O: Outlet, T: Operators<M>>(
    alloc: Global,
    input: &SectionInput<'_>,
    regs: Regs,
    mem: &mut M,
    out: &mut O,
) -> Result<Ran, RunRefusal>
    requires positive { 1 ≤ input.now.number }
    requires may_run { MayRun input.now.number regs (M.log mem.old).view }
    ensures counted { O.faults out.old ≤ O.faults out.new }
    ensures failed { IsFault result → HasRisen (O.faults out.old) (O.faults out.new) }
    ensures runs { IfOk result (λ ran. RanTo O.since (section_by T.table input.now regs)
        (M.log mem.old) ran (M.log mem.new) out.new out.old) }
    ensures cut { OnErr result (Wrote O.cut out.new out.old (section_by T.table input.now regs)
        (M.log mem.old).view) }
{
    let mut state = fresh_state(alloc, input, regs);
    match run::<M, O, T>(alloc, input.text, &mut state, mem, out)? {
        Halt::Outer { save } => Ok(Ran {
            regs: state.regs,
            end: SectionEnd::Outer { save },
        }),
        Halt::Ended { outcome, last } => {
            let mut said = line_end(alloc, last)?;
            let closing = close(alloc, outcome, &state, mem)?;
            said.extend(closing.text.as_slice())?;
            say(&said, out)?;
            Ok(Ran {
                regs: state.regs,
                end: closing.end,
            })
        }
    }
}
