//! The run of some sections of a job.
ghost use Rattle.std.specs.Prelude.{◌≡◌, ◌≤◌, ◌+◌, length, IfOk, OnErr};
ghost use Rattle.ps_execution.specs.Section.{End};
ghost use Rattle.dsc_split.specs.Law.{StandsWithin};
ghost use Rattle.out_writers.specs.Faults.{HasRisen};
ghost use Rattle.ps_machine.specs.Refusals.{IsFault};
ghost use Rattle.ps_machine.specs.Sections.{end_in};
ghost use Rattle.ps_machine.specs.Starting.{MayRun};
ghost use Rattle.section_sequence.specs.Running.{CutOff, Finishes, GoesOn, MayRunAll, job_by, one_more, sections_by};

use crate::page_counter::PageCounter;
use dsc_split::Section;
use out_writers::Outlet;
use ps_kinds::{Regs, Settings};
use ps_machine::{Ran, RunRefusal, SectionEnd, SectionInput, run_section};
use ps_steps::Operators;
use std::alloc::Global;
use vm_mem::Base;

/// What a job's sections run from, beside registers and memory: the job's text, by these settings and at this moment.
#[derive(Clone, Copy)]
pub struct JobInput<'a> {
    pub settings: &'a Settings,
    pub moment: u64,
    pub text: &'a [u8],
}

/// What sections have left: the registers, how the last that ran has ended, and how many pages they have shown.
#[derive(Drop)]
pub struct Finished {
    pub regs: Regs,
    pub end: SectionEnd,
    pub shown: u64,
}

/// Runs a section, unless the job has ended before it.
fn go_on<M: Base, O: Outlet, T: Operators<M>>(
    alloc: Global,
    job: &JobInput<'_>,
    section: &Section,
    ran: Ran,
    mem: &mut M,
    out: &mut O,
) -> Result<Ran, RunRefusal>
    requires within { section.now.from + section.now.len ≤ length job.now.text.now }
    requires positive { 1 ≤ section.now.number }
    requires may_run { MayRun section.now.number ran.regs (M.log mem.old).view }
    ensures counted { O.faults out.old ≤ O.faults out.new }
    ensures failed { IsFault result → HasRisen (O.faults out.old) (O.faults out.new) }
    ensures runs { (e : End) → ran.end ≡ end_in e → GoesOn O.since O.cut
        (one_more (job_by T.table job.now) section.now ran.regs (M.log mem.old).view e)
        result (M.log mem.new).view out.new out.old }
{
    if ran.end != SectionEnd::Through {
        return Ok(ran);
    }
    let input = SectionInput {
        settings: job.settings,
        moment: job.moment,
        number: section.number,
        kind: section.kind,
        text: section.text(job.text),
    };
    run_section::<M, O, T>(alloc, &input, ran.regs, mem, out)
}

/// Runs sections of a job in sequence, from these registers and on this memory.
pub fn run_sections<M: Base, O: Outlet, T: Operators<M>>(
    alloc: Global,
    job: &JobInput<'_>,
    sections: &[Section],
    regs: Regs,
    mem: &mut M,
    out: &mut O,
) -> Result<Finished, RunRefusal>
    requires within { StandsWithin job.now.text.now sections.now }
    requires may_run { MayRunAll sections.now regs (M.log mem.old).view }
    ensures counted { O.faults out.old ≤ O.faults out.new }
    ensures failed { IsFault result → HasRisen (O.faults out.old) (O.faults out.new) }
    ensures runs { IfOk result (λ done. Finishes O.since
        (sections_by T.table job.now sections.now regs (M.log mem.old).view)
        done (M.log mem.new).view out.new out.old) }
    ensures cut { OnErr result (CutOff O.cut
        (sections_by T.table job.now sections.now regs (M.log mem.old).view)
        out.new out.old) }
{
    let mut counter = PageCounter::new(out);
    let mut ran = Ran {
        regs,
        end: SectionEnd::Through,
    };
    for section in sections {
        ran = go_on::<M, PageCounter<'_, O>, T>(alloc, job, section, ran, mem, &mut counter)?;
    }
    Ok(Finished {
        regs: ran.regs,
        end: ran.end,
        shown: counter.shown(),
    })
}
