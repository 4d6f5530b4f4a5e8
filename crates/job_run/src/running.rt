//! All sections of a job, from the start.
ghost use Rattle.std.specs.Prelude.{◌≡◌, ◌≤◌, IfOk, OnOk, OnErr};
ghost use Rattle.dsc_split.specs.Law.{StandsWithin};
ghost use Rattle.dsc_split.specs.Sections.{sections_of};
ghost use Rattle.out_writers.specs.Faults.{HasRisen};
ghost use Rattle.ps_machine.specs.Refusals.{IsFault};
ghost use Rattle.ps_start.specs.Settings.{AreInRange};
ghost use Rattle.job_run.specs.Runs.{Leaves};
ghost use Rattle.job_run.specs.Sequence.{progress_by};

use crate::job::Final;
use dsc_split::Section;
use out_writers::Outlet;
use ps_machine::RunRefusal;
use ps_start::start_registers;
use ps_steps::Operators;
use section_sequence::{JobInput, run_sections};
use std::alloc::Global;
use vm_mem::Base;

/// Runs the sections of a job in sequence on one memory, from the start of its settings.
pub(crate) fn run_all<M: Base + Drop, O: Outlet, T: Operators<M>>(
    alloc: Global,
    job: &JobInput<'_>,
    sections: &[Section],
    out: &mut O,
) -> Result<Final<M>, RunRefusal>
    requires in_range { AreInRange job.now.settings.now }
    requires within { StandsWithin job.now.text.now sections.now }
    requires all { sections.now ≡ sections_of job.now.text.now }
    ensures counted { O.faults out.old ≤ O.faults out.new }
    ensures failed { IsFault result → HasRisen (O.faults out.old) (O.faults out.new) }
    ensures leaves { IfOk result (Leaves (λ m. (M.log m).view) (progress_by T.table job.now)) }
    ensures since { OnOk result (O.since out.new out.old
        (progress_by T.table job.now).papers (progress_by T.table job.now).text) }
    ensures cut { OnErr result (O.cut out.new out.old
        (progress_by T.table job.now).papers (progress_by T.table job.now).text) }
{
    let mut mem = M::start(alloc, job.settings)?;
    let regs = start_registers(alloc, job.settings)?;
    let done = run_sections::<M, O, T>(alloc, job, sections, regs, &mut mem, out)?;
    Ok(Final {
        regs: done.regs,
        mem,
        end: done.end,
        shown: done.shown,
    })
}
