//! The run of a job, without its words and its closing lines.
ghost use Rattle.std.specs.Prelude.{◌≡◌, ◌≤◌, ◌⊎◌, length, IfErr};
ghost use Rattle.rip_ports.specs.Ports.{HasRisen};
ghost use Rattle.dsc_split.specs.Law.{StandsWithin};
ghost use Rattle.dsc_split.specs.Sections.{page_count, sections_of};
ghost use Rattle.dsc_split.specs.declared.cutter.TheConstants.{MAX_PAGES};
ghost use Rattle.out_writers.specs.Faults.{sum_of_faults};
ghost use Rattle.ps_start.specs.Settings.{AreInRange};
ghost use Rattle.job_run.specs.Runs.{RunsJob};
ghost use Rattle.job_run.specs.Sequence.{progress_by};
ghost use Rattle.job_run.specs.declared.job.JobFault.TheVariants as fault;

use crate::running::run_all;
use dsc_split::{JOB_LIMIT, Section, SplitError, split};
use out_writers::ToSinks;
use ps_kinds::Regs;
use ps_machine::{RunRefusal, SectionEnd};
use ps_steps::Operators;
use rip_ports::Sink;
use section_sequence::JobInput;
use std::alloc::Global;
use vm_mem::Base;

/// How the pages of a job are run.
#[derive(Clone, Copy, Debug, PartialEq, Eq)]
pub enum Mode {
    /// In sequence, on one memory.
    Plain,
}

/// What a job's sections leave: the registers, the memory, how the last that ran has ended, and how many pages were shown.
#[derive(Drop)]
pub struct Final<M> {
    pub regs: Regs,
    pub mem: M,
    pub end: SectionEnd,
    pub shown: u64,
}

/// Why a job didn't come to its end.
#[derive(Clone, Copy, Debug, PartialEq, Eq)]
pub enum JobFault {
    /// The job has more than 100,000 pages: so many.
    TooManyPages { count: u32 },
    /// A sink failed.
    WriteFault,
    /// Memory ran out.
    NoMemory,
}

impl From<SplitError> for JobFault {
    ghost use Rattle.std.specs.Prelude.{◌≡◌};
    ghost use Rattle.job_run.specs.Faults.{of_split};

    ghost from_gives = { λ error fault. fault ≡ of_split error };

    fn from(error: SplitError) -> JobFault {
        match error {
            SplitError::TooManyPages { count } => JobFault::TooManyPages { count },
            SplitError::NoMemory => JobFault::NoMemory,
        }
    }
}

impl From<RunRefusal> for JobFault {
    ghost use Rattle.std.specs.Prelude.{◌≡◌};
    ghost use Rattle.job_run.specs.Faults.{of_run};

    ghost from_gives = { λ refusal fault. fault ≡ of_run refusal };

    fn from(refusal: RunRefusal) -> JobFault {
        match refusal {
            RunRefusal::OutFault => JobFault::WriteFault,
            RunRefusal::NoMemory => JobFault::NoMemory,
        }
    }
}

/// Runs the sections of a job: pictures go to `pages`, what the sections say to `back`.
///
/// The job has at most 268,435,456 bytes; one of more than 100,000 pages is refused before any is run. Where memory runs out or
/// a sink fails, each sink holds a front of the bytes that it would have been given.
pub fn run_job<M: Base + Drop, P: Sink, B: Sink, T: Operators<M>>(
    alloc: Global,
    job: &JobInput<'_>,
    mode: Mode,
    pages: &mut P,
    back: &mut B,
) -> Result<Final<M>, JobFault>
    requires limit { length job.now.text.now ≤ JOB_LIMIT }
    requires in_range { AreInRange job.now.settings.now }
    // Registers, memory, end and pages shown are those of the sections in sequence, and nothing but their outputs is written.
    ensures runs { RunsJob (λ m. (M.log m).view) (progress_by T.table job.now) job.now.text.now
        result (P.holds pages.old) (P.holds pages.new) (B.holds back.old) (B.holds back.new) }
    // A fault is answered only where one rose in this call.
    ensures counted { sum_of_faults (P.faults pages.old) (B.faults back.old)
        ≤ sum_of_faults (P.faults pages.new) (B.faults back.new) }
    ensures failed { IfErr result (λ e. e ≡ fault.WriteFault →
        HasRisen (P.faults pages.old) (P.faults pages.new) ⊎
        HasRisen (B.faults back.old) (B.faults back.new)) }
{
    let sections = split(alloc, job.text)?;
    match mode {
        Mode::Plain => run_plain::<M, P, B, T>(alloc, job, sections.as_slice(), pages, back),
    }
}

/// Runs these sections of a job in sequence on one memory.
fn run_plain<M: Base + Drop, P: Sink, B: Sink, T: Operators<M>>(
    alloc: Global,
    job: &JobInput<'_>,
    sections: &[Section],
    pages: &mut P,
    back: &mut B,
) -> Result<Final<M>, JobFault>
    requires in_range { AreInRange job.now.settings.now }
    requires few { page_count (sections_of job.now.text.now) ≤ MAX_PAGES }
    requires within { StandsWithin job.now.text.now sections.now }
    requires all { sections.now ≡ sections_of job.now.text.now }
    ensures runs { RunsJob (λ m. (M.log m).view) (progress_by T.table job.now) job.now.text.now
        result (P.holds pages.old) (P.holds pages.new) (B.holds back.old) (B.holds back.new) }
    ensures counted { sum_of_faults (P.faults pages.old) (B.faults back.old)
        ≤ sum_of_faults (P.faults pages.new) (B.faults back.new) }
    ensures failed { IfErr result (λ e. e ≡ fault.WriteFault →
        HasRisen (P.faults pages.old) (P.faults pages.new) ⊎
        HasRisen (B.faults back.old) (B.faults back.new)) }
{
    let mut out = ToSinks::new(alloc, pages, back);
    Ok(run_all::<M, ToSinks<'_, P, B>, T>(alloc, job, sections, &mut out)?)
}
