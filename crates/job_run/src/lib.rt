//! A job without words: its sections run in sequence on one memory, over any memory and any table of operators.
#![tactic(auto)]

ghost use Rattle.job_run.specs.Sequence.{LeftLaw};

mod job;
mod running;

pub use job::{Final, JobFault, Mode, run_job};
pub use section_sequence::JobInput;

/// What a job's sections leave is a sound state.
pub fn left_law()
    ensures { LeftLaw }
{}
