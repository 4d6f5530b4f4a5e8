//! The sections of a job in sequence, on one memory.
#![tactic(auto)]

ghost use Rattle.section_sequence.specs.Between.{StartsLaw, EndsLaw, InOrderLaw, SequenceLaw, JobLaw};

mod page_counter;
mod running;

pub use running::{Finished, JobInput, run_sections};

/// Before each section of a job, registers and memory are such that it may run: at the start, and after each section, however it
/// has ended.
pub fn sequence_law()
    ensures starts { StartsLaw }
    ensures ends { EndsLaw }
    ensures in_order { InOrderLaw }
    ensures sequence { SequenceLaw }
    ensures job { JobLaw }
{}
