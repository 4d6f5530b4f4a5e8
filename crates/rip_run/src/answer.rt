//! What is written for a job that was read.
ghost use Rattle.std.specs.Prelude.{◌≡◌, ◌≢◌, ◌≤◌, ◌⊎◌, ℕ, List, Option, length, flat_map, IfOk, IfSome};
ghost use Rattle.rip_ports.specs.Ports.{HasRisen};
ghost use Rattle.dsc_split.specs.declared.section.Section.{Section};
ghost use Rattle.ps_execution.specs.Table.{Table};
ghost use Rattle.command_words.specs.Words.{SettingsInRange};
ghost use Rattle.command_words.specs.declared.command.Command.TheVariants.{Split};
ghost use Rattle.rip_run.specs.Answers.{Answers};
ghost use Rattle.rip_run.specs.Job.{result_of_command, result_of_read, told};
ghost use Rattle.rip_run.specs.Reading.{IsAtEnd};
ghost use Rattle.rip_run.specs.Status.{IsAfterReading, IsDefined, Writes};
ghost use Rattle.rip_run.specs.Texts.{section_line, too_many_line};
ghost use Rattle.rip_run.specs.declared.status.Status.TheVariants.{Done, ReadFault, TooManyPages, Usage, WriteFault};

use crate::plain::run_plain;
use crate::reading::{Unread, read_job};
use crate::status::Status;
use crate::texts::{too_large_line, too_many_line};
use command_words::Command;
use copy_lists::{NoMemory, Text};
use dsc_split::{JOB_LIMIT, Section, SplitError, split};
use ps_steps::Operators;
use rip_ports::{Failed, Sink, Source};
use std::alloc::Global;
use vm_cells::Cells;

#[tactic(auto, using(crate::proofs::Answering::read_answers, crate::proofs::Answering::too_large_answers, crate::proofs::Answering::whatever_read, crate::proofs::Answering::fault_answers, crate::proofs::Answering::wanting_answers))]
/// Reads the job and writes the command's result.
pub(crate) fn answer<S: Source, P: Sink, B: Sink, T: Operators<Cells>>(
    alloc: Global,
    command: &Command,
    moment: u64,
    source: &mut S,
    pages: &mut P,
    back: &mut B,
) -> Status
    requires { SettingsInRange command.now }
    ensures answers { IfSome (S.left source.old) (λ job. Answers
        (result_of_command T.table command.now moment job) result
        (P.holds pages.old) (P.holds pages.new) (B.holds back.old) (B.holds back.new)) }
    ensures read { IsAfterReading result → IsAtEnd (S.left source.new) }
    ensures read_fault { result ≡ ReadFault → HasRisen (S.faults source.old) (S.faults source.new) }
    ensures write_fault { result ≡ WriteFault →
        HasRisen (P.faults pages.old) (P.faults pages.new) ⊎
        HasRisen (B.faults back.old) (B.faults back.new) }
    ensures words { result ≢ Usage }
{
    match read_job(alloc, source, JOB_LIMIT) {
        Ok(job) => answer_job::<P, B, T>(alloc, command, moment, job.as_slice(), pages, back),
        Err(Unread::TooLong) => write(back, too_large_line(), Status::TooLarge),
        Err(Unread::Fault) => Status::ReadFault,
        Err(Unread::NoMemory) => Status::NoMemory,
    }
}

/// Writes the result for a job that is no larger than a job may be.
fn answer_job<P: Sink, B: Sink, T: Operators<Cells>>(
    alloc: Global,
    command: &Command,
    moment: u64,
    job: &[u8],
    pages: &mut P,
    back: &mut B,
) -> Status
    requires limit { length job.now ≤ JOB_LIMIT }
    requires in_range { SettingsInRange command.now }
    ensures answers { Answers (result_of_read T.table command.now moment job.now) result
        (P.holds pages.old) (P.holds pages.new) (B.holds back.old) (B.holds back.new) }
    ensures write_fault { result ≡ WriteFault →
        HasRisen (P.faults pages.old) (P.faults pages.new) ⊎
        HasRisen (B.faults back.old) (B.faults back.new) }
    ensures read_fault { result ≢ ReadFault }
    ensures words { result ≢ Usage }
{
    match command {
        Command::Plain(options) => {
            run_plain::<P, B, T>(alloc, options, moment, job, pages, back)
        }
        Command::Split => list_sections(alloc, job, back),
    }
}

/// Writes a line for each section of a job.
#[tactic(auto, using(crate::proofs::Answering::split_answers, crate::proofs::Answering::too_many_answers, crate::proofs::Answering::wanting_answers))]
fn list_sections<B: Sink>(alloc: Global, job: &[u8], back: &mut B) -> Status
    requires { length job.now ≤ JOB_LIMIT }
    ensures answers { (T : Table) (moment : ℕ) (held : Option (List ℕ)) →
        Answers (result_of_read T Split moment job.now) result
        held held (B.holds back.old) (B.holds back.new) }
    ensures write_fault { result ≡ WriteFault →
        HasRisen (B.faults back.old) (B.faults back.new) }
    ensures read_fault { result ≢ ReadFault }
    ensures words { result ≢ Usage }
{
    match split(alloc, job) {
        Ok(sections) => write_made(
            back,
            section_list(alloc, sections.as_slice()),
            Status::Done { reruns: 0 },
        ),
        Err(SplitError::TooManyPages { count }) => write_made(
            back,
            too_many_line(alloc, count),
            Status::TooManyPages { count },
        ),
        Err(SplitError::NoMemory) => Status::NoMemory,
    }
}

/// A line for each section.
#[tactic(auto, using(crate::proofs::Pieces::listed))]
fn section_list(alloc: Global, sections: &[Section]) -> Result<Text, NoMemory>
    ensures { IfOk result (λ text. text ≡ flat_map section_line sections.now) }
{
    let mut text = Text::new(alloc);
    for section in sections {
        let line = format!(in alloc; "{section}\n")?;
        text.extend(line.as_bytes())?;
    }
    Ok(text)
}

/// Writes a text on the back channel, where memory was found for it.
pub(crate) fn write_made<B: Sink>(
    back: &mut B,
    made: Result<Text, NoMemory>,
    status: Status,
) -> Status
    requires { IsDefined status }
    ensures held { (text : List ℕ) → IfOk made (λ m. m ≡ text) →
        Writes result text (B.holds back.old) (B.holds back.new) }
    ensures status { IsDefined result → result ≡ status }
    ensures failed { result ≡ WriteFault → HasRisen (B.faults back.old) (B.faults back.new) }
    ensures read_fault { result ≡ ReadFault → status ≡ ReadFault }
    ensures words { result ≡ Usage → status ≡ Usage }
{
    match made {
        Ok(text) => write(back, text.as_slice(), status),
        Err(NoMemory) => Status::NoMemory,
    }
}

/// Writes a text on the back channel and gives the answer, or says that the sink failed.
pub(crate) fn write<B: Sink>(back: &mut B, text: &[u8], status: Status) -> Status
    requires { IsDefined status }
    ensures held { Writes result text.now (B.holds back.old) (B.holds back.new) }
    ensures status { result ≢ WriteFault → result ≡ status }
    ensures failed { result ≡ WriteFault → HasRisen (B.faults back.old) (B.faults back.new) }
{
    match back.put(text) {
        Ok(()) => status,
        Err(Failed) => Status::WriteFault,
    }
}
