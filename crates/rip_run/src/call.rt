//! The top call without threads.
ghost use Rattle.std.specs.Prelude.{◌≡◌, ◌<◌, ◌⊎◌, List, ℕ, length, IfSome, IsNone, Some, false};
ghost use Rattle.rip_ports.specs.Ports.{Appends, HasRisen};
ghost use Rattle.rip_run.specs.Job.{is_refused, job_result};
ghost use Rattle.rip_run.specs.Reading.{IsAtEnd};
ghost use Rattle.rip_run.specs.Status.{IsAfterReading, IsDefined, IsRefusal, IsRunOrWanting, Writes};
ghost use Rattle.rip_run.specs.Texts.{usage_line};
ghost use Rattle.command_words.specs.Words.{command_of};
ghost use Rattle.rip_run.specs.declared.status.Status.TheVariants.{ReadFault, TooLarge, TooManyPages, Usage, WriteFault};
ghost use Rattle.command_words.specs.declared.command.Command.{Command};
ghost use Rattle.dsc_split.specs.Sections.{page_count, sections_of};

use crate::answer::{answer, write};
use crate::status::Status;
use crate::texts::usage_line;
use command_words::{Word, command_of};
use dsc_split::{JOB_LIMIT, MAX_PAGES};
use operator_table::AllOperators;
use rip_ports::{Sink, Source};
use std::alloc::Global;

/// Does what the words say with the job that the source gives: pictures go to `pages`, messages to `back`.
///
/// The words are the one word `plain` or `split`. The job is read to its end before anything is done with it; one of
/// more than 268,435,456 bytes is refused as soon as they are passed, and one of more than 100,000 pages before any is
/// run. Where memory runs out or a sink fails, each sink holds a front of the bytes that it would have been given.
pub fn rip_plain<S: Source, P: Sink, B: Sink>(
    alloc: Global,
    words: &[Word],
    moment: u64,
    source: &mut S,
    pages: &mut P,
    back: &mut B,
) -> Status
    // The answer and what is written are the result of the job that the source had, but for faults and want of memory.
    ensures status { IfSome (S.left source.old) (λ job.
        IsDefined result → result ≡ (job_result words.now moment job).status) }
    ensures pages { IfSome (S.left source.old) (λ job.
        Writes result (job_result words.now moment job).pages
        (P.holds pages.old) (P.holds pages.new)) }
    ensures back { IfSome (S.left source.old) (λ job.
        Writes result (job_result words.now moment job).back
        (B.holds back.old) (B.holds back.new)) }

    // A job that was run, or refused for its pages, was read to its end.
    ensures read { IsAfterReading result → IsAtEnd (S.left source.new) }

    // Words outside the grammar are refused before anything is read, and no others are.
    ensures usage { result ≡ Usage →
        IsNone (command_of words.now) × (source.new ≡ source.old) × (pages.new ≡ pages.old)
        × Appends usage_line (B.holds back.old) (B.holds back.new) }
    ensures words { IsNone (command_of words.now) → IsRefusal result }

    // A job is refused for its size or its pages where it has too many.
    ensures too_large { result ≡ TooLarge →
        IfSome (S.left source.old) (λ job. JOB_LIMIT < length job) }
    ensures too_many { (count : ℕ) → result ≡ TooManyPages count →
        IfSome (S.left source.old) (λ job.
        (count ≡ page_count (sections_of job)) × (MAX_PAGES < count)) }

    // A fault is answered only where one rose in this call.
    ensures read_fault { result ≡ ReadFault → HasRisen (S.faults source.old) (S.faults source.new) }
    ensures write_fault { result ≡ WriteFault →
        HasRisen (P.faults pages.old) (P.faults pages.new) ⊎
        HasRisen (B.faults back.old) (B.faults back.new) }

    // Words in the grammar, a job that is not refused and no fault that rose: the job is run, or memory runs out.
    ensures complete { (command : Command) (job : List ℕ) →
        command_of words.now ≡ Some command → S.left source.old ≡ Some job →
        is_refused job ≡ false →
        ¬ HasRisen (S.faults source.old) (S.faults source.new) →
        ¬ HasRisen (P.faults pages.old) (P.faults pages.new) →
        ¬ HasRisen (B.faults back.old) (B.faults back.new) → IsRunOrWanting result }
{
    match command_of(words) {
        Some(command) => answer::<S, P, B, AllOperators>(
            alloc, &command, moment, source, pages, back,
        ),
        None => write(back, usage_line(), Status::Usage),
    }
}
