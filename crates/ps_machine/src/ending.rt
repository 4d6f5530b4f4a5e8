//! What is said of a section's end.
ghost use Rattle.std.specs.Prelude.{◌≡◌, [], IfOk, option_map};
ghost use Rattle.ps_execution.specs.Execution.{on};
ghost use Rattle.ps_execution.specs.Section.{ended_so};
ghost use Rattle.ps_meaning.specs.Registers.{world_of};
ghost use Rattle.ps_meaning.specs.Sound.{SoundMemory};
ghost use Rattle.ps_report.specs.Reports.{report_in, told_in};
ghost use Rattle.ps_steps.specs.Next.{outcome_of};
ghost use Rattle.ps_machine.specs.Lines.{line_end_after};
ghost use Rattle.ps_machine.specs.SectionText as spec;
ghost use Rattle.ps_machine.specs.Sections.{Closes};

use crate::SectionEnd;
use out_writers::{flushing, report};
use plain_texts::plain_text;
use ps_kinds::{NoMemory, State, Text};
use ps_report::{Report, Told, reports};
use ps_steps::Outcome;
use std::alloc::Global;
use vm_mem::Mem;

/// How a section has ended, and what is left to be said of it.
#[derive(Drop)]
pub(crate) struct Closing {
    pub end: SectionEnd,
    pub text: Text,
}

/// The plain text of an object that the report tells.
fn told_text(alloc: Global, told: &Option<Told>) -> Result<Text, NoMemory>
    ensures { IfOk result (λ text. text ≡ spec.told_text (option_map told_in told.now)) }
{
    match told {
        Some(told) => plain_text(alloc, &told.object, told.bytes.as_slice()),
        None => Text::from_bytes(alloc, b"--nostringval--"),
    }
}

/// The report of the error that stopped a section, where there is one, with the line that the rest of the job is dropped.
fn stop_text(alloc: Global, told: &Option<Report>) -> Result<Text, NoMemory>
    ensures { IfOk result (λ text. text ≡ spec.stop_text (option_map report_in told.now)) }
{
    match told {
        Some(told) => {
            let name = told_text(alloc, &told.name)?;
            let command = told_text(alloc, &told.command)?;
            report(alloc, name.as_slice(), command.as_slice())
        }
        None => Text::from_bytes(alloc, flushing()),
    }
}

/// The report of turns that are spent.
fn timeout_text(alloc: Global) -> Result<Text, NoMemory>
    ensures { IfOk result (λ text. text ≡ spec.timeout_text) }
{
    report(alloc, b"timeout", b"--nostringval--")
}

/// A line end, where the last byte said is none.
pub(crate) fn line_end(alloc: Global, last: Option<u8>) -> Result<Text, NoMemory>
    ensures { IfOk result (λ text. text ≡ line_end_after last) }
{
    match last {
        Some(byte) if byte != b'\n' => Text::from_bytes(alloc, b"\n"),
        _ => Ok(Text::new(alloc)),
    }
}

/// The end of a section that has come to an outcome, and what is said of it: the report is a part of the section.
pub(crate) fn close<M: Mem>(
    alloc: Global,
    outcome: Outcome,
    state: &State,
    mem: &mut M,
) -> Result<Closing, NoMemory>
    requires { SoundMemory (world_of state.now.section (M.log mem.old).view) (M.log mem.old).view }
    ensures { IfOk result (λ c. Closes (ended_so (on [] state.now) (outcome_of outcome))
        (M.log mem.old) c (M.log mem.new)) }
{
    match outcome {
        Outcome::Next | Outcome::Exit => Ok(Closing {
            end: SectionEnd::Through,
            text: Text::new(alloc),
        }),
        Outcome::Stop => {
            let told = reports(alloc, state, mem)?;
            let text = stop_text(alloc, &told)?;
            Ok(Closing {
                end: SectionEnd::Stopped,
                text,
            })
        }
        Outcome::Quit => Ok(Closing {
            end: SectionEnd::Quit,
            text: Text::new(alloc),
        }),
        Outcome::Spent => Ok(Closing {
            end: SectionEnd::Spent,
            text: timeout_text(alloc)?,
        }),
    }
}
