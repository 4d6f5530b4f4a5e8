//! The texts that are written.
ghost use Rattle.std.specs.Prelude.{◌≡◌, IfOk};
ghost use Rattle.out_writers.specs.Texts.{flushing_line, picture_header, report_text};

use itoa::Buffer;
use ps_kinds::{NoMemory, Paper, Text};
use std::alloc::Global;

/// The line that a section ends with where the rest of the job is dropped.
pub fn flushing() -> &'static [u8]
    ensures { result.now ≡ flushing_line }
{
    b"%%[ Flushing: rest of job (to end-of-file) will be ignored ]%%\n"
}

/// The header of a raw portable bitmap: `P4`, then width and height.
#[tactic(auto, using(crate::proofs::Pieces::five_pieces))]
pub fn header(alloc: Global, paper: &Paper) -> Result<Text, NoMemory>
    ensures { IfOk result (λ text. text ≡ picture_header paper.now) }
{
    let mut width = Buffer::new();
    let mut height = Buffer::new();
    let mut text = Text::from_bytes(alloc, b"P4\n")?;
    text.extend(width.format(paper.width()).as_bytes())?;
    text.extend(b" ")?;
    text.extend(height.format(paper.height()).as_bytes())?;
    text.extend(b"\n")?;
    Ok(text)
}

/// The report of an error that stopped a section: the error's name and the plain text of the object that was
/// executed, then the flushing line.
#[tactic(auto, using(crate::proofs::Pieces::six_pieces))]
pub fn report(alloc: Global, name: &[u8], command: &[u8]) -> Result<Text, NoMemory>
    ensures { IfOk result (λ text. text ≡ report_text name.now command.now) }
{
    let mut text = Text::from_bytes(alloc, b"%%[ Error: ")?;
    text.extend(name)?;
    text.extend(b"; OffendingCommand: ")?;
    text.extend(command)?;
    text.extend(b" ]%%\n")?;
    text.extend(flushing())?;
    Ok(text)
}
