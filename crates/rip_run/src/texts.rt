//! The lines that are written for a job.
ghost use Rattle.std.specs.Prelude.{◌≡◌, codes, IfOk};
ghost use Rattle.rip_run.specs.Texts.{usage_line, too_large_line, too_many_line, done_line};

use copy_lists::{NoMemory, Text};
use itoa::Buffer;
use std::alloc::Global;

/// The line for words that are not in the grammar.
pub(crate) fn usage_line() -> &'static [u8]
    ensures { result.now ≡ usage_line }
{
    b"%%[ usage: rip_main render, plain, spec, split or sample ]%%\n"
}

/// The line for a job of more bytes than are taken.
pub(crate) fn too_large_line() -> &'static [u8]
    ensures { result.now ≡ too_large_line }
{
    b"%%[ job refused: too large ]%%\n"
}

/// The line for a job of so many pages, which are more than are taken.
pub(crate) fn too_many_line(alloc: Global, count: u32) -> Result<Text, NoMemory>
    ensures { IfOk result (λ text. text ≡ too_many_line count) }
{
    let mut buffer = Buffer::new();
    let mut text = Text::from_bytes(alloc, b"%%[ job refused: ")?;
    text.extend(buffer.format(count).as_bytes())?;
    text.extend(b" pages ]%%\n")?;
    Ok(text)
}

/// The closing line: so many pages were shown.
pub(crate) fn done_line(alloc: Global, shown: u64) -> Result<Text, NoMemory>
    ensures { IfOk result (λ text. text ≡ done_line shown) }
{
    let mut buffer = Buffer::new();
    let mut text = Text::from_bytes(alloc, b"%%[ done: ")?;
    text.extend(buffer.format(shown).as_bytes())?;
    text.extend(b" shown ]%%\n")?;
    Ok(text)
}
