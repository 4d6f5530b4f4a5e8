//! Reading a stream of jobs.
ghost use Rattle.std.specs.Prelude.{◌≡◌, ◌≢◌, ◌+◌, ◌-◌, ◌≤◌, [], ◌∷◌, true, false, length, min, IfOk, OnOk, OnErr, IsOkAnd};
ghost use Rattle.std.specs.List.{list_all, list_any, position_or_len, before_first};
ghost use Rattle.memchr.specs.Find.{is_byte};
ghost use Rattle.job_stream.specs.Jobs.{is_white, is_blank, is_control_d};

use copy_lists::{NoMemory, Text};
use dsc_split::{CONTROL_D, JOB_LIMIT};
use memchr::memchr;
use std::alloc::Global;
use std::mem;

/// What feeding a reader tells.
#[derive(Drop)]
pub enum Fed {
    /// No job ended here.
    More,
    /// A job ended: its bytes, none of which is Control-D.
    Job(Text),
    /// A job ended that has more bytes than a job may have.
    Large,
}

/// What feeding the front of some bytes tells, and how many bytes were fed.
#[derive(Drop)]
pub struct Front {
    pub taken: usize,
    pub fed: Fed,
}

/// Reads a stream of jobs that Control-D parts. A piece of the stream that is white space alone, or nothing, is no job.
#[derive(Drop)]
pub struct JobReader {
    alloc: Global,
    /// The piece so far, and nothing of one that has more bytes than a job may have.
    text: Option<Text>,
    /// Whether the piece is white space alone so far.
    is_blank: bool,
}

impl JobReader {
    ghost use Rattle.job_stream.specs.Reader.{front_len, Holds, Grows, Continues, Ends, EndsBehind};

    /// A reader at the beginning of a stream. It takes no memory.
    pub fn new(alloc: Global) -> JobReader
        ensures { Holds result [] }
    {
        JobReader {
            alloc,
            text: Some(Text::new(alloc)),
            is_blank: true,
        }
    }

    /// Reads a byte. Only a byte that isn't Control-D takes memory; where it runs out the reader is as it was.
    pub fn feed(&mut self, byte: u8) -> Result<Fed, NoMemory>
        ensures goes_on { byte ≢ CONTROL_D → IfOk result (Continues self.old self.new (byte ∷ [])) }
        ensures ends { byte ≡ CONTROL_D → IsOkAnd result (Ends self.old self.new) }
        ensures err { OnErr result (self.new ≡ self.old) }
    {
        if byte == CONTROL_D {
            return Ok(self.end());
        }
        self.append(&[byte])?;
        Ok(Fed::More)
    }

    /// Reads the bytes up to the first Control-D and it, or all where there is none, and tells how many these are.
    /// Where memory runs out the reader is as it was.
    #[tactic(auto, using(crate::proofs::Searches::unparted, crate::proofs::Searches::parted, crate::proofs::Searches::whole_before, crate::proofs::Searches::ends_behind))]
    pub fn feed_front(&mut self, bytes: &[u8]) -> Result<Front, NoMemory>
        ensures taken { IfOk result (λ front. front.taken ≡ front_len bytes.now) }
        ensures goes_on { list_any is_control_d bytes.now ≡ false →
            IfOk result (λ front. Continues self.old self.new bytes.now front.fed) }
        ensures ends { list_any is_control_d bytes.now ≡ true →
            IfOk result (λ front. EndsBehind self.old self.new (before_first is_control_d bytes.now)
            front.fed) }
        ensures err { OnErr result (self.new ≡ self.old) }
    {
        let place = length_before(bytes);
        self.append(&bytes[..place])?;
        if place == bytes.len() {
            return Ok(Front {
                taken: place,
                fed: Fed::More,
            });
        }
        Ok(Front {
            taken: place + 1,
            fed: self.end(),
        })
    }

    /// Ends the stream, or the piece: tells the last piece, and begins another. It takes no memory.
    pub fn end(&mut self) -> Fed
        ensures { Ends self.old self.new result }
    {
        let text = mem::replace(&mut self.text, Some(Text::new(self.alloc)));
        let is_blank = mem::replace(&mut self.is_blank, true);
        if is_blank {
            return Fed::More;
        }
        match text {
            Some(text) => Fed::Job(text),
            None => Fed::Large,
        }
    }

    /// Puts bytes behind the piece.
    fn append(&mut self, bytes: &[u8]) -> Result<(), NoMemory>
        ensures ok { OnOk result (list_any is_control_d bytes.now ≡ false
            → Grows self.old self.new bytes.now) }
        ensures err { OnErr result (self.new ≡ self.old) }
    {
        if let Some(text) = &mut self.text {
            if bytes.len() > JOB_LIMIT.saturating_sub(text.len()) {
                self.text = None;
            } else {
                text.extend(bytes)?;
            }
        }
        self.is_blank = self.is_blank && is_blank(bytes);
        Ok(())
    }
}

/// How many bytes stand before the first Control-D, or all of them where there is none.
#[tactic(auto, using(crate::proofs::Searches::first_place))]
fn length_before(bytes: &[u8]) -> usize
    ensures value { result ≡ position_or_len is_control_d bytes.now }
    ensures bound { result ≤ length bytes.now }
{
    memchr(CONTROL_D, bytes).unwrap_or(bytes.len())
}

/// Whether all bytes are white space.
fn is_blank(bytes: &[u8]) -> bool
    ensures { result ≡ is_blank bytes.now }
{
    bytes.iter().all(|byte| is_white(*byte))
}

fn is_white(byte: u8) -> bool
    ensures { result ≡ is_white byte }
{
    matches!(byte, 0 | b'\t' | b'\n' | 0x0c | b'\r' | b' ')
}
