//! Cutting a job at its marks.
ghost use Rattle.std.specs.Prelude.{◌≡◌, ◌≢◌, ℕ, ◌+◌, ◌-◌, ◌*◌, ◌<◌, ◌≤◌, ◌^◌, List, [], ◌∷◌, ◌++◌, length, true, if◌then◌else◌, nat_le, nat_eq, drop, codes, IfOk, IfErr, OnOk};
ghost use Rattle.std.specs.List.{suffix_len, starts_with};
ghost use Rattle.ps_objects.specs.declared.section.SectionKind.TheVariants as kind;
ghost use Rattle.dsc_split.specs.declared.mark.Mark.{Mark};
ghost use Rattle.dsc_split.specs.declared.section.Section.{Section};
ghost use Rattle.dsc_split.specs.Sections.{begins_with_header, is_control_d, start_of, prolog_end, section, sections_of, page_count};
ghost use Rattle.dsc_split.specs.Cuts.{closed_with, marks_begin, place_of, after_prolog, Continues, Leads, IsTooMany, Refuses};
ghost use Rattle.dsc_split.specs.Law.{StandsWithin};

use crate::mark::{Mark, Marks};
use crate::section::{Section, Sections};
use ps_objects::{NoMemory, SectionKind};
use std::alloc::Global;

/// The most pages that a job may have.
pub const MAX_PAGES: u32 = 100_000;

/// The prolog, the setup, the trailer and as many pages as there may be.
const MAX_SECTIONS: u32 = 100_003;

pub const CONTROL_D: u8 = 4;

/// The bytes of a job, at most.
pub const JOB_LIMIT: usize = 268_435_456;

/// Why a job isn't split.
#[derive(Clone, Copy, Debug, PartialEq, Eq)]
pub enum SplitError {
    /// The job has more than `MAX_PAGES` pages: so many.
    TooManyPages { count: u32 },
    NoMemory,
}

impl From<NoMemory> for SplitError {
    ghost use Rattle.std.specs.Prelude.{◌≡◌};
    ghost use Rattle.dsc_split.specs.declared.cutter.SplitError.TheVariants as refusal;

    ghost from_gives = { λ _ error. error ≡ refusal.NoMemory };

    fn from(_: NoMemory) -> SplitError {
        SplitError::NoMemory
    }
}

impl Mark {
    /// The place at which the prolog ends where the mark is the first.
    fn place(self) -> usize
        ensures { result ≡ place_of self }
    {
        match self {
            Mark::EndProlog(to) => to,
            Mark::Page(from) => from,
            Mark::Trailer(from) => from,
        }
    }
}

/// The sections that are closed, and the number, the kind and the place of the one that is open.
#[derive(Drop)]
struct Cutter {
    sections: Vec<Section>,
    number: u32,
    kind: SectionKind,
    from: usize,
}

impl Cutter {
    fn new(alloc: Global, start: usize) -> Cutter
        ensures sections { result.sections.items ≡ [] }
        ensures number { result.number ≡ 1 }
        ensures kind { result.kind ≡ kind.Prolog }
        ensures from { result.from ≡ start }
    {
        Cutter {
            sections: Vec::new(alloc),
            number: 1,
            kind: SectionKind::Prolog,
            from: start,
        }
    }

    /// Closes the open section at a place. Where there are too many sections already it isn't kept.
    fn close(&mut self, at: usize) -> Result<(), NoMemory>
        requires { self.old.from ≤ at }
        ensures sections { OnOk result (self.new.sections.items ≡ closed_with self.old at) }
        ensures number { self.new.number ≡ self.old.number }
        ensures kind { self.new.kind ≡ self.old.kind }
        ensures from { self.new.from ≡ self.old.from }
    {
        if self.number <= MAX_SECTIONS {
            self.sections.push(Section {
                number: self.number,
                kind: self.kind,
                from: self.from as u64,
                len: (at - self.from) as u64,
            })?;
        }
        Ok(())
    }

    /// Closes the open section at a place and begins another there.
    #[tactic(auto, using(crate::proofs::CutLemmas::leads_on))]
    fn open(&mut self, kind: SectionKind, at: usize) -> Result<(), NoMemory>
        requires forward { self.old.from ≤ at }
        requires room { self.old.number + 1 < 2 ^ 32 }
        ensures number { OnOk result (self.new.number ≡ self.old.number + 1) }
        ensures kind { OnOk result (self.new.kind ≡ kind) }
        ensures from { OnOk result (self.new.from ≡ at) }
        ensures leads { OnOk result ((end : ℕ) (marks later : List Mark) (whole : List Section) →
            Continues self.old kind at end marks later → Leads self.old end marks whole →
            Leads self.new end later whole) }
    {
        self.close(at)?;
        self.number += 1;
        self.kind = kind;
        self.from = at;
        Ok(())
    }

    /// Closes the prolog at a place, if it is open.
    fn end_prolog(&mut self, at: usize) -> Result<(), NoMemory>
        requires forward { self.old.from ≤ at }
        requires room { self.old.number + 1 < 2 ^ 32 }
        ensures number { OnOk result (self.new.number ≤ self.old.number + 1) }
        ensures kind { OnOk result (self.new.kind ≡ after_prolog self.old.kind) }
        ensures from { OnOk result (self.new.from ≤ at) }
        ensures leads { OnOk result ((end : ℕ) (marks : List Mark) (whole : List Section) →
            prolog_end end marks ≡ at → Leads self.old end marks whole →
            Leads self.new end marks whole) }
    {
        if self.kind == SectionKind::Prolog {
            self.open(SectionKind::Setup, at)?;
        }
        Ok(())
    }

    /// Cuts the job at a mark.
    fn cut(&mut self, mark: Mark) -> Result<(), NoMemory>
        requires forward { self.old.from ≤ place_of mark }
        requires room { self.old.number + 2 < 2 ^ 32 }
        ensures number { OnOk result (self.new.number ≤ self.old.number + 2) }
        ensures from { OnOk result (self.new.from ≤ place_of mark) }
        ensures leads { OnOk result ((end : ℕ) (marks : List Mark) (whole : List Section) →
            Leads self.old end (mark ∷ marks) whole → Leads self.new end marks whole) }
    {
        if self.kind == SectionKind::Trailer {
            return Ok(());
        }
        self.end_prolog(mark.place())?;
        match mark {
            Mark::EndProlog(_) => Ok(()),
            Mark::Page(from) => {
                self.open(SectionKind::Page, from)?;
                Ok(())
            }
            Mark::Trailer(from) => {
                self.open(SectionKind::Trailer, from)?;
                Ok(())
            }
        }
    }

    /// Closes setup or a page at the job's end, if it is open.
    fn end_part(&mut self, end: usize) -> Result<(), NoMemory>
        requires forward { self.old.from ≤ end }
        requires room { self.old.number + 1 < 2 ^ 32 }
        requires kind { self.old.kind ≢ kind.Prolog }
        ensures number { OnOk result (self.new.number ≤ self.old.number + 1) }
        ensures kind { OnOk result (self.new.kind ≡ kind.Trailer) }
        ensures from { OnOk result (self.new.from ≤ end) }
        ensures leads { OnOk result ((whole : List Section) →
            Leads self.old end [] whole → Leads self.new end [] whole) }
    {
        if self.kind != SectionKind::Trailer {
            self.open(SectionKind::Trailer, end)?;
        }
        Ok(())
    }

    /// The sections of the job.
    fn finish(mut self, end: usize) -> Result<Sections, SplitError>
        requires forward { self.from ≤ end }
        requires room { self.number + 2 < 2 ^ 32 }
        ensures ok { IfOk result (λ sections. (whole : List Section) →
            Leads self end [] whole → (sections ≡ whole) × (length whole ≤ MAX_SECTIONS)) }
        ensures err { IfErr result (λ error. (whole : List Section) →
            Leads self end [] whole → IsTooMany whole error) }
    {
        self.end_prolog(end)?;
        self.end_part(end)?;
        self.close(end)?;
        if self.number > MAX_SECTIONS {
            return Err(SplitError::TooManyPages {
                count: self.number - (MAX_SECTIONS - MAX_PAGES),
            });
        }
        Ok(Sections::from_vec(self.sections))
    }
}

/// How many Control-D bytes a job begins with.
fn start_of(job: &[u8]) -> usize
    ensures value { result ≡ start_of job.now }
    ensures bound { result ≤ length job.now }
{
    job.iter().take_while(|byte| **byte == CONTROL_D).count()
}

/// How many Control-D bytes a text ends with.
fn trailing_len(text: &[u8]) -> usize
    ensures value { result ≡ suffix_len is_control_d text.now }
    ensures bound { result ≤ length text.now }
{
    text.iter()
        .rev()
        .take_while(|byte| **byte == CONTROL_D)
        .count()
}

/// Whether a text begins as one with document structure does.
pub fn begins_with_header(text: &[u8]) -> bool
    ensures { result ≡ begins_with_header text.now }
{
    text.starts_with(b"%!PS-Adobe-")
}

/// The marks of a job that begins at a place: none where it has no header.
fn marks_of_job(text: &[u8], start: usize) -> Marks<'_>
    requires { start ≤ length text.now }
    ensures job { result.job.now ≡ text.now }
    ensures at { result.at ≡ marks_begin text.now start }
    ensures depth { result.depth ≡ 0 }
{
    if begins_with_header(&text[start..]) {
        Marks::new(text, start)
    } else {
        Marks::new(text, text.len())
    }
}

/// The sections of a job.
#[tactic(auto, using(crate::proofs::Laws::split_within))]
pub fn split(alloc: Global, job: &[u8]) -> Result<Sections, SplitError>
    requires { length job.now ≤ JOB_LIMIT }
    ensures ok { IfOk result (λ sections. sections ≡ sections_of job.now) }
    ensures few { OnOk result (page_count (sections_of job.now) ≤ MAX_PAGES) }
    ensures within { IfOk result (StandsWithin job.now) }
    ensures refused { IfErr result (Refuses job.now) }
{
    let start = start_of(job);
    let end = job.len() - trailing_len(&job[start..]);
    let mut cutter = Cutter::new(alloc, start);
    for mark in marks_of_job(&job[..end], start) {
        cutter.cut(mark)?;
    }
    cutter.finish(end)
}
