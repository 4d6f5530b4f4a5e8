//! Sections.
ghost use Rattle.std.specs.Prelude.{◌≡◌, ◌+◌, ◌≤◌, length};
ghost use Rattle.dsc_split.specs.Sections.{kind_word, text_of};

use ps_objects::SectionKind;
use std::fmt;
use std::marker::Model;

/// A section of a job: its number, from 1 on, its kind, the place of its first byte, and how many bytes it has.
#[derive(Clone, Copy, Debug, PartialEq, Eq)]
pub struct Section {
    pub number: u32,
    pub kind: SectionKind,
    pub from: u64,
    pub len: u64,
}

impl Section {
    /// The bytes of the section.
    pub fn text<'a>(&self, job: &'a [u8]) -> &'a [u8]
        requires { self.now.from + self.now.len ≤ length job.now }
        ensures { result.now ≡ text_of job.now self.now }
    {
        let from = self.from as usize;
        &job[from..from + self.len as usize]
    }
}

/// The word for a kind of section.
fn kind_word(kind: SectionKind) -> &'static str
    ensures { result.now ≡ kind_word kind }
{
    match kind {
        SectionKind::Prolog => "prolog",
        SectionKind::Setup => "setup",
        SectionKind::Page => "page",
        SectionKind::Trailer => "trailer",
    }
}

/// A section is written as its number, its kind, its place and its length, with single spaces.
impl fmt::Display for Section {
    ghost use Rattle.std.specs.Prelude.{Some};
    ghost use Rattle.dsc_split.specs.Sections.{section_text};

    ghost output = { λ s. Some (section_text s) };

    fn fmt<W: fmt::Write>(&self, f: &mut fmt::Formatter<W>) -> fmt::Result {
        let number = self.number;
        let kind = kind_word(self.kind);
        let from = self.from;
        let len = self.len;
        write!(f, "{number} {kind} {from} {len}")
    }
}

/// The sections of a job, in their order.
#[derive(Drop)]
pub struct Sections {
    items: Vec<Section>,
}

impl Model for Sections {
    ghost use Rattle.std.specs.Prelude.{List};
    ghost use Rattle.dsc_split.specs.declared.section.Section.{Section};

    ghost Value = { List Section };

    ghost view = { λ s. s.items.items };
}

impl Sections {
    pub fn from_vec(items: Vec<Section>) -> Sections
        ensures { result ≡ items.items }
    {
        Sections { items }
    }

    pub fn into_vec(self) -> Vec<Section>
        ensures { result.items ≡ self }
    {
        self.items
    }

    pub fn as_slice(&self) -> &[Section]
        ensures { result.now ≡ self.now }
    {
        self.items.as_slice()
    }
}
