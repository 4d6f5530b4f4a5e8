//! The kinds of section.

/// What a section of a job is.
#[derive(Clone, Copy, Debug, PartialEq, Eq)]
pub enum SectionKind {
    Prolog,
    Setup,
    Page,
    Trailer,
}
