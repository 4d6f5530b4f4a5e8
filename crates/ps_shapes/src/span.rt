//! Spans of pixels.
ghost use Rattle.std.specs.Prelude.{◌≡◌, ◌<◌, [], ◌∷◌, ◌++◌, All, IfOk, OnErr, OnOk};

use copy_lists::{Duplicate, NoMemory, Sequence};
use std::alloc::Global;
use std::marker::Model;

/// The pixels of a row from column `first` up to, and without, column `past`.
#[derive(Clone, Copy, Debug, PartialEq, Eq)]
pub struct Span {
    pub row: u32,
    pub first: u32,
    pub past: u32,
}

/// Spans in the order of rows, and of columns in each row. None is empty, and no two touch.
#[derive(Drop)]
pub struct Spans {
    spans: Vec<Span>,
}

impl Model for Spans {
    ghost use Rattle.std.specs.Prelude.{List};
    ghost use Rattle.ps_shapes.specs.declared.span.Span.{Span};
    ghost use Rattle.ps_shapes.specs.Span.{IsOrdered};

    ghost Value = { List Span };

    ghost view = { λ s. s.spans.items };

    ghost invariant = { λ s. IsOrdered s.spans.items };
}

impl Spans {
    ghost use Rattle.ps_shapes.specs.Span.{IsBefore, IsOrdered};

    pub fn new(alloc: Global) -> Spans
        ensures { result ≡ [] }
    {
        Spans {
            spans: Vec::new(alloc),
        }
    }

    pub fn push(&mut self, span: Span) -> Result<(), NoMemory>
        requires filled { span.first < span.past }
        requires after { All (λ s. IsBefore s span) self.old }
        ensures ok { OnOk result (self.new ≡ self.old ++ span ∷ []) }
        ensures err { OnErr result (self.new ≡ self.old) }
    {
        self.spans.push(span)?;
        Ok(())
    }

    pub fn as_slice(&self) -> &[Span]
        ensures spans { result.now ≡ self.now }
        ensures ordered { IsOrdered self.now }
    {
        self.spans.as_slice()
    }

    pub fn copy(&self) -> Result<Spans, NoMemory>
        ensures { IfOk result (λ spans. spans ≡ self.now) }
    {
        Ok(Spans {
            spans: Vec::from_slice(*self.spans.allocator(), self.spans.as_slice())?,
        })
    }
}

impl PartialEq for Spans {
    ghost use Rattle.std.specs.Cmp.{partial_equiv_from_equiv};
    ghost use Rattle.std.specs.Cmp.Lexicographic.{pointwise};
    ghost use Rattle.ps_shapes.specs.Same.{same_span};
    ghost use Rattle.std.specs.Cmp.Lexicographic.{lists_equiv};
    ghost use Rattle.ps_shapes.specs.Laws.{same_span_equivalence};

    ghost eq = { pointwise same_span };

    ghost laws = { partial_equiv_from_equiv (lists_equiv same_span_equivalence) };

    fn eq(&self, other: &Spans) -> bool {
        self.as_slice() == other.as_slice()
    }
}

impl Eq for Spans {
    ghost use Rattle.std.specs.Cmp.Lexicographic.{lists_equiv};
    ghost use Rattle.ps_shapes.specs.Laws.{same_span_equivalence};

    ghost laws = { lists_equiv same_span_equivalence };
}

impl Duplicate for Spans {
    fn duplicate(&self) -> Result<Spans, NoMemory> {
        self.copy()
    }
}

/// A list of lists of spans.
pub type SpansList = Sequence<Spans>;
