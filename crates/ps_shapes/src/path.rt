//! Paths.
ghost use Rattle.std.specs.Prelude.{◌≡◌, ◌+◌, ◌-◌, ◌≤◌, ◌<◌, [], ◌∷◌, ◌++◌, length, take, IsTrue, IfOk, OnErr, OnOk};
ghost use Rattle.ps_shapes.specs.Near.{IsOnDevice};

use crate::Real;
use copy_lists::NoMemory;
use std::alloc::Global;
use std::marker::Model;

/// A point in pixels, right and down from the page's upper left corner, within 2^46 counts of 0.
#[derive(Clone, Copy, Debug, PartialEq, Eq)]
pub struct DevicePoint {
    pub x: Real,
    pub y: Real,
    ghost near_x: { IsOnDevice x.count },
    ghost near_y: { IsOnDevice y.count },
}

/// A part of a path.
#[derive(Clone, Copy, Debug, PartialEq, Eq)]
pub enum Segment {
    /// Begins a subpath.
    Move(DevicePoint),
    /// A line from the current point.
    Line(DevicePoint),
    /// A Bézier curve from the current point, by two control points to its end.
    Curve(DevicePoint, DevicePoint, DevicePoint),
    /// A line back to where the subpath began.
    Close,
}

/// A path. Where it isn't empty it begins with a `Move`.
#[derive(Drop)]
pub struct Path {
    segments: Vec<Segment>,
}

impl Model for Path {
    ghost use Rattle.std.specs.Prelude.{List};
    ghost use Rattle.ps_shapes.specs.declared.path.Segment.{Segment};
    ghost use Rattle.ps_shapes.specs.Path.{IsPath};

    ghost Value = { List Segment };

    ghost view = { λ p. p.segments.items };

    ghost invariant = { λ p. IsPath p.segments.items };
}

impl Path {
    ghost use Rattle.ps_shapes.specs.Path.{IsPath, is_move};

    pub fn new(alloc: Global) -> Path
        ensures { result ≡ [] }
    {
        Path {
            segments: Vec::new(alloc),
        }
    }

    pub fn push(&mut self, segment: Segment) -> Result<(), NoMemory>
        requires { self.old ≡ [] → IsTrue (is_move segment) }
        ensures ok { OnOk result (self.new ≡ self.old ++ segment ∷ []) }
        ensures err { OnErr result (self.new ≡ self.old) }
    {
        self.segments.push(segment)?;
        Ok(())
    }

    /// Puts the segment in the place of the last one.
    pub fn replace_last(&mut self, segment: Segment)
        requires some { 0 < length self.old }
        requires first { length self.old ≡ 1 → IsTrue (is_move segment) }
        ensures { self.new ≡ take (length self.old - 1) self.old ++ segment ∷ [] }
    {
        let last = self.segments.len() - 1;
        self.segments[last] = segment;
    }

    /// Makes the path empty.
    pub fn clear(&mut self)
        ensures { self.new ≡ [] }
    {
        self.segments.clear();
    }

    pub fn as_slice(&self) -> &[Segment]
        ensures segments { result.now ≡ self.now }
        ensures path { IsPath self.now }
    {
        self.segments.as_slice()
    }

    pub fn copy(&self) -> Result<Path, NoMemory>
        ensures { IfOk result (λ path. path ≡ self.now) }
    {
        Ok(Path {
            segments: Vec::from_slice(*self.segments.allocator(), self.segments.as_slice())?,
        })
    }
}

impl PartialEq for Path {
    ghost use Rattle.std.specs.Cmp.{partial_equiv_from_equiv};
    ghost use Rattle.std.specs.Cmp.Lexicographic.{pointwise};
    ghost use Rattle.ps_shapes.specs.contracts.path.SegmentPartialEq.TheImpl as segment;
    ghost use Rattle.std.specs.Cmp.Lexicographic.{lists_equiv};
    ghost use Rattle.ps_shapes.specs.contracts.path.SegmentEq.TheImpl.Laws as laws;

    ghost eq = { pointwise segment.eq-value.it };

    ghost laws = { partial_equiv_from_equiv (lists_equiv laws.laws-law) };

    fn eq(&self, other: &Path) -> bool {
        self.as_slice() == other.as_slice()
    }
}

impl Eq for Path {
    ghost use Rattle.std.specs.Cmp.Lexicographic.{lists_equiv};
    ghost use Rattle.ps_shapes.specs.contracts.path.SegmentEq.TheImpl.Laws as laws;

    ghost laws = { lists_equiv laws.laws-law };
}
