//! Numbers of the graphics state, each within its range.
ghost use Rattle.std.specs.Prelude.{◌≡◌, ◌≤◌, ◌≤ℤ◌, pos, IfOk};

use crate::{NoMemory, ONE, Real};
use std::alloc::Global;
use std::marker::Model;

/// A component of a colour, from 0 to 1.
#[derive(Clone, Copy, PartialEq, Eq)]
pub struct Component {
    real: Real,
}

impl Model for Component {
    ghost use Rattle.ps_shapes.specs.declared.numbers.Real.{Real};
    ghost use Rattle.ps_kinds.specs.Ranges.{IsShare};

    ghost Value = { Real };

    ghost view = { λ c. c.real };

    ghost invariant = { λ c. IsShare c.real };

    ghost inverse = { λ real. record { real = real } };
}

impl Component {
    ghost use Rattle.ps_kinds.specs.Ranges.{IsShare};

    pub fn new(real: Real) -> Component
        requires { IsShare real }
        ensures { result ≡ real }
    {
        Component { real }
    }

    pub fn real(self) -> Real
        ensures value { result ≡ self }
        ensures share { IsShare result }
    {
        self.real
    }
}

/// A line width, which is not negative.
#[derive(Clone, Copy, PartialEq, Eq)]
pub struct LineWidth {
    real: Real,
}

impl Model for LineWidth {
    ghost use Rattle.std.specs.Prelude.{◌≤ℤ◌, pos};
    ghost use Rattle.ps_shapes.specs.declared.numbers.Real.{Real};

    ghost Value = { Real };

    ghost view = { λ w. w.real };

    ghost invariant = { λ w. pos 0 ≤ℤ w.real.count };

    ghost inverse = { λ real. record { real = real } };
}

impl LineWidth {
    pub fn new(real: Real) -> LineWidth
        requires { pos 0 ≤ℤ real.count }
        ensures { result ≡ real }
    {
        LineWidth { real }
    }

    pub fn real(self) -> Real
        ensures value { result ≡ self }
        ensures positive { pos 0 ≤ℤ result.count }
    {
        self.real
    }
}

/// A miter limit, which is 1 or more.
#[derive(Clone, Copy, PartialEq, Eq)]
pub struct MiterLimit {
    real: Real,
}

impl Model for MiterLimit {
    ghost use Rattle.std.specs.Prelude.{◌≤ℤ◌};
    ghost use Rattle.ps_shapes.specs.declared.numbers.Real.{Real};
    ghost use Rattle.ps_shapes.specs.declared.numbers.TheConstants.{ONE};

    ghost Value = { Real };

    ghost view = { λ m. m.real };

    ghost invariant = { λ m. ONE ≤ℤ m.real.count };

    ghost inverse = { λ real. record { real = real } };
}

impl MiterLimit {
    pub fn new(real: Real) -> MiterLimit
        requires { ONE ≤ℤ real.count }
        ensures { result ≡ real }
    {
        MiterLimit { real }
    }

    pub fn real(self) -> Real
        ensures value { result ≡ self }
        ensures one_or_more { ONE ≤ℤ result.count }
    {
        self.real
    }
}

/// The width or the height of a page in pixels, from 1 to 16,384.
#[derive(Clone, Copy, PartialEq, Eq)]
pub struct PageSide {
    pixels: u32,
}

impl Model for PageSide {
    ghost use Rattle.std.specs.Prelude.{◌≤◌, ℕ};

    ghost Value = { ℕ };

    ghost view = { λ side. side.pixels };

    ghost invariant = { λ side. (1 ≤ side.pixels) × (side.pixels ≤ 16384) };

    ghost inverse = { λ pixels. record { pixels = pixels } };
}

impl PageSide {
    pub fn new(pixels: u32) -> PageSide
        requires some { 1 ≤ pixels }
        requires within { pixels ≤ 16384 }
        ensures { result ≡ pixels }
    {
        PageSide { pixels }
    }

    pub fn pixels(self) -> u32
        ensures value { result ≡ self }
        ensures some { 1 ≤ result }
        ensures within { result ≤ 16384 }
    {
        self.pixels
    }
}

/// How the ends of a line look (section 4.5.1 of the language manual).
#[derive(Clone, Copy, Debug, PartialEq, Eq)]
pub enum LineCap {
    Butt,
    Round,
    Square,
}

/// How the corners of a line look (section 4.5.1 of the language manual).
#[derive(Clone, Copy, Debug, PartialEq, Eq)]
pub enum LineJoin {
    Miter,
    Round,
    Bevel,
}

/// The lengths of a dash pattern, on and off in turn: at most 32, none negative, and not all of them 0; none at all is
/// a solid line.
#[derive(Drop)]
pub struct Lengths {
    items: Vec<Real>,
}

impl Model for Lengths {
    ghost use Rattle.std.specs.Prelude.{List};
    ghost use Rattle.ps_shapes.specs.declared.numbers.Real.{Real};
    ghost use Rattle.ps_kinds.specs.Ranges.{IsDash};

    ghost Value = { List Real };

    ghost view = { λ lengths. lengths.items.items };

    ghost invariant = { λ lengths. IsDash lengths.items.items };
}

impl Lengths {
    ghost use Rattle.ps_kinds.specs.Ranges.{IsDash};
    ghost use Rattle.std.specs.Prelude.{[]};

    /// The lengths of a solid line.
    pub fn solid(alloc: Global) -> Lengths
        ensures { result ≡ [] }
    {
        Lengths {
            items: Vec::new(alloc),
        }
    }

    pub fn from_vec(items: Vec<Real>) -> Lengths
        requires { IsDash items.items }
        ensures { result ≡ items.items }
    {
        Lengths { items }
    }

    pub fn as_slice(&self) -> &[Real]
        ensures value { result.now ≡ self.now }
        ensures dash { IsDash self.now }
    {
        self.items.as_slice()
    }

    pub fn copy(&self) -> Result<Lengths, NoMemory>
        ensures { IfOk result (λ lengths. lengths ≡ self.now) }
    {
        Ok(Lengths {
            items: Vec::from_slice(*self.items.allocator(), self.items.as_slice())?,
        })
    }
}

impl PartialEq for Lengths {
    ghost use Rattle.std.specs.Cmp.{partial_equiv_from_equiv};
    ghost use Rattle.std.specs.Cmp.Lexicographic.{lists_equiv, pointwise};
    ghost use Rattle.ps_shapes.specs.contracts.numbers.RealEq.TheImpl.Laws as laws;
    ghost use Rattle.ps_shapes.specs.contracts.numbers.RealPartialEq.TheImpl as real;

    ghost eq = { pointwise real.eq-value.it };

    ghost laws = { partial_equiv_from_equiv (lists_equiv laws.laws-law) };

    fn eq(&self, other: &Lengths) -> bool {
        self.as_slice() == other.as_slice()
    }
}

impl Eq for Lengths {
    ghost use Rattle.std.specs.Cmp.Lexicographic.{lists_equiv};
    ghost use Rattle.ps_shapes.specs.contracts.numbers.RealEq.TheImpl.Laws as laws;

    ghost laws = { lists_equiv laws.laws-law };
}
