//! Halftone thresholds.
ghost use Rattle.std.specs.Prelude.{◌≡◌, ◌*◌, ◌<◌, [], length, IfOk, IsTrue, ◌↔◌};
ghost use Rattle.ps_shapes.specs.Screen.{IsScreen, screen};

use copy_lists::NoMemory;
use std::alloc::Global;
use std::marker::Model;

/// A table of thresholds, row by row, or none, which has the width and the height 0.
#[derive(Drop)]
pub struct Thresholds {
    width: u32,
    height: u32,
    bytes: Vec<u8>,
}

impl Model for Thresholds {
    ghost use Rattle.ps_shapes.specs.Screen.{Screen, IsScreen, screen};

    ghost Value = { Screen };

    ghost view = { λ t. screen t.width t.height t.bytes.items };

    ghost invariant = { λ t. IsScreen (screen t.width t.height t.bytes.items) };
}

impl Thresholds {
    pub fn none(alloc: Global) -> Thresholds
        ensures { result ≡ screen 0 0 [] }
    {
        Thresholds {
            width: 0,
            height: 0,
            bytes: Vec::new(alloc),
        }
    }

    pub fn new(alloc: Global, width: u32, height: u32, bytes: &[u8]) -> Result<Thresholds, NoMemory>
        requires width { 0 < width }
        requires height { 0 < height }
        requires size { length bytes.now ≡ width * height }
        ensures { IfOk result (λ t. t ≡ screen width height bytes.now) }
    {
        Ok(Thresholds {
            width,
            height,
            bytes: Vec::from_slice(alloc, bytes)?,
        })
    }

    pub fn width(&self) -> u32
        ensures value { result ≡ self.now.width }
        ensures screen { IsScreen self.now }
    {
        self.width
    }

    pub fn height(&self) -> u32
        ensures { result ≡ self.now.height }
    {
        self.height
    }

    pub fn as_bytes(&self) -> &[u8]
        ensures { result.now ≡ self.now.bytes }
    {
        self.bytes.as_slice()
    }

    /// Whether there are no thresholds.
    pub fn is_none(&self) -> bool
        ensures { IsTrue result ↔ (self.now ≡ screen 0 0 []) }
    {
        self.width == 0
    }

    pub fn copy(&self) -> Result<Thresholds, NoMemory>
        ensures { IfOk result (λ thresholds. thresholds ≡ self.now) }
    {
        Ok(Thresholds {
            width: self.width,
            height: self.height,
            bytes: Vec::from_slice(*self.bytes.allocator(), self.bytes.as_slice())?,
        })
    }
}

impl PartialEq for Thresholds {
    ghost use Rattle.std.specs.Cmp.{partial_equiv_from_equiv};
    ghost use Rattle.ps_shapes.specs.Same.{same_screen};
    ghost use Rattle.ps_shapes.specs.Laws.{same_screen_equivalence};

    ghost eq = { same_screen };

    ghost laws = { partial_equiv_from_equiv (same_screen_equivalence) };

    fn eq(&self, other: &Thresholds) -> bool {
        self.width == other.width && self.height == other.height && self.bytes == other.bytes
    }
}

impl Eq for Thresholds {
    ghost use Rattle.ps_shapes.specs.Laws.{same_screen_equivalence};

    ghost laws = { same_screen_equivalence };
}
