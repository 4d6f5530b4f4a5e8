//! The names of composite objects and of saves.
ghost use Rattle.std.specs.Prelude.{◌≡◌};

use crate::{Duplicate, NoMemory};

/// Where a composite object lies: local memory, which a restore gives back, or global memory.
#[derive(Clone, Copy, Debug, PartialEq, Eq, PartialOrd, Ord)]
pub enum Space {
    Local,
    Global,
}

/// The name of a composite object: the section that made it, and its place among what that section made.
#[derive(Clone, Copy, Debug, PartialEq, Eq, PartialOrd, Ord)]
pub struct Cell {
    pub section: u32,
    pub count: u32,
    pub space: Space,
}

/// The name of a save, counted together with the cells of its section.
#[derive(Clone, Copy, Debug, PartialEq, Eq, PartialOrd, Ord)]
pub struct SaveName {
    pub section: u32,
    pub count: u32,
}

impl Cell {
    ghost use Rattle.ps_objects.specs.Cell.{comes_after, newer};

    /// Whether the cell, local or global, was made after the save.
    pub fn comes_after(self, save: SaveName) -> bool
        ensures { result ≡ comes_after self save }
    {
        let sections = self.section.cmp(&save.section);
        sections.then(self.count.cmp(&save.count)).is_gt()
    }

    /// Whether the cell is local and was made after the save: a restore of the save takes it away.
    pub fn is_newer_than(self, save: SaveName) -> bool
        ensures { result ≡ newer self save }
    {
        self.space == Space::Local && self.comes_after(save)
    }
}

impl Duplicate for Cell {
    fn duplicate(&self) -> Result<Cell, NoMemory> {
        Ok(*self)
    }
}
