//! The committed memory, as one on which others stand.
ghost use Rattle.std.specs.Prelude.{None, refl};

use crate::cells::Cells;
use crate::holds::{is_byte, is_paper, is_rand};
use crate::next::earlier;
use crate::page::Page;
use crate::quick::remove_few;
use ps_objects::{Cell, Loc, NoMemory, Paper, Settings, Shape, Space, Value};
use std::alloc::Global;
use vm_content::{copy_map, next_in};
use vm_journal::Locals;
use vm_mem::{Base, Writes};

/// None of the places has a number.
impl Base for Cells {
    ghost count = { λ _. 0 };

    ghost number = { λ _ _. None };

    #[tactic(auto, using(crate::proofs::Starting::are_local, crate::proofs::Starting::have_holders, crate::proofs::Starting::start_made))]
    fn start(alloc: Global, settings: &Settings) -> Result<Cells, NoMemory> {
        let locals = Locals::new(alloc, vm_start::locals(alloc)?);
        let globals = vm_start::globals(alloc)?;
        let strings = vm_start::strings(alloc)?;
        let paper = Paper::blank(alloc, settings.width, settings.height)?;
        Ok(Cells {
            alloc,
            locals,
            globals,
            strings,
            rand: 1,
            page: Page::Here(paper),
        })
    }

    fn copy(&self) -> Result<Cells, NoMemory> {
        let locals = self.locals.copy()?;
        let globals = copy_map(self.alloc, &self.globals)?;
        let strings = copy_map(self.alloc, &self.strings)?;
        let page = self.page.copy()?;
        Ok(Cells {
            alloc: self.alloc,
            locals,
            globals,
            strings,
            rand: self.rand,
            page,
        })
    }

    #[tactic(auto, using(vm_mem::proofs::Conditions::apply_here, vm_mem::proofs::Conditions::all_applicable, crate::proofs::TakingBack::closed_now, crate::proofs::TakingBack::closed_after))]
    fn apply(&mut self, writes: &Writes) -> Result<(), NoMemory> {
        if self.stays_closed(writes) && remove_few(writes) {
            self.apply_quick(writes)
        } else {
            self.apply_copy(writes)
        }
    }

    fn view_at(&self, at: &Loc) -> Result<Value, NoMemory> {
        match at {
            Loc::Entry { dict, .. } | Loc::Keys { dict } | Loc::Access { dict } => {
                self.held_value(*dict, at)
            }
            Loc::Item { array, .. } => self.held_value(*array, at),
            Loc::Byte { string, at } => Ok(self.byte(*string, *at)),
            Loc::Rand => Ok(Value::Rand(self.rand)),
            Loc::Paper => self.paper(),
        }
    }

    fn same(&self, at: &Loc, value: &Value) -> bool {
        match at {
            Loc::Entry { dict, .. } | Loc::Keys { dict } | Loc::Access { dict } => {
                self.cell_holds(*dict, at, value)
            }
            Loc::Item { array, .. } => self.cell_holds(*array, at, value),
            Loc::Byte { string, at } => is_byte(self.byte_at(*string, *at), value),
            Loc::Rand => is_rand(self.rand, value),
            Loc::Paper => is_paper(&self.page, value),
        }
    }

    #[tactic(auto, using(crate::proofs::Nexts::both_parts))]
    fn cell_after(&self, cell: Option<Cell>) -> Option<(Cell, Shape)> {
        let local = self.locals.next(cell);
        let global = next_in(&self.globals, Space::Global, cell);
        earlier(local, global)
    }

    fn places(&self) -> u64 {
        0
    }

    fn index(&self, _: &Loc) -> Option<u64> {
        None
    }

    fn have_holders(&self) {
        let _ = &self.strings; // each is a cell's that stands
    }

    ghost untracked = { λ _. refl };
}
