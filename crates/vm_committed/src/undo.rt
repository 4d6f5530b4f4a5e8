//! How a write is taken back.
ghost use Rattle.std.specs.Prelude.{◌≡◌, [], true, option_copied, IfOk};
ghost use Rattle.std.specs.FinMap.{get};
ghost use Rattle.ps_memory.specs.Memory.{held, byte, spot_of, with_part, put_cell, do_store, do_fresh, store, fresh};
ghost use Rattle.ps_memory.specs.Frame.{Allowed};
ghost use Rattle.vm_content.specs.Content.{slot_in};
ghost use Rattle.vm_content.specs.Back.{content_undone};
ghost use Rattle.vm_committed.specs.declared.undo.Undo.TheVariants as undo;
ghost use Rattle.vm_committed.specs.Whole.{page_of};
ghost use Rattle.vm_mem.specs.Writes.{action_of};
ghost use Rattle.vm_committed.specs.Undo.{write_undone, opens_none, TakesBack, TakesHeldBack};

use crate::cells::{Cells, put_byte_in};
use crate::page::Page;
use ps_objects::{Cell, Loc, NoMemory, Shape, Space, Value};
use vm_content::{Before, Bytes, remove_bytes, remove_cell, undo_in_cell};
use vm_mem::Write;

/// How one write is taken back, which takes no memory.
#[derive(Drop)]
pub(crate) enum Undo {
    /// Nothing was changed.
    Nothing,

    /// The cell was made.
    Made { cell: Cell },

    /// What the cell holds was changed.
    Held { cell: Cell, before: Before },

    /// The byte was this.
    Byte { string: Cell, at: u32, byte: u8 },

    /// The state of the random numbers was this.
    Rand { state: u32 },

    /// The paper was this.
    Laid { page: Page },
}

// What a write will change.
impl Cells {
    /// How a write is taken back once it is done.
    pub(crate) fn undo_of(&self, write: &Write) -> Result<Undo, NoMemory>
        requires allowed { Allowed (action_of write.now) self.now }
        requires closed { opens_none write.now ≡ true }
        ensures { IfOk result (λ undo. TakesBack undo (action_of write.now) self.now) }
    {
        match write {
            Write::Fresh { cell, shape } => Ok(self.undo_of_fresh(*cell, *shape)),
            Write::Put { at, value } => self.undo_of_put(at, value),
            Write::Remove { dict, key } => {
                let at = Loc::Entry {
                    dict: *dict,
                    key: key.copy()?,
                };
                self.undo_of_put(&at, &Value::Absent)
            }
            Write::Save { .. } => Ok(Undo::Nothing),
        }
    }

    #[tactic(auto, using(crate::proofs::Undoing::fresh_back))]
    fn undo_of_fresh(&self, cell: Cell, shape: Shape) -> Undo
        requires { Allowed (fresh cell shape) self.now }
        ensures { write_undone result (do_fresh cell shape self.now) ≡ self.now }
    {
        let _ = &self.strings; // each is a cell's that stands
        Undo::Made { cell }
    }

    fn undo_of_put(&self, at: &Loc, value: &Value) -> Result<Undo, NoMemory>
        ensures { IfOk result (λ undo. TakesBack undo (store at.now value.now) self.now) }
    {
        match at {
            Loc::Entry { dict, .. } | Loc::Keys { dict } | Loc::Access { dict } => {
                self.undo_of_held(*dict, at, value)
            }
            Loc::Item { array, .. } => self.undo_of_held(*array, at, value),
            Loc::Byte { string, at } => Ok(self.undo_of_byte(*string, *at, value)),
            Loc::Rand => Ok(Undo::Rand { state: self.rand }),
            Loc::Paper => {
                let page = self.page.copy()?;
                Ok(Undo::Laid { page })
            }
        }
    }

    #[tactic(auto, using(crate::proofs::Undoing::held_back, crate::proofs::Undoing::held_nowhere))]
    fn undo_of_held(&self, cell: Cell, at: &Loc, value: &Value) -> Result<Undo, NoMemory>
        requires { spot_of at.now ≡ held cell (slot_in at.now) }
        ensures { IfOk result (λ undo. TakesHeldBack undo cell at.now value.now self.now) }
    {
        match self.content(cell) {
            Some(content) => {
                let before = content.before(at, value)?;
                Ok(Undo::Held { cell, before })
            }
            None => Ok(Undo::Nothing),
        }
    }

    /// The bytes of a string.
    #[tactic(auto, using(vm_content::proofs::Cells::cell_found))]
    fn bytes(&self, string: Cell) -> Option<&Bytes>
        ensures { option_copied result ≡ get self.now.strings string }
    {
        self.strings.get(&string)
    }

    #[tactic(auto, using(crate::proofs::Undoing::byte_nowhere))]
    fn undo_of_byte(&self, string: Cell, at: u32, value: &Value) -> Undo
        ensures { write_undone result (do_store (byte string at) value.now self.now) ≡ self.now }
    {
        match self.bytes(string) {
            Some(bytes) => match bytes.get(at) {
                Some(byte) => Undo::Byte { string, at, byte },
                None => Undo::Nothing,
            },
            None => Undo::Nothing,
        }
    }
}

// Taking it back.
impl Cells {
    /// Takes a write back, where no save is open.
    pub(crate) fn undo(&mut self, way: Undo)
        requires { self.old.kept ≡ [] }
        ensures { self.new ≡ write_undone way self.old }
    {
        match way {
            Undo::Nothing => {}
            Undo::Made { cell } => self.undo_made(cell),
            Undo::Held { cell, before } => self.undo_in_cell(cell, before),
            Undo::Byte { string, at, byte } => self.undo_byte(string, at, byte),
            Undo::Rand { state } => self.rand = state,
            Undo::Laid { page } => self.page = page,
        }
    }

    #[tactic(auto, using(crate::proofs::Undoing::in_locals, crate::proofs::Undoing::in_globals))]
    fn undo_in_cell(&mut self, cell: Cell, before: Before)
        requires { self.old.kept ≡ [] }
        ensures { self.new ≡ with_part self.old cell (put_cell cell (content_undone before)) }
    {
        match cell.space {
            Space::Local => self.locals.undo(cell, before),
            Space::Global => undo_in_cell(&mut self.globals, cell, before),
        }
    }

    fn undo_byte(&mut self, string: Cell, at: u32, byte: u8)
        ensures { self.new ≡ write_undone (undo.Byte string at byte) self.old }
    {
        put_byte_in(&mut self.strings, string, at, byte);
    }

    /// Takes a cell and its bytes away.
    #[tactic(auto, using(crate::proofs::Undoing::in_locals, crate::proofs::Undoing::in_globals))]
    fn undo_made(&mut self, cell: Cell)
        requires { self.old.kept ≡ [] }
        ensures { self.new ≡ write_undone (undo.Made cell) self.old }
    {
        remove_bytes(&mut self.strings, cell);
        match cell.space {
            Space::Local => self.locals.remove(cell),
            Space::Global => remove_cell(&mut self.globals, cell),
        }
    }
}
