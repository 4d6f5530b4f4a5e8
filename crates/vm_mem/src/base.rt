//! Memory on which others stand.
ghost use Rattle.std.specs.Prelude.{◌≡◌, ◌<◌, ℕ, Option, Some, None, IfOk, IfSome, OnOk, OnErr, IsTrue, ◌↔◌};
ghost use Rattle.ps_objects.specs.declared.place.Loc.{Loc};
ghost use Rattle.ps_memory.specs.Holders.{HaveHolders};
ghost use Rattle.ps_memory.specs.Memory.{value_at};
ghost use Rattle.ps_memory.specs.Next.{IsNext};
ghost use Rattle.ps_meaning.specs.Start.{start_memory};
ghost use Rattle.vm_mem.specs.Conditions.{MayApply};
ghost use Rattle.vm_mem.specs.Writes.{actions, Applies};

use crate::{Mem, Writes};
use ps_objects::{Cell, Loc, NoMemory, Settings, Shape, Value};
use std::alloc::Global;

/// Memory on which others stand: it can be read, compared and copied as it is, and takes the writes of a run at once.
///
/// It tells no looks, so none of its saves is an outer one.
pub trait Base: Mem + Sized {
    /// How many places have a number, and the number of a place.
    ghost count: { Self → ℕ };

    ghost number: { Self → Loc → Option ℕ };

    /// The memory with which a job starts, on paper of the settings' size in pixels.
    fn start(alloc: Global, settings: &Settings) -> Result<Self, NoMemory>
        ensures { IfOk result (λ memory. (Self.log memory).view ≡ start_memory settings.now) };

    /// A memory with the same values and kept copies.
    fn copy(&self) -> Result<Self, NoMemory>
        ensures { IfOk result (λ memory. (Self.log memory).view ≡ (Self.log self.now).view) };

    /// Does writes in order, each of which meets its condition where it is done. Where memory runs out nothing has changed.
    fn apply(&mut self, writes: &Writes) -> Result<(), NoMemory>
        requires { MayApply (Self.log self.old).view (actions writes.now) }
        ensures ok { OnOk result (Applies writes.now (Self.log self.old) (Self.log self.new)) }
        ensures err { OnErr result ((Self.log self.new).view ≡ (Self.log self.old).view) };

    /// A copy of the value at any place: absent where its cell doesn't stand or isn't of its kind, or it is out of range.
    fn view_at(&self, at: &Loc) -> Result<Value, NoMemory>
        ensures { IfOk result (λ value. value ≡ value_at (Self.log self.now).view at.now) };

    /// Whether the value at a place is this one. It takes no memory.
    fn same(&self, at: &Loc, value: &Value) -> bool
        ensures { IsTrue result ↔ (value_at (Self.log self.now).view at.now ≡ value.now) };

    /// The first cell that stands after the given one, or at all, by section and then by count, with its shape. It takes no memory.
    fn cell_after(&self, cell: Option<Cell>) -> Option<(Cell, Shape)>
        ensures { IsNext (Self.log self.now).view cell result };

    /// How many places have a number.
    fn places(&self) -> u64
        ensures { result ≡ count self.now };

    /// The number of a place, below `places`. No other place has it.
    fn index(&self, at: &Loc) -> Option<u64>
        ensures number { result ≡ number self.now at.now }
        ensures below { IfSome result (λ n. n < count self.now) }
        ensures single { IfSome result (λ n. (l : Loc) → number self.now l ≡ Some n → l ≡ at.now) };

    /// Bytes stand under cells of strings alone: what every such memory is known to have.
    fn have_holders(&self)
        ensures { HaveHolders (Self.log self.now).view };

    ghost untracked: { (memory : Self) → (Self.log memory).track ≡ None };
}
