//! Writes done on a memory at once, at the cost of what they change.
ghost use Rattle.std.specs.Prelude.{◌≡◌, [], true, OnOk, OnErr};
ghost use Rattle.ps_memory.specs.Memory.{perform};
ghost use Rattle.ps_memory.specs.Frame.{Allowed};
ghost use Rattle.ps_memory.specs.Writes.{apply, Applicable};
ghost use Rattle.vm_mem.specs.Conditions.{page_is_here};
ghost use Rattle.vm_mem.specs.Writes.{action_of, actions};
ghost use Rattle.vm_committed.specs.Undo.{writes_undone, opens_none, none_opens, stays_closed};

use crate::cells::Cells;
use crate::undo::Undo;
use ps_objects::{NoMemory, Stack, Value};
use vm_mem::{Write, Writes};

impl Cells {
    /// Whether no save is open and no write opens one.
    pub(crate) fn stays_closed(&self, writes: &Writes) -> bool
        ensures { stays_closed self.now writes.now ≡ result }
    {
        self.locals.has_no_save() && none_opens(writes)
    }

    /// Does writes that open no save, in order from the oldest on, while none is open. Where memory runs out, what was done
    /// is taken back, which takes none.
    pub(crate) fn apply_quick(&mut self, writes: &Writes) -> Result<(), NoMemory>
        requires here { page_is_here self.old ≡ true }
        requires none { self.old.kept ≡ [] }
        requires closed { none_opens writes.now ≡ true }
        requires applicable { Applicable (actions writes.now) self.old }
        ensures ok { OnOk result (self.new ≡ apply (actions writes.now) self.old) }
        ensures err { OnErr result (self.new ≡ self.old) }
    {
        let mut undos = Stack::new(self.alloc);
        match self.do_all(writes, &mut undos) {
            Ok(()) => Ok(()),
            Err(error) => {
                self.undo_all(undos);
                Err(error)
            }
        }
    }

    /// Does writes, and notes how each is taken back.
    #[tactic(auto, using(crate::proofs::Applied::next_allowed, crate::proofs::Applied::none_done, crate::proofs::Applied::still_here, crate::proofs::TakingBack::next_closed))]
    fn do_all(&mut self, writes: &Writes, undos: &mut Stack<Undo>) -> Result<(), NoMemory>
        requires here { page_is_here self.old ≡ true }
        requires closed { none_opens writes.now ≡ true }
        requires applicable { Applicable (actions writes.now) self.old }
        ensures ok { OnOk result (self.new ≡ apply (actions writes.now) self.old) }
        ensures back { writes_undone undos.new self.new ≡ writes_undone undos.old self.old }
        ensures kept { self.new.kept ≡ self.old.kept }
    {
        for depth in (0..writes.len()).rev() {
            self.do_one(writes.at(depth), undos)?;
        }
        Ok(())
    }

    /// Does a write, and notes how it is taken back.
    #[tactic(auto, using(crate::proofs::TakingBack::done_back, crate::proofs::TakingBack::undone_back, crate::proofs::TakingBack::kept_done))]
    fn do_one(&mut self, write: &Write, undos: &mut Stack<Undo>) -> Result<(), NoMemory>
        requires here { page_is_here self.old ≡ true }
        requires closed { opens_none write.now ≡ true }
        requires allowed { Allowed (action_of write.now) self.old }
        ensures ok { OnOk result (self.new ≡ perform (action_of write.now) self.old) }
        ensures back { writes_undone undos.new self.new ≡ writes_undone undos.old self.old }
        ensures kept { self.new.kept ≡ self.old.kept }
    {
        let undo = self.undo_of(write)?;
        undos.push(undo)?;
        match self.write(write) {
            Ok(()) => Ok(()),
            Err(error) => {
                undos.pop();
                Err(error)
            }
        }
    }

    /// Takes writes back, the newest first.
    #[tactic(auto, using(crate::proofs::TakingBack::next_back, crate::proofs::TakingBack::kept_back))]
    fn undo_all(&mut self, undos: Stack<Undo>)
        requires { self.old.kept ≡ [] }
        ensures { self.new ≡ writes_undone undos self.old }
    {
        let mut undos = undos;
        while let Some(undo) = undos.pop() {
            self.undo(undo);
        }
    }
}

/// How many writes may take entries away in the quick way, since each of these copies its dictionary.
const FEW_REMOVALS: usize = 8;

/// Whether few writes take an entry away. It decides on the way alone, not on what is done.
pub(crate) fn remove_few(writes: &Writes) -> bool {
    let mut left = FEW_REMOVALS;
    for depth in 0..writes.len() {
        if removes(writes.at(depth)) {
            if left == 0 {
                return false;
            }
            left -= 1;
        }
    }
    true
}

fn removes(write: &Write) -> bool {
    match write {
        Write::Remove { .. } => true,
        Write::Put { value, .. } => matches!(value, Value::Absent),
        Write::Fresh { .. } | Write::Save { .. } => false,
    }
}

/// Whether no write opens a save.
#[tactic(auto, using(crate::proofs::TakingBack::one_opens, crate::proofs::TakingBack::all_closed))]
fn none_opens(writes: &Writes) -> bool
    ensures { none_opens writes.now ≡ result }
{
    for depth in 0..writes.len() {
        if !opens_none(writes.at(depth)) {
            return false;
        }
    }
    true
}

fn opens_none(write: &Write) -> bool
    ensures { opens_none write.now ≡ result }
{
    match write {
        Write::Fresh { .. } | Write::Put { .. } | Write::Remove { .. } => true,
        Write::Save { .. } => false,
    }
}
