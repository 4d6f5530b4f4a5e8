//! Writes done on a memory at once.
ghost use Rattle.std.specs.Prelude.{◌≡◌, true, IfOk, OnOk, OnErr};
ghost use Rattle.ps_memory.specs.Memory.{perform};
ghost use Rattle.ps_memory.specs.Frame.{Allowed};
ghost use Rattle.ps_memory.specs.Writes.{apply, Applicable};
ghost use Rattle.vm_mem.specs.Conditions.{page_is_here};
ghost use Rattle.vm_mem.specs.Writes.{action_of, actions};

use crate::cells::Cells;
use ps_objects::NoMemory;
use vm_mem::{Base, Mem, Write, Writes};

impl Cells {
    /// Does writes on a copy, which then takes the memory's place.
    pub(crate) fn apply_copy(&mut self, writes: &Writes) -> Result<(), NoMemory>
        requires here { page_is_here self.old ≡ true }
        requires applicable { Applicable (actions writes.now) self.old }
        ensures ok { OnOk result (self.new ≡ apply (actions writes.now) self.old) }
        ensures err { OnErr result (self.new ≡ self.old) }
    {
        let memory = self.written(writes)?;
        *self = memory;
        Ok(())
    }

    /// A copy on which the writes are done.
    #[tactic(auto, using(crate::proofs::Applied::next_allowed, crate::proofs::Applied::none_done, crate::proofs::Applied::still_here))]
    fn written(&self, writes: &Writes) -> Result<Cells, NoMemory>
        requires here { page_is_here self.now ≡ true }
        requires applicable { Applicable (actions writes.now) self.now }
        ensures { IfOk result (λ memory. memory ≡ apply (actions writes.now) self.now) }
    {
        let mut memory = self.copy()?;
        for depth in (0..writes.len()).rev() {
            memory.write(writes.at(depth))?;
        }
        Ok(memory)
    }

    /// Does one write. Where memory runs out, nothing has changed.
    #[tactic(auto, using(vm_mem::proofs::Conditions::may_make, vm_mem::proofs::Conditions::may_store, vm_mem::proofs::Conditions::may_open))]
    pub(crate) fn write(&mut self, write: &Write) -> Result<(), NoMemory>
        requires here { page_is_here self.old ≡ true }
        requires allowed { Allowed (action_of write.now) self.old }
        ensures ok { OnOk result (self.new ≡ perform (action_of write.now) self.old) }
        ensures err { OnErr result (self.new ≡ self.old) }
    {
        match write {
            Write::Fresh { cell, shape } => self.fresh(*cell, *shape),
            Write::Put { at, value } => self.store(at, value.copy()?),
            Write::Remove { dict, key } => self.remove(*dict, key),
            Write::Save { name } => self.save(*name),
        }
    }
}
