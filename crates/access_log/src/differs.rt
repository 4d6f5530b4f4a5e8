//! Whether registers and a memory are as they were when a page began.
ghost use Rattle.std.specs.Prelude.{◌≡◌, ◌<◌, length, slice_get, Some, IfOk};
ghost use Rattle.ps_memory.specs.Memory.{value_at};
ghost use Rattle.access_log.specs.Agreement.{AgreeUntil, Compares, Shows, IsPlace};

use crate::{Read, ReadLog};
use ps_kinds::{RegField, Regs};
use ps_objects::{Loc, NoMemory, Value};
use vm_mem::Base;

/// Where registers or a memory differ from what a page had.
#[derive(Clone, Copy, Debug, PartialEq, Eq)]
pub enum Place {
    /// A field of the registers.
    Register(RegField),

    /// The place of a read in the log.
    Entry(u64),
}

/// Registers or a memory differ from what a page had.
#[derive(Clone, Copy, Debug, PartialEq, Eq)]
pub struct Differs {
    pub place: Place,
}

impl ReadLog {
    /// Whether registers are those that a page had, and a memory has the values that were noted. Else the first difference is named:
    /// a register in the order of the fields, or else a read in the order of first look. It takes no memory.
    pub fn agrees<B: Base>(&self, before: &Regs, regs: &Regs, mem: &B) -> Result<(), Differs>
        ensures { Compares self.now before.now regs.now (B.log mem.now).view result }
    {
        if let Some(field) = before.first_difference(regs) {
            return Err(Differs {
                place: Place::Register(field),
            });
        }
        match first_other(&self.items, mem) {
            Some(place) => Err(Differs {
                place: Place::Entry(place as u64),
            }),
            None => Ok(()),
        }
    }

    /// What was noted at a place of the log, and what a memory has there.
    pub fn shown<B: Base>(&self, at: u64, mem: &B) -> Result<(Value, Value), NoMemory>
        requires { at < length self.now }
        ensures { IfOk result (Shows (B.log mem.now).view (slice_get self.now at)) }
    {
        let read = &self.items[at as usize];
        let noted = read.value.copy()?;
        let present = mem.view_at(&read.at)?;
        Ok((noted, present))
    }

    /// The place of memory that a place of the log is of. It takes no memory.
    pub fn place(&self, at: u64) -> &Loc
        requires { at < length self.now }
        ensures { IsPlace (slice_get self.now at) result.now }
    {
        &self.items[at as usize].at
    }
}

/// The first read that doesn't agree with a memory.
#[tactic(auto, using(crate::proofs::Agreeing::all_agree, crate::proofs::Agreeing::one_other))]
fn first_other<B: Base>(reads: &[Read], mem: &B) -> Option<usize>
    ensures { AgreeUntil (B.log mem.now).view reads.now result }
{
    for place in 0..reads.len() {
        let read = &reads[place];
        if !mem.same(&read.at, &read.value) {
            return Some(place);
        }
    }
    None
}
