//! The dump of registers and a memory.
ghost use Rattle.std.specs.Prelude.{◌≡◌, ◌++◌, IfOk, OnOk};
ghost use Rattle.ps_memory.specs.Memory.{shape_at};
ghost use Rattle.ps_meaning.specs.Registers.{SoundState};
ghost use Rattle.ps_meaning.specs.Sound.{IsUnique};
ghost use Rattle.ps_start.specs.Settings.{AreInRange};
ghost use Rattle.ps_meaning.specs.Start.{start_memory, start_state};
ghost use Rattle.dump_lines.specs.Registers.{register_lines};
ghost use Rattle.dump_text.specs.Dump as spec;

use crate::cells::push_cells;
use crate::papers::{push_paper_line, push_rand_line};
use copy_lists::{NoMemory, Text};
use dump_lines::push_registers;
use ps_kinds::{Loc, Regs, Settings};
use ps_start::start_registers;
use std::alloc::Global;
use vm_mem::Base;

/// Appends the lines of registers beside those with which a job of these settings starts.
fn push_registers_beside(
    alloc: Global,
    text: &mut Text,
    settings: &Settings,
    regs: &Regs,
) -> Result<(), NoMemory>
    requires { AreInRange settings.now }
    ensures { OnOk result (text.new ≡
        text.old ++ register_lines (start_state settings.now) regs.now) }
{
    let start = start_registers(alloc, settings)?;
    push_registers(alloc, text, regs, &start.state)
}

/// Appends the lines of a memory beside the start's: the state of the random numbers, the paper, and the cells in order.
#[tactic(auto, using(dump_lines::proofs::Pieces::three_pieces), unfolding(crate::specs::Dump::memory_lines))]
fn push_memory<B: Base>(alloc: Global, text: &mut Text, start: &B, mem: &B) -> Result<(), NoMemory>
    requires { IsUnique (shape_at (B.log mem.now).view) }
    ensures { OnOk result (text.new ≡ text.old ++
        spec.memory_lines (B.log start.now).view (B.log mem.now).view) }
{
    let state = mem.view_at(&Loc::Rand)?;
    let paper = mem.view_at(&Loc::Paper)?;
    push_rand_line(text, &state)?;
    push_paper_line(text, &paper)?;
    push_cells(alloc, text, start, mem)
}

/// Appends the lines of a memory beside that with which a job of these settings starts.
fn push_memory_beside<B: Base + Drop>(
    alloc: Global,
    text: &mut Text,
    settings: &Settings,
    mem: &B,
) -> Result<(), NoMemory>
    requires { IsUnique (shape_at (B.log mem.now).view) }
    ensures { OnOk result (text.new ≡ text.old ++
        spec.memory_lines (start_memory settings.now) (B.log mem.now).view) }
{
    let start = B::start(alloc, settings)?;
    push_memory(alloc, text, &start, mem)
}

/// What registers and a memory hold, as text: the registers, and of the memory what differs from that with which a job of these
/// settings starts. Err where memory ran out; the memory is as it was.
#[tactic(auto, using(dump_lines::proofs::Pieces::two_pieces), unfolding(crate::specs::Dump::dump_of))]
pub fn dump<B: Base + Drop>(
    alloc: Global,
    settings: &Settings,
    regs: &Regs,
    mem: &B,
) -> Result<Text, NoMemory>
    requires in_range { AreInRange settings.now }
    requires sound { SoundState regs.now (B.log mem.now).view }
    ensures { IfOk result (λ text.
        text ≡ spec.dump_of settings.now regs.now (B.log mem.now).view) }
{
    let mut text = Text::from_bytes(alloc, b"%%[ dump ]%%\n")?;
    push_registers_beside(alloc, &mut text, settings, regs)?;
    push_memory_beside(alloc, &mut text, settings, mem)?;
    Ok(text)
}
