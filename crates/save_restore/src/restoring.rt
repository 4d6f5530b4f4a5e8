//! Restoring a save (section 3.7 of the language manual: memory management).
#![tactic(auto, using(ps_operator::proofs::StoreSteps::any_hit, ps_operator::proofs::StoreSteps::any_miss))]

ghost use Rattle.std.specs.Prelude.{◌≡◌, ◌&&◌, nat_eq, true, drop, Ok, Err, OnOk, MatchResult};
ghost use Rattle.ps_memory.specs.Memory.{same_save};
ghost use Rattle.ps_meaning.specs.Answer.{changed_in};
ghost use Rattle.ps_meaning.specs.Ready.{Ready};
ghost use Rattle.ps_operator.specs.Newer.{marks_before};
ghost use Rattle.ps_operator.specs.Owes.{Acts};
ghost use Rattle.ps_operator.specs.Registers.{any_of};
ghost use Rattle.save_restore.specs.Restoring as spec;
ghost use Rattle.vm_mem.specs.Conditions.{page_is_here};

use crate::newest::{dicts_newer, frames_newer, objects_newer};
use ps_kinds::{
    Act, Cell, DictStack, ErrorName, Frame, Frames, GState, NoMemory, Objects, Operands, Refusal,
    SaveMark, SaveName, Saves, ShowPhase, Space, State,
};
use ps_operator::{Mem, RestoreRefusal, restore_save, wipe};

fn is_same(a: SaveName, b: SaveName) -> bool
    ensures { result ≡ same_save a b }
{
    a.section == b.section && a.count == b.count
}

/// How deep the mark of an open save lies: invalidrestore.
#[tactic(auto, using(crate::proofs::Opening::open_miss, crate::proofs::Opening::before_miss))]
fn depth_of(save: SaveName, saves: &Saves) -> Result<usize, ErrorName>
    ensures { MatchResult result (λ depth. spec.IsMarkAt save saves.now depth)
        (λ e. spec.open_mark save saves.now ≡ Err e) }
{
    for depth in 0..saves.len() {
        if is_same(save, saves.at(depth).name) {
            return Ok(depth);
        }
    }
    Err(ErrorName::InvalidRestore)
}

/// The mark of an open save: invalidrestore.
fn open_mark(save: SaveName, saves: &Saves) -> Result<&SaveMark, ErrorName>
    ensures { MatchResult result (λ mark. spec.open_mark save saves.now ≡ Ok mark.now)
        (λ e. spec.open_mark save saves.now ≡ Err e) }
{
    let depth = depth_of(save, saves)?;
    Ok(saves.at(depth))
}

/// Takes the mark of an open save away, with those of all later ones: invalidrestore.
fn close_saves(save: SaveName, saves: &mut Saves) -> Result<SaveMark, ErrorName>
    ensures mark { result ≡ spec.open_mark save saves.old }
    ensures left { OnOk result (saves.new ≡ marks_before save saves.old) }
{
    let depth = depth_of(save, saves)?;
    saves.shrink(depth);
    match saves.pop() {
        Some(mark) => Ok(mark),
        None => unreachable!(),
    }
}

/// Whether an operand but the newest, a dictionary on the stack, or what a frame keeps, is newer than a save.
fn any_newer(save: SaveName, operands: &Objects, dicts: &DictStack, frames: &Frames) -> bool
    ensures { result ≡ spec.any_newer save (drop 1 operands.now) dicts.now frames.now }
{
    objects_newer(save, operands, 1) || dicts_newer(save, dicts) || frames_newer(save, frames)
}

fn phase_newer(section: u32, save: SaveName, phase: &ShowPhase) -> bool
    ensures { result ≡ spec.phase_newer section save phase.now }
{
    match phase {
        ShowPhase::Running(glyph) => {
            let count = glyph.began;
            let space = Space::Local;
            let cell = Cell {
                section,
                count,
                space,
            };
            cell.is_newer_than(save)
        }
        ShowPhase::Before | ShowPhase::Between => false,
    }
}

/// Whether a frame is that of a glyph that began after a save.
fn glyph_newer(section: u32, save: SaveName, frame: &Frame) -> bool
    ensures { result ≡ spec.glyph_newer section save frame.now }
{
    match frame {
        Frame::Show(run) => phase_newer(section, save, &run.as_ref().phase),
        _ => false,
    }
}

/// Whether a glyph runs that began after a save.
fn glyphs_newer(section: u32, save: SaveName, frames: &Frames) -> bool
    ensures { result ≡ any_of (spec.glyph_newer section save) frames.now }
{
    for depth in 0..frames.len() {
        if glyph_newer(section, save, frames.at(depth)) {
            return true;
        }
    }
    false
}

/// Nothing bars a restore: invalidrestore.
fn unless(barred: bool) -> Result<(), ErrorName>
    ensures { result ≡ spec.unless barred }
{
    if barred {
        Err(ErrorName::InvalidRestore)
    } else {
        Ok(())
    }
}

fn has_size(new: &GState, old: &GState) -> bool
    ensures { result ≡ (nat_eq new.now.wide old.now.wide && nat_eq new.now.high old.now.high) }
{
    new.wide.pixels() == old.wide.pixels() && new.high.pixels() == old.high.pixels()
}

/// Stores blank paper where the page's size changes.
#[tactic(auto, unfolding(crate::specs::Restoring::size_changes))]
fn resize<M: Mem>(new: &GState, old: &GState, mem: &mut M) -> Result<(), NoMemory>
    requires { page_is_here (M.log mem.old).view ≡ true }
    ensures { OnOk result (M.log mem.new
        ≡ changed_in (M.log mem.old) (spec.size_changes new.now old.now)) }
{
    if has_size(new, old) {
        return Ok(());
    }
    wipe(mem, new.wide.pixels(), new.high.pixels())
}

#[tactic(auto, using(ps_operator::proofs::Standing::page_stands, ps_operator::proofs::Restoring::restored_page, crate::proofs::Opening::mark_restores, crate::proofs::Opening::sizes_take_none))]
pub(crate) fn restore<M: Mem>(state: &mut State, mem: &mut M) -> Result<Act, Refusal>
    requires { Ready state.old (M.log mem.old).view }
    ensures { Acts spec.restore state.old (M.log mem.old) result state.new (M.log mem.new) }
{
    state.regs.operands.need(1)?;
    let save = state.regs.operands.save(0)?;
    let mark = open_mark(save, &state.regs.saves)?;
    let operands = &state.regs.operands;
    let dicts = &state.regs.dicts;
    unless(any_newer(save, operands, dicts, &state.frames))?;
    unless(glyphs_newer(state.section, save, &state.frames))?;
    match restore_save(mem, save) {
        Ok(()) => {}
        Err(RestoreRefusal::Outer { save }) => return Ok(Act::Outer { save }),
        Err(RestoreRefusal::NoMemory) => return Err(Refusal::NoMemory),
    }
    resize(&mark.state, &state.regs.state, mem)?;
    let mark = close_saves(save, &mut state.regs.saves)?;
    state.regs.operands.shrink(1);
    state.regs.state = mark.state;
    state.regs.states = mark.states;
    state.regs.global = mark.global;
    state.regs.packing = mark.packing;
    Ok(Act::Done)
}
