//! The reading of an object from a string or from the section's text (section 8.2 of the language manual).
#![tactic(auto, using(ps_gather::proofs::CellLemmas::cells_named, crate::proofs::Sources::held_stands))]

ghost use Rattle.std.specs.Prelude.{◌≡◌, ◌+◌, ◌<◌, ◌≤◌, ◌^◌, [], ◌∷◌, drop, length, true, OnOk};
ghost use Rattle.ps_gather.specs.Cells.{AreSmall, changes_of};
ghost use Rattle.ps_gather.specs.Ended.{scanned_of};
ghost use Rattle.ps_meaning.specs.Answer.{changed_in};
ghost use Rattle.ps_meaning.specs.Ready.{Ready, ReadyIn};
ghost use Rattle.ps_objects.specs.declared.object.Kind.TheVariants as kind;
ghost use Rattle.ps_operator.specs.Owes.{Does};
ghost use Rattle.ps_operator.specs.Registers.{literal};
ghost use Rattle.ps_operator.specs.Standing.{is_string};
ghost use Rattle.file_ops.specs.Tokens as spec;
ghost use Rattle.file_ops.specs.declared.tokens.Source.TheVariants as source;

use crate::files::own;
use crate::parts::{Whole, piece};
use ps_gather::{Content, Scanned, Spelt, make_cells, scan};
use ps_kinds::{
    ErrorName, FileName, Kind, NoMemory, Object, Objects, Operands, Refusal, Sequence, State,
};
use ps_operator::{Mem, bytes_of, literal, push_result};

/// Where a token is read.
#[derive(Clone, Copy)]
pub(crate) enum Source {
    /// From the front of a string.
    Held(Whole),

    /// From a file.
    Read(FileName),
}

/// Where a token is read: typecheck.
fn source_of(object: &Object) -> Result<Source, ErrorName>
    ensures { result ≡ spec.source_of object.now }
{
    match object.kind {
        Kind::Str(interval) => Ok(Source::Held(Whole {
            interval,
            exec: object.exec,
            access: object.access,
        })),
        Kind::File { section } => Ok(Source::Read(FileName { section, layer: 0 })),
        Kind::Filter { section, layer } => Ok(Source::Read(FileName { section, layer })),
        _ => Err(ErrorName::TypeCheck),
    }
}

/// Makes the cells of what was scanned, and passes their names and its units.
fn make_scanned<M: Mem>(
    cells: &Sequence<Content>,
    units: u64,
    state: &mut State,
    mem: &mut M,
) -> Result<(), NoMemory>
    requires ready { Ready state.old (M.log mem.old).view }
    requires small { AreSmall cells.now }
    requires few { length cells.now ≤ 8000001 }
    ensures made { OnOk result (M.log mem.new
        ≡ changed_in (M.log mem.old) (changes_of state.old 0 cells.now)) }
    ensures passed { OnOk result (state.new
        ≡ record state.old { count = state.old.count + length cells.now; units = units }) }
{
    make_cells(cells, state, mem)?;
    state.count += cells.len() as u32;
    state.units = units;
    Ok(())
}

/// Puts an object and true in the place of a file.
fn push_spelt(operands: &mut Objects, object: Object) -> Result<(), NoMemory>
    requires { 1 ≤ length operands.old }
    ensures { OnOk result (operands.new
        ≡ literal (kind.Boolean true) ∷ object ∷ drop 1 operands.old) }
{
    operands.shrink(1);
    operands.push(object)?;
    operands.push(literal(Kind::Boolean(true)))
}

/// Ends with what was scanned of the section's text.
fn end_file<M: Mem>(
    end: u64,
    scanned: Scanned,
    state: &mut State,
    mem: &mut M,
) -> Result<(), Refusal>
    requires ready { Ready state.old (M.log mem.old).view }
    requires one { 1 ≤ length state.old.regs.operands }
    requires small { AreSmall scanned.cells }
    requires few { length scanned.cells ≤ 8000001 }
    ensures { Does (λ s. spec.file_ends s end (changes_of s 0 scanned.cells) (scanned_of scanned))
        state.old (M.log mem.old) result state.new (M.log mem.new) }
{
    let Scanned {
        spelt,
        place,
        cells,
        units,
    } = scanned;
    match spelt {
        Spelt::Object { object } => {
            state.regs.operands.room(1)?;
            make_scanned(&cells, units, state, mem)?;
            push_spelt(&mut state.regs.operands, object)?;
            state.place = place;
            Ok(())
        }
        Spelt::Bad { error } => Err(Refusal::Error(error)),
        Spelt::Nothing => {
            push_result(&mut state.regs.operands, 1, Kind::Boolean(false))?;
            state.place = end;
            Ok(())
        }
    }
}

/// A token of the section's text.
#[tactic(auto, using(crate::proofs::Scanning::ready_in_after, crate::proofs::Scanning::file_does))]
fn file_token<M: Mem>(
    file: FileName,
    text: &[u8],
    state: &mut State,
    mem: &mut M,
) -> Result<(), Refusal>
    requires ready { ReadyIn text.now state.old (M.log mem.old).view }
    requires one { 1 ≤ length state.old.regs.operands }
    ensures { Does (λ s. spec.token_in text.now s (source.Read file))
        state.old (M.log mem.old) result state.new (M.log mem.new) }
{
    own(state, file)?;
    let alloc = state.regs.operands.alloc();
    let scanned = scan(alloc, text, state.place, state, mem)?;
    end_file(text.len() as u64, scanned, state, mem)
}

/// What is left of a string.
fn left_of(string: Whole, place: u64) -> Object
    requires within { place ≤ string.interval.len }
    requires ends { string.interval.start + string.interval.len < 2 ^ 32 }
    ensures { result ≡ spec.left_of string place }
{
    piece(string, place as u32, string.interval.len - place as u32)
}

/// Puts what is left of a string, an object and true in the place of the string.
fn push_split(operands: &mut Objects, left: Object, object: Object) -> Result<(), NoMemory>
    requires { 1 ≤ length operands.old }
    ensures { OnOk result (operands.new
        ≡ literal (kind.Boolean true) ∷ object ∷ left ∷ drop 1 operands.old) }
{
    operands.shrink(1);
    operands.push(left)?;
    operands.push(object)?;
    operands.push(literal(Kind::Boolean(true)))
}

/// Ends with what was scanned of a string.
fn end_string<M: Mem>(
    string: Whole,
    scanned: Scanned,
    state: &mut State,
    mem: &mut M,
) -> Result<(), Refusal>
    requires ready { Ready state.old (M.log mem.old).view }
    requires one { 1 ≤ length state.old.regs.operands }
    requires small { AreSmall scanned.cells }
    requires few { length scanned.cells ≤ 8000001 }
    requires within { scanned.place ≤ string.interval.len }
    requires ends { string.interval.start + string.interval.len < 2 ^ 32 }
    ensures { Does
        (λ s. spec.string_ends s string (changes_of s 0 scanned.cells) (scanned_of scanned))
        state.old (M.log mem.old) result state.new (M.log mem.new) }
{
    let Scanned {
        spelt,
        place,
        cells,
        units,
    } = scanned;
    match spelt {
        Spelt::Object { object } => {
            state.regs.operands.room(2)?;
            make_scanned(&cells, units, state, mem)?;
            push_split(&mut state.regs.operands, left_of(string, place), object)?;
            Ok(())
        }
        Spelt::Bad { error } => Err(Refusal::Error(error)),
        Spelt::Nothing => {
            push_result(&mut state.regs.operands, 1, Kind::Boolean(false))?;
            Ok(())
        }
    }
}

/// A token of a string, which is looked at whole.
#[tactic(auto, using(crate::proofs::Scanning::ready_after, crate::proofs::Scanning::string_does, crate::proofs::Sources::string_ends))]
fn string_token<M: Mem>(string: Whole, state: &mut State, mem: &mut M) -> Result<(), Refusal>
    requires ready { Ready state.old (M.log mem.old).view }
    requires one { 1 ≤ length state.old.regs.operands }
    requires string { is_string (M.log mem.old).view string.interval ≡ true }
    ensures { Does (λ s. spec.token_in [] s (source.Held string))
        state.old (M.log mem.old) result state.new (M.log mem.new) }
{
    let alloc = state.regs.operands.alloc();
    let bytes = bytes_of(alloc, string.interval, mem)?;
    let scanned = scan(alloc, bytes.as_slice(), 0, state, mem)?;
    end_string(string, scanned, state, mem)
}

/// Reads the object at the front of a string or at the place of the section's text.
///
/// # Errors
///
/// `stackunderflow`, `typecheck`, `invalidaccess`, `ioerror` where the file isn't the section's own, the errors of the scanner, and
/// `stackoverflow`. After each of them all is as it was: no cell is made, and the place is where it was.
pub(crate) fn token<M: Mem>(text: &[u8], state: &mut State, mem: &mut M) -> Result<(), Refusal>
    requires { ReadyIn text.now state.old (M.log mem.old).view }
    ensures { Does (spec.token text.now)
        state.old (M.log mem.old) result state.new (M.log mem.new) }
{
    let operands = &state.regs.operands;
    operands.need(1)?;
    let source = source_of(operands.object(0)?)?;
    operands.readable(0)?;
    match source {
        Source::Held(string) => string_token(string, state, mem),
        Source::Read(file) => file_token(file, text, state, mem),
    }
}
