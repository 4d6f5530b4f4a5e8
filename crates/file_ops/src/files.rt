//! The section's text as a file (section 8.2 of the language manual).
ghost use Rattle.std.specs.Prelude.{◌≡◌, ◌-◌, ◌≤◌, length, slice_get};
ghost use Rattle.ps_meaning.specs.Ready.{IsInText};
ghost use Rattle.ps_operator.specs.Owes.{DoesAlone};
ghost use Rattle.file_ops.specs.Files as spec;

use ps_kinds::{ErrorName, FileName, Kind, Operands, Refusal, State};
use ps_operator::{literal, push_result};

/// Whether a file is the text of the section that runs.
fn is_own(state: &State, file: FileName) -> bool
    ensures { result ≡ spec.is_own state.now file }
{
    file.section == state.section && file.layer == 0
}

/// Whether a file is the section's own: ioerror.
pub(crate) fn own(state: &State, file: FileName) -> Result<(), ErrorName>
    ensures { result ≡ spec.own state.now file }
{
    if is_own(state, file) {
        Ok(())
    } else {
        Err(ErrorName::IoError)
    }
}

pub(crate) fn currentfile(state: &mut State) -> Result<(), Refusal>
    ensures { DoesAlone spec.currentfile state.old result state.new }
{
    let section = state.section;
    let operands = &mut state.regs.operands;
    operands.room(1)?;
    operands.push(literal(Kind::File { section }))?;
    Ok(())
}

pub(crate) fn status(state: &mut State) -> Result<(), Refusal>
    ensures { DoesAlone spec.status state.old result state.new }
{
    state.regs.operands.need(1)?;
    let file = state.regs.operands.file(0)?;
    let open = is_own(state, file);
    push_result(&mut state.regs.operands, 1, Kind::Boolean(open))?;
    Ok(())
}

/// A number that is told: limitcheck above 2^31 - 1.
fn number_told(n: u64) -> Result<i32, ErrorName>
    ensures { result ≡ spec.number_told n }
{
    if n > 2_147_483_647 {
        Err(ErrorName::LimitCheck)
    } else {
        Ok(n as i32)
    }
}

/// How many bytes of the text are left.
fn bytes_left(text: &[u8], place: u64) -> u64
    requires { place ≤ length text.now }
    ensures { result ≡ length text.now - place }
{
    text.len() as u64 - place
}

pub(crate) fn bytesavailable(text: &[u8], state: &mut State) -> Result<(), Refusal>
    requires { IsInText text.now state.old }
    ensures { DoesAlone (spec.bytesavailable text.now) state.old result state.new }
{
    state.regs.operands.need(1)?;
    let file = state.regs.operands.file(0)?;
    own(state, file)?;
    let n = number_told(bytes_left(text, state.place))?;
    push_result(&mut state.regs.operands, 1, Kind::Integer(n))?;
    Ok(())
}

/// The byte at a place of the text, or none at its end.
fn byte_at(text: &[u8], place: u64) -> Option<u8>
    ensures { result ≡ slice_get text.now place }
{
    text.get(place as usize).copied()
}

pub(crate) fn read(text: &[u8], state: &mut State) -> Result<(), Refusal>
    ensures { DoesAlone (spec.read_ text.now) state.old result state.new }
{
    state.regs.operands.need(1)?;
    let file = state.regs.operands.file(0)?;
    state.regs.operands.readable(0)?;
    own(state, file)?;
    let operands = &mut state.regs.operands;
    match byte_at(text, state.place) {
        None => push_result(operands, 1, Kind::Boolean(false))?,
        Some(byte) => {
            operands.room(1)?;
            push_result(operands, 1, Kind::Integer(byte as i32))?;
            operands.push(literal(Kind::Boolean(true)))?;
            state.place += 1;
        }
    }
    Ok(())
}

/// Nothing of the text is left: `closefile` and `flushfile`.
pub(crate) fn to_end(text: &[u8], state: &mut State) -> Result<(), Refusal>
    ensures { DoesAlone (spec.to_end text.now) state.old result state.new }
{
    state.regs.operands.need(1)?;
    let file = state.regs.operands.file(0)?;
    own(state, file)?;
    state.regs.operands.shrink(1);
    state.place = text.len() as u64;
    Ok(())
}

/// Nothing is held back that could be written.
pub(crate) fn flush(state: &mut State) -> Result<(), Refusal>
    ensures { DoesAlone spec.flush state.old result state.new }
{
    let _state = state;
    Ok(())
}
