//! The scanning of an object.
ghost use Rattle.std.specs.Prelude.{◌≡◌, ◌+◌, ◌<◌, ◌≤◌, ◌^◌, List, [], length, IfOk, OnOk};
ghost use Rattle.ps_execution.specs.Gather as meaning;
ghost use Rattle.ps_meaning.specs.Ready.{Ready};
ghost use Rattle.ps_gather.specs.Cells.{AreSmall};
ghost use Rattle.ps_gather.specs.Ended.{Scans, spelt_of};
ghost use Rattle.ps_gather.specs.Gathered.{told, IsGathered, unpaid, Goes, Steps};
ghost use Rattle.ps_scan.proofs.ShortLemmas.{IsShort};
ghost use Rattle.ps_scan.specs.declared.tokens.Token.TheVariants as token;

use crate::gathering::{
    Gathering, Scanned, bad, close_brace, complete, complete_value, open_brace, take_string,
};
use crate::spelt::Spelt;
use ps_kinds::{
    Access, ErrorName, Key, Kind, Name, NoMemory, Object, Refusal, Sequence, Stack, State,
};
use ps_operator::{find, literal};
use ps_scan::{Scan, Token, next};
use std::alloc::Global;
use vm_mem::Mem;

/// A name behind `//` gives the value to which it leads.
#[tactic(auto, using(ps_operator::proofs::Standing::dicts_stand, crate::proofs::Taken::more_kept, crate::proofs::Names::value_goes, crate::proofs::Names::missed_goes, crate::proofs::Names::missed_view))]
fn take_value<M: Mem>(
    name: Name,
    state: &State,
    gathering: &mut Gathering,
    mem: &mut M,
) -> Result<Option<Spelt>, NoMemory>
    requires ready { Ready state.now (M.log mem.old).view }
    requires gathered { IsGathered state.now.kind 0 gathering.old }
    ensures view { OnOk result ((M.log mem.new).view ≡ (M.log mem.old).view) }
    ensures kept { IfOk result (λ r. IsGathered state.now.kind (unpaid r) gathering.new) }
    ensures goes { IfOk result (λ r. Goes
        (λ k place. meaning.gather_token k state.now (token.Now name) place
        (told state.now gathering.old))
        state.now (M.log mem.old) r gathering.new (M.log mem.new)) }
{
    match find(&state.regs.dicts, Key::Name(name), mem) {
        Ok(object) => Ok(complete_value(object, state, gathering)?),
        Err(Refusal::Error(_)) => Ok(bad(ErrorName::Undefined)),
        Err(Refusal::NoMemory) => Err(NoMemory),
    }
}

fn executable(name: Name) -> Object
    ensures { result ≡ meaning.executable (Kind.Name name) }
{
    Object {
        kind: Kind::Name(name),
        exec: true,
        access: Access::Unlimited,
    }
}

/// What a token adds.
#[tactic(auto, using(crate::proofs::Taken::more_kept))]
fn take<M: Mem>(
    alloc: Global,
    token: Token,
    state: &State,
    gathering: &mut Gathering,
    mem: &mut M,
) -> Result<Option<Spelt>, NoMemory>
    requires ready { Ready state.now (M.log mem.old).view }
    requires gathered { IsGathered state.now.kind 0 gathering.old }
    requires short { IsShort token }
    ensures view { OnOk result ((M.log mem.new).view ≡ (M.log mem.old).view) }
    ensures kept { IfOk result (λ r. IsGathered state.now.kind (unpaid r) gathering.new) }
    ensures goes { IfOk result (λ r. Goes
        (λ k place. meaning.gather_token k state.now token place (told state.now gathering.old))
        state.now (M.log mem.old) r gathering.new (M.log mem.new)) }
{
    match token {
        Token::Integer(n) => complete(literal(Kind::Integer(n)), state, gathering),
        Token::Real(real) => complete(literal(Kind::Real(real)), state, gathering),
        Token::Literal(name) => complete(literal(Kind::Name(name)), state, gathering),
        Token::Exec(name) => complete(executable(name), state, gathering),
        Token::Now(name) => take_value(name, state, gathering, mem),
        Token::Str(bytes) => take_string(bytes, state, gathering),
        Token::BodyBegin => open_brace(alloc, state, gathering),
        Token::BodyEnd => close_brace(state, gathering),
    }
}

/// The text's end is an error where a brace is open.
#[tactic(auto, using(crate::proofs::Steps::end_is, crate::proofs::Steps::cut_is))]
fn end(bytes: &[u8], place: u64, state: &State, gathering: &Gathering) -> (Spelt, u64)
    ensures { meaning.at_end (length bytes.now) place (told state.now gathering.now)
        ≡ meaning.scanned (spelt_of result.0) result.1 (told state.now gathering.now) }
{
    if gathering.braces.is_empty() {
        (Spelt::Nothing, place)
    } else {
        let error = ErrorName::SyntaxError;
        (Spelt::Bad { error }, bytes.len() as u64)
    }
}

/// Reads a token and gathers what it adds: what is spelt, if the object is complete or wrong, and the place after the token.
fn step<M: Mem>(
    alloc: Global,
    bytes: &[u8],
    place: u64,
    state: &State,
    gathering: &mut Gathering,
    mem: &mut M,
) -> Result<(Option<Spelt>, u64), NoMemory>
    requires ready { Ready state.now (M.log mem.old).view }
    requires gathered { IsGathered state.now.kind 0 gathering.old }
    requires place { place ≤ length bytes.now }
    ensures view { OnOk result ((M.log mem.new).view ≡ (M.log mem.old).view) }
    ensures kept { IfOk result (λ r. IsGathered state.now.kind (unpaid r.0) gathering.new) }
    ensures within { IfOk result (λ r. r.1 ≤ length bytes.now) }
    ensures goes { IfOk result (λ r. Steps bytes.now place state.now
        gathering.old (M.log mem.old) r.0 r.1 gathering.new (M.log mem.new)) }
{
    match next(alloc, bytes, place)? {
        Scan::Token { token, next } => {
            let spelt = take(alloc, token, state, gathering, mem)?;
            Ok((spelt, next))
        }
        Scan::Bad { error, next } => Ok((bad(error), next)),
        Scan::End => {
            let (spelt, place) = end(bytes, place, state, gathering);
            Ok((Some(spelt), place))
        }
    }
}

fn scanned(spelt: Spelt, place: u64, gathering: Gathering) -> Scanned
    ensures { result ≡ record {
      spelt = spelt;
      place = place;
      cells = gathering.cells;
      units = gathering.units;
    } }
{
    Scanned {
        spelt,
        place,
        cells: gathering.cells,
        units: gathering.units,
    }
}

/// Nothing is gathered yet.
fn begun(alloc: Global, state: &State) -> Gathering
    ensures { result ≡ record { cells = []; units = state.now.units; braces = [] } }
{
    Gathering {
        cells: Sequence::new(alloc),
        units: state.units,
        braces: Stack::new(alloc),
    }
}

/// Scans the object that a text spells at a place (section 3.2 of the language manual): what is spelt, the place after it, and what
/// its cells hold. No cell is made yet.
///
/// A number or a name stands for itself, a name behind `//` for its value, and a string and an executable array take a cell.
/// An array takes its cell at its own end, after those within it.
pub fn scan<M: Mem>(
    alloc: Global,
    bytes: &[u8],
    place: u64,
    state: &State,
    mem: &mut M,
) -> Result<Scanned, NoMemory>
    requires ready { Ready state.now (M.log mem.old).view }
    requires place { place ≤ length bytes.now }
    ensures view { OnOk result ((M.log mem.new).view ≡ (M.log mem.old).view) }
    ensures small { IfOk result (λ d. AreSmall d.cells) }
    ensures few { IfOk result (λ d. length d.cells ≤ 8000001) }
    ensures within { IfOk result (λ d. d.place ≤ length bytes.now) }
    ensures scans { IfOk result (λ d. Scans bytes.now place state.now
        (M.log mem.old) d (M.log mem.new)) }
{
    let mut gathering = begun(alloc, state);
    let mut at = place;
    for _token in 0..bytes.len() + 1 {
        let (spelt, next) = step(alloc, bytes, at, state, &mut gathering, mem)?;
        match spelt {
            Some(spelt) => return Ok(scanned(spelt, next, gathering)),
            None => at = next,
        }
    }
    let error = ErrorName::SyntaxError;
    Ok(scanned(Spelt::Bad { error }, at, gathering))
}
