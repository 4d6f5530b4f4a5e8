//! What is gathered of an object: its cells, and the items of the braces that are open (section 3.2.2 of the language manual).
ghost use Rattle.std.specs.Prelude.{◌≡◌, ◌+◌, ◌≤◌, ◌^◌, ◌<◌, nat_le, ◌&&◌, ◌==◌, not, length, Some, IfOk};
ghost use Rattle.ps_execution.specs.Gather as meaning;
ghost use Rattle.ps_meaning.specs.Budgets.{unit_budget};
ghost use Rattle.ps_objects.specs.Object.{whole_of, cell_named};
ghost use Rattle.ps_gather.specs.Gathered.{told, with_brace, IsGathered, unpaid, Is};

use crate::cells::{Content, cell_at};
use crate::spelt::Spelt;
use ps_kinds::{
    Access, Cell, ErrorName, Interval, Kind, NoMemory, Object, Sequence, Space, Stack, State, Text,
};
use ps_operator::{literal, unit_room};
use std::alloc::Global;

/// The most items of an executable array.
const ITEM_LIMIT: usize = 65_535;

/// The most open braces.
const BRACE_LIMIT: usize = 1000;

/// What was gathered so far: what the new cells hold, the units that the section has spent, and the items of each open brace,
/// the innermost brace first.
#[derive(Drop)]
pub(crate) struct Gathering {
    pub cells: Sequence<Content>,
    pub units: u64,
    pub braces: Stack<Sequence<Object>>,
}

/// What was scanned: what the text spells and the place after it, what the new cells hold, and the units that the section has
/// spent.
#[derive(Drop)]
pub struct Scanned {
    pub spelt: Spelt,
    pub place: u64,
    pub cells: Sequence<Content>,
    pub units: u64,
}

/// Whether so many more units stay within the budget.
fn has_units(state: &State, units: u64, n: u64) -> bool
    ensures { result ≡ nat_le (units + n) (unit_budget state.now.kind) }
{
    unit_room(state.kind, units, n).is_ok()
}

pub(crate) fn bad(error: ErrorName) -> Option<Spelt>
    ensures { result ≡ Some (Spelt.Bad error) }
{
    Some(Spelt::Bad { error })
}

/// An object that is complete is the next item of a brace that was taken off, and goes back with it. An item costs a unit.
#[tactic(auto, using(crate::proofs::Items::item_on, crate::proofs::Items::item_long, crate::proofs::Items::item_dear, crate::proofs::Items::item_kept, crate::proofs::Items::left_kept))]
fn add_item(
    object: Object,
    items: Sequence<Object>,
    state: &State,
    gathering: &mut Gathering,
) -> Result<Option<Spelt>, NoMemory>
    requires { IsGathered state.now.kind 1 (with_brace items gathering.old) }
    ensures kept { IfOk result (λ r. IsGathered state.now.kind (unpaid r) gathering.new) }
    ensures is { IfOk result (λ r. Is (λ k place. meaning.complete k state.now object place
        (told state.now (with_brace items gathering.old))) state.now r gathering.new) }
{
    let mut items = items;
    if items.len() >= ITEM_LIMIT {
        return Ok(bad(ErrorName::LimitCheck));
    }
    if !has_units(state, gathering.units, 1) {
        return Ok(bad(ErrorName::VmError));
    }
    items.push(object)?;
    gathering.braces.push(items)?;
    gathering.units += 1;
    Ok(None)
}

/// An object that is complete: the whole, or an item of the innermost brace.
#[tactic(auto, using(crate::proofs::Items::whole_is))]
pub(crate) fn complete(
    object: Object,
    state: &State,
    gathering: &mut Gathering,
) -> Result<Option<Spelt>, NoMemory>
    requires { IsGathered state.now.kind 1 gathering.old }
    ensures kept { IfOk result (λ r. IsGathered state.now.kind (unpaid r) gathering.new) }
    ensures is { IfOk result (λ r. Is (λ k place. meaning.complete k state.now object place
        (told state.now gathering.old)) state.now r gathering.new) }
{
    match gathering.braces.pop() {
        None => Ok(Some(Spelt::Object { object })),
        Some(items) => add_item(object, items, state, gathering),
    }
}

fn names_local(cell: Option<Cell>) -> bool
    ensures { result ≡ meaning.names_local cell }
{
    match cell {
        Some(cell) => cell.space == Space::Local,
        None => false,
    }
}

/// Whether an item isn't let in: a global array names no local cell.
fn is_barred(object: &Object, state: &State, gathering: &Gathering) -> bool
    ensures { result ≡ (not (length gathering.now.braces == 0)
        && (state.now.regs.global && meaning.names_local (cell_named object.now.kind))) }
{
    !gathering.braces.is_empty() && (state.regs.global && names_local(object.kind.cell()))
}

/// The same of a value that a name led to: an item of a global array names no local cell.
#[tactic(auto, using(crate::proofs::Values::barred_is, crate::proofs::Values::let_in))]
pub(crate) fn complete_value(
    object: Object,
    state: &State,
    gathering: &mut Gathering,
) -> Result<Option<Spelt>, NoMemory>
    requires { IsGathered state.now.kind 1 gathering.old }
    ensures kept { IfOk result (λ r. IsGathered state.now.kind (unpaid r) gathering.new) }
    ensures is { IfOk result (λ r. Is (λ k place. meaning.complete_value k state.now object place
        (told state.now gathering.old)) state.now r gathering.new) }
{
    if is_barred(&object, state, gathering) {
        return Ok(bad(ErrorName::InvalidAccess));
    }
    complete(object, state, gathering)
}

fn string_units(len: u64) -> u64
    requires { len < 2 ^ 63 }
    ensures { result ≡ meaning.string_units len }
{
    (len + 7) / 8
}

fn whole_of(cell: Cell, len: u32) -> Interval
    ensures { result ≡ whole_of cell len }
{
    Interval {
        cell,
        start: 0,
        len,
    }
}

/// A string takes a cell, and a unit for each eight bytes.
#[tactic(auto, using(crate::proofs::Taken::string_kept, crate::proofs::Taken::string_is, crate::proofs::Taken::string_dear, crate::proofs::Taken::more_kept, crate::proofs::Taken::room))]
pub(crate) fn take_string(
    bytes: Text,
    state: &State,
    gathering: &mut Gathering,
) -> Result<Option<Spelt>, NoMemory>
    requires gathered { IsGathered state.now.kind 0 gathering.old }
    requires count { state.now.count ≤ 2 ^ 31 }
    requires short { length bytes ≤ 65535 }
    ensures kept { IfOk result (λ r. IsGathered state.now.kind (unpaid r) gathering.new) }
    ensures is { IfOk result (λ r. Is (λ k place. meaning.gather_string k state.now bytes place
        (told state.now gathering.old)) state.now r gathering.new) }
{
    let units = string_units(bytes.len() as u64);
    if !has_units(state, gathering.units, units) {
        return Ok(bad(ErrorName::VmError));
    }
    let cell = cell_at(state, gathering.cells.len() as u32);
    let object = literal(Kind::Str(whole_of(cell, bytes.len() as u32)));
    gathering.cells.push(Content::Bytes(bytes))?;
    gathering.units += units;
    complete(object, state, gathering)
}

/// A brace begins.
#[tactic(auto, using(crate::proofs::Taken::begun_is, crate::proofs::Taken::deep_is, crate::proofs::Taken::begun_kept, crate::proofs::Taken::more_kept))]
pub(crate) fn open_brace(
    alloc: Global,
    state: &State,
    gathering: &mut Gathering,
) -> Result<Option<Spelt>, NoMemory>
    requires { IsGathered state.now.kind 0 gathering.old }
    ensures kept { IfOk result (λ r. IsGathered state.now.kind (unpaid r) gathering.new) }
    ensures is { IfOk result (λ r. Is (λ k place. meaning.open_brace k place
        (told state.now gathering.old)) state.now r gathering.new) }
{
    if gathering.braces.len() >= BRACE_LIMIT {
        return Ok(bad(ErrorName::LimitCheck));
    }
    gathering.braces.push(Sequence::new(alloc))?;
    Ok(None)
}

fn access_of(packed: bool) -> Access
    ensures { result ≡ meaning.body_access packed }
{
    if packed {
        Access::ReadOnly
    } else {
        Access::Unlimited
    }
}

fn body(cell: Cell, len: u32, packed: bool) -> Object
    ensures { result ≡ meaning.body_object cell len packed }
{
    Object {
        kind: Kind::Array {
            interval: whole_of(cell, len),
            packed,
        },
        exec: true,
        access: access_of(packed),
    }
}

/// A brace that was taken off ends: an executable array takes a cell, after those within it.
#[tactic(auto, using(crate::proofs::Taken::body_kept, crate::proofs::Taken::body_is, crate::proofs::Taken::room_beside))]
fn take_body(
    items: Sequence<Object>,
    state: &State,
    gathering: &mut Gathering,
) -> Result<Option<Spelt>, NoMemory>
    requires gathered { IsGathered state.now.kind 0 (with_brace items gathering.old) }
    requires count { state.now.count ≤ 2 ^ 31 }
    ensures kept { IfOk result (λ r. IsGathered state.now.kind (unpaid r) gathering.new) }
    ensures is { IfOk result (λ r. Is (λ k place. meaning.close_brace k state.now place
        (told state.now (with_brace items gathering.old))) state.now r gathering.new) }
{
    let cell = cell_at(state, gathering.cells.len() as u32);
    let object = body(cell, items.len() as u32, state.regs.packing);
    gathering.cells.push(Content::Items(items))?;
    complete(object, state, gathering)
}

/// A brace ends.
#[tactic(auto, using(crate::proofs::Taken::unmatched_is, crate::proofs::Taken::more_kept))]
pub(crate) fn close_brace(
    state: &State,
    gathering: &mut Gathering,
) -> Result<Option<Spelt>, NoMemory>
    requires gathered { IsGathered state.now.kind 0 gathering.old }
    requires count { state.now.count ≤ 2 ^ 31 }
    ensures kept { IfOk result (λ r. IsGathered state.now.kind (unpaid r) gathering.new) }
    ensures is { IfOk result (λ r. Is (λ k place. meaning.close_brace k state.now place
        (told state.now gathering.old)) state.now r gathering.new) }
{
    match gathering.braces.pop() {
        None => Ok(bad(ErrorName::SyntaxError)),
        Some(items) => take_body(items, state, gathering),
    }
}
