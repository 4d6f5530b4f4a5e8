//! Room within limits and budgets, and what may be stored where.
ghost use Rattle.std.specs.Prelude.{◌≡◌};
ghost use Rattle.ps_operator.specs.Registers.{current};
ghost use Rattle.ps_meaning.specs.Budgets.{unit_budget, message_budget, show_budget};
ghost use Rattle.ps_operator.specs.Budgets as spec;

use ps_kinds::{Cell, DictStack, ErrorName, GStack, Kind, SectionKind, Space};

/// The dictionary in which is defined.
pub fn current(dicts: &DictStack) -> Cell
    ensures { result ≡ current dicts.now }
{
    match dicts.get(0) {
        Some(dict) => *dict,
        None => Cell {
            section: 0,
            count: 2,
            space: Space::Local,
        },
    }
}

fn unit_budget(kind: SectionKind) -> u64
    ensures { result ≡ unit_budget kind }
{
    match kind {
        SectionKind::Page => 1_000_000,
        SectionKind::Prolog | SectionKind::Setup | SectionKind::Trailer => 8_000_000,
    }
}

/// Whether `n` more units stay within the budget: VMerror.
pub fn unit_room(kind: SectionKind, units: u64, n: u64) -> Result<(), ErrorName>
    ensures { result ≡ spec.unit_room kind units n }
{
    let budget = unit_budget(kind);
    if units <= budget && n <= budget - units {
        Ok(())
    } else {
        Err(ErrorName::VmError)
    }
}

fn message_budget(kind: SectionKind) -> u64
    ensures { result ≡ message_budget kind }
{
    match kind {
        SectionKind::Page => 1_048_576,
        SectionKind::Prolog | SectionKind::Setup | SectionKind::Trailer => 16_777_216,
    }
}

/// Whether `n` more bytes of messages stay within the budget: limitcheck.
pub fn message_room(kind: SectionKind, said: u64, n: u64) -> Result<(), ErrorName>
    ensures { result ≡ spec.message_room kind said n }
{
    let budget = message_budget(kind);
    if said <= budget && n <= budget - said {
        Ok(())
    } else {
        Err(ErrorName::LimitCheck)
    }
}

fn show_budget(kind: SectionKind) -> u32
    ensures { result ≡ show_budget kind }
{
    match kind {
        SectionKind::Page => 8,
        SectionKind::Prolog | SectionKind::Setup | SectionKind::Trailer => 4096,
    }
}

/// Whether one more page stays within the budget: limitcheck.
pub fn show_room(kind: SectionKind, shows: u32) -> Result<(), ErrorName>
    ensures { result ≡ spec.show_room kind shows }
{
    if shows < show_budget(kind) {
        Ok(())
    } else {
        Err(ErrorName::LimitCheck)
    }
}

/// The most graphics states on their stack.
pub const LAYER_LIMIT: usize = 64;

/// Whether one more graphics state stays within the limit: limitcheck.
pub fn layer_room(layers: &GStack) -> Result<(), ErrorName>
    ensures { result ≡ spec.layer_room layers.now }
{
    if layers.len() < LAYER_LIMIT {
        Ok(())
    } else {
        Err(ErrorName::LimitCheck)
    }
}

fn is_local(cell: Option<Cell>) -> bool
    ensures { result ≡ spec.is_local cell }
{
    match cell {
        Some(cell) => cell.space == Space::Local,
        None => false,
    }
}

fn is_barred(dict: Cell) -> bool
    ensures { result ≡ spec.is_barred dict }
{
    dict.section == 0 && (dict.count == 0 || dict.count == 6 || dict.count == 7)
}

/// Whether an object may lie in a cell: invalidaccess.
pub fn storable(cell: Cell, kind: &Kind) -> Result<(), ErrorName>
    ensures { result ≡ spec.storable cell kind.now }
{
    if cell.space == Space::Global && is_local(kind.cell()) {
        Err(ErrorName::InvalidAccess)
    } else {
        Ok(())
    }
}

/// Whether an object may lie in a dictionary under a key that names this cell: invalidaccess.
pub fn storable_entry(dict: Cell, key: Option<Cell>, kind: &Kind) -> Result<(), ErrorName>
    ensures { result ≡ spec.storable_entry dict key kind.now }
{
    if is_barred(dict) {
        return Err(ErrorName::InvalidAccess);
    }
    if dict.space == Space::Global && (is_local(key) || is_local(kind.cell())) {
        return Err(ErrorName::InvalidAccess);
    }
    Ok(())
}
