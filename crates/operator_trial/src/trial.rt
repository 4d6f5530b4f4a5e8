//! The beginning of a page on the start memory.

ghost use Rattle.std.specs.Prelude.{◌≡◌, [], true, IfOk};
ghost use Rattle.ps_meaning.specs.Ready.{ReadyIn};
ghost use Rattle.operator_trial.specs.Start as spec;

use ps_kinds::{Cell, Frames, Kind, NoMemory, Objects, SectionKind, Settings, Space, State};
use ps_start::start_registers;
use std::alloc::Global;
use vm_cells::{Base, Cells};

/// A page that has begun, and its memory.
#[derive(Drop)]
pub struct Trial {
    pub state: State,
    pub memory: Cells,
}

const PAGE: Settings = Settings {
    dpi: 72,
    width: 16,
    height: 16,
    keep: false,
};

/// A local cell of the start.
pub(crate) fn local_cell(count: u32) -> Cell
    ensures { result ≡ record { section = 0; count = count; space = Space.Local } }
{
    Cell {
        section: 0,
        count,
        space: Space::Local,
    }
}

/// A page's state at its beginning, with these operands.
fn state(alloc: Global, operands: Objects) -> Result<State, NoMemory>
    ensures { IfOk result (λ state. state ≡ spec.begun operands) }
{
    let mut regs = start_registers(alloc, &PAGE)?;
    regs.operands = operands;
    Ok(State {
        regs,
        settings: PAGE,
        moment: 0,
        section: 3,
        kind: SectionKind::Page,
        count: 0,
        turns: 0,
        units: 0,
        shows: 0,
        said: 0,
        place: 0,
        frames: Frames::new(alloc),
    })
}

fn is_start_cell(cell: Cell, count: u32) -> bool
    ensures { result ≡ spec.is_start_cell count cell }
{
    cell.section == 0 && cell.count == count && cell.space == Space::Local
}

fn stands(kind: &Kind) -> bool
    ensures { result ≡ spec.stands kind.now }
{
    match kind {
        Kind::Str(part) => {
            is_start_cell(part.cell, 8)
                && part.start <= 8
                && part.len <= 8
                && part.start + part.len <= 8
        }
        Kind::Array { interval, .. } => {
            is_start_cell(interval.cell, 10) && interval.start == 0 && interval.len == 0
        }
        Kind::Dict(cell) => is_start_cell(*cell, 2) || is_start_cell(*cell, 3),
        _ => true,
    }
}

/// Whether all that these operands name stands at the start: parts of the version string, the empty dash array, `userdict` and `errordict`.
#[tactic(auto, using(crate::proofs::Standing::stand_hit, crate::proofs::Standing::stand_miss))]
pub fn all_stand(operands: &Objects) -> bool
    ensures { result ≡ spec.all_stand operands.now }
{
    for depth in 0..operands.len() {
        if !stands(&operands.at(depth).kind) {
            return false;
        }
    }
    true
}

/// A page that begins with these operands.
pub fn begin(alloc: Global, operands: Objects) -> Result<Trial, NoMemory>
    requires { spec.all_stand operands ≡ true }
    ensures { IfOk result (λ trial. ReadyIn [] trial.state trial.memory) }
{
    let memory = <Cells as Base>::start(alloc, &PAGE)?;
    let state = state(alloc, operands)?;
    Ok(Trial { state, memory })
}
