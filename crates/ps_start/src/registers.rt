//! The registers with which a job starts.
ghost use Rattle.std.specs.Prelude.{◌≡◌, [], ◌∷◌, IfOk};
ghost use Rattle.ps_memory.specs.Memory.{null_object};
ghost use Rattle.ps_meaning.specs.Registers.{system_dict, global_dict, user_dict};
ghost use Rattle.ps_meaning.specs.Start as spec;
ghost use Rattle.ps_start.specs.Settings.{AreInRange};

use crate::default_matrix;
use crate::matrix::whole;
use ps_kinds::{
    Access, Cell, Colour, Component, DictStack, GState, Interval, Kind, Lengths, LineCap, LineJoin,
    LineWidth, MiterLimit, NoMemory, Object, PageSide, Path, Regs, Sequence, Settings, Space,
    Stack, Thresholds,
};
use std::alloc::Global;

fn null() -> Object
    ensures { result ≡ null_object }
{
    Object {
        kind: Kind::Null,
        exec: false,
        access: Access::Unlimited,
    }
}

/// A cell of the start.
fn cell_at_start(count: u32, space: Space) -> Cell
    ensures { result ≡ record { section = 0; count = count; space = space } }
{
    Cell {
        section: 0,
        count,
        space,
    }
}

/// The empty array that `currentdash` gives at first.
fn empty_dash() -> Object
    ensures { result ≡ spec.empty_dash_object }
{
    Object {
        kind: Kind::Array {
            interval: Interval {
                cell: cell_at_start(10, Space::Local),
                start: 0,
                len: 0,
            },
            packed: false,
        },
        exec: false,
        access: Access::Unlimited,
    }
}

/// The dictionaries that no program takes from their stack.
fn dicts(alloc: Global) -> Result<DictStack, NoMemory>
    ensures { IfOk result (λ dicts. dicts ≡ user_dict ∷ global_dict ∷ system_dict ∷ []) }
{
    let mut dicts = Stack::new(alloc);
    dicts.push(cell_at_start(0, Space::Global))?;
    dicts.push(cell_at_start(1, Space::Global))?;
    dicts.push(cell_at_start(2, Space::Local))?;
    Ok(dicts)
}

/// The graphics state at the start of a job.
fn start_state(alloc: Global, settings: &Settings) -> GState
    requires { AreInRange settings.now }
    ensures { result ≡ spec.start_state settings.now }
{
    GState {
        ctm: default_matrix(settings.dpi, settings.height),
        path: Path::new(alloc),
        clips: Sequence::new(alloc),
        colour: Colour::Gray(Component::new(whole(0))),
        width: LineWidth::new(whole(1)),
        cap: LineCap::Butt,
        join: LineJoin::Miter,
        miter: MiterLimit::new(whole(10)),
        dash: empty_dash(),
        offset: whole(0),
        lengths: Lengths::solid(alloc),
        flat: whole(1),
        adjust: false,
        frequency: whole(60),
        angle: whole(45),
        spot: null(),
        transfer: null(),
        halftone: null(),
        thresholds: Thresholds::none(alloc),
        font: null(),
        wide: PageSide::new(settings.width),
        high: PageSide::new(settings.height),
    }
}

/// The registers at the start of a job.
pub fn start_registers(alloc: Global, settings: &Settings) -> Result<Regs, NoMemory>
    requires { AreInRange settings.now }
    ensures { IfOk result (λ regs. regs ≡ spec.start_registers settings.now) }
{
    Ok(Regs {
        operands: Stack::new(alloc),
        dicts: dicts(alloc)?,
        state: start_state(alloc, settings),
        states: Stack::new(alloc),
        saves: Stack::new(alloc),
        global: false,
        packing: false,
    })
}
