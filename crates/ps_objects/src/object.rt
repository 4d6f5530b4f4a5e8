//! Objects.
ghost use Rattle.std.specs.Prelude.{◌≡◌, IfOk};

use crate::{Access, Cell, Duplicate, Interval, Name, NoMemory, Op, Real, SaveName};
use std::mem::size_of;

/// The type of an object, and its value or the cell that holds it. A string or an array is an interval of a cell.
#[derive(PartialEq, Eq, Drop)]
pub enum Kind {
    Integer(i32),
    Real(Real),
    Boolean(bool),
    Null,
    Mark,
    Name(Name),
    Operator(Op),
    Str(Interval),
    Array { interval: Interval, packed: bool },
    Dict(Cell),

    /// The text of a section.
    File { section: u32 },

    /// A decoding filter over the text of a section, or over a lower layer; the lowest layer is 1.
    Filter { section: u32, layer: u32 },
    Save(SaveName),

    /// What `definefont` stores as `FID` in the dictionary of this cell.
    FontId(Cell),
}

/// An object, with its executable attribute and its access. A dictionary's access lies in its cell.
#[derive(PartialEq, Eq, Drop)]
pub struct Object {
    pub kind: Kind,
    pub exec: bool,
    pub access: Access,
}

// Stacks and memory hold many objects.
const _: () = prove!(size_of::<Object>() <= 48);

/// An object of these parts.
macro_rules! whole {
    ($exec:expr, $access:expr, $kind:expr) => {
        Object { kind: $kind, exec: $exec, access: $access }
    };
}

/// An equal object, or what `$wrap` makes of it. Each arm makes the whole: an object that is put together after the match
/// costs twice as much.
macro_rules! copied {
    ($object:expr, $($wrap:tt)*) => {{
        let Object { kind, exec, access } = $object;
        Ok(match kind {
            Kind::Integer(n) => $($wrap)*(whole!(*exec, *access, Kind::Integer(*n))),
            Kind::Real(r) => $($wrap)*(whole!(*exec, *access, Kind::Real(*r))),
            Kind::Boolean(b) => $($wrap)*(whole!(*exec, *access, Kind::Boolean(*b))),
            Kind::Null => $($wrap)*(whole!(*exec, *access, Kind::Null)),
            Kind::Mark => $($wrap)*(whole!(*exec, *access, Kind::Mark)),
            Kind::Name(name) => $($wrap)*(whole!(*exec, *access, Kind::Name(name.copy()?))),
            Kind::Operator(op) => $($wrap)*(whole!(*exec, *access, Kind::Operator(*op))),
            Kind::Str(part) => $($wrap)*(whole!(*exec, *access, Kind::Str(*part))),
            Kind::Array { interval, packed } => {
                $($wrap)*(whole!(*exec, *access, Kind::Array { interval: *interval, packed: *packed }))
            }
            Kind::Dict(cell) => $($wrap)*(whole!(*exec, *access, Kind::Dict(*cell))),
            Kind::File { section } => {
                $($wrap)*(whole!(*exec, *access, Kind::File { section: *section }))
            }
            Kind::Filter { section, layer } => {
                $($wrap)*(whole!(*exec, *access, Kind::Filter { section: *section, layer: *layer }))
            }
            Kind::Save(save) => $($wrap)*(whole!(*exec, *access, Kind::Save(*save))),
            Kind::FontId(cell) => $($wrap)*(whole!(*exec, *access, Kind::FontId(*cell))),
        })
    }};
}

pub(crate) use copied;
pub(crate) use whole;

impl Kind {
    ghost use Rattle.ps_objects.specs.Object.{cell_named};

    /// The cell that the object names, where it is a composite object.
    pub fn cell(&self) -> Option<Cell>
        ensures { result ≡ cell_named self.now }
    {
        match self {
            Kind::Str(interval) => Some(interval.cell),
            Kind::Array { interval, .. } => Some(interval.cell),
            Kind::Dict(cell) => Some(*cell),
            _ => None,
        }
    }
}

impl Object {
    pub fn copy(&self) -> Result<Object, NoMemory>
        ensures { IfOk result (λ object. object ≡ self.now) }
    {
        copied!(self,)
    }
}

impl Duplicate for Object {
    fn duplicate(&self) -> Result<Object, NoMemory> {
        self.copy()
    }
}
