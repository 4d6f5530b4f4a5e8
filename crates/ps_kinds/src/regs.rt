//! Registers.
ghost use Rattle.std.specs.Prelude.{◌≡◌, IfOk};
ghost use Rattle.ps_kinds.specs.Registers.{field_or};

use crate::{
    DictStack, Duplicate, GStack, GState, NoMemory, Objects, Paper, SaveName, Sequence, Stack,
};

/// The graphics state and the modes as they were when a save was made.
#[derive(PartialEq, Eq, Drop)]
pub struct SaveMark {
    pub name: SaveName,
    pub state: GState,
    pub states: GStack,
    pub global: bool,
    pub packing: bool,
}

/// The open saves, the newest first.
pub type Saves = Stack<SaveMark>;

/// Numbers of pages.
pub type Pages = Sequence<u32>;

/// Pictures of pages.
pub type Papers = Sequence<Paper>;

/// What a job holds besides memory.
#[derive(PartialEq, Eq, Drop)]
pub struct Regs {
    pub operands: Objects,
    pub dicts: DictStack,
    pub state: GState,
    pub states: GStack,
    pub saves: Saves,

    /// Whether new composite objects are made in global memory.
    pub global: bool,

    /// Whether procedures are scanned as packed arrays.
    pub packing: bool,
}

/// A field of the registers.
#[derive(Clone, Copy, Debug, PartialEq, Eq)]
pub enum RegField {
    Operands,
    Dicts,
    State,
    States,
    Saves,
    Global,
    Packing,
}

impl SaveMark {
    pub fn copy(&self) -> Result<SaveMark, NoMemory>
        ensures { IfOk result (λ mark. mark ≡ self.now) }
    {
        Ok(SaveMark {
            name: self.name,
            state: self.state.copy()?,
            states: self.states.copy()?,
            global: self.global,
            packing: self.packing,
        })
    }
}

impl Duplicate for SaveMark {
    fn duplicate(&self) -> Result<SaveMark, NoMemory> {
        self.copy()
    }
}

impl Regs {
    pub fn copy(&self) -> Result<Regs, NoMemory>
        ensures { IfOk result (λ regs. regs ≡ self.now) }
    {
        Ok(Regs {
            operands: self.operands.copy()?,
            dicts: self.dicts.copy()?,
            state: self.state.copy()?,
            states: self.states.copy()?,
            saves: self.saves.copy()?,
            global: self.global,
            packing: self.packing,
        })
    }
}

impl Regs {
    ghost use Rattle.ps_kinds.specs.Registers.{first_difference};

    /// The first field that differs, in the order of the fields.
    pub fn first_difference(&self, other: &Regs) -> Option<RegField>
        ensures { result ≡ first_difference self.now other.now }
    {
        let packing = field_or(self.packing == other.packing, RegField::Packing, None);
        let global = field_or(self.global == other.global, RegField::Global, packing);
        let saves = field_or(self.saves == other.saves, RegField::Saves, global);
        let states = field_or(self.states == other.states, RegField::States, saves);
        let state = field_or(self.state == other.state, RegField::State, states);
        let dicts = field_or(self.dicts == other.dicts, RegField::Dicts, state);
        field_or(self.operands == other.operands, RegField::Operands, dicts)
    }
}

/// The field, where it is not the same, and else what comes later.
fn field_or(same: bool, field: RegField, later: Option<RegField>) -> Option<RegField>
    ensures { result ≡ field_or same field later }
{
    if same { later } else { Some(field) }
}
