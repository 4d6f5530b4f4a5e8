//! Whether a memory holds a value at a place.
ghost use Rattle.std.specs.Prelude.{◌≡◌, IsTrue, ◌↔◌};
ghost use Rattle.std.specs.FinMap.{get};
ghost use Rattle.ps_objects.specs.declared.place.Value.TheVariants as values;
ghost use Rattle.ps_memory.specs.Memory.{held, spot_of, value_found, byte_found, in_string, page_found, value_at};
ghost use Rattle.vm_content.specs.Content.{slot_in};
ghost use Rattle.vm_committed.specs.Whole.{page_of};

use crate::cells::Cells;
use crate::page::Page;
use ps_objects::{Cell, Loc, Paper, Value};

impl Cells {
    #[tactic(auto, using(crate::proofs::Holding::held_by_cell, crate::proofs::Holding::held_by_none))]
    /// Whether the value at a place of a cell is this one.
    pub(crate) fn cell_holds(&self, cell: Cell, at: &Loc, value: &Value) -> bool
        requires { spot_of at.now ≡ held cell (slot_in at.now) }
        ensures { IsTrue result ↔ (value_at self.now at.now ≡ value.now) }
    {
        match self.content(cell) {
            Some(content) => content.holds(at, value),
            None => is_absent(value),
        }
    }

    /// A byte of a string.
    #[tactic(auto, using(vm_content::proofs::Cells::cell_found))]
    pub(crate) fn byte_at(&self, string: Cell, at: u32) -> Option<u8>
        ensures { byte_found result ≡ in_string (get self.now.strings string) at }
    {
        match self.strings.get(&string) {
            Some(bytes) => bytes.get(at),
            None => None,
        }
    }
}

fn is_absent(value: &Value) -> bool
    ensures { IsTrue result ↔ (values.Absent ≡ value.now) }
{
    match value {
        Value::Absent => true,
        _ => false,
    }
}

pub(crate) fn is_byte(byte: Option<u8>, value: &Value) -> bool
    ensures { IsTrue result ↔ (value_found (byte_found byte) ≡ value.now) }
{
    match byte {
        Some(byte) => match value {
            Value::Byte(other) => byte == *other,
            _ => false,
        },
        None => is_absent(value),
    }
}

pub(crate) fn is_rand(state: u32, value: &Value) -> bool
    ensures { IsTrue result ↔ (values.Rand state ≡ value.now) }
{
    match value {
        Value::Rand(other) => state == *other,
        _ => false,
    }
}

#[tactic(auto, using(ps_shapes::proofs::Sameness::same_sheet_decides))]
fn are_equal(paper: &Paper, other: &Paper) -> bool
    ensures { IsTrue result ↔ (paper.now ≡ other.now) }
{
    *paper == *other
}

pub(crate) fn is_paper(page: &Page, value: &Value) -> bool
    ensures { IsTrue result ↔ (value_found (page_found (page_of page.now)) ≡ value.now) }
{
    match page {
        Page::Here(paper) => match value {
            Value::Paper(other) => are_equal(paper, other),
            _ => false,
        },
        Page::Out { .. } => is_absent(value),
    }
}
