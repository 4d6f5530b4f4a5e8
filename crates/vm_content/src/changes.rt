//! What is done to maps of cells.
ghost use Rattle.std.specs.Prelude.{◌≡◌, OnOk, OnErr};
ghost use Rattle.std.specs.FinMap.{insert, remove};
ghost use Rattle.ps_memory.specs.Memory.{spot_of, put_cell};
ghost use Rattle.vm_content.specs.Back.{content_undone};
ghost use Rattle.vm_content.specs.Content.{holder, put_at};
ghost use Rattle.vm_content.specs.Maps.{cells_of};

use crate::{Before, Bytes, Content};
use ps_objects::{Cell, Loc, NoMemory, Value};
use std::collections::BTreeMap;

/// Adds a cell. Where memory runs out, nothing has changed.
#[tactic(auto, using(crate::proofs::Cells::cell_inserted))]
pub fn insert_cell(
    cells: &mut BTreeMap<Cell, Content>,
    cell: Cell,
    content: Content,
) -> Result<(), NoMemory>
    ensures ok { OnOk result (cells_of cells.new ≡ insert (cells_of cells.old) cell content) }
    ensures err { OnErr result (cells_of cells.new ≡ cells_of cells.old) }
{
    cells.insert(cell, content)?;
    Ok(())
}

/// Takes a cell away.
#[tactic(auto, using(crate::proofs::Cells::cell_removed))]
pub fn remove_cell(cells: &mut BTreeMap<Cell, Content>, cell: Cell)
    ensures { cells_of cells.new ≡ remove (cells_of cells.old) cell }
{
    cells.remove(&cell);
}

/// Takes the bytes of a string away.
#[tactic(auto, using(crate::proofs::Cells::cell_removed))]
pub fn remove_bytes(strings: &mut BTreeMap<Cell, Bytes>, string: Cell)
    ensures { cells_of strings.new ≡ remove (cells_of strings.old) string }
{
    strings.remove(&string);
}

/// The cell of whose content a place is a part.
fn holder(at: &Loc) -> Option<Cell>
    ensures { result ≡ holder (spot_of at.now) }
{
    match at {
        Loc::Entry { dict, .. } | Loc::Keys { dict } | Loc::Access { dict } => Some(*dict),
        Loc::Item { array, .. } => Some(*array),
        Loc::Byte { .. } | Loc::Rand | Loc::Paper => None,
    }
}

/// Stores a value at a place of a cell, if the cell stands. Where memory runs out, nothing has changed.
#[tactic(auto, using(crate::proofs::Cells::cell_written, crate::proofs::Cells::cell_missing, crate::proofs::Cells::cell_unchanged))]
pub fn put_in_cell(
    cells: &mut BTreeMap<Cell, Content>,
    at: &Loc,
    value: Value,
) -> Result<(), NoMemory>
    ensures ok { OnOk result (cells_of cells.new ≡ put_at at.now value (cells_of cells.old)) }
    ensures err { OnErr result (cells_of cells.new ≡ cells_of cells.old) }
{
    if let Some(cell) = holder(at) {
        if let Some(content) = cells.get_mut(&cell) {
            content.put(at, value)?;
        }
    }
    Ok(())
}

/// Takes a write to a cell back.
#[tactic(auto, using(crate::proofs::Cells::cell_written, crate::proofs::Cells::cell_missing))]
pub fn undo_in_cell(cells: &mut BTreeMap<Cell, Content>, cell: Cell, before: Before)
    ensures { cells_of cells.new ≡ put_cell cell (content_undone before) (cells_of cells.old) }
{
    if let Some(content) = cells.get_mut(&cell) {
        content.undo(before);
    }
}
