//! The first lines of cells.
ghost use Rattle.std.specs.Prelude.{◌≡◌, ◌++◌, OnOk};
ghost use Rattle.dump_text.specs.Headers as spec;

use copy_lists::{NoMemory, Text};
use dump_lines::{push_decimal, push_place};
use ps_kinds::{Cell, Space};

/// Where a cell lies.
fn space_name(space: Space) -> &'static [u8]
    ensures { result.now ≡ spec.space_text space }
{
    match space {
        Space::Local => b" local",
        Space::Global => b" global",
    }
}

/// Appends which cell is told of.
#[tactic(auto, using(dump_lines::proofs::Pieces::three_pieces), unfolding(crate::specs::Headers::cell_label))]
fn push_cell_label(text: &mut Text, cell: Cell) -> Result<(), NoMemory>
    ensures { OnOk result (text.new ≡ text.old ++ spec.cell_label cell) }
{
    text.extend(b"cell ")?;
    push_place(text, cell.section, cell.count)?;
    text.extend(space_name(cell.space))
}

/// Appends the first line of a cell.
#[tactic(auto, using(dump_lines::proofs::Pieces::four_pieces), unfolding(crate::specs::Headers::cell_line))]
fn push_cell_line(text: &mut Text, cell: Cell, kind: &[u8], size: u32) -> Result<(), NoMemory>
    ensures { OnOk result (text.new ≡ text.old ++ spec.cell_line cell kind.now size) }
{
    push_cell_label(text, cell)?;
    text.extend(kind)?;
    push_decimal(text, size)?;
    text.push(b'\n')
}

/// Whether a cell was made: those of section 0 are the start's.
pub(crate) fn is_made(cell: Cell) -> bool
    ensures { result ≡ spec.is_made cell }
{
    cell.section != 0
}

/// Appends what is told of a cell that was made, or of which something is told.
#[tactic(auto, using(dump_lines::proofs::Pieces::two_pieces), unfolding(crate::specs::Headers::block))]
pub(crate) fn push_block(
    text: &mut Text,
    cell: Cell,
    kind: &[u8],
    size: u32,
    told: &[u8],
) -> Result<(), NoMemory>
    ensures { OnOk result (text.new ≡ text.old ++ spec.block cell kind.now size told.now) }
{
    if is_made(cell) || !told.is_empty() {
        push_cell_line(text, cell, kind, size)?;
        text.extend(told)
    } else {
        Ok(())
    }
}
