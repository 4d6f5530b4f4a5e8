//! The next cell of a map.
ghost use Rattle.std.specs.Prelude.{◌≡◌};
ghost use Rattle.std.specs.FinMap.{from_entries};
ghost use Rattle.ps_memory.specs.Order.{cell_cmp};
ghost use Rattle.vm_content.specs.Next.{bound_after, is_in, IsNextIn};
ghost use Rattle.vm_content.specs.Maps.{cells_of};

use crate::Content;
use ps_objects::{Cell, Shape, Space};
use std::collections::BTreeMap;
use std::ops::Bound;

/// The first cell of a space after another, or at all, by section and then by count, with its shape.
///
/// A memory's maps have cells of one space each, so it is the first entry behind the bound.
#[tactic(auto, using(crate::proofs::Nexts::none_next))]
pub fn next_in(
    cells: &BTreeMap<Cell, Content>,
    space: Space,
    after: Option<Cell>,
) -> Option<(Cell, Shape)>
    ensures { IsNextIn space (cells_of cells.now) after result }
{
    for (cell, content) in cells.range((bound_after(after), Bound::Unbounded)) {
        if is_in(space, *cell) {
            return Some((*cell, content.shape()));
        }
    }
    None
}

/// Where the cells after one begin: behind both cells of its section and count.
fn bound_after(cell: Option<Cell>) -> Bound<Cell>
    ensures { result ≡ bound_after cell }
{
    match cell {
        Some(cell) => Bound::Excluded(Cell {
            section: cell.section,
            count: cell.count,
            space: Space::Global,
        }),
        None => Bound::Unbounded,
    }
}

fn is_in(space: Space, cell: Cell) -> bool
    ensures { result ≡ is_in space cell }
{
    match cell.space {
        Space::Local => match space {
            Space::Local => true,
            Space::Global => false,
        },
        Space::Global => match space {
            Space::Local => false,
            Space::Global => true,
        },
    }
}
