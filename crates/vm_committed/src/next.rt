//! The earlier of two cells.
ghost use Rattle.std.specs.Prelude.{◌≡◌};
ghost use Rattle.ps_memory.specs.Next.{comes_before};
ghost use Rattle.vm_committed.specs.Next.{earlier};

use ps_objects::{Cell, Shape};

fn comes_before(cell: Cell, other: Cell) -> bool
    ensures { result ≡ comes_before cell other }
{
    let sections = cell.section.cmp(&other.section);
    sections.then(cell.count.cmp(&other.count)).is_lt()
}

/// What comes first of a local and a global cell.
pub(crate) fn earlier(
    local: Option<(Cell, Shape)>,
    global: Option<(Cell, Shape)>,
) -> Option<(Cell, Shape)>
    ensures { result ≡ earlier local global }
{
    match local {
        Some((cell, _)) => match global {
            Some((other, _)) if comes_before(other, cell) => global,
            _ => local,
        },
        None => global,
    }
}
