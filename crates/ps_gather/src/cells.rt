//! New cells, and what they hold.
ghost use Rattle.std.specs.Prelude.{◌≡◌, ◌+◌, ◌<◌, ◌≤◌, ◌^◌, length, OnOk};
ghost use Rattle.ps_memory.specs.Tree.{makes};
ghost use Rattle.ps_meaning.specs.Answer.{changed_in};
ghost use Rattle.ps_meaning.specs.Ready.{Ready};
ghost use Rattle.ps_operator.specs.Standing.{StaysBeside};
ghost use Rattle.ps_gather.specs.Cells.{IsSmall, AreSmall, made_of, changes_of};
ghost use Rattle.ps_gather.specs.Cells as spec;
ghost use Rattle.ps_gather.specs.declared.cells.Content.TheVariants as content;
ghost use Rattle.vm_mem.specs.Conditions.{MayMake};

use ps_kinds::{Cell, Interval, NoMemory, Object, Sequence, State, Text};
use ps_operator::{cell_after, make_array, make_string, store_bytes, store_items};
use vm_mem::Mem;

/// What a new cell holds.
#[derive(Drop)]
pub enum Content {
    /// The bytes of a string.
    Bytes(Text),

    /// The items of an array, the first item first.
    Items(Sequence<Object>),
}

/// The cell that is made after `n` others.
#[tactic(auto, using(crate::proofs::CellLemmas::same_cell))]
pub(crate) fn cell_at(state: &State, n: u32) -> Cell
    requires { state.now.count + n < 2 ^ 32 }
    ensures { result ≡ spec.cell_at state.now n }
{
    cell_after(state, n)
}

fn whole(cell: Cell, len: u32) -> Interval
    ensures { result ≡ record { cell = cell; start = 0; len = len } }
{
    Interval {
        cell,
        start: 0,
        len,
    }
}

#[tactic(auto, using(crate::proofs::CellLemmas::string_made, crate::proofs::CellLemmas::stays_then))]
fn make_bytes<M: Mem>(bytes: &Text, cell: Cell, mem: &mut M) -> Result<(), NoMemory>
    requires free { MayMake (M.log mem.old).view cell }
    requires small { length bytes.now ≤ 65535 }
    ensures made { OnOk result (M.log mem.new
        ≡ changed_in (M.log mem.old) (made_of cell (content.Bytes bytes.now))) }
    ensures stays { OnOk result (StaysBeside cell (M.log mem.old).view (M.log mem.new).view) }
{
    let bytes = bytes.as_slice();
    let len = bytes.len() as u32;
    make_string(mem, cell, len)?;
    store_bytes(mem, whole(cell, len), 0, bytes)
}

#[tactic(auto, using(crate::proofs::CellLemmas::array_made, crate::proofs::CellLemmas::stays_then))]
fn make_items<M: Mem>(items: &Sequence<Object>, cell: Cell, mem: &mut M) -> Result<(), NoMemory>
    requires free { MayMake (M.log mem.old).view cell }
    requires small { length items.now ≤ 65535 }
    ensures made { OnOk result (M.log mem.new
        ≡ changed_in (M.log mem.old) (made_of cell (content.Items items.now))) }
    ensures stays { OnOk result (StaysBeside cell (M.log mem.old).view (M.log mem.new).view) }
{
    let items = items.as_slice();
    let len = items.len() as u32;
    make_array(mem, cell, len)?;
    store_items(mem, whole(cell, len), 0, items)
}

/// Makes a cell that holds this.
fn make<M: Mem>(content: &Content, cell: Cell, mem: &mut M) -> Result<(), NoMemory>
    requires free { MayMake (M.log mem.old).view cell }
    requires small { IsSmall content.now }
    ensures made { OnOk result (M.log mem.new
        ≡ changed_in (M.log mem.old) (made_of cell content.now)) }
    ensures stays { OnOk result (StaysBeside cell (M.log mem.old).view (M.log mem.new).view) }
{
    match content {
        Content::Bytes(bytes) => make_bytes(bytes, cell, mem),
        Content::Items(items) => make_items(items, cell, mem),
    }
}

/// Makes cells that hold these, with the section's next counts.
#[tactic(auto, using(crate::proofs::CellLemmas::made_step, crate::proofs::CellLemmas::made_end, crate::proofs::CellLemmas::small_at, crate::proofs::CellLemmas::free_first, crate::proofs::CellLemmas::free_on))]
pub fn make_cells<M: Mem>(
    cells: &Sequence<Content>,
    state: &State,
    mem: &mut M,
) -> Result<(), NoMemory>
    requires ready { Ready state.now (M.log mem.old).view }
    requires small { AreSmall cells.now }
    requires room { state.now.count + length cells.now < 2 ^ 32 }
    ensures { OnOk result (M.log mem.new
        ≡ changed_in (M.log mem.old) (changes_of state.now 0 cells.now)) }
{
    for at in 0..cells.len() {
        make(cells.at(at), cell_at(state, at as u32), mem)?;
    }
    Ok(())
}
