//! The reading of an object.
ghost use Rattle.std.specs.Prelude.{◌≡◌, ◌+◌, ◌<◌, ◌≤◌, ◌^◌, length, IfOk};
ghost use Rattle.ps_gather.specs.Ended.{spelt_of};
ghost use Rattle.ps_reader.specs.Reading.{IsReady, Reads};

use ps_gather::{Spelt, make_cells, scan};
use ps_kinds::{NoMemory, State};
use std::alloc::Global;
use vm_mem::Mem;

/// The section's count passes the names of new cells.
fn pass(cells: usize, units: u64, state: &mut State)
    requires { state.old.count + cells < 2 ^ 32 }
    ensures { state.new ≡ record state.old { count = state.old.count + cells; units = units } }
{
    state.count += cells as u32;
    state.units = units;
}

/// Reads the object that a text spells at a place (section 3.2 of the language manual): what is spelt, and the place after it.
///
/// A number or a name stands for itself, a name behind `//` for its value, and a string and an executable array take a cell.
/// An array takes its cell at its own end, after those within it. The section's count and units pass what was taken.
#[tactic(auto, using(crate::proofs::Ending::ready_here, crate::proofs::Ending::read_ends, crate::proofs::Ending::ready_there))]
pub fn read<M: Mem>(
    alloc: Global,
    bytes: &[u8],
    place: u64,
    text: &[u8],
    state: &mut State,
    mem: &mut M,
) -> Result<(Spelt, u64), NoMemory>
    requires ready { IsReady 0 text.now state.old (M.log mem.old).view }
    requires place { place ≤ length bytes.now }
    ensures { IfOk result (λ r. Reads bytes.now place state.old (M.log mem.old)
        (record { spelt = spelt_of r.0; place = r.1; state = state.new }) (M.log mem.new)) }
{
    let scanned = scan(alloc, bytes, place, state, mem)?;
    make_cells(&scanned.cells, state, mem)?;
    pass(scanned.cells.len(), scanned.units, state);
    Ok((scanned.spelt, scanned.place))
}
