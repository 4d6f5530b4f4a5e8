//! The calls on a tower.
ghost use Rattle.std.specs.Prelude.{◌≡◌, ◌≤◌, ◌<◌, ◌+◌, ◌-◌, ◌++◌, ◌∷◌, [], true, length, slice_set, IfOk, OnOk, OnErr};
ghost use Rattle.filter_tower.specs.Layers.{needs_text};
ghost use Rattle.data_filters.specs.Layers.{source_of, give, at_end};
ghost use Rattle.data_filters.specs.Towers.{reading_of, IsAdded, has_ended};

use crate::Given;
use crate::give::give;
use crate::reading::Reading;
use filter_tower::{FilterKind, FilterLayer, FilterState, NoMemory, Standing, Standings, Tower};
use std::mem;

/// Puts a layer over the text, which is layer 0, or over a layer that stands, and tells its number: layers are
/// numbered from 1. A layer that seeks a mark stands over the text. Where memory runs out the tower is as it was.
pub fn add(tower: &mut Tower, below: u32, kind: FilterKind) -> Result<u32, NoMemory>
    requires stands { below ≤ length tower.old.layers }
    requires marks { needs_text kind ≡ true → below ≡ 0 }
    ensures number { IfOk result (λ layer. layer ≡ length tower.old.layers + 1) }
    ensures ok { OnOk result (IsAdded tower.old tower.new below kind) }
    ensures err { OnErr result (tower.new ≡ tower.old) }
{
    let Ok(number) = u32::try_from(tower.layers.len()) else {
        return Err(NoMemory);
    };
    if number == u32::MAX {
        return Err(NoMemory);
    }
    tower.layers.push(FilterLayer { below, kind })?;
    if tower
        .standings
        .push(Standing::empty(FilterState::Open))
        .is_err()
    {
        tower.layers.drop_last();
        return Err(NoMemory);
    }
    if tower.room.grow().is_err() {
        tower.standings.drop_last();
        tower.layers.drop_last();
        return Err(NoMemory);
    }
    Ok(number + 1)
}

/// Gives the next byte of a layer, or tells that it has ended or meets a wrong byte. The place is that of the text's
/// next byte. It takes no memory.
pub fn next(tower: &mut Tower, layer: u32, text: &[u8], place: &mut u64) -> Given
    requires { layer ≤ length tower.old.layers }
    ensures gives { give text.now (source_of tower.old.layers layer)
        (reading_of tower.old place.old) ≡ (result, reading_of tower.new place.new) }
    ensures layers { tower.new.layers ≡ tower.old.layers }
{
    let alloc = tower.alloc;
    let mut now = Reading {
        place: *place as usize,
        standings: mem::replace(&mut tower.standings, Standings::new(alloc)),
    };
    let mut ahead = Reading {
        place: 0,
        standings: tower.room.take(alloc),
    };
    let given = give(
        text,
        tower.layers.as_slice(),
        &mut now,
        &mut ahead,
        layer as usize,
    );
    *place = now.place as u64;
    tower.standings = now.standings;
    tower.room.put(ahead.standings);
    given
}

/// Ends a layer, and leaves its source as it is. It takes no memory.
pub fn close(tower: &mut Tower, layer: u32)
    requires above_text { 0 < layer }
    requires stands { layer ≤ length tower.old.layers }
    ensures closed { tower.new.standings ≡ slice_set tower.old.standings (layer - 1) at_end }
    ensures layers { tower.new.layers ≡ tower.old.layers }
{
    tower
        .standings
        .put(layer as usize - 1, Standing::empty(FilterState::Ended));
}

/// Whether a layer has come to its end or was closed.
pub fn has_ended(tower: &Tower, layer: u32) -> bool
    requires above_text { 0 < layer }
    requires stands { layer ≤ length tower.now.layers }
    ensures { result ≡ has_ended tower.now layer }
{
    tower.standings.at(layer as usize - 1).state == FilterState::Ended
}
