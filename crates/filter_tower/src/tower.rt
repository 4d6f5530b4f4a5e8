//! The layers of decoding filters over a section's text.
ghost use Rattle.std.specs.Prelude.{◌≡◌, ◌≤◌, ◌+◌, ◌<◌, ◌==◌, [], ◌∷◌, ◌++◌, length, take, ◌-◌, true, Option, IfOk, OnOk, OnErr};
ghost use Rattle.filter_tower.specs.Layers.{IsTower};

use crate::{NoMemory, Room, Standings, Text};
use std::alloc::Global;
use std::marker::Model;

/// How a layer decodes what its source gives.
#[derive(Drop)]
pub enum FilterKind {
    /// Pairs of hexadecimal digits, up to `>`.
    Hex,

    /// Groups of five characters in base 85, up to `~>`.
    Base85,

    /// Runs of bytes with their lengths.
    RunLength,

    /// The source's bytes, up to so many where `mark` is empty and `count` isn't 0, else up to the mark.
    SubFile { count: u32, mark: Text },
}

/// A filter over the section's text, which is layer 0, or over a lower layer.
#[derive(Drop)]
pub struct FilterLayer {
    pub below: u32,
    pub kind: FilterKind,
}

/// Layers, the first layer first.
#[derive(Drop)]
pub struct FilterLayers {
    items: Vec<FilterLayer>,
}

impl Model for FilterLayers {
    ghost use Rattle.std.specs.Prelude.{List};
    ghost use Rattle.filter_tower.specs.declared.tower.FilterLayer.{FilterLayer};

    ghost Value = { List FilterLayer };

    ghost view = { λ layers. layers.items.items };
}

impl FilterLayers {
    pub fn new(alloc: Global) -> FilterLayers
        ensures { result ≡ [] }
    {
        FilterLayers {
            items: Vec::new(alloc),
        }
    }

    pub fn as_slice(&self) -> &[FilterLayer]
        ensures { result.now ≡ self.now }
    {
        self.items.as_slice()
    }

    pub fn len(&self) -> usize
        ensures { result ≡ length self.now }
    {
        self.items.len()
    }

    pub fn is_empty(&self) -> bool
        ensures { result ≡ (length self.now == 0) }
    {
        self.items.is_empty()
    }

    /// Appends a layer. Where memory runs out all is as it was.
    pub fn push(&mut self, layer: FilterLayer) -> Result<(), NoMemory>
        ensures ok { OnOk result (self.new ≡ self.old ++ layer ∷ []) }
        ensures err { OnErr result (self.new ≡ self.old) }
    {
        self.items.push(layer)?;
        Ok(())
    }

    /// Takes the last layer away, if there is one.
    pub fn drop_last(&mut self)
        ensures { self.new ≡ take (length self.old - 1) self.old }
    {
        let _last = self.items.pop();
    }
}

/// The layers of a section and where they stand. A section begins without a layer.
#[derive(Drop)]
pub struct Tower {
    pub alloc: Global,
    pub layers: FilterLayers,
    pub standings: Standings,

    /// Room for reading ahead of the layers.
    pub room: Room,
    ghost is_tower: { IsTower layers },
    ghost all_stand: { length standings ≡ length layers },
    ghost all_have_room: { room ≡ length layers },
}

impl Tower {
    pub fn new(alloc: Global) -> Tower
        ensures layers { result.layers ≡ [] }
        ensures standings { result.standings ≡ [] }
    {
        Tower {
            alloc,
            layers: FilterLayers::new(alloc),
            standings: Standings::new(alloc),
            room: Room::new(alloc),
        }
    }
}
