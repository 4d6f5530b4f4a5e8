//! Where the layers of a tower stand.
ghost use Rattle.std.specs.Prelude.{◌≡◌, ◌<◌, [], ◌∷◌, ◌++◌, ◌+◌, ◌-◌, length, take, slice_get, slice_set, Some, OnOk, OnErr};

use crate::{CodeBytes, NoMemory};
use std::alloc::Global;
use std::marker::Model;
use std::mem;

/// Whether a layer still takes codes from its source, has come to its end or was closed, or has met a wrong byte.
#[derive(Clone, Copy, PartialEq, Eq)]
pub enum FilterState {
    Open,
    Ended,
    Failed,
}

/// Where a layer stands.
#[derive(Drop)]
pub struct Standing {
    /// The bytes of its newest code.
    pub code: CodeBytes,

    /// How many of them it has given.
    pub from: usize,

    /// How many bytes its codes have given, with all of the newest; it stands still at its type's end.
    pub given: u64,
    pub state: FilterState,
}

impl Standing {
    ghost use Rattle.filter_tower.specs.Layers.{empty_standing};

    /// A layer without bytes of a code.
    pub fn empty(state: FilterState) -> Standing
        ensures { result ≡ empty_standing state }
    {
        Standing {
            code: CodeBytes::none(),
            from: 0,
            given: 0,
            state,
        }
    }

    pub fn copy(&self) -> Standing
        ensures { result ≡ self.now }
    {
        Standing {
            code: self.code.copy(),
            from: self.from,
            given: self.given,
            state: self.state,
        }
    }
}

/// Where layers stand, the first layer first.
#[derive(Drop)]
pub struct Standings {
    items: Vec<Standing>,
}

impl Model for Standings {
    ghost use Rattle.std.specs.Prelude.{List};
    ghost use Rattle.filter_tower.specs.declared.standing.Standing.{Standing};

    ghost Value = { List Standing };

    ghost view = { λ standings. standings.items.items };
}

impl Standings {
    pub fn new(alloc: Global) -> Standings
        ensures { result ≡ [] }
    {
        Standings {
            items: Vec::new(alloc),
        }
    }

    pub fn at(&self, place: usize) -> &Standing
        requires { place < length self.now }
        ensures { slice_get self.now place ≡ Some result.now }
    {
        &self.items[place]
    }

    pub fn put(&mut self, place: usize, standing: Standing)
        requires { place < length self.old }
        ensures { self.new ≡ slice_set self.old place standing }
    {
        self.items[place] = standing;
    }

    /// Appends where a layer stands. Where memory runs out all is as it was.
    pub fn push(&mut self, standing: Standing) -> Result<(), NoMemory>
        ensures ok { OnOk result (self.new ≡ self.old ++ standing ∷ []) }
        ensures err { OnErr result (self.new ≡ self.old) }
    {
        self.items.push(standing)?;
        Ok(())
    }

    /// Takes away where the last layer stands, if there is one.
    pub fn drop_last(&mut self)
        ensures { self.new ≡ take (length self.old - 1) self.old }
    {
        let _last = self.items.pop();
    }
}

/// Room for where so many layers stand, for reading ahead of them.
#[derive(Drop)]
pub struct Room {
    standings: Standings,
}

impl Model for Room {
    ghost use Rattle.std.specs.Prelude.{ℕ, length};

    ghost Value = { ℕ };

    ghost view = { λ room. length room.standings };
}

impl Room {
    pub fn new(alloc: Global) -> Room
        ensures { result ≡ 0 }
    {
        Room {
            standings: Standings::new(alloc),
        }
    }

    /// Makes room for one layer more. Where memory runs out all is as it was.
    pub fn grow(&mut self) -> Result<(), NoMemory>
        ensures ok { OnOk result (self.new ≡ self.old + 1) }
        ensures err { OnErr result (self.new ≡ self.old) }
    {
        self.standings.push(Standing::empty(FilterState::Ended))
    }

    /// Takes the room out, and leaves none.
    pub fn take(&mut self, alloc: Global) -> Standings
        ensures taken { length result ≡ self.old }
        ensures none { self.new ≡ 0 }
    {
        mem::replace(&mut self.standings, Standings::new(alloc))
    }

    /// Puts room back.
    pub fn put(&mut self, standings: Standings)
        ensures { self.new ≡ length standings }
    {
        self.standings = standings;
    }
}
