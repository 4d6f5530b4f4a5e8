//! Operators.
ghost use Rattle.std.specs.Prelude.{◌≡◌, ◌<◌, nat_lt, if◌then◌else◌, slice_get, Some, None};
ghost use Rattle.ps_names.specs.ErrorName.{bytes_of};
ghost use Rattle.ps_names.specs.Op.{default_entry};
ghost use Rattle.ps_names.specs.Operators.{operator_names};

use crate::error_name::ErrorName;
use crate::places::{FIRST_DEFAULT_ENTRY, OPERATOR_COUNT};
use std::marker::Model;

/// The most bytes of a name.
pub const NAME_LIMIT: usize = 127;

/// A place in the list of operators.
#[derive(Clone, Copy, PartialEq, Eq, PartialOrd, Ord)]
pub struct Op {
    index: u16,
}

impl Model for Op {
    ghost use Rattle.std.specs.Prelude.{◌<◌, ℕ};
    ghost use Rattle.ps_names.specs.declared.places.TheConstants.{OPERATOR_COUNT};

    ghost Value = { ℕ };

    ghost view = { λ op. op.index };

    ghost invariant = { λ op. op.index < OPERATOR_COUNT };

    ghost inverse = { λ index. record { index = index } };
}

impl Op {
    /// The operator at a place of the list.
    pub fn at(place: u16) -> Op
        requires { place < OPERATOR_COUNT }
        ensures { result ≡ place }
    {
        Op { index: place }
    }

    /// The operator at a place, where the list has one.
    pub fn from_index(index: u16) -> Option<Op>
        ensures { result ≡ (if nat_lt index OPERATOR_COUNT then Some index else None) }
    {
        if index < OPERATOR_COUNT {
            Some(Op { index })
        } else {
            None
        }
    }

    /// The place in the list.
    pub fn index(self) -> u16
        ensures value { result ≡ self }
        ensures listed { result < OPERATOR_COUNT }
    {
        self.index
    }

    /// The operator that an error executes where `errordict` says nothing else.
    #[tactic(auto, using(crate::proofs::Entries::entry_named))]
    pub fn default_entry(error: ErrorName) -> Op
        ensures place { result ≡ default_entry error }
        ensures name { slice_get operator_names (default_entry error) ≡ Some (bytes_of error) }
    {
        Op {
            index: FIRST_DEFAULT_ENTRY + error as u16,
        }
    }
}
