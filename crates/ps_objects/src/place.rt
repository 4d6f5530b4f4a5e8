//! The places of memory, and the values there.
ghost use Rattle.std.specs.Prelude.{◌≡◌, IfOk};

use crate::object::{copied, whole};
use crate::{Access, Cell, Key, Keys, Kind, NoMemory, Object, Paper};

/// A place of memory.
#[derive(PartialEq, Eq, PartialOrd, Ord, Drop)]
pub enum Loc {
    Entry { dict: Cell, key: Key },

    /// The keys of a dictionary's entries.
    Keys { dict: Cell },
    Access { dict: Cell },
    Item { array: Cell, at: u32 },
    Byte { string: Cell, at: u32 },

    /// The state of the random numbers.
    Rand,

    /// The page that is painted on.
    Paper,
}

/// What memory holds at a place.
#[derive(PartialEq, Eq, Drop)]
pub enum Value {
    Absent,
    Object(Object),
    Byte(u8),
    Access(Access),
    Keys(Keys),
    Rand(u32),
    Paper(Paper),
}

/// The kind of a composite object and its size, which never change.
#[derive(Clone, Copy, Debug, PartialEq, Eq)]
pub enum Shape {
    Array { len: u32 },
    Str { len: u32 },
    Dict { capacity: u32 },
}

impl Loc {
    pub fn copy(&self) -> Result<Loc, NoMemory>
        ensures { IfOk result (λ place. place ≡ self.now) }
    {
        Ok(match self {
            Loc::Entry { dict, key } => Loc::Entry {
                dict: *dict,
                key: key.copy()?,
            },
            Loc::Keys { dict } => Loc::Keys { dict: *dict },
            Loc::Access { dict } => Loc::Access { dict: *dict },
            Loc::Item { array, at } => Loc::Item {
                array: *array,
                at: *at,
            },
            Loc::Byte { string, at } => Loc::Byte {
                string: *string,
                at: *at,
            },
            Loc::Rand => Loc::Rand,
            Loc::Paper => Loc::Paper,
        })
    }
}

impl Value {
    pub fn copy(&self) -> Result<Value, NoMemory>
        ensures { IfOk result (λ value. value ≡ self.now) }
    {
        match self {
            Value::Absent => Ok(Value::Absent),
            Value::Object(object) => copied!(object, Value::Object),
            Value::Byte(byte) => Ok(Value::Byte(*byte)),
            Value::Access(access) => Ok(Value::Access(*access)),
            Value::Keys(keys) => Ok(Value::Keys(keys.copy()?)),
            Value::Rand(state) => Ok(Value::Rand(*state)),
            Value::Paper(paper) => Ok(Value::Paper(paper.copy()?)),
        }
    }
}
