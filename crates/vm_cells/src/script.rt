//! The script of the tests: cells and saves, places, and the steps.

use crate::Write;
use ps_objects::{Access, Cell, Key, Kind, Loc, Object, SaveName, Shape, Space, Value};

// The cells and saves of the script.
pub(crate) const SYSTEM_DICT: Cell = Cell {
    section: 0,
    count: 0,
    space: Space::Global,
};

pub(crate) const USER_DICT: Cell = Cell {
    section: 0,
    count: 2,
    space: Space::Local,
};

const GLOBAL_DICT: Cell = Cell {
    section: 0,
    count: 1,
    space: Space::Global,
};

pub(crate) const LIST: Cell = Cell {
    section: 1,
    count: 0,
    space: Space::Local,
};

const GLOBAL_LIST: Cell = Cell {
    section: 1,
    count: 1,
    space: Space::Global,
};

const TEXT: Cell = Cell {
    section: 1,
    count: 2,
    space: Space::Local,
};

const GLOBAL_TEXT: Cell = Cell {
    section: 1,
    count: 3,
    space: Space::Global,
};

const TABLE: Cell = Cell {
    section: 1,
    count: 4,
    space: Space::Local,
};

const OUTER: SaveName = SaveName {
    section: 1,
    count: 5,
};

const NEW_LIST: Cell = Cell {
    section: 1,
    count: 6,
    space: Space::Local,
};

const NEW_TEXT: Cell = Cell {
    section: 1,
    count: 7,
    space: Space::Local,
};

const MIDDLE: SaveName = SaveName {
    section: 1,
    count: 8,
};

const NEW_TABLE: Cell = Cell {
    section: 1,
    count: 9,
    space: Space::Local,
};

const INNER: SaveName = SaveName {
    section: 1,
    count: 10,
};

const NEWEST_TEXT: Cell = Cell {
    section: 1,
    count: 11,
    space: Space::Local,
};

const NEW_GLOBAL_LIST: Cell = Cell {
    section: 1,
    count: 12,
    space: Space::Global,
};

/// In a later section, with a lower count.
const LATER: SaveName = SaveName {
    section: 2,
    count: 0,
};

const LATER_LIST: Cell = Cell {
    section: 2,
    count: 1,
    space: Space::Local,
};

#[derive(Clone, Copy, PartialEq, Eq)]
pub(crate) enum Place {
    Entry(Cell, i32),
    Access(Cell),
    Item(Cell, u32),
    Byte(Cell, u32),
    Rand,
}

/// What the script stores and a model holds.
#[derive(Clone, Copy, PartialEq, Eq)]
pub(crate) enum Held {
    Absent,
    Null,
    Integer(i32),
    Byte(u8),
    Access(Access),
    Rand(u32),
}

/// One step of the script.
#[derive(Clone, Copy)]
pub(crate) enum Step {
    Make(Cell, Shape),
    Store(Place, Held),
    Save(SaveName),
    Restore(SaveName),
}

use Held::{Absent, Integer};
use Place::{Entry, Item};
use Step::{Make, Restore, Save, Store};

/// Each place that the script names, and some where nothing ever is.
pub(crate) const PLACES: &[Place] = &[
    Entry(USER_DICT, 1),
    Entry(USER_DICT, 2),
    Place::Access(USER_DICT),
    Entry(GLOBAL_DICT, 1),
    Place::Access(GLOBAL_DICT),
    Item(LIST, 0),
    Item(LIST, 2),
    Item(LIST, 3),
    Item(GLOBAL_LIST, 1),
    Place::Byte(TEXT, 0),
    Place::Byte(TEXT, 3),
    Place::Byte(TEXT, 4),
    Place::Byte(GLOBAL_TEXT, 2),
    Entry(TABLE, -7),
    Place::Access(TABLE),
    Item(NEW_LIST, 1),
    Place::Byte(NEW_TEXT, 0),
    Entry(NEW_TABLE, 1),
    Place::Access(NEW_TABLE),
    Item(NEW_TABLE, 0),
    Place::Byte(NEWEST_TEXT, 1),
    Item(NEW_GLOBAL_LIST, 0),
    Item(LATER_LIST, 0),
    Place::Rand,
];

/// Nested saves, stores at places that an open save has noted or not, new cells and restores.
pub(crate) const SCRIPT: &[Step] = &[
    Make(LIST, Shape::Array { len: 3 }),
    Make(GLOBAL_LIST, Shape::Array { len: 2 }),
    Make(TEXT, Shape::Str { len: 4 }),
    Make(GLOBAL_TEXT, Shape::Str { len: 3 }),
    Make(TABLE, Shape::Dict { capacity: 5 }),
    Store(Entry(USER_DICT, 1), Integer(10)),
    Store(Item(LIST, 0), Integer(11)),
    Store(Place::Byte(TEXT, 0), Held::Byte(65)),
    Store(Entry(TABLE, -7), Integer(12)),
    Save(OUTER),
    // Twice at one place, an entry that is new, and one that is taken away.
    Store(Entry(USER_DICT, 1), Integer(20)),
    Store(Entry(USER_DICT, 1), Integer(21)),
    Store(Entry(USER_DICT, 2), Integer(22)),
    Store(Entry(TABLE, -7), Absent),
    Store(Item(LIST, 0), Integer(23)),
    Store(Place::Access(TABLE), Held::Access(Access::ReadOnly)),
    Store(Place::Byte(TEXT, 3), Held::Byte(66)),
    Store(Entry(GLOBAL_DICT, 1), Integer(24)),
    Store(Place::Rand, Held::Rand(25)),
    Make(NEW_LIST, Shape::Array { len: 2 }),
    Make(NEW_TEXT, Shape::Str { len: 1 }),
    Store(Item(NEW_LIST, 1), Integer(26)),
    Store(Place::Byte(NEW_TEXT, 0), Held::Byte(67)),
    Save(MIDDLE),
    // At places that the outer save has noted, and at others.
    Store(Entry(USER_DICT, 1), Absent),
    Store(Entry(TABLE, -7), Integer(30)),
    Store(Item(LIST, 0), Held::Null),
    Store(Item(LIST, 2), Integer(31)),
    Store(Item(NEW_LIST, 1), Integer(32)),
    Store(Place::Byte(NEW_TEXT, 0), Held::Byte(68)),
    Store(Place::Access(USER_DICT), Held::Access(Access::ReadOnly)),
    Make(NEW_TABLE, Shape::Dict { capacity: 0 }),
    Store(Entry(NEW_TABLE, 1), Integer(33)),
    Save(INNER),
    Store(Entry(NEW_TABLE, 1), Integer(40)),
    Store(Entry(USER_DICT, 1), Integer(41)),
    Store(Item(LIST, 0), Integer(42)),
    Store(Place::Access(NEW_TABLE), Held::Access(Access::NoAccess)),
    Make(NEWEST_TEXT, Shape::Str { len: 2 }),
    Make(NEW_GLOBAL_LIST, Shape::Array { len: 1 }),
    Store(Place::Byte(NEWEST_TEXT, 1), Held::Byte(69)),
    Store(Item(NEW_GLOBAL_LIST, 0), Integer(43)),
    Store(Place::Byte(GLOBAL_TEXT, 2), Held::Byte(70)),
    Restore(INNER),
    Store(Entry(NEW_TABLE, 1), Absent),
    Save(LATER),
    Make(LATER_LIST, Shape::Array { len: 1 }),
    Store(Item(LATER_LIST, 0), Integer(50)),
    Store(Entry(USER_DICT, 2), Integer(51)),
    // Past the newest, whose notes are put back first.
    Restore(MIDDLE),
    Store(Place::Byte(TEXT, 0), Held::Byte(71)),
    // A name that is free again, for another shape.
    Make(NEW_TABLE, Shape::Array { len: 1 }),
    Store(Item(NEW_TABLE, 0), Integer(60)),
    Save(INNER),
    Store(Entry(USER_DICT, 1), Integer(61)),
    Store(Item(GLOBAL_LIST, 1), Integer(62)),
    Store(Item(NEW_TABLE, 0), Held::Null),
    Restore(OUTER),
    // Bytes begin with zeros again.
    Make(NEW_TEXT, Shape::Str { len: 1 }),
    Save(LATER),
    Restore(LATER),
    Store(Entry(USER_DICT, 2), Integer(70)),
    Store(Entry(USER_DICT, 2), Integer(71)),
    Store(Entry(USER_DICT, 1), Absent),
    Store(Entry(USER_DICT, 1), Absent),
    Store(Place::Access(USER_DICT), Held::Access(Access::ReadOnly)),
    Store(Entry(TABLE, -7), Integer(72)),
    Store(Item(LIST, 2), Integer(73)),
    Store(Item(GLOBAL_LIST, 1), Held::Null),
    Store(Place::Byte(NEW_TEXT, 0), Held::Byte(74)),
    Store(Place::Rand, Held::Rand(75)),
    Make(NEWEST_TEXT, Shape::Str { len: 2 }),
    Store(Place::Byte(NEWEST_TEXT, 1), Held::Byte(76)),
    Make(NEW_TABLE, Shape::Dict { capacity: 1 }),
    Store(Entry(NEW_TABLE, 1), Integer(77)),
    Store(Entry(GLOBAL_DICT, 1), Absent),
];

impl Step {
    /// The step as a write, if it isn't a restore.
    pub(crate) fn write(self) -> Option<Write> {
        Some(match self {
            Step::Make(cell, shape) => Write::Fresh { cell, shape },
            Step::Store(Place::Entry(dict, key), Held::Absent) => Write::Remove {
                dict,
                key: Key::Integer(key),
            },
            Step::Store(place, held) => Write::Put {
                at: place.loc(),
                value: held.value(),
            },
            Step::Save(name) => Write::Save { name },
            Step::Restore(_) => return None,
        })
    }
}

impl Place {
    pub(crate) fn loc(self) -> Loc {
        match self {
            Place::Entry(dict, key) => Loc::Entry {
                dict,
                key: Key::Integer(key),
            },
            Place::Access(dict) => Loc::Access { dict },
            Place::Item(array, at) => Loc::Item { array, at },
            Place::Byte(string, at) => Loc::Byte { string, at },
            Place::Rand => Loc::Rand,
        }
    }

    pub(crate) fn cell(self) -> Option<Cell> {
        match self {
            Place::Entry(cell, _)
            | Place::Access(cell)
            | Place::Item(cell, _)
            | Place::Byte(cell, _) => Some(cell),
            Place::Rand => None,
        }
    }

    /// What the place of a new cell holds.
    pub(crate) fn first(self, shape: Shape) -> Held {
        match self {
            Place::Access(_) => match shape {
                Shape::Dict { .. } => Held::Access(Access::Unlimited),
                _ => Absent,
            },
            Place::Item(_, at) => match shape {
                Shape::Array { len } if at < len => Held::Null,
                _ => Absent,
            },
            Place::Byte(_, at) => match shape {
                Shape::Str { len } if at < len => Held::Byte(0),
                _ => Absent,
            },
            Place::Entry(_, _) | Place::Rand => Absent,
        }
    }
}

fn literal(kind: Kind) -> Value {
    Value::Object(Object {
        kind,
        exec: false,
        access: Access::Unlimited,
    })
}

impl Held {
    pub(crate) fn value(self) -> Value {
        match self {
            Held::Absent => Value::Absent,
            Held::Null => literal(Kind::Null),
            Held::Integer(n) => literal(Kind::Integer(n)),
            Held::Byte(byte) => Value::Byte(byte),
            Held::Access(access) => Value::Access(access),
            Held::Rand(state) => Value::Rand(state),
        }
    }
}
