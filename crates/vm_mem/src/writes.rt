//! What a run leaves to be done on a memory.

use ps_objects::{Cell, Duplicate, Key, Loc, NoMemory, SaveName, Shape, Stack, Value};

/// One step of what a run leaves to be done on a memory.
#[derive(Drop)]
pub enum Write {
    /// Makes a cell.
    Fresh { cell: Cell, shape: Shape },

    /// Stores a value of the place's kind.
    Put { at: Loc, value: Value },

    /// Takes the entry of a key away.
    Remove { dict: Cell, key: Key },

    /// Opens a save.
    Save { name: SaveName },
}

/// What a run leaves to be done on a memory, seen with the newest step first.
pub type Writes = Stack<Write>;

impl Duplicate for Write {
    fn duplicate(&self) -> Result<Write, NoMemory> {
        Ok(match self {
            Write::Fresh { cell, shape } => Write::Fresh {
                cell: *cell,
                shape: *shape,
            },
            Write::Put { at, value } => Write::Put {
                at: at.copy()?,
                value: value.copy()?,
            },
            Write::Remove { dict, key } => Write::Remove {
                dict: *dict,
                key: key.copy()?,
            },
            Write::Save { name } => Write::Save { name: *name },
        })
    }
}
