//! The plain way of saves: whole copies.

use crate::script::{Held, PLACES, Place, Step, USER_DICT};
use crate::{Base, Cells};
use Held::Absent;
use ps_objects::{Access, Cell, Key, Keys, Loc, NoMemory, SaveName, Shape, Space, Value};

/// A place, and what it holds.
#[derive(Clone, Copy)]
struct Known {
    place: Place,
    held: Held,
}

/// What a save keeps: all places as they were.
#[derive(Drop)]
struct Kept {
    name: SaveName,
    places: Vec<Known>,
}

/// The plain way: a save copies all places, and a restore puts the local ones back.
#[derive(Drop)]
pub(crate) struct Plain {
    places: Vec<Known>,
    copies: Vec<Kept>,
}

fn copied(places: &Vec<Known>) -> Result<Vec<Known>, NoMemory> {
    let mut copy = Vec::new(*places.allocator());
    for known in places.as_slice() {
        copy.push(*known)?;
    }
    Ok(copy)
}

/// What a place holds once a save is restored.
fn restored(now: Known, then: Held, name: SaveName) -> Held {
    let Some(cell) = now.place.cell() else {
        return now.held;
    };
    if cell.space == Space::Global {
        return now.held;
    }
    match now.place {
        Place::Byte(..) if cell.is_newer_than(name) => Absent,
        Place::Byte(..) => now.held,
        _ => then,
    }
}

impl Plain {
    pub(crate) fn start(rt: &HostRuntime) -> Result<Plain, NoMemory> {
        let mut places = Vec::new(rt.alloc());
        for place in PLACES {
            let held = match place {
                Place::Access(cell) if cell.section == 0 => Held::Access(Access::Unlimited),
                Place::Rand => Held::Rand(1),
                _ => Absent,
            };
            places.push(Known {
                place: *place,
                held,
            })?;
        }
        Ok(Plain {
            places,
            copies: Vec::new(rt.alloc()),
        })
    }

    fn make(&mut self, cell: Cell, shape: Shape) {
        for known in self.places.iter_mut() {
            if known.place.cell() == Some(cell) {
                known.held = known.place.first(shape);
            }
        }
    }

    fn store(&mut self, place: Place, held: Held) {
        for known in self.places.iter_mut() {
            if known.place == place {
                known.held = held;
            }
        }
    }

    fn restore(&mut self, name: SaveName) {
        for _ in 0..self.copies.len() {
            let Some(kept) = self.copies.pop() else {
                return;
            };
            if kept.name == name {
                self.put_back(&kept);
                return;
            }
        }
    }

    fn put_back(&mut self, kept: &Kept) {
        for (place, known) in self.places.iter_mut().enumerate() {
            if let Some(then) = kept.places.get(place) {
                known.held = restored(*known, then.held, kept.name);
            }
        }
    }

    pub(crate) fn take_step(&mut self, step: Step) -> Result<(), NoMemory> {
        match step {
            Step::Make(cell, shape) => self.make(cell, shape),
            Step::Store(place, held) => self.store(place, held),
            Step::Save(name) => {
                let places = copied(&self.places)?;
                self.copies.push(Kept { name, places })?;
            }
            Step::Restore(name) => self.restore(name),
        }
        Ok(())
    }

    /// The keys of a dictionary's entries. The places are in their order.
    fn keys(&self, dict: Cell) -> Result<Value, NoMemory> {
        let mut keys = Keys::new(*self.places.allocator());
        for known in self.places.as_slice() {
            if let Place::Entry(cell, key) = known.place {
                if cell == dict && known.held != Absent {
                    keys.push(Key::Integer(key))?;
                }
            }
        }
        Ok(Value::Keys(keys))
    }

    /// Whether a memory holds the same at each place.
    pub(crate) fn agrees(&self, memory: &Cells) -> Result<bool, NoMemory> {
        let dict = USER_DICT;
        if !memory.same(&Loc::Keys { dict }, &self.keys(dict)?) {
            return Ok(false);
        }
        for known in self.places.as_slice() {
            let at = known.place.loc();
            let value = known.held.value();
            if !memory.same(&at, &value) || memory.view_at(&at)? != value {
                return Ok(false);
            }
        }
        Ok(true)
    }
}
