//! The bytes of a string.
ghost use Rattle.std.specs.Prelude.{◌≡◌, replicate, slice_get, slice_set, option_copied, IfOk, OnOk, OnErr};

use ps_objects::{Duplicate, NoMemory};
use std::alloc::Global;
use std::marker::Model;

/// The bytes of a string.
#[derive(Drop)]
pub struct Bytes {
    items: Vec<u8>,
}

impl Model for Bytes {
    ghost use Rattle.std.specs.Prelude.{List, ℕ};

    ghost Value = { List ℕ };

    ghost view = { λ bytes. bytes.items.items };
}

impl Bytes {
    /// A string of `len` zeros.
    pub fn zeros(alloc: Global, len: u32) -> Result<Bytes, NoMemory>
        ensures { IfOk result (λ bytes. bytes ≡ replicate len 0) }
    {
        let mut items = Vec::new(alloc);
        for _ in 0..len {
            items.push(0)?;
        }
        Ok(Bytes { items })
    }

    pub fn from_slice(alloc: Global, bytes: &[u8]) -> Result<Bytes, NoMemory>
        ensures { IfOk result (λ copy. copy ≡ bytes.now) }
    {
        let mut items = Vec::new(alloc);
        items.extend_from_slice(bytes)?;
        Ok(Bytes { items })
    }

    pub fn get(&self, place: u32) -> Option<u8>
        ensures { result ≡ slice_get self.now place }
    {
        self.items.get(place as usize).copied()
    }

    /// Puts a byte at a place, if the string is that long.
    pub fn set(&mut self, place: u32, byte: u8)
        ensures { self.new ≡ slice_set self.old place byte }
    {
        if let Some(old) = self.items.get_mut(place as usize) {
            *old = byte;
        }
    }

    pub fn copy(&self) -> Result<Bytes, NoMemory>
        ensures { IfOk result (λ copy. copy ≡ self.now) }
    {
        Bytes::from_slice(*self.items.allocator(), &self.items)
    }
}

impl Duplicate for Bytes {
    fn duplicate(&self) -> Result<Bytes, NoMemory> {
        self.copy()
    }
}
