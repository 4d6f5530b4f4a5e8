//! The bytes of a code.
ghost use Rattle.std.specs.Prelude.{◌≡◌, ◌<◌, ◌≤◌, ◌==◌, [], ◌∷◌, ◌++◌, length, replicate, slice_get};

use std::marker::Model;

/// The bytes that a code of a filter gives: 128 at most.
#[derive(Drop)]
pub struct CodeBytes {
    bytes: [u8; 128],
    len: usize,
}

impl Model for CodeBytes {
    ghost use Rattle.std.specs.Prelude.{ℕ, ◌≤◌, List, take};

    ghost Value = { List ℕ };

    ghost view = { λ code. take code.len code.bytes };

    ghost invariant = { λ code. code.len ≤ 128 };
}

impl CodeBytes {
    pub fn none() -> CodeBytes
        ensures { result ≡ [] }
    {
        CodeBytes {
            bytes: [0; 128],
            len: 0,
        }
    }

    pub fn len(&self) -> usize
        ensures len { result ≡ length self.now }
        ensures bound { result ≤ 128 }
    {
        self.len
    }

    pub fn is_empty(&self) -> bool
        ensures { result ≡ (length self.now == 0) }
    {
        self.len == 0
    }

    pub fn get(&self, place: usize) -> Option<u8>
        ensures { result ≡ slice_get self.now place }
    {
        if place < self.len {
            Some(self.bytes[place])
        } else {
            None
        }
    }

    pub fn push(&mut self, byte: u8)
        requires { length self.old < 128 }
        ensures { self.new ≡ self.old ++ byte ∷ [] }
    {
        self.bytes[self.len] = byte;
        self.len += 1;
    }

    /// A byte so many times.
    pub fn repeated(byte: u8, count: usize) -> CodeBytes
        requires { count ≤ 128 }
        ensures { result ≡ replicate count byte }
    {
        let mut code = CodeBytes::none();
        'bytes: for _ in 0..count {
            code.push(byte);
        }
        code
    }

    pub fn copy(&self) -> CodeBytes
        ensures { result ≡ self.now }
    {
        CodeBytes {
            bytes: self.bytes,
            len: self.len,
        }
    }
}
