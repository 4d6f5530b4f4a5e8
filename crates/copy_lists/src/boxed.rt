//! Values on the heap.
ghost use Rattle.std.specs.Prelude.{◌≡◌, IfOk};

use crate::{Duplicate, NoMemory};
use std::alloc::Global;
use std::marker::Model;

/// A value on the heap, seen as the value.
#[derive(Drop)]
pub struct Boxed<T: Drop> {
    content: Box<T>,
}

impl<T: Drop> Model for Boxed<T> {
    ghost Value = { T };

    ghost view = { λ boxed. boxed.content.value };
}

impl<T: Drop> Boxed<T> {
    pub fn new(alloc: Global, value: T) -> Result<Boxed<T>, NoMemory>
        ensures { IfOk result (λ boxed. boxed ≡ value) }
    {
        Ok(Boxed {
            content: Box::new(alloc, value)?,
        })
    }

    pub fn as_ref(&self) -> &T
        ensures { result.now ≡ self.now }
    {
        self.content.as_ref()
    }

    pub fn into_inner(self) -> T
        ensures { result ≡ self }
    {
        Box::into_inner(self.content)
    }
}

impl<T: Drop + Duplicate> Boxed<T> {
    pub fn copy(&self) -> Result<Boxed<T>, NoMemory>
        ensures { IfOk result (λ boxed. boxed ≡ self.now) }
    {
        let value = self.as_ref().duplicate()?;
        Boxed::new(*Box::allocator(&self.content), value)
    }
}
