//! The plain text of an object that lies in memory or not.
ghost use Rattle.std.specs.Prelude.{◌≡◌, length, true, IfOk, OnOk};
ghost use Rattle.ps_operator.specs.Owes.{Finds};
ghost use Rattle.ps_operator.specs.Standing.{is_named};
ghost use Rattle.text_ops.specs.Plain as spec;

use plain_texts::plain_text;
use ps_kinds::{Interval, Kind, NoMemory, Object, Text};
use ps_operator::{Mem, bytes_of};
use std::alloc::Global;

/// The plain text of an object: known, or the bytes of a string that are still to be looked at.
#[derive(Drop)]
pub(crate) enum Plain {
    Known(Text),
    Held(Interval),
}

impl Plain {
    /// The plain text of an object.
    pub(crate) fn of(alloc: Global, object: &Object) -> Result<Plain, NoMemory>
        ensures { IfOk result (λ plain. plain ≡ spec.plain_form object.now.kind) }
    {
        match &object.kind {
            Kind::Str(part) => Ok(Plain::Held(*part)),
            _ => Ok(Plain::Known(plain_text(alloc, object, b"")?)),
        }
    }

    /// The length of the text.
    pub(crate) fn len(&self) -> usize
        ensures { result ≡ spec.plain_length self.now }
    {
        match self {
            Plain::Known(text) => text.len(),
            Plain::Held(part) => part.len as usize,
        }
    }

    /// The text; a string is looked at whole.
    pub(crate) fn told<M: Mem>(self, alloc: Global, mem: &mut M) -> Result<Text, NoMemory>
        requires { spec.stands (M.log mem.old).view self ≡ true }
        ensures view { OnOk result ((M.log mem.new).view ≡ (M.log mem.old).view) }
        ensures length { IfOk result (λ text. length text ≡ spec.plain_length self) }
        ensures told { IfOk result (λ text.
            Finds (spec.plain_told self) (M.log mem.old) text (M.log mem.new)) }
    {
        match self {
            Plain::Known(text) => Ok(text),
            Plain::Held(part) => {
                let bytes = bytes_of(alloc, part, mem)?;
                Text::from_bytes(alloc, bytes.as_slice())
            }
        }
    }
}
