//! The texts of objects.
ghost use Rattle.std.specs.Prelude.{◌≡◌, ◌++◌, IfOk, OnOk};
ghost use Rattle.plain_texts.specs.Plain as spec;

use crate::numbers::{push_integer, push_real};
use ps_kinds::{Kind, NoMemory, Object, Text, op_name};
use std::alloc::Global;

fn truth(b: bool) -> &'static [u8]
    ensures { result.now ≡ spec.truth b }
{
    if b { b"true" } else { b"false" }
}

/// Appends the plain text of an object; `bytes` are those of a string, and count for no other type.
pub fn push_plain_text(text: &mut Text, object: &Object, bytes: &[u8]) -> Result<(), NoMemory>
    ensures { OnOk result (text.new ≡ text.old ++ spec.plain_text object.now bytes.now) }
{
    match &object.kind {
        Kind::Integer(n) => push_integer(text, *n),
        Kind::Real(real) => push_real(text, *real),
        Kind::Boolean(b) => text.extend(truth(*b)),
        Kind::Str(_) => text.extend(bytes),
        Kind::Name(name) => text.extend(name.as_slice()),
        Kind::Operator(op) => text.extend(op_name(*op)),
        _ => text.extend(b"--nostringval--"),
    }
}

/// The plain text of an object; `bytes` are those of a string, and count for no other type.
pub fn plain_text(alloc: Global, object: &Object, bytes: &[u8]) -> Result<Text, NoMemory>
    ensures { IfOk result (λ text. text ≡ spec.plain_text object.now bytes.now) }
{
    let mut text = Text::new(alloc);
    push_plain_text(&mut text, object, bytes)?;
    Ok(text)
}
