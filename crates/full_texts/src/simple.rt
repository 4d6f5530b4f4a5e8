//! The texts of objects that need no look.
ghost use Rattle.std.specs.Prelude.{◌≡◌, ◌++◌, OnOk};
ghost use Rattle.full_texts.specs.Full as spec;
ghost use Rattle.full_texts.specs.Growing.{allowed, Makes};

use crate::growing::keep;
use plain_texts::push_plain_text;
use ps_kinds::{Kind, Name, NoMemory, Object, Op, Refusal, State, Text, op_name};

/// A name, behind a slash where it is literal.
fn push_name(text: &mut Text, exec: bool, name: &Name) -> Result<(), NoMemory>
    ensures { OnOk result (text.new ≡ text.old ++ spec.name_text exec name.now) }
{
    if !exec {
        text.push(b'/')?;
    }
    text.extend(name.as_slice())
}

/// An operator's name between hyphens.
fn push_operator(text: &mut Text, op: Op) -> Result<(), NoMemory>
    ensures { OnOk result (text.new ≡ text.old ++ spec.operator_text op) }
{
    text.extend(b"--")?;
    text.extend(op_name(op))?;
    text.extend(b"--")
}

/// Appends the text of an object that is neither a string nor an array.
pub(crate) fn push_simple(text: &mut Text, object: &Object) -> Result<(), NoMemory>
    ensures { OnOk result
        (text.new ≡ text.old ++ spec.simple_text object.now.exec object.now.kind) }
{
    match &object.kind {
        Kind::Name(name) => push_name(text, object.exec, name),
        Kind::Operator(op) => push_operator(text, *op),
        Kind::Null => text.extend(b"null"),
        Kind::Mark => text.extend(b"-mark-"),
        Kind::Dict(_) => text.extend(b"-dict-"),
        Kind::File { .. } | Kind::Filter { .. } => text.extend(b"-file-"),
        Kind::Save(_) => text.extend(b"-save-"),
        Kind::FontId(_) => text.extend(b"-font-"),
        _ => push_plain_text(text, object, b""),
    }
}

/// Appends the same, as a piece of a message: limitcheck.
pub(crate) fn push_simple_piece(
    text: &mut Text,
    object: &Object,
    state: &State,
) -> Result<(), Refusal>
    ensures { Makes (allowed state.now
        (text.old ++ spec.simple_text object.now.exec object.now.kind)) result text.new }
{
    push_simple(text, object)?;
    keep(text, state)
}
