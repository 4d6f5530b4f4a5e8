//! The objects of the language, and the names, keys, places and values that memory holds of them.
#![tactic(auto)]

mod access;
mod cell;
mod hash;
mod key;
mod name;
mod object;
mod objects;
mod place;
mod refusal;
mod section;
mod settings;
#[cfg(test)]
mod tests;

pub use access::Access;
pub use cell::{Cell, SaveName, Space};
pub use copy_lists::{Duplicate, NoMemory, Sequence, Stack, Text};
pub use hash::name_hash;
pub use key::{Key, KeyForm, Keys};
pub use name::Name;
pub use object::{Kind, Object};
pub use objects::{
    DICT_STACK_LIMIT, DictStack, FileName, Interval, Number, OPERAND_LIMIT, Objects, Operands,
    dict_room,
};
pub use place::{Loc, Shape, Value};
pub use ps_names::{ErrorName, NAME_LIMIT, Op, op_name, places};
pub use ps_shapes::{Matrix, ONE, Paper, Real};
pub use refusal::Refusal;
pub use section::SectionKind;
pub use settings::Settings;
