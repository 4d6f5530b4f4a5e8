//! The operand stack and the dictionary stack, and what an operator reads of its operands.
ghost use Rattle.std.specs.Prelude.{◌≡◌, ◌<◌, ◌≤◌, ◌^◌, length, Ok, Err, MatchResult};
ghost use Rattle.ps_objects.specs.Operands.{Reads, needed, room_for, object_at, integer_at, boolean_at, number_at, dict_at, array_at, string_at, procedure_at, file_at, save_at, readable_at, writable_at, runnable_at, dict_room};

use crate::{Cell, ErrorName, KeyForm, Kind, Object, Real, Refusal, SaveName, Stack};

/// A list of objects, the newest first.
pub type Objects = Stack<Object>;

/// The dictionary stack, the newest first.
pub type DictStack = Stack<Cell>;

/// The most operands.
pub const OPERAND_LIMIT: usize = 5000;

/// The most dictionaries on the dictionary stack.
pub const DICT_STACK_LIMIT: usize = 100;

/// An operand where the language asks for a number.
#[derive(Clone, Copy, Debug, PartialEq, Eq)]
pub enum Number {
    Integer(i32),
    Real(Real),
}

/// A part of an array or of a string.
#[derive(Clone, Copy, Debug, PartialEq, Eq, PartialOrd, Ord)]
pub struct Interval {
    pub cell: Cell,
    pub start: u32,
    pub len: u32,
}

/// A file: the text of a section, which is layer 0, or a filter.
#[derive(Clone, Copy, Debug, PartialEq, Eq)]
pub struct FileName {
    pub section: u32,
    pub layer: u32,
}

/// What an operator reads of its operands.
pub trait Operands {
    ghost use Rattle.std.specs.Prelude.{List};
    ghost use Rattle.ps_objects.specs.declared.object.Object.{Object};
    ghost use Rattle.ps_objects.specs.Key.{key_form_at};

    /// The operands, the newest first.
    ghost objects: { Self → List Object };

    /// Whether there are `n` operands: stackunderflow.
    fn need(&self, n: usize) -> Result<(), ErrorName>
        ensures { result ≡ needed n (objects self.now) };

    /// Whether `n` more stay within the limit: stackoverflow.
    fn room(&self, n: usize) -> Result<(), ErrorName>
        requires { n < 2 ^ 32 }
        ensures { result ≡ room_for n (objects self.now) };

    /// The operand that is `depth` below the newest.
    fn object(&self, depth: usize) -> Result<&Object, ErrorName>
        ensures { MatchResult result (λ x. object_at depth (objects self.now) ≡ Ok x.now)
            (λ e. object_at depth (objects self.now) ≡ Err e) };

    fn integer(&self, depth: usize) -> Result<i32, ErrorName>
        ensures { result ≡ integer_at depth (objects self.now) };

    fn boolean(&self, depth: usize) -> Result<bool, ErrorName>
        ensures { result ≡ boolean_at depth (objects self.now) };

    fn number(&self, depth: usize) -> Result<Number, ErrorName>
        ensures { result ≡ number_at depth (objects self.now) };

    fn dict(&self, depth: usize) -> Result<Cell, ErrorName>
        ensures { result ≡ dict_at depth (objects self.now) };

    fn array(&self, depth: usize) -> Result<Interval, ErrorName>
        ensures { result ≡ array_at depth (objects self.now) };

    fn string(&self, depth: usize) -> Result<Interval, ErrorName>
        ensures { result ≡ string_at depth (objects self.now) };

    /// An executable array.
    fn procedure(&self, depth: usize) -> Result<Interval, ErrorName>
        ensures { result ≡ procedure_at depth (objects self.now) };

    fn file(&self, depth: usize) -> Result<FileName, ErrorName>
        ensures { result ≡ file_at depth (objects self.now) };

    fn save(&self, depth: usize) -> Result<SaveName, ErrorName>
        ensures { result ≡ save_at depth (objects self.now) };

    /// The key that the operand is. Of a string the access and the bytes are still to be looked at.
    fn key_form(&self, depth: usize) -> Result<KeyForm, Refusal>
        ensures { Reads (key_form_at depth (objects self.now)) result };

    /// Whether the operand's access lets it be read: invalidaccess.
    fn readable(&self, depth: usize) -> Result<(), ErrorName>
        ensures { result ≡ readable_at depth (objects self.now) };

    /// Whether the operand's access lets it be written: invalidaccess.
    fn writable(&self, depth: usize) -> Result<(), ErrorName>
        ensures { result ≡ writable_at depth (objects self.now) };

    /// Whether the operand's access lets it be run: invalidaccess.
    fn runnable(&self, depth: usize) -> Result<(), ErrorName>
        ensures { result ≡ runnable_at depth (objects self.now) };
}

impl Operands for Stack<Object> {
    ghost objects = { λ stack. stack };

    fn need(&self, n: usize) -> Result<(), ErrorName> {
        if self.len() < n {
            Err(ErrorName::StackUnderflow)
        } else {
            Ok(())
        }
    }

    fn room(&self, n: usize) -> Result<(), ErrorName> {
        if self.len() <= OPERAND_LIMIT && n <= OPERAND_LIMIT - self.len() {
            Ok(())
        } else {
            Err(ErrorName::StackOverflow)
        }
    }

    fn object(&self, depth: usize) -> Result<&Object, ErrorName> {
        self.get(depth).ok_or(ErrorName::StackUnderflow)
    }

    fn integer(&self, depth: usize) -> Result<i32, ErrorName> {
        match self.object(depth)?.kind {
            Kind::Integer(n) => Ok(n),
            _ => Err(ErrorName::TypeCheck),
        }
    }

    fn boolean(&self, depth: usize) -> Result<bool, ErrorName> {
        match self.object(depth)?.kind {
            Kind::Boolean(b) => Ok(b),
            _ => Err(ErrorName::TypeCheck),
        }
    }

    fn number(&self, depth: usize) -> Result<Number, ErrorName> {
        match self.object(depth)?.kind {
            Kind::Integer(n) => Ok(Number::Integer(n)),
            Kind::Real(r) => Ok(Number::Real(r)),
            _ => Err(ErrorName::TypeCheck),
        }
    }

    fn dict(&self, depth: usize) -> Result<Cell, ErrorName> {
        match self.object(depth)?.kind {
            Kind::Dict(cell) => Ok(cell),
            _ => Err(ErrorName::TypeCheck),
        }
    }

    fn array(&self, depth: usize) -> Result<Interval, ErrorName> {
        match self.object(depth)?.kind {
            Kind::Array { interval, .. } => Ok(interval),
            _ => Err(ErrorName::TypeCheck),
        }
    }

    fn string(&self, depth: usize) -> Result<Interval, ErrorName> {
        match self.object(depth)?.kind {
            Kind::Str(interval) => Ok(interval),
            _ => Err(ErrorName::TypeCheck),
        }
    }

    fn procedure(&self, depth: usize) -> Result<Interval, ErrorName> {
        let object = self.object(depth)?;
        match object.kind {
            Kind::Array { interval, .. } if object.exec => Ok(interval),
            _ => Err(ErrorName::TypeCheck),
        }
    }

    fn file(&self, depth: usize) -> Result<FileName, ErrorName> {
        match self.object(depth)?.kind {
            Kind::File { section } => Ok(FileName { section, layer: 0 }),
            Kind::Filter { section, layer } => Ok(FileName { section, layer }),
            _ => Err(ErrorName::TypeCheck),
        }
    }

    fn save(&self, depth: usize) -> Result<SaveName, ErrorName> {
        match self.object(depth)?.kind {
            Kind::Save(save) => Ok(save),
            _ => Err(ErrorName::TypeCheck),
        }
    }

    fn key_form(&self, depth: usize) -> Result<KeyForm, Refusal> {
        self.object(depth)?.kind.key_form()
    }

    fn readable(&self, depth: usize) -> Result<(), ErrorName> {
        self.object(depth)?.access.readable()
    }

    fn writable(&self, depth: usize) -> Result<(), ErrorName> {
        self.object(depth)?.access.writable()
    }

    fn runnable(&self, depth: usize) -> Result<(), ErrorName> {
        self.object(depth)?.access.runnable()
    }
}

/// Whether one more dictionary stays within the limit: dictstackoverflow.
pub fn dict_room(dicts: &DictStack) -> Result<(), ErrorName>
    ensures { result ≡ dict_room dicts.now }
{
    if dicts.len() < DICT_STACK_LIMIT {
        Ok(())
    } else {
        Err(ErrorName::DictStackOverflow)
    }
}
