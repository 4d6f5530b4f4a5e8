//! Keys of dictionaries.
ghost use Rattle.std.specs.Prelude.{◌≡◌, IfOk};
ghost use Rattle.ps_objects.specs.Operands.{Reads};
ghost use Rattle.ps_objects.specs.Key.{key_form_of, real_key, key_kind, cell_of_key, told_key};
ghost use Rattle.ps_objects.specs.Order.{key_order};

use crate::{
    Access, Cell, Duplicate, ErrorName, Interval, Kind, Name, NoMemory, ONE, Object, Op, Real,
    Refusal, SaveName, Sequence,
};
use std::cmp::Ordering;

/// An object made fit for a key. Keys are in the order of these variants, and within one in the order of its fields.
#[derive(PartialEq, Eq, PartialOrd, Ord, Drop)]
pub enum Key {
    Name(Name),
    Integer(i32),
    Real(Real),
    Boolean(bool),
    Operator(Op),
    Dict(Cell),
    Array { interval: Interval, packed: bool },

    /// The text of a section, which is layer 0, or a filter.
    File { section: u32, layer: u32 },
    Save(SaveName),
    FontId(Cell),
    Mark,
}

/// The keys of a dictionary's entries, in their order.
pub type Keys = Sequence<Key>;

/// What an object is as a key: the key itself, or the string whose bytes are those of a name.
#[derive(PartialEq, Eq, Drop)]
pub enum KeyForm {
    Key(Key),
    Text(Interval),
}

impl Key {
    pub fn copy(&self) -> Result<Key, NoMemory>
        ensures { IfOk result (λ key. key ≡ self.now) }
    {
        Ok(match self {
            Key::Name(name) => Key::Name(name.copy()?),
            Key::Integer(n) => Key::Integer(*n),
            Key::Real(r) => Key::Real(*r),
            Key::Boolean(b) => Key::Boolean(*b),
            Key::Operator(op) => Key::Operator(*op),
            Key::Dict(cell) => Key::Dict(*cell),
            Key::Array { interval, packed } => Key::Array {
                interval: *interval,
                packed: *packed,
            },
            Key::File { section, layer } => Key::File {
                section: *section,
                layer: *layer,
            },
            Key::Save(save) => Key::Save(*save),
            Key::FontId(cell) => Key::FontId(*cell),
            Key::Mark => Key::Mark,
        })
    }

    /// Compares two keys: names by their bytes, numbers by their values, keys of different kinds by their kinds.
    #[tactic(auto, using(crate::proofs::Orders::keys_in_order))]
    pub fn compare(&self, other: &Key) -> Ordering
        ensures { result ≡ key_order self.now other.now }
    {
        self.cmp(other)
    }

    /// The key as programs are told it: a literal object with unlimited access.
    pub fn object(&self) -> Result<Object, NoMemory>
        ensures { IfOk result (λ object. object ≡ told_key self.now) }
    {
        Ok(Object {
            kind: self.kind()?,
            exec: false,
            access: Access::Unlimited,
        })
    }

    fn kind(&self) -> Result<Kind, NoMemory>
        ensures { IfOk result (λ kind. kind ≡ key_kind self.now) }
    {
        Ok(match self {
            Key::Name(name) => Kind::Name(name.copy()?),
            Key::Integer(n) => Kind::Integer(*n),
            Key::Real(r) => Kind::Real(*r),
            Key::Boolean(b) => Kind::Boolean(*b),
            Key::Operator(op) => Kind::Operator(*op),
            Key::Dict(cell) => Kind::Dict(*cell),
            Key::Array { interval, packed } => Kind::Array {
                interval: *interval,
                packed: *packed,
            },
            Key::File { section, layer } => file_kind(*section, *layer),
            Key::Save(save) => Kind::Save(*save),
            Key::FontId(cell) => Kind::FontId(*cell),
            Key::Mark => Kind::Mark,
        })
    }

    /// The cell that the key names.
    pub fn cell(&self) -> Option<Cell>
        ensures { result ≡ cell_of_key self.now }
    {
        match self {
            Key::Dict(cell) => Some(*cell),
            Key::Array { interval, .. } => Some(interval.cell),
            _ => None,
        }
    }
}

impl Duplicate for Key {
    fn duplicate(&self) -> Result<Key, NoMemory> {
        self.copy()
    }
}

impl Kind {
    /// The key that the object is: null is a typecheck, and a whole real with 32 bits is the integer.
    pub fn key_form(&self) -> Result<KeyForm, Refusal>
        ensures { Reads (key_form_of self.now) result }
    {
        Ok(KeyForm::Key(match self {
            Kind::Integer(n) => Key::Integer(*n),
            Kind::Real(r) => real_key(*r),
            Kind::Boolean(b) => Key::Boolean(*b),
            Kind::Null => return Err(Refusal::Error(ErrorName::TypeCheck)),
            Kind::Mark => Key::Mark,
            Kind::Name(name) => Key::Name(name.copy()?),
            Kind::Operator(op) => Key::Operator(*op),
            Kind::Str(interval) => return Ok(KeyForm::Text(*interval)),
            Kind::Array { interval, packed } => Key::Array {
                interval: *interval,
                packed: *packed,
            },
            Kind::Dict(cell) => Key::Dict(*cell),
            Kind::File { section } => Key::File {
                section: *section,
                layer: 0,
            },
            Kind::Filter { section, layer } => Key::File {
                section: *section,
                layer: *layer,
            },
            Kind::Save(save) => Key::Save(*save),
            Kind::FontId(cell) => Key::FontId(*cell),
        }))
    }
}

fn file_kind(section: u32, layer: u32) -> Kind
    ensures { result ≡ key_kind (Key.File section layer) }
{
    if layer == 0 {
        Kind::File { section }
    } else {
        Kind::Filter { section, layer }
    }
}

fn real_key(real: Real) -> Key
    ensures { result ≡ real_key real }
{
    let whole = real.count / ONE;
    if real.count % ONE == 0 && -2147483648 <= whole && whole <= 2147483647 {
        let integer = whole as i32;
        Key::Integer(integer)
    } else {
        Key::Real(real)
    }
}
