//! A small answer to a look.
ghost use Rattle.std.specs.Prelude.{◌≡◌, true, false};
ghost use Rattle.ps_objects.specs.declared.access.Access.TheVariants.{Unlimited};
ghost use Rattle.vm_mem.specs.Glances.{glance_of, glance_at, glance_of_executable, glance_of_literal, is_absent, object_told};

use ps_objects::{Access, Interval, Kind, Object, Op, Real, Value};

/// What a look tells without a copy: enough to execute what stands there, where it isn't `Other`.
#[derive(Clone, Copy, PartialEq, Eq)]
pub enum Glance {
    /// Nothing stands there.
    Absent,

    /// A literal integer with unlimited access.
    Integer(i32),

    /// A literal real with unlimited access.
    Real(Real),

    /// A literal truth value with unlimited access.
    Boolean(bool),

    /// An executable operator with unlimited access.
    Operator(Op),

    /// An executable array.
    Procedure {
        interval: Interval,
        packed: bool,
        access: Access,
    },

    /// Something else, which a look tells.
    Other,
}

impl Glance {
    /// What a glance tells of a value.
    pub fn at(value: &Value) -> Glance
        ensures { result ≡ glance_at value.now }
    {
        match value {
            Value::Absent => Glance::Absent,
            Value::Object(object) => Glance::of(object),
            _ => Glance::Other,
        }
    }

    /// Whether nothing stands there.
    pub fn is_absent(&self) -> bool
        ensures { result ≡ is_absent self.now }
    {
        match self {
            Glance::Absent => true,
            _ => false,
        }
    }

    /// The object, where the glance tells it whole.
    pub fn object(&self) -> Option<Object>
        ensures { result ≡ object_told self.now }
    {
        match self {
            Glance::Integer(n) => Some(literal(Kind::Integer(*n))),
            Glance::Real(r) => Some(literal(Kind::Real(*r))),
            Glance::Boolean(b) => Some(literal(Kind::Boolean(*b))),
            Glance::Operator(op) => Some(executable(Kind::Operator(*op), Access::Unlimited)),
            Glance::Procedure {
                interval,
                packed,
                access,
            } => {
                let array = Kind::Array {
                    interval: *interval,
                    packed: *packed,
                };
                Some(executable(array, *access))
            }
            Glance::Absent | Glance::Other => None,
        }
    }

    /// What a glance tells of an object.
    pub fn of(object: &Object) -> Glance
        ensures { result ≡ glance_of object.now }
    {
        if object.exec {
            of_executable(&object.kind, object.access)
        } else {
            of_literal(&object.kind, object.access)
        }
    }
}

fn literal(kind: Kind) -> Object
    ensures { result ≡ record { kind = kind; exec = false; access = Unlimited } }
{
    Object {
        kind,
        exec: false,
        access: Access::Unlimited,
    }
}

fn executable(kind: Kind, access: Access) -> Object
    ensures { result ≡ record { kind = kind; exec = true; access = access } }
{
    Object {
        kind,
        exec: true,
        access,
    }
}

fn of_executable(kind: &Kind, access: Access) -> Glance
    ensures { result ≡ glance_of_executable kind.now access }
{
    match kind {
        Kind::Operator(op) => match access {
            Access::Unlimited => Glance::Operator(*op),
            _ => Glance::Other,
        },
        Kind::Array { interval, packed } => Glance::Procedure {
            interval: *interval,
            packed: *packed,
            access,
        },
        _ => Glance::Other,
    }
}

fn of_literal(kind: &Kind, access: Access) -> Glance
    ensures { result ≡ glance_of_literal kind.now access }
{
    match access {
        Access::Unlimited => match kind {
            Kind::Integer(n) => Glance::Integer(*n),
            Kind::Real(r) => Glance::Real(*r),
            Kind::Boolean(b) => Glance::Boolean(*b),
            _ => Glance::Other,
        },
        _ => Glance::Other,
    }
}
