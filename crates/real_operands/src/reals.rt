//! Numbers as reals.
ghost use Rattle.std.specs.Prelude.{◌≡◌};
ghost use Rattle.real_operands.specs.Reals as spec;

use ps_fixed::Undefined;
use ps_objects::{ErrorName, Number, Objects, Operands, Real};

/// The number as a real.
pub fn as_real(number: Number) -> Real
    ensures { result ≡ spec.as_real number }
{
    match number {
        Number::Integer(n) => Real {
            count: n as i64 * 16_777_216,
        },
        Number::Real(real) => real,
    }
}

/// What the arithmetic gives: undefinedresult where it gives nothing.
pub fn defined<T>(answer: Result<T, Undefined>) -> Result<T, ErrorName>
    ensures { result ≡ spec.defined answer }
{
    match answer {
        Ok(value) => Ok(value),
        Err(_) => Err(ErrorName::UndefinedResult),
    }
}

/// The number that is `depth` below the newest operand, as a real: stackunderflow, typecheck.
pub fn real_at(operands: &Objects, depth: usize) -> Result<Real, ErrorName>
    ensures { result ≡ spec.real_at depth operands.now }
{
    Ok(as_real(operands.number(depth)?))
}
