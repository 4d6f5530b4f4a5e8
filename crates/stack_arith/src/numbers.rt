//! Numbers as operands and as results.
ghost use Rattle.std.specs.Prelude.{◌≡◌, ◌∷◌, ◌≤◌, length, drop, OnOk};
ghost use Rattle.ps_operator.specs.Registers.{literal};
ghost use Rattle.stack_arith.specs.Numbers as spec;

use ps_fixed::Undefined;
use ps_kinds::{ErrorName, Kind, NoMemory, Number, Objects, Real};
use ps_operator::push_result;

/// The number as a real.
pub(crate) fn as_real(number: Number) -> Real
    ensures { result ≡ spec.as_real number }
{
    match number {
        Number::Integer(n) => Real {
            count: n as i64 * 16_777_216,
        },
        Number::Real(real) => real,
    }
}

/// The real as a result: undefinedresult.
pub(crate) fn defined(real: Result<Real, Undefined>) -> Result<Number, ErrorName>
    ensures { result ≡ spec.defined real }
{
    match real {
        Ok(real) => Ok(Number::Real(real)),
        Err(_) => Err(ErrorName::UndefinedResult),
    }
}

/// The number as an object's type and value.
#[inline]
fn kind_of(number: Number) -> Kind
    ensures { result ≡ spec.kind_of number }
{
    match number {
        Number::Integer(integer) => Kind::Integer(integer),
        Number::Real(real) => Kind::Real(real),
    }
}

/// Puts a number in the place of the newest `n` operands.
pub(crate) fn push_number(operands: &mut Objects, n: usize, number: Number) -> Result<(), NoMemory>
    requires { n ≤ length operands.old }
    ensures { OnOk result (operands.new ≡ literal (spec.kind_of number) ∷ drop n operands.old) }
{
    push_result(operands, n, kind_of(number))
}
