//! What operators put on the operand stack, and the newest mark there.
ghost use Rattle.std.specs.Prelude.{◌≡◌, ◌∷◌, ◌+◌, ◌^◌, ◌<◌, ◌≤◌, length, drop, OnOk, IfOk};
ghost use Rattle.ps_operator.specs.Copies.{IsCopied};
ghost use Rattle.ps_operator.specs.Marks as spec;
ghost use Rattle.ps_operator.specs.Registers.{literal};

use ps_kinds::{Access, ErrorName, Kind, NoMemory, Object, Objects};

/// A literal object.
#[inline]
pub fn literal(kind: Kind) -> Object
    ensures { result ≡ literal kind }
{
    Object {
        kind,
        exec: false,
        access: Access::Unlimited,
    }
}

/// Puts a literal object in the place of the newest `n` operands.
#[inline]
pub fn push_result(operands: &mut Objects, n: usize, kind: Kind) -> Result<(), NoMemory>
    requires { n ≤ length operands.old }
    ensures { OnOk result (operands.new ≡ literal kind ∷ drop n operands.old) }
{
    operands.shrink(n);
    operands.push(literal(kind))
}

/// Pushes a copy of the operand that is `depth` below the newest. Most types are copied in place, which takes a tenth of the time.
pub fn push_copy(operands: &mut Objects, depth: usize) -> Result<(), NoMemory>
    requires { depth < length operands.old }
    ensures { IsCopied operands.old depth result operands.new }
{
    let object = operands.at(depth);
    let exec = object.exec;
    let access = object.access;
    match object.kind {
        Kind::Integer(n) => push(operands, Kind::Integer(n), exec, access),
        Kind::Real(real) => push(operands, Kind::Real(real), exec, access),
        Kind::Boolean(b) => push(operands, Kind::Boolean(b), exec, access),
        Kind::Str(interval) => push(operands, Kind::Str(interval), exec, access),
        Kind::Array { interval, packed } => {
            push(operands, Kind::Array { interval, packed }, exec, access)
        }
        Kind::Dict(cell) => push(operands, Kind::Dict(cell), exec, access),
        _ => {
            let copy = operands.at(depth).copy()?;
            operands.push(copy)
        }
    }
}

#[inline]
fn push(operands: &mut Objects, kind: Kind, exec: bool, access: Access) -> Result<(), NoMemory>
    ensures { OnOk result
        (operands.new ≡ record { kind = kind; exec = exec; access = access } ∷ operands.old) }
{
    operands.push(Object { kind, exec, access })
}

fn is_mark(kind: &Kind) -> bool
    ensures { result ≡ spec.is_mark kind.now }
{
    matches!(kind, Kind::Mark)
}

/// How many operands lie above the newest mark: unmatchedmark.
#[tactic(auto, using(crate::proofs::Newest::mark_hit, crate::proofs::Newest::mark_miss))]
pub fn above_mark(operands: &Objects) -> Result<usize, ErrorName>
    ensures value { result ≡ spec.above_mark operands.now }
    ensures within { IfOk result (λ n. n < length operands.now) }
    ensures small { IfOk result (λ n. n + 1 < 2 ^ 64) }
{
    for depth in 0..operands.len() {
        if is_mark(&operands.at(depth).kind) {
            return Ok(depth);
        }
    }
    Err(ErrorName::UnmatchedMark)
}
