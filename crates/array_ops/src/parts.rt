//! Parts of arrays and of strings.
ghost use Rattle.std.specs.Prelude.{◌≡◌, ◌+◌, ◌^◌, ◌<◌, ◌≤◌, IfOk};
ghost use Rattle.array_ops.specs.Parts as spec;

use ps_kinds::{ErrorName, Interval, Kind, NoMemory, Object, Objects, Operands};
use ps_operator::natural_of;

/// A part of an array or of a string.
#[derive(Clone, Copy)]
pub(crate) enum Part {
    Items(Interval),
    Bytes(Interval),
}

/// The number that is `depth` below the newest operand and isn't negative: typecheck, rangecheck.
pub(crate) fn count_at(operands: &Objects, depth: usize) -> Result<u32, ErrorName>
    ensures { result ≡ spec.count_at depth operands.now }
{
    natural_of(operands.integer(depth)?)
}

fn part_of(kind: &Kind) -> Result<Part, ErrorName>
    ensures { result ≡ spec.part_of kind.now }
{
    match kind {
        Kind::Array { interval, .. } => Ok(Part::Items(*interval)),
        Kind::Str(interval) => Ok(Part::Bytes(*interval)),
        _ => Err(ErrorName::TypeCheck),
    }
}

/// The array or the string that is `depth` below the newest operand: typecheck.
pub(crate) fn part_at(operands: &Objects, depth: usize) -> Result<Part, ErrorName>
    ensures { result ≡ spec.part_at depth operands.now }
{
    part_of(&operands.object(depth)?.kind)
}

pub(crate) fn interval_of(part: Part) -> Interval
    ensures { result ≡ spec.interval_of part }
{
    match part {
        Part::Items(interval) => interval,
        Part::Bytes(interval) => interval,
    }
}

/// So many places of an interval from one on.
pub(crate) fn piece(interval: Interval, at: u32, len: u32) -> Interval
    requires within { at + len ≤ interval.len }
    requires ends { interval.start + interval.len < 2 ^ 32 }
    ensures { result ≡ spec.piece interval at len }
{
    Interval {
        cell: interval.cell,
        start: interval.start + at,
        len,
    }
}

/// An array or a string with another interval, and with its attribute and its access.
pub(crate) fn over_of(interval: Interval, object: &Object) -> Result<Object, NoMemory>
    ensures { IfOk result (λ x. x ≡ spec.over_of interval object.now) }
{
    let mut over = object.copy()?;
    match object.kind {
        Kind::Array { packed, .. } => over.kind = Kind::Array { interval, packed },
        Kind::Str(_) => over.kind = Kind::Str(interval),
        _ => {}
    }
    Ok(over)
}
