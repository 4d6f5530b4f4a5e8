//! Calling a procedure.
ghost use Rattle.std.specs.Prelude.{◌≡◌, IfOk};
ghost use Rattle.path_build.specs.Calls as spec;

use ps_kinds::{Act, Frame, Kind, NoMemory, Object};

/// Whether an object is an empty procedure, which begins no frame.
pub(crate) fn is_empty(kind: &Kind) -> bool
    ensures { result ≡ spec.is_empty kind.now }
{
    match kind {
        Kind::Array { interval, .. } => interval.len == 0,
        _ => false,
    }
}

/// The act that calls an object.
pub(crate) fn call_of(object: &Object) -> Result<Act, NoMemory>
    ensures { IfOk result (λ act. act ≡ spec.call_of object.now) }
{
    if is_empty(&object.kind) {
        Ok(Act::Done)
    } else {
        Ok(Act::Body(Frame::Proc {
            body: object.copy()?,
            at: 0,
        }))
    }
}
