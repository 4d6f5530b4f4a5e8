//! Calling an object.
ghost use Rattle.std.specs.Prelude.{◌≡◌, IfOk};
ghost use Rattle.control_ops.specs.Calls as spec;

use ps_kinds::{Act, ErrorName, Frame, Frames, Kind, NoMemory, Object};
use ps_operator::frames_room;

/// Whether an object is an empty procedure, which begins no frame.
pub(crate) fn is_empty(kind: &Kind) -> bool
    ensures { result ≡ spec.is_empty kind.now }
{
    match kind {
        Kind::Array { interval, .. } => interval.len == 0,
        _ => false,
    }
}

/// Whether the frame of an object that is called stays within the limit: execstackoverflow.
pub(crate) fn call_room(object: &Object, frames: &Frames) -> Result<(), ErrorName>
    ensures { result ≡ spec.call_room object.now frames.now }
{
    if is_empty(&object.kind) {
        Ok(())
    } else {
        frames_room(frames, 1)
    }
}

/// The act that calls an object.
pub(crate) fn call_of(object: &Object) -> Result<Act, NoMemory>
    ensures { IfOk result (λ act. act ≡ spec.call_of object.now) }
{
    if is_empty(&object.kind) {
        Ok(Act::Done)
    } else {
        Ok(Act::Body(Frame::Proc {
            body: object.copy()?,
            at: 0,
        }))
    }
}
