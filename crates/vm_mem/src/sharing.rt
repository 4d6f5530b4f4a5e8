//! What memory is told and asked may be sent to and shared between threads.

use crate::{Glance, RestoreRefusal, Write, Writes};
use copy_lists::may_be_shared;

/// The types of this crate may be sent to and shared between threads.
pub fn writes_may_be_shared(
    glance: &Glance,
    write: &Write,
    writes: &Writes,
    refusal: &RestoreRefusal,
) {
    may_be_shared(glance);
    may_be_shared(write);
    may_be_shared(writes);
    may_be_shared(refusal);
}
