//! The local part of a memory may be sent to and shared between threads.

use crate::Locals;
use copy_lists::may_be_shared;

/// The local part of a memory may be sent to and shared between threads.
pub fn locals_may_be_shared(locals: &Locals) {
    may_be_shared(locals);
}
