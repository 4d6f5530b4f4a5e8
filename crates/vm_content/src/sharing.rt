//! What memory keeps of cells may be sent to and shared between threads.

use crate::{Before, Bytes, Content};
use copy_lists::may_be_shared;

/// The types of this crate may be sent to and shared between threads.
pub fn contents_may_be_shared(content: &Content, bytes: &Bytes, before: &Before) {
    may_be_shared(content);
    may_be_shared(bytes);
    may_be_shared(before);
}
