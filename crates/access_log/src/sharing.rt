//! What a page looked at may be sent to and shared between threads.
use crate::{Differs, Read, ReadLog};
use copy_lists::may_be_shared;

/// The types of this crate may be sent to and shared between threads.
pub fn reads_may_be_shared(log: &ReadLog, read: &Read, differs: &Differs) {
    may_be_shared(log);
    may_be_shared(read);
    may_be_shared(differs);
}
