//! Dictionaries may be sent to and shared between threads.

use crate::{Dict, Seat};
use copy_lists::may_be_shared;

/// The types of this crate may be sent to and shared between threads.
pub fn dicts_may_be_shared(dict: &Dict, seat: &Seat) {
    may_be_shared(dict);
    may_be_shared(seat);
}
