//! The committed memory may be sent to and shared between threads.

use crate::Cells;
use copy_lists::may_be_shared;

/// The committed memory may be sent to and shared between threads.
pub fn cells_may_be_shared(cells: &Cells) {
    may_be_shared(cells);
}
