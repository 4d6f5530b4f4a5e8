//! The writes of a page may be sent to and shared between threads.
use crate::{Mark, Note, Pile, Step, Steps};
use copy_lists::may_be_shared;

/// The types of this crate may be sent to and shared between threads.
pub fn steps_may_be_shared(steps: &Steps, pile: &Pile, step: &Step, note: &Note, mark: &Mark) {
    may_be_shared(steps);
    may_be_shared(pile);
    may_be_shared(step);
    may_be_shared(note);
    may_be_shared(mark);
}
