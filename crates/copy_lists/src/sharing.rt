//! What may go to other threads.

/// A value of this type may be sent to and shared between threads.
pub fn may_be_shared<T: Send + Sync>(_value: &T) {}
