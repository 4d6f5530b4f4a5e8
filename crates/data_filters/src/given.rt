//! What a layer gives.

/// What a call on a layer gives: a byte, or none at its end, or none where a wrong byte stands.
#[derive(Clone, Copy, Debug, PartialEq, Eq)]
pub enum Given {
    Byte(u8),
    End,
    Bad,
}
