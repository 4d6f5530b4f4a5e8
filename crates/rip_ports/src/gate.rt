//! Gates.

/// Is told of each page before and after it is speculated. No lock is held meanwhile.
pub trait Gate {
    /// The page is about to be speculated.
    fn before(&self, page: u32);

    /// The page has been speculated.
    fn after(&self, page: u32);
}

/// A gate that does nothing.
#[derive(Drop)]
pub struct OpenGate;

impl Gate for OpenGate {
    fn before(&self, _page: u32) {}

    fn after(&self, _page: u32) {}
}
