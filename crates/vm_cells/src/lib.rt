//! The committed memory, with the traits that it has.
#![tactic(auto)]

#[cfg(test)]
mod asked;
#[cfg(test)]
mod plain;
#[cfg(test)]
mod script;
#[cfg(test)]
mod tests;

pub use vm_committed::Cells;
pub use vm_mem::{Base, Glance, Mem, RestoreRefusal, Write, Writes};
