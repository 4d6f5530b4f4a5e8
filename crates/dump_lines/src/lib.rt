//! The lines of the dump that tell of registers, and the texts of which its other lines are made.
#![tactic(auto)]

mod fields;
mod hex;
mod objects;
mod registers;
#[cfg(test)]
mod tests;
mod values;

pub use hex::{push_hex, push_hex_byte};
pub use objects::{push_decimal, push_object, push_place};
pub use registers::push_registers;
