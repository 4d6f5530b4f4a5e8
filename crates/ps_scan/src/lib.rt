//! Tokens: what the bytes of a program spell.
#![tactic(auto)]

mod characters;
mod numbers;
mod reals;
mod rows;
mod specials;
mod strings;
#[cfg(test)]
mod tests;
mod tokens;

pub use characters::{is_special, skip_blanks, split_row};
pub use numbers::{integer_value, is_decimal, is_integer, is_radix};
pub use tokens::{Scan, Token, next, printed_integers_scan};
