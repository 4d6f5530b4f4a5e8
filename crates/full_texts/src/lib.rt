//! The full texts of objects, as `==` writes them (section 8.2 of the language manual).
#![tactic(auto)]

mod arrays;
mod growing;
mod simple;
mod strings;
#[cfg(test)]
mod tests;

pub use arrays::push_full_text;
pub use growing::push_piece;
