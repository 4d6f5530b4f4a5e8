//! Lists, stacks, texts and boxes whose copies are equal to what they copy, and want of memory.
#![tactic(auto)]

mod boxed;
mod duplicate;
mod memory;
mod sequence;
mod sharing;
mod stack;
#[cfg(test)]
mod tests;
mod text;

pub use boxed::Boxed;
pub use duplicate::Duplicate;
pub use memory::NoMemory;
pub use sequence::Sequence;
pub use sharing::may_be_shared;
pub use stack::Stack;
pub use text::Text;
