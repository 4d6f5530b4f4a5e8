//! The polygons that a stroke without dashes paints: what a pen draws along flattened subpaths (section 4.5.1 of the
//! language manual). The numbers and their rounding are the project's own rule, since the manual sets none.
#![tactic(auto)]

mod arithmetic;
mod corner;
mod ends;
mod joins;
mod outline;
mod pen;
mod ring;
mod side;
mod vector;

pub use arithmetic::nearest_quotient;
pub use outline::outlines;
pub use pen::{Pen, pen_for, scale};
pub use side::{Side, sides};
pub use vector::Vector;

#[cfg(test)]
mod tests;
