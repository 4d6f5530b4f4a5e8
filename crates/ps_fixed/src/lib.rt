//! Fixed-point arithmetic: reals are counts of 2^-24 in an i64, and each result is rounded once, halves upward. Matrices
//! are those of section 4.3 of the language manual (coordinate systems and transformations); the range and the rounding
//! of reals, which it leaves open, are the project's own rules.
#![tactic(auto)]

mod angles;
mod arithmetic;
mod decimals;
mod laws;
mod matrices;
mod roots;
mod rounding;
#[cfg(test)]
mod tests;

pub use angles::{atan, cos, sin};
pub use arithmetic::{add, div, mul, sub};
pub use decimals::decimal;
pub use laws::{
    angles_lie_in_their_quadrant, products_are_within_half, quotients_are_within_half,
    rounding_is_to_the_nearest, sines_are_odd_around_half_a_turn, sines_turn_with_half_a_turn,
};
pub use matrices::{apply, apply_delta, mat_invert, mat_mul};
pub use ps_shapes::{Matrix, Real};
pub use roots::sqrt;
pub use rounding::{Undefined, real_of};
