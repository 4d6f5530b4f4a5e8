//! Numbers as reals, and points of the user's space and of the device's, as operators of graphics read them.
#![tactic(auto)]

mod points;
mod reals;
#[cfg(test)]
mod tests;

pub use points::{device_point, moved, placed, point_at};
pub use reals::{as_real, defined, real_at};
