//! Reals and matrices.

/// The count of the real number 1.
pub const ONE: i64 = 1 << 24;

/// A real number, as a count of 2^-24.
#[derive(Clone, Copy, Debug, PartialEq, Eq, PartialOrd, Ord)]
pub struct Real {
    pub count: i64,
}

/// The matrix `[a b c d tx ty]`: it takes (x, y) to (a·x + c·y + tx, b·x + d·y + ty).
#[derive(Clone, Copy, Debug, PartialEq, Eq)]
pub struct Matrix {
    pub a: Real,
    pub b: Real,
    pub c: Real,
    pub d: Real,
    pub tx: Real,
    pub ty: Real,
}
