//! Points under a matrix, products of matrices and the inverse.
#![tactic(auto, using(crate::proofs::Floors::real_of_inside, crate::proofs::Floors::real_of_outside, crate::proofs::Floors::nearest_count_is))]

ghost use Rattle.std.specs.Prelude.{◌≡◌, ◌^◌, ◌<◌, ◌≤◌, pos, neg_ℤ, ◌+ℤ◌, ◌-ℤ◌, ◌*ℤ◌, ◌≤ℤ◌, ◌<ℤ◌, unsigned_abs};
ghost use Rattle.ps_fixed.specs.Rounding.{floor_of, nearest_count};
ghost use Rattle.ps_fixed.specs.Arithmetic.{negation_of};
ghost use Rattle.ps_fixed.specs.Matrices.{coordinate, dot_product, image_of, delta_image_of, matrix_product, determinant, inverse_translation, inverse_over, inverse_of};

use crate::arithmetic::{add, mul, product};
use crate::rounding::{Undefined, nearest_count, nearest_real, real_of};
use ps_shapes::{Matrix, Real};

const ONE: i128 = ps_shapes::ONE as i128;

const ONE_SQUARED: i128 = 1 << 48;

// p / 2^24, rounded down.
fn whole_part(p: i128) -> i128
    ensures value { result ≡ floor_of p (2 ^ 24) }
    ensures bound { unsigned_abs result ≤ 2 ^ 103 }
{
    p >> 24
}

// What is left of p beside its whole part.
fn fraction(p: i128) -> i128
    ensures value { result ≡ p -ℤ floor_of p (2 ^ 24) *ℤ pos (2 ^ 24) }
    ensures low { pos 0 ≤ℤ result }
    ensures high { result <ℤ pos (2 ^ 24) }
{
    p - whole_part(p) * ONE
}

// The fractions of p and q, added and rounded.
fn carry(p: i128, q: i128) -> i128
    ensures value { result ≡ nearest_count ((p -ℤ floor_of p (2 ^ 24) *ℤ pos (2 ^ 24))
        +ℤ (q -ℤ floor_of q (2 ^ 24) *ℤ pos (2 ^ 24))) }
    ensures bound { unsigned_abs result ≤ 3 }
{
    nearest_count(fraction(p) + fraction(q))
}

// (p + q) / 2^24 + t, to the nearest. p + q can leave an i128, so the whole parts are added apart from the fractions.
fn nearest_sum(p: i128, q: i128, t: i64) -> i128
    ensures { result ≡ nearest_count (p +ℤ q +ℤ t *ℤ pos (2 ^ 24)) }
{
    whole_part(p) + whole_part(q) + t as i128 + carry(p, q)
}

fn coordinate(a: Real, x: Real, c: Real, y: Real, t: Real) -> Result<Real, Undefined>
    ensures { result ≡ coordinate a x c y t }
{
    real_of(nearest_sum(product(a, x), product(c, y), t.count))
}

fn dot_product(a: Real, x: Real, c: Real, y: Real) -> Result<Real, Undefined>
    ensures { result ≡ dot_product a x c y }
{
    real_of(nearest_sum(product(a, x), product(c, y), 0))
}

/// The point (x, y) under m. Undefined where a coordinate leaves the range.
pub fn apply(m: &Matrix, x: Real, y: Real) -> Result<(Real, Real), Undefined>
    ensures { result ≡ image_of m.now x y }
{
    let u = coordinate(m.a, x, m.c, y, m.tx)?;
    let v = coordinate(m.b, x, m.d, y, m.ty)?;
    Ok((u, v))
}

/// The distance (x, y) under m, which tx and ty do not move. Undefined where a coordinate leaves the range.
pub fn apply_delta(m: &Matrix, x: Real, y: Real) -> Result<(Real, Real), Undefined>
    ensures { result ≡ delta_image_of m.now x y }
{
    let u = dot_product(m.a, x, m.c, y)?;
    let v = dot_product(m.b, x, m.d, y)?;
    Ok((u, v))
}

/// The matrix that does m and then p. Undefined where an entry leaves the range.
pub fn mat_mul(m: &Matrix, p: &Matrix) -> Result<Matrix, Undefined>
    ensures { result ≡ matrix_product m.now p.now }
{
    let a = dot_product(m.a, p.a, m.b, p.c)?;
    let b = dot_product(m.a, p.b, m.b, p.d)?;
    let c = dot_product(m.c, p.a, m.d, p.c)?;
    let d = dot_product(m.c, p.b, m.d, p.d)?;
    let (tx, ty) = apply(p, m.tx, m.ty)?;
    Ok(Matrix { a, b, c, d, tx, ty })
}

fn negation(a: Real) -> Result<Real, Undefined>
    ensures { result ≡ negation_of a }
{
    real_of(-(a.count as i128))
}

fn inverse_translation(x: Real, a: Real, y: Real, c: Real) -> Result<Real, Undefined>
    ensures { result ≡ inverse_translation x a y c }
{
    let p = mul(x, a)?;
    let q = mul(y, c)?;
    let sum = add(p, q)?;
    negation(sum)
}

// It never leaves an i128: it lies between 2^63 - 2^127 and 2^127 - 2^63.
fn determinant(m: &Matrix) -> i128
    ensures value { result ≡ determinant m.now }
    ensures bound { unsigned_abs result < 2 ^ 127 }
{
    product(m.a, m.d) - product(m.b, m.c)
}

fn scaled(a: Real) -> i128
    ensures value { result ≡ a.count *ℤ pos (2 ^ 48) }
    ensures bound { unsigned_abs result ≤ 2 ^ 112 }
{
    a.count as i128 * ONE_SQUARED
}

fn scaled_negation(a: Real) -> i128
    ensures value { result ≡ neg_ℤ a.count *ℤ pos (2 ^ 48) }
    ensures bound { unsigned_abs result ≤ 2 ^ 112 }
{
    -(a.count as i128) * ONE_SQUARED
}

fn inverse_over(determinant: i128, m: &Matrix) -> Result<Matrix, Undefined>
    requires { unsigned_abs determinant < 2 ^ 127 }
    ensures { result ≡ inverse_over determinant m.now }
{
    let a = nearest_real(scaled(m.d), determinant)?;
    let b = nearest_real(scaled_negation(m.b), determinant)?;
    let c = nearest_real(scaled_negation(m.c), determinant)?;
    let d = nearest_real(scaled(m.a), determinant)?;
    let tx = inverse_translation(m.tx, a, m.ty, c)?;
    let ty = inverse_translation(m.tx, b, m.ty, d)?;
    Ok(Matrix { a, b, c, d, tx, ty })
}

/// The inverse of m. Undefined where the determinant is 0, and where a step or an entry leaves the range.
pub fn mat_invert(m: &Matrix) -> Result<Matrix, Undefined>
    ensures { result ≡ inverse_of m.now }
{
    inverse_over(determinant(m), m)
}
