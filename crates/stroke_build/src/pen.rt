//! Pens.
ghost use Rattle.std.specs.Prelude.{◌≡◌, ◌≤◌, ◌<◌, ◌^◌, ◌+◌, ◌*◌, nat_le, if◌then◌else◌, pos, ◌*ℤ◌, ◌≤ℤ◌, neg_ℤ, ◌-◌, unsigned_abs};
ghost use Rattle.ps_fixed.specs.Matrices.{determinant};
ghost use Rattle.ps_fixed.specs.Roots.{root_from};
ghost use Rattle.ps_fixed.specs.Rounding.{nearest_quotient};
ghost use Rattle.stroke_build.specs.Pens.{scale, radius_of, pen_radius, pen_miter};

use ps_kinds::{LineCap, LineJoin, LineWidth, MiterLimit};
use ps_shapes::{Matrix, Real};

/// What draws a line.
#[derive(Clone, Copy)]
pub struct Pen {
    /// Half the line's width, in 1/256 pixel.
    pub radius: u32,

    /// The greatest length of a miter in line widths, in 1/256.
    pub miter: u32,
    pub cap: LineCap,
    pub join: LineJoin,
    ghost radius_within: { radius < 2 ^ 31 },
    ghost miter_within: { miter ≤ 256000 },
}

/// Half the width of the thinnest line.
const THINNEST: u128 = 128;

/// Half the width of the widest line that is told from wider ones.
const WIDEST: u128 = 0x7fff_ffff;

/// The miter limit beyond which there is no other, in counts of 2^-24.
const GREATEST_MITER: u64 = 16_777_216_000;

fn product(a: Real, b: Real) -> i128
    ensures value { result ≡ a.count *ℤ b.count }
    ensures bound { unsigned_abs result ≤ 2 ^ 126 }
    ensures low { neg_ℤ (pos (2 ^ 126 - 2 ^ 63)) ≤ℤ result }
{
    a.count as i128 * b.count as i128
}

fn determinant(m: &Matrix) -> i128
    ensures value { result ≡ determinant m.now }
    ensures bound { unsigned_abs result < 2 ^ 127 }
{
    product(m.a, m.d) - product(m.b, m.c)
}

fn square(n: u64) -> u128
    ensures { result ≡ n * n }
{
    n as u128 * n as u128
}

/// The bit with `left` higher ones in 64.
fn bit(left: u32) -> u64
    requires { left < 64 }
    ensures value { result ≡ 2 ^ (63 - left) }
    ensures double { 2 ^ (64 - left) ≡ result + result }
    ensures some { 0 < result }
{
    1u64 << (63 - left)
}

/// The root with the bit, where its square is then not above n.
fn with_bit(root: u64, bit: u64, n: u128) -> u64
    requires { root + bit < 2 ^ 64 }
    ensures value { result ≡ (if nat_le ((root + bit) * (root + bit)) n then root + bit else root) }
    ensures bound { result ≤ root + bit }
{
    if square(root + bit) <= n {
        root + bit
    } else {
        root
    }
}

/// The greatest whole number whose square is not above n, bit by bit.
#[tactic(auto, using(crate::proofs::Bits::root_here))]
fn root(n: u128) -> u64
    ensures { result ≡ root_from 64 n 0 }
{
    let mut root = 0;
    for left in 0..64u32 {
        root = with_bit(root, bit(left), n);
    }
    root
}

/// The scale of the matrix, in counts of 2^-24.
#[tactic(auto, unfolding(crate::specs::Pens::scale))]
pub fn scale(m: &Matrix) -> u64
    ensures { result ≡ scale m.now }
{
    root(determinant(m).unsigned_abs())
}

/// width·scale / 2^41, to the nearest whole number.
#[tactic(auto, using(crate::proofs::Bits::half_width))]
fn half_width(width: u64, scale: u64) -> u128
    requires { width < 2 ^ 63 }
    ensures { result ≡ unsigned_abs (nearest_quotient (pos width *ℤ pos scale) (2 ^ 41)) }
{
    (width as u128 * scale as u128 + 0x100_0000_0000) >> 41
}

/// Half the width of a line under the matrix, in 1/256 pixel: at least half a pixel.
#[tactic(auto, unfolding(crate::specs::Pens::radius_of))]
fn radius(width: LineWidth, m: &Matrix) -> u128
    ensures { result ≡ radius_of width m.now }
{
    half_width(width.real().count as u64, scale(m)).max(THINNEST)
}

fn pen_radius(width: LineWidth, m: &Matrix) -> u32
    ensures value { result ≡ pen_radius width m.now }
    ensures bound { result < 2 ^ 31 }
{
    radius(width, m).min(WIDEST) as u32
}

fn pen_miter(limit: MiterLimit) -> u32
    ensures value { result ≡ pen_miter limit }
    ensures bound { result ≤ 256000 }
{
    ((limit.real().count as u64).min(GREATEST_MITER) >> 16) as u32
}

/// The pen for lines of a width, under the matrix (section 4.5.1 of the language manual).
pub fn pen_for(width: LineWidth, m: &Matrix, miter: MiterLimit, cap: LineCap, join: LineJoin) -> Pen
    ensures radius { result.radius ≡ pen_radius width m.now }
    ensures miter { result.miter ≡ pen_miter miter }
    ensures cap { result.cap ≡ cap }
    ensures join { result.join ≡ join }
{
    Pen {
        radius: pen_radius(width, m),
        miter: pen_miter(miter),
        cap,
        join,
    }
}
