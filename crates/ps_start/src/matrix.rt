//! The default matrix.
ghost use Rattle.std.specs.Prelude.{◌≡◌, ◌≤ℤ◌, pos};
ghost use Rattle.ps_meaning.specs.Start as spec;

use ps_fixed::{Matrix, Real, div};

/// A whole number as a real.
pub(crate) fn whole(n: u32) -> Real
    ensures { result ≡ spec.whole_real n }
{
    Real {
        count: n as i64 * 16_777_216,
    }
}

/// The pixels of a point, 1/72 of an inch.
fn scale(dpi: u32) -> Real
    ensures value { result ≡ spec.scale_of dpi }
    ensures positive { pos 0 ≤ℤ result.count }
{
    match div(whole(dpi), whole(72)) {
        Ok(scale) => scale,
        Err(_) => whole(0),
    }
}

/// The default matrix on a page that is `height` pixels high: from points upward from the lower left corner to pixels downward from
/// the upper left one (section 4.3 of the language manual: coordinate systems and transformations).
pub fn default_matrix(dpi: u32, height: u32) -> Matrix
    ensures { result ≡ spec.default_matrix dpi height }
{
    let scale = scale(dpi);
    Matrix {
        a: scale,
        b: whole(0),
        c: whole(0),
        d: Real {
            count: -scale.count,
        },
        tx: whole(0),
        ty: whole(height),
    }
}
