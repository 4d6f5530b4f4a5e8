//! Square roots.
ghost use Rattle.std.specs.Prelude.{◌≡◌, ◌*◌, ◌^◌, ◌<◌, ◌≤◌, pos, ◌≤ℤ◌, unsigned_abs};
ghost use Rattle.ps_fixed.specs.Roots.{IsRoot, root_of};

use ps_shapes::Real;
use std::num::{nearest_u64_to_f64, saturating_f64_to_u64};

const GREATEST: u64 = 0xfff_ffff_ffff;

fn square(r: u64) -> u128
    requires { r ≤ 2 ^ 44 }
    ensures { result ≡ r * r }
{
    r as u128 * r as u128
}

// The greatest r with r·r ≤ a·2^24. The guess makes it fast; the loops make it right, whatever the guess.
fn root(a: u64) -> u64
    requires { a < 2 ^ 63 }
    ensures root { IsRoot result (a * 2 ^ 24) }
    ensures bound { result < 2 ^ 44 }
{
    let radicand = a as u128 * 0x100_0000;
    let guess = saturating_f64_to_u64(nearest_u64_to_f64(a).sqrt() * 4096.0);
    let mut root = guess.min(GREATEST);
    'down: while square(root) > radicand {
        root -= 1;
    }
    'up: while square(root + 1) <= radicand {
        root += 1;
    }
    root
}

/// The square root of a, rounded down.
#[tactic(auto, using(crate::proofs::RootProofs::root_is))]
pub fn sqrt(a: Real) -> Real
    requires { pos 0 ≤ℤ a.count }
    ensures value { result ≡ record { count = root_of a.count } }
    ensures root { IsRoot (unsigned_abs result.count) (unsigned_abs a.count * 2 ^ 24) }
    ensures positive { pos 0 ≤ℤ result.count }
{
    Real {
        count: root(a.count as u64) as i64,
    }
}
