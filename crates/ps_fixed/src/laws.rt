//! Laws above the definitions, each the contract of a function that does nothing.
ghost use Rattle.ps_fixed.specs.Laws.{NearestLaw, ProductLaw, QuotientLaw, HalfTurnLaw, OddLaw, QuadrantLaw};

/// Rounding gives the one whole number r with r ≤ p / q + 1/2 < r + 1.
#[tactic(auto, using(crate::proofs::LawProofs::nearest_law))]
pub fn rounding_is_to_the_nearest()
    ensures { NearestLaw }
{}

/// A product is within half a count of the exact one.
#[tactic(auto, using(crate::proofs::LawProofs::product_law))]
pub fn products_are_within_half()
    ensures { ProductLaw }
{}

/// A quotient is within half a count of the exact one.
#[tactic(auto, using(crate::proofs::LawProofs::quotient_law))]
pub fn quotients_are_within_half()
    ensures { QuotientLaw }
{}

/// Half a turn on, the sine has the other sign.
#[tactic(auto, using(crate::proofs::LawProofs::half_turn_law))]
pub fn sines_turn_with_half_a_turn()
    ensures { HalfTurnLaw }
{}

/// The sine is odd around 180 degrees.
#[tactic(auto, using(crate::proofs::LawProofs::odd_law))]
pub fn sines_are_odd_around_half_a_turn()
    ensures { OddLaw }
{}

/// An arc tangent lies in the quadrant that the signs of its operands give.
#[tactic(auto, using(crate::proofs::LawProofs::quadrant_law))]
pub fn angles_lie_in_their_quadrant()
    ensures { QuadrantLaw }
{}
