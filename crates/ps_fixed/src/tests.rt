//! Values from outside: true mathematics where a result is the nearest count, else the language's rules in exact fractions.
use crate::{
    Matrix, Real, Undefined, add, apply, apply_delta, atan, cos, decimal, div, mat_invert, mat_mul,
    mul, sin, sqrt, sub,
};
use ps_shapes::ONE;
use std::process::Abort;

fn real(count: i64) -> Real {
    Real { count }
}

fn count_of(answer: Result<Real, Undefined>) -> Option<i64> {
    match answer {
        Ok(x) => Some(x.count),
        Err(Undefined) => None,
    }
}

fn matrix(a: i64, b: i64, c: i64, d: i64, tx: i64, ty: i64) -> Matrix {
    Matrix {
        a: real(a),
        b: real(b),
        c: real(c),
        d: real(d),
        tx: real(tx),
        ty: real(ty),
    }
}

fn sums_and_products(rt: &impl Abort) {
    for (a, b, sum, difference) in [
        (5, -7, Some(-2), Some(12)),
        (i64::MAX, 1, None, Some(i64::MAX - 1)),
        (i64::MIN, 1, Some(i64::MIN + 1), None),
        (i64::MIN, i64::MIN, None, Some(0)),
    ] {
        assert_eq!(rt; count_of(add(real(a), real(b))), sum, "{a} + {b}");
        assert_eq!(rt; count_of(sub(real(a), real(b))), difference, "{a} - {b}");
    }
    for (a, b, product) in [
        (1, ONE / 2, Some(1)),
        (-1, ONE / 2, Some(0)),
        (3, ONE / 2, Some(2)),
        (-3, ONE / 2, Some(-1)),
        (i64::MIN, ONE, Some(i64::MIN)),
        (i64::MIN, -ONE, None),
        (i64::MAX, i64::MAX, None),
    ] {
        assert_eq!(rt; count_of(mul(real(a), real(b))), product, "{a} * {b}");
    }
}

fn quotients(rt: &impl Abort) {
    for (a, b, quotient) in [
        (ONE, 3 * ONE, Some(5592405)),
        (-2 * ONE, 3 * ONE, Some(-11184811)),
        (1, 2 * ONE, Some(1)),
        (-1, 2 * ONE, Some(0)),
        (3, -2 * ONE, Some(-1)),
        (5, 0, None),
        (0, 5, Some(0)),
        (i64::MIN, ONE, Some(i64::MIN)),
        (i64::MIN, -ONE, None),
        (i64::MIN, i64::MIN, Some(ONE)),
        (12345678901234567, 300000000000007, Some(690420405)),
        (i64::MIN, 0x3f_ffff_ffff, Some(-562949953423360)),
    ] {
        assert_eq!(rt; count_of(div(real(a), real(b))), quotient, "{a} / {b}");
    }
}

fn roots_and_decimals(rt: &impl Abort) {
    for (a, root) in [
        (0, 0),
        (1, 4096),
        (2 * ONE, 23726566),
        (4 * ONE, 2 * ONE),
        (i64::MAX, 12439554047901),
    ] {
        assert!(rt; a >= 0);
        assert_eq!(rt; sqrt(Real { count: a }).count, root, "the root of {a}");
    }
    for (negative, digits, exponent, count) in [
        (false, 1, -1, Some(1677722)),
        (true, 1, -1, Some(-1677722)),
        (false, 298023223876953125, -25, Some(1)),
        (true, 298023223876953125, -25, Some(0)),
        (false, 314159265358979324, -17, Some(52707179)),
        (false, 549755813887999999, -6, Some(i64::MAX - 16)),
        (true, 549755813888, 0, Some(i64::MIN)),
        (false, 549755813888, 0, None),
        (false, 1, 13, None),
        (false, 0, 300, Some(0)),
        (true, 999999999999999999, -40, Some(0)),
    ] {
        assert!(rt; digits < 1000000000000000000);
        let found = count_of(decimal(negative, digits, exponent));
        assert_eq!(rt; found, count, "{negative} {digits} {exponent}");
    }
}

fn angles(rt: &impl Abort) {
    for (angle, sine, cosine) in [
        (0, 0, ONE),
        (30 * ONE, 8388608, 14529495),
        (45 * ONE, 11863283, 11863283),
        (60 * ONE, 14529495, 8388608),
        (90 * ONE, ONE, 0),
        (180 * ONE, 0, -ONE),
        (270 * ONE, -ONE, 0),
        (6039797592, -3, ONE),
        (-30 * ONE, -8388608, 14529495),
    ] {
        assert_eq!(rt; sin(real(angle)).count, sine, "sine of {angle}");
        assert_eq!(rt; cos(real(angle)).count, cosine, "cosine of {angle}");
    }
    for (num, den, angle) in [
        (0, 0, None),
        (0, 1, Some(0)),
        (1, 0, Some(90 * ONE)),
        (0, -1, Some(180 * ONE)),
        (-1, 0, Some(270 * ONE)),
        (ONE, ONE, Some(45 * ONE)),
        (ONE, -ONE, Some(135 * ONE)),
        (i64::MIN, i64::MIN, Some(225 * ONE)),
        (-1, 1, Some(315 * ONE)),
        (1, 2, Some(445687552)),
        (3, -4, Some(2401324800)),
        (-5, -12, Some(3399397120)),
        (-1, i64::MAX, Some(0)),
    ] {
        assert_eq!(rt;
            count_of(atan(real(num), real(den))),
            angle,
            "{num} over {den}"
        );
    }
}

fn matrices(rt: &impl Abort) {
    let turn = matrix(14529495, 8388608, -8388608, 14529495, 5 * ONE, -7 * ONE);
    let back = matrix(14529495, -8388608, 8388608, 14529495, -13927219, 143649505);
    let quarter = matrix(0, ONE, -ONE, 0, 2 * ONE, 3 * ONE);
    let flat = matrix(ONE, 2 * ONE, 2 * ONE, 4 * ONE, 0, 0);
    let least = matrix(i64::MIN, i64::MIN, i64::MIN, i64::MIN, i64::MIN, i64::MIN);
    let (x, y) = (real(10 * ONE), real(20 * ONE));
    assert_eq!(rt; mat_invert(&turn), Ok(back));
    assert_eq!(rt; mat_mul(&turn, &back), Ok(matrix(ONE, 0, 0, ONE, 0, 0)));
    assert_eq!(rt;
        mat_invert(&quarter),
        Ok(matrix(0, -ONE, ONE, 0, -3 * ONE, 2 * ONE))
    );
    assert_eq!(rt; mat_invert(&flat), Err(Undefined));
    assert_eq!(rt; apply(&turn, x, y), Ok((real(61408870), real(257035468))));
    assert_eq!(rt;
        apply_delta(&turn, x, y),
        Ok((real(-22477210), real(374475980)))
    );
    let least_real = real(i64::MIN);
    assert_eq!(rt; apply(&least, least_real, least_real), Err(Undefined));
}

#[test]
fn values_from_outside(rt: HostRuntime) {
    sums_and_products(&rt);
    quotients(&rt);
    roots_and_decimals(&rt);
    angles(&rt);
    matrices(&rt);
}
