//! Numbers and points.
use super::*;
use ps_fixed::Undefined;
use ps_objects::{Access, ErrorName, Kind, Number, Object, Objects, Real};
use ps_shapes::Matrix;
use std::test::Fail;

fn whole(n: i32) -> Real {
    as_real(Number::Integer(n))
}

fn number(kind: Kind) -> Object {
    Object {
        kind,
        exec: false,
        access: Access::Unlimited,
    }
}

#[test]
fn points_are_read_and_placed(rt: HostRuntime) -> Result<(), Fail> {
    assert!(rt; whole(3).count == 50_331_648);
    assert!(rt; defined(Ok(whole(3))) == Ok(whole(3)));
    let nothing: Result<Real, Undefined> = Err(Undefined);
    assert!(rt; defined(nothing) == Err(ErrorName::UndefinedResult));
    let mut operands = Objects::new(rt.alloc());
    operands.push(number(Kind::Integer(5)))?;
    operands.push(number(Kind::Real(Real { count: 7 })))?;
    operands.push(number(Kind::Null))?;
    assert!(rt; real_at(&operands, 1) == Ok(Real { count: 7 }));
    assert!(rt; real_at(&operands, 0) == Err(ErrorName::TypeCheck));
    assert!(rt; real_at(&operands, 3) == Err(ErrorName::StackUnderflow));
    assert!(rt; point_at(&operands, 1) == Ok((whole(5), Real { count: 7 })));
    assert!(rt; point_at(&operands, 2) == Err(ErrorName::StackUnderflow));
    let doubled = Matrix {
        a: whole(2),
        b: whole(0),
        c: whole(0),
        d: whole(2),
        tx: whole(10),
        ty: whole(20),
    };
    let point = device_point(whole(12), whole(24))?;
    assert!(rt; placed(&doubled, whole(1), whole(2)) == Ok(point));
    assert!(rt; moved(&doubled, point, whole(3), whole(4)) == device_point(whole(18), whole(32)));
    assert!(rt; device_point(whole(4_194_304), whole(-4_194_304))?.x == whole(4_194_304));
    assert!(rt; device_point(whole(4_194_305), whole(0)) == Err(ErrorName::LimitCheck));
    assert!(rt; placed(&doubled, whole(0), whole(4_000_000)) == Err(ErrorName::LimitCheck));
    Ok(())
}
