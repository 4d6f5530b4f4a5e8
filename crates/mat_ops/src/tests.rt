//! Matrices and points.
use super::*;
use crate::carrying::{Way, carried};
use crate::changing::{Motion, is_array_at, motion_at};
use crate::matrices::{matrix_of, rotation, scaling, six, translation};
use ps_fixed::Undefined;
use ps_kinds::{
    Access, Cell, ErrorName, Interval, Kind, Matrix, Number, Object, Objects, Real, Space,
};
use real_operands::as_real;
use std::test::Fail;

fn whole(n: i32) -> Real {
    as_real(Number::Integer(n))
}

fn object(kind: Kind) -> Object {
    Object {
        kind,
        exec: false,
        access: Access::Unlimited,
    }
}

fn interval(len: u32) -> Interval {
    Interval {
        cell: Cell {
            section: 1,
            count: 0,
            space: Space::Local,
        },
        start: 0,
        len,
    }
}

#[test]
fn matrices_are_read_and_made(rt: HostRuntime) -> Result<(), Fail> {
    let quarter = Matrix {
        a: whole(0),
        b: whole(1),
        c: whole(-1),
        d: whole(0),
        tx: whole(0),
        ty: whole(0),
    };
    assert!(rt; rotation(whole(90)) == quarter);
    let mut items = Vec::new(rt.alloc());
    for n in [0, 1, -1, 0, 0] {
        items.push(object(Kind::Integer(n)))?;
    }
    items.push(object(Kind::Real(whole(0))))?;
    assert!(rt; matrix_of(items.as_slice()) == Ok(quarter));
    let mut others = Vec::new(rt.alloc());
    others.push(object(Kind::Null))?;
    assert!(rt; matrix_of(others.as_slice()) == Err(ErrorName::TypeCheck));
    assert!(rt; six(interval(6)) == Ok(()));
    assert!(rt; six(interval(7)) == Err(ErrorName::RangeCheck));
    let mut operands = Objects::new(rt.alloc());
    operands.push(object(Kind::Integer(5)))?;
    operands.push(object(Kind::Integer(90)))?;
    assert!(rt; !is_array_at(&operands, 0));
    assert!(rt; motion_at(Motion::Rotation, &operands, 0) == Ok(quarter));
    let array = Kind::Array {
        interval: interval(6),
        packed: false,
    };
    operands.push(object(array))?;
    assert!(rt; is_array_at(&operands, 0));
    let moved = translation(whole(5), whole(90));
    assert!(rt; motion_at(Motion::Translation, &operands, 1) == Ok(moved));
    mat_ops_lawful();
    Ok(())
}

#[test]
fn points_are_carried(rt: HostRuntime) -> Result<(), Fail> {
    let moved = translation(whole(3), whole(4));
    assert!(rt; carried(Way::Point, &moved, whole(1), whole(2)) == Ok((whole(4), whole(6))));
    assert!(rt; carried(Way::Distance, &moved, whole(1), whole(2)) == Ok((whole(1), whole(2))));
    assert!(rt; carried(Way::PointBack, &moved, whole(4), whole(6)) == Ok((whole(1), whole(2))));
    let wider = scaling(whole(2), whole(4));
    assert!(rt; carried(Way::DistanceBack, &wider, whole(2), whole(4)) == Ok((whole(1), whole(1))));
    let flat = scaling(whole(0), whole(1));
    assert!(rt; carried(Way::PointBack, &flat, whole(1), whole(1)) == Err(Undefined));
    Ok(())
}
