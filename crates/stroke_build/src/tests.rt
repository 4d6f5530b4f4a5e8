ghost use Rattle.ps_shapes.specs.Near.{IsNear};

use super::*;
use copy_lists::Sequence;
use path_flat::{FlatRefusal, Subpath};
use ps_kinds::{LineCap, LineJoin, LineWidth, MiterLimit};
use ps_shapes::{Matrix, Point, Polygon, Real};
use std::alloc::Global;
use std::test::Fail;

fn whole(n: i32) -> Real
    requires { IsNear n }
{
    Real {
        count: n as i64 * 16_777_216,
    }
}

fn point(x: i32, y: i32) -> Point
    requires x { IsNear x }
    requires y { IsNear y }
{
    Point { x, y }
}

fn pen(cap: LineCap, join: LineJoin) -> Pen {
    Pen {
        radius: 128,
        miter: 2560,
        cap,
        join,
    }
}

fn corner(alloc: Global, closed: bool) -> Result<Sequence<Subpath>, FlatRefusal> {
    let mut points = Sequence::new(alloc);
    points.push(point(0, 0))?;
    points.push(point(2560, 0))?;
    points.push(point(2560, 0))?;
    points.push(point(2560, 2560))?;
    let mut subpaths = Sequence::new(alloc);
    subpaths.push(Subpath { points, closed })?;
    Ok(subpaths)
}

fn is_at(polygon: Option<&Polygon>, place: usize, x: i32, y: i32) -> bool {
    match polygon {
        Some(polygon) => match polygon.get(place) {
            Some(point) => point.x == x && point.y == y,
            None => false,
        },
        None => false,
    }
}

#[test]
fn a_corner_is_drawn(rt: HostRuntime) -> Result<(), Fail> {
    let open = corner(rt.alloc(), false)?;
    let mitred = outlines(
        rt.alloc(),
        pen(LineCap::Butt, LineJoin::Miter),
        open.as_slice(),
    )?;
    assert!(rt; mitred.len() == 3);
    assert!(rt; is_at(mitred.get(0), 1, 2560, 128));
    assert!(rt; is_at(mitred.get(1), 0, 2432, 0));
    assert!(rt; is_at(mitred.get(2), 2, 2688, -128));
    let bevelled = outlines(
        rt.alloc(),
        pen(LineCap::Square, LineJoin::Bevel),
        open.as_slice(),
    )?;
    assert!(rt; bevelled.len() == 5);
    assert!(rt; is_at(bevelled.get(2), 2, 2688, 0));
    assert!(rt; is_at(bevelled.get(3), 1, -128, 128));
    let rounded = outlines(
        rt.alloc(),
        pen(LineCap::Round, LineJoin::Round),
        open.as_slice(),
    )?;
    assert!(rt; rounded.len() == 5);
    assert!(rt; is_at(rounded.get(2), 4, 2651, 91));
    assert!(rt; is_at(rounded.get(2), 32, 0, 0) == false);
    let closed = corner(rt.alloc(), true)?;
    let around = outlines(
        rt.alloc(),
        pen(LineCap::Round, LineJoin::Bevel),
        closed.as_slice(),
    )?;
    assert!(rt; around.len() == 6);
    Ok(())
}

#[test]
fn pens_and_segments(rt: HostRuntime) -> Result<(), Fail> {
    let doubled = Matrix {
        a: whole(2),
        b: whole(0),
        c: whole(0),
        d: whole(-2),
        tx: whole(0),
        ty: whole(0),
    };
    let width = LineWidth::new(Real { count: 16_777_216 });
    let limit = MiterLimit::new(Real { count: 167_772_160 });
    let pen = pen_for(width, &doubled, limit, LineCap::Butt, LineJoin::Miter);
    assert!(rt; scale(&doubled) == 33_554_432);
    assert!(rt; pen.radius == 256);
    assert!(rt; pen.miter == 2560);
    assert!(rt; nearest_quotient(-5, 2) == -2);
    let mut points = Sequence::new(rt.alloc());
    points.push(point(0, 0))?;
    points.push(point(2560, 0))?;
    points.push(point(2560, 0))?;
    points.push(point(2560, 3))?;
    let subpath = Subpath {
        points,
        closed: true,
    };
    let sides = sides(rt.alloc(), pen.radius, &subpath)?;
    assert!(rt; sides.len() == 3);
    assert!(rt; sides[0].normal.x == 0 && sides[0].normal.y == 256);
    assert!(rt; sides[2].length == 2560);
    let mut far = Sequence::new(rt.alloc());
    far.push(point(1_073_741_824, 0))?;
    far.push(point(1_073_741_824, 2560))?;
    let mut subpaths = Sequence::new(rt.alloc());
    subpaths.push(Subpath {
        points: far,
        closed: false,
    })?;
    let refused = outlines(rt.alloc(), pen, subpaths.as_slice());
    assert!(rt; refused.is_err());
    Ok(())
}
