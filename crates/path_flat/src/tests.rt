//! Paths by lines and as polygons.
use super::*;
use ps_shapes::{DevicePoint, Path, Polygons, Real, Segment};
use std::test::Fail;

fn at(x: i16, y: i16) -> DevicePoint {
    DevicePoint {
        x: Real {
            count: x as i64 * 16_777_216,
        },
        y: Real {
            count: y as i64 * 16_777_216,
        },
    }
}

fn corner(polygons: &Polygons, polygon: usize, place: usize) -> Option<(i32, i32)> {
    match polygons.get(polygon) {
        None => None,
        Some(points) => match points.get(place) {
            None => None,
            Some(point) => Some((point.x, point.y)),
        },
    }
}

fn is_closed(subpaths: &SubpathList, place: usize) -> Option<bool> {
    match subpaths.get(place) {
        None => None,
        Some(subpath) => Some(subpath.closed),
    }
}

#[test]
fn subpaths_become_polygons(rt: HostRuntime) -> Result<(), Fail> {
    let mut path = Path::new(rt.alloc());
    path.push(Segment::Move(at(1, 2)))?;
    path.push(Segment::Line(at(3, 4)))?;
    path.push(Segment::Close)?;
    path.push(Segment::Line(at(5, 6)))?;
    path.push(Segment::Move(at(7, 7)))?;
    path.push(Segment::Move(at(8, 8)))?;
    path.push(Segment::Close)?;
    path.push(Segment::Move(at(9, 9)))?;
    let polygons = flat(rt.alloc(), &path)?;
    assert!(rt; polygons.len() == 3);
    assert!(rt; corner(&polygons, 0, 0) == Some((256, 512)));
    assert!(rt; corner(&polygons, 0, 1) == Some((768, 1024)));
    assert!(rt; corner(&polygons, 0, 2) == None);
    assert!(rt; corner(&polygons, 1, 0) == Some((256, 512)));
    assert!(rt; corner(&polygons, 1, 1) == Some((1280, 1536)));
    assert!(rt; corner(&polygons, 2, 0) == Some((2048, 2048)));
    assert!(rt; corner(&polygons, 2, 1) == None);
    let subpaths = subpaths(rt.alloc(), &path)?;
    assert!(rt; is_closed(&subpaths, 0) == Some(true));
    assert!(rt; is_closed(&subpaths, 1) == Some(false));
    assert!(rt; is_closed(&subpaths, 2) == Some(true));
    assert!(rt; is_closed(&subpaths, 3) == None);
    Ok(())
}

#[test]
fn curves_become_lines(rt: HostRuntime) -> Result<(), Fail> {
    let mut path = Path::new(rt.alloc());
    path.push(Segment::Move(at(0, 0)))?;
    path.push(Segment::Curve(at(0, 32), at(32, 32), at(32, 0)))?;
    let lines = flattened(rt.alloc(), &path)?;
    assert!(rt; lines.as_slice().len() == 33);
    let polygons = flat(rt.alloc(), &path)?;
    assert!(rt; corner(&polygons, 0, 1) == Some((24, 744)));
    assert!(rt; corner(&polygons, 0, 16) == Some((4096, 6144)));
    assert!(rt; corner(&polygons, 0, 32) == Some((8192, 0)));
    assert!(rt; corner(&polygons, 0, 33) == None);
    assert!(rt; curve_point(16, at(0, 0), at(0, 32), at(32, 32), at(32, 0)) == at(16, 24));
    assert!(rt; pixel_point(at(-1, 2)).x == -256);
    Ok(())
}

#[test]
fn halves_are_rounded_upward(rt: HostRuntime) -> Result<(), Fail> {
    let point = pixel_point(DevicePoint {
        x: Real { count: 32_768 },
        y: Real { count: -32_768 },
    });
    assert!(rt; point.x == 1);
    assert!(rt; point.y == 0);
    Ok(())
}

#[test]
fn points_are_counted(rt: HostRuntime) -> Result<(), Fail> {
    let mut path = Path::new(rt.alloc());
    for _ in 0..100_000 {
        path.push(Segment::Move(at(1, 1)))?;
    }
    assert!(rt; flattens_within_limit(path.as_slice()));
    path.push(Segment::Move(at(1, 1)))?;
    assert!(rt; !flattens_within_limit(path.as_slice()));
    match flat(rt.alloc(), &path) {
        Ok(_) => assert!(rt; false),
        Err(refusal) => assert!(rt; refusal == FlatRefusal::Limit),
    }
    Ok(())
}
