use crate::{DevicePoint, Paper, Path, Point, Polygon, Polygons, Real, Segment, Span, Thresholds};
use copy_lists::NoMemory;
use std::alloc::Global;
use std::test::Fail;

fn triangle(alloc: Global) -> Result<Polygons, NoMemory> {
    let mut polygon = Polygon::new(alloc);
    polygon.push(Point { x: 0, y: 0 })?;
    polygon.push(Point { x: 256, y: 0 })?;
    polygon.push(Point { x: 0, y: 256 })?;
    let mut polygons = Polygons::new(alloc);
    polygons.push(polygon)?;
    Ok(polygons)
}

fn closed(alloc: Global) -> Result<Path, NoMemory> {
    let corner = DevicePoint {
        x: Real { count: 0 },
        y: Real { count: 0 },
    };
    let mut path = Path::new(alloc);
    path.push(Segment::Move(corner))?;
    path.push(Segment::Close)?;
    Ok(path)
}

#[test]
fn papers_are_packed(rt: HostRuntime) -> Result<(), Fail> {
    let mut paper = Paper::blank(rt.alloc(), 20, 2)?;
    assert!(rt; paper.is_blank());
    paper.fill(
        Span {
            row: 1,
            first: 6,
            past: 19,
        },
        true,
    );
    assert_eq!(rt; paper.as_bytes(), [0, 0, 0, 0x03, 0xff, 0xe0].as_slice());
    assert!(rt; paper.copy()? == paper);
    assert!(rt; paper != Paper::blank(rt.alloc(), 20, 2)?);
    Ok(())
}

#[test]
fn copies_are_equal(rt: HostRuntime) -> Result<(), Fail> {
    let polygons = triangle(rt.alloc())?;
    assert!(rt; polygons.copy()? == polygons);
    let path = closed(rt.alloc())?;
    assert!(rt; path.copy()? == path);
    let thresholds = Thresholds::new(rt.alloc(), 2, 1, [7, 0].as_slice())?;
    assert!(rt; thresholds.copy()? == thresholds);
    assert!(rt; thresholds != Thresholds::none(rt.alloc()));
    Ok(())
}
