use crate::cover;
use copy_lists::NoMemory;
use ps_shapes::{Point, Polygon, Polygons, Rule, Span};
use std::alloc::Global;
use std::process::Abort;
use std::test::Fail;

type Corner = (i32, i32);

fn polygon_of(alloc: Global, corners: &[Corner]) -> Result<Polygon, NoMemory> {
    let mut polygon = Polygon::new(alloc);
    for &(x, y) in corners {
        polygon.push(Point {
            x: x.clamp(-1_073_741_824, 1_073_741_824),
            y: y.clamp(-1_073_741_824, 1_073_741_824),
        })?;
    }
    Ok(polygon)
}

fn polygons_of(alloc: Global, outlines: &[&[Corner]]) -> Result<Polygons, NoMemory> {
    let mut polygons = Polygons::new(alloc);
    for outline in outlines {
        polygons.push(polygon_of(alloc, outline)?)?;
    }
    Ok(polygons)
}

/// Whether the edge lies left of the point at its height, or on it.
fn is_crossed(from: Corner, to: Corner, x: i64, y: i64) -> bool {
    let (x0, y0) = (i64::from(from.0), i64::from(from.1));
    let (x1, y1) = (i64::from(to.0), i64::from(to.1));
    let run = x1.wrapping_sub(x0).wrapping_mul(y.wrapping_sub(y0));
    let room = x.wrapping_sub(x0).wrapping_mul(y1.wrapping_sub(y0));
    if y0 < y1 {
        y0 <= y && y < y1 && run <= room
    } else {
        y1 <= y && y < y0 && run >= room
    }
}

/// The sum of the directions of the edges that the point crosses, and their number.
fn winding(outline: &[Corner], x: i64, y: i64) -> (i64, i64) {
    let mut sum = 0i64;
    let mut count = 0i64;
    let Some(&last) = outline.last() else {
        return (0, 0);
    };
    let mut from = last;
    for &to in outline {
        if is_crossed(from, to, x, y) {
            sum = sum.wrapping_add(if from.1 < to.1 { 1 } else { -1 });
            count = count.wrapping_add(1);
        }
        from = to;
    }
    (sum, count)
}

fn is_inside(outlines: &[&[Corner]], rule: Rule, x: u32, y: u32) -> bool {
    let mut sum = 0i64;
    let mut count = 0i64;
    let mut any = false;
    for outline in outlines {
        let of_one = winding(outline, 256 * i64::from(x) + 128, 256 * i64::from(y) + 128);
        sum = sum.wrapping_add(of_one.0);
        count = count.wrapping_add(of_one.1);
        any = any || of_one.0 != 0;
    }
    match rule {
        Rule::NonZero => sum != 0,
        Rule::EvenOdd => count & 1 == 1,
        Rule::AnyOf => any,
    }
}

fn is_in_spans(spans: &[Span], x: u32, y: u32) -> bool {
    spans
        .iter()
        .any(|span| span.row == y && span.first <= x && x < span.past)
}

/// Compares each pixel of a paper with the rule, looked at alone.
fn agrees(
    rt: &impl Abort,
    alloc: Global,
    outlines: &[&[Corner]],
    size: u32,
) -> Result<(), NoMemory> {
    let polygons = polygons_of(alloc, outlines)?;
    for rule in [Rule::NonZero, Rule::EvenOdd, Rule::AnyOf] {
        let spans = cover(alloc, &polygons, rule, size, size)?;
        for y in 0..size {
            for x in 0..size {
                let painted = is_in_spans(spans.as_slice(), x, y);
                assert!(rt;
                    painted == is_inside(outlines, rule, x, y),
                    "{rule:?} at {x}, {y}"
                );
            }
        }
    }
    Ok(())
}

/// A circle's corners, by turning a pointer a little at a time.
fn thousand_gon(alloc: Global) -> Result<Vec<Corner>, NoMemory> {
    let mut corners = Vec::new(alloc);
    let mut x = 4_000_000i32;
    let mut y = 0i32;
    for _ in 0..1000 {
        corners.push((
            5_000 + (x / 1000).clamp(-5_000, 5_000),
            5_000 + (y / 1000).clamp(-5_000, 5_000),
        ))?;
        x = x.wrapping_sub(y / 159);
        y = y.wrapping_add(x / 159);
    }
    Ok(corners)
}

const SQUARE: &[Corner] = &[(256, 256), (1280, 256), (1280, 1280), (256, 1280)];

const TURNED_SQUARE: &[Corner] = &[(256, 256), (256, 1280), (1280, 1280), (1280, 256)];

const ON_CENTRES: &[Corner] = &[(128, 128), (2176, 640), (640, 2176)];

const THROUGH_CENTRES: &[Corner] = &[(128, 1152), (1152, 128), (2176, 1152), (1152, 2176)];

const STAR: &[Corner] = &[(1280, 0), (2064, 2432), (0, 928), (2560, 928), (496, 2432)];

const FLAT: &[Corner] = &[(100, 384), (2000, 384), (1000, 384)];

const BIG: &[Corner] = &[
    (-1_000_000_000, -5_000),
    (1_073_741_824, -90_000),
    (1_000_000_000, 7_777),
    (-1_073_741_824, 1_111),
];

const RIGHT: &[Corner] = &[(2000, 700), (90_000, 600), (90_000, 1800)];

const LEFT: &[Corner] = &[(700, 300), (-90_000, 600), (-90_000, 1900)];

const ABOVE: &[Corner] = &[(300, 500), (1000, -70_000), (2200, 400)];

const BELOW: &[Corner] = &[(300, 2000), (1300, 70_000), (2200, 2100)];

const OFF: &[Corner] = &[(3000, 0), (4000, 0), (4000, 9000), (3000, 9000)];

const CASES: [&[&[Corner]]; 8] = [
    &[],
    &[&[], &[(300, 300)], FLAT],
    &[SQUARE, TURNED_SQUARE],
    &[SQUARE, SQUARE, ON_CENTRES],
    &[THROUGH_CENTRES, ON_CENTRES],
    &[RIGHT, LEFT, ABOVE, BELOW, OFF],
    &[BIG],
    &[STAR],
];

#[test]
fn each_pixel_alone(rt: HostRuntime) -> Result<(), Fail> {
    for outlines in CASES {
        agrees(&rt, rt.alloc(), outlines, 10)?;
    }
    let round = thousand_gon(rt.alloc())?;
    agrees(&rt, rt.alloc(), &[round.as_slice()], 40)?;
    Ok(())
}

#[test]
fn a_star_under_both_rules(rt: HostRuntime) -> Result<(), Fail> {
    let star = polygons_of(rt.alloc(), &[STAR])?;
    let whole = cover(rt.alloc(), &star, Rule::NonZero, 10, 10)?;
    let open = cover(rt.alloc(), &star, Rule::EvenOdd, 10, 10)?;
    // The middle is wound twice, and the upper point once.
    assert!(rt; is_in_spans(whole.as_slice(), 5, 5) && !is_in_spans(open.as_slice(), 5, 5));
    assert!(rt; is_in_spans(whole.as_slice(), 5, 2) && is_in_spans(open.as_slice(), 5, 2));
    assert!(rt; !is_in_spans(whole.as_slice(), 1, 1));
    Ok(())
}
