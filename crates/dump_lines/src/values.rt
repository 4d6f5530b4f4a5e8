//! The values of the fields of a graphics state, as texts of their own.
ghost use Rattle.std.specs.Prelude.{◌≡◌, ◌++◌, IfOk, OnOk};
ghost use Rattle.std.specs.Fmt.{decimal};
ghost use Rattle.ps_shapes.specs.declared.path.Segment.TheVariants.{Curve};
ghost use Rattle.dump_lines.specs.Objects as objects;
ghost use Rattle.dump_lines.specs.Values as spec;
ghost use Rattle.dump_lines.specs.Values.{spaced, parted};

use crate::hex::push_hex;
use crate::objects::{push_decimal, push_object, push_signed};
use copy_lists::{NoMemory, Text};
use ps_kinds::{
    Clip, Colour, DevicePoint, LineCap, LineJoin, Matrix, Object, Point, Polygon, Real, Rule,
    Segment, Thresholds,
};
use std::alloc::Global;

/// Appends a real as its count.
fn push_count(text: &mut Text, real: Real) -> Result<(), NoMemory>
    ensures { OnOk result (text.new ≡ text.old ++ spec.count_text real) }
{
    push_signed(text, real.count)
}

/// A real as its count.
pub(crate) fn count_text(alloc: Global, real: Real) -> Result<Text, NoMemory>
    ensures { IfOk result (λ text. text ≡ spec.count_text real) }
{
    let mut text = Text::new(alloc);
    push_count(&mut text, real)?;
    Ok(text)
}

/// A whole number.
pub(crate) fn decimal_text(alloc: Global, n: u32) -> Result<Text, NoMemory>
    ensures { IfOk result (λ text. text ≡ decimal n) }
{
    let mut text = Text::new(alloc);
    push_decimal(&mut text, n)?;
    Ok(text)
}

/// An object.
pub(crate) fn object_text(alloc: Global, object: &Object) -> Result<Text, NoMemory>
    ensures { IfOk result (λ text. text ≡ objects.object_text object.now) }
{
    let mut text = Text::new(alloc);
    push_object(&mut text, object)?;
    Ok(text)
}

/// Appends reals behind a space each.
#[tactic(auto, using(crate::proofs::Pieces::one_more_spaced))]
fn push_spaced_counts(text: &mut Text, reals: &[Real]) -> Result<(), NoMemory>
    ensures { OnOk result (text.new ≡ text.old ++ spaced spec.count_text reals.now) }
{
    for real in reals {
        text.push(b' ')?;
        push_count(text, *real)?;
    }
    Ok(())
}

/// Appends reals with a space between them.
fn push_counts(text: &mut Text, reals: &[Real]) -> Result<(), NoMemory>
    ensures { OnOk result (text.new ≡ text.old ++ parted spec.count_text reals.now) }
{
    match reals.split_first() {
        Some((first, others)) => {
            push_count(text, *first)?;
            push_spaced_counts(text, others)
        }
        None => Ok(()),
    }
}

/// The list of reals.
pub(crate) fn lengths_text(alloc: Global, reals: &[Real]) -> Result<Text, NoMemory>
    ensures { IfOk result (λ text. text ≡ spec.lengths_text reals.now) }
{
    let mut text = Text::from_bytes(alloc, b"[")?;
    push_counts(&mut text, reals)?;
    text.push(b']')?;
    Ok(text)
}

/// A matrix as its six counts.
pub(crate) fn matrix_text(alloc: Global, matrix: &Matrix) -> Result<Text, NoMemory>
    ensures { IfOk result (λ text. text ≡ spec.matrix_text matrix.now) }
{
    let counts = [matrix.a, matrix.b, matrix.c, matrix.d, matrix.tx, matrix.ty];
    lengths_text(alloc, &counts)
}

/// Appends a point of a path.
#[tactic(auto, using(crate::proofs::Pieces::three_pieces))]
fn push_point(text: &mut Text, point: DevicePoint) -> Result<(), NoMemory>
    ensures { OnOk result (text.new ≡ text.old ++ spec.point_text point) }
{
    push_count(text, point.x)?;
    text.push(b' ')?;
    push_count(text, point.y)
}

/// Appends a curve.
#[tactic(auto, using(crate::proofs::Pieces::six_pieces))]
fn push_curve(
    text: &mut Text,
    first: DevicePoint,
    second: DevicePoint,
    end: DevicePoint,
) -> Result<(), NoMemory>
    ensures { OnOk result (text.new ≡ text.old ++ spec.segment_text (Curve first second end)) }
{
    text.extend(b"c ")?;
    push_point(text, first)?;
    text.push(b' ')?;
    push_point(text, second)?;
    text.push(b' ')?;
    push_point(text, end)
}

/// Appends a letter and a point.
#[tactic(auto, using(crate::proofs::Pieces::two_pieces))]
fn push_lettered(text: &mut Text, letter: &[u8], point: DevicePoint) -> Result<(), NoMemory>
    ensures { OnOk result (text.new ≡ text.old ++ (letter.now ++ spec.point_text point)) }
{
    text.extend(letter)?;
    push_point(text, point)
}

/// Appends a segment.
fn push_segment(text: &mut Text, segment: &Segment) -> Result<(), NoMemory>
    ensures { OnOk result (text.new ≡ text.old ++ spec.segment_text segment.now) }
{
    match segment {
        Segment::Move(point) => push_lettered(text, b"m ", *point),
        Segment::Line(point) => push_lettered(text, b"l ", *point),
        Segment::Curve(first, second, end) => push_curve(text, *first, *second, *end),
        Segment::Close => text.push(b'z'),
    }
}

/// Appends segments behind a space each.
#[tactic(auto, using(crate::proofs::Pieces::one_more_spaced))]
fn push_spaced_segments(text: &mut Text, segments: &[Segment]) -> Result<(), NoMemory>
    ensures { OnOk result (text.new ≡ text.old ++ spaced spec.segment_text segments.now) }
{
    for segment in segments {
        text.push(b' ')?;
        push_segment(text, segment)?;
    }
    Ok(())
}

/// Appends segments with a space between them.
fn push_segments(text: &mut Text, segments: &[Segment]) -> Result<(), NoMemory>
    ensures { OnOk result (text.new ≡ text.old ++ parted spec.segment_text segments.now) }
{
    match segments.split_first() {
        Some((first, others)) => {
            push_segment(text, first)?;
            push_spaced_segments(text, others)
        }
        None => Ok(()),
    }
}

/// The list of the segments of a path.
pub(crate) fn path_text(alloc: Global, segments: &[Segment]) -> Result<Text, NoMemory>
    ensures { IfOk result (λ text. text ≡ spec.path_text segments.now) }
{
    let mut text = Text::from_bytes(alloc, b"[")?;
    push_segments(&mut text, segments)?;
    text.push(b']')?;
    Ok(text)
}

/// Appends a corner of a polygon.
#[tactic(auto, using(crate::proofs::Pieces::three_pieces))]
fn push_corner(text: &mut Text, corner: Point) -> Result<(), NoMemory>
    ensures { OnOk result (text.new ≡ text.old ++ spec.corner_text corner) }
{
    push_signed(text, corner.x as i64)?;
    text.push(b' ')?;
    push_signed(text, corner.y as i64)
}

/// Appends corners behind a space each.
#[tactic(auto, using(crate::proofs::Pieces::one_more_spaced))]
fn push_spaced_corners(text: &mut Text, corners: &[Point]) -> Result<(), NoMemory>
    ensures { OnOk result (text.new ≡ text.old ++ spaced spec.corner_text corners.now) }
{
    for corner in corners {
        text.push(b' ')?;
        push_corner(text, *corner)?;
    }
    Ok(())
}

/// Appends corners with a space between them.
fn push_corners(text: &mut Text, corners: &[Point]) -> Result<(), NoMemory>
    ensures { OnOk result (text.new ≡ text.old ++ parted spec.corner_text corners.now) }
{
    match corners.split_first() {
        Some((first, others)) => {
            push_corner(text, *first)?;
            push_spaced_corners(text, others)
        }
        None => Ok(()),
    }
}

/// Appends the list of the corners of a polygon.
#[tactic(auto, using(crate::proofs::Pieces::three_pieces))]
fn push_polygon(text: &mut Text, polygon: &Polygon) -> Result<(), NoMemory>
    ensures { OnOk result (text.new ≡ text.old ++ spec.polygon_text polygon.now) }
{
    text.push(b'[')?;
    push_corners(text, polygon.as_slice())?;
    text.push(b']')
}

/// Appends polygons behind a space each.
#[tactic(auto, using(crate::proofs::Pieces::one_more_spaced))]
fn push_polygons(text: &mut Text, polygons: &[Polygon]) -> Result<(), NoMemory>
    ensures { OnOk result (text.new ≡ text.old ++ spaced spec.polygon_text polygons.now) }
{
    for polygon in polygons {
        text.push(b' ')?;
        push_polygon(text, polygon)?;
    }
    Ok(())
}

/// The letter of a rule.
fn rule_letter(rule: Rule) -> &'static [u8]
    ensures { result.now ≡ spec.rule_text rule }
{
    match rule {
        Rule::NonZero => b"n",
        Rule::EvenOdd => b"e",
        Rule::AnyOf => b"a",
    }
}

/// Appends a clip.
#[tactic(auto, using(crate::proofs::Pieces::two_pieces))]
fn push_clip(text: &mut Text, clip: &Clip) -> Result<(), NoMemory>
    ensures { OnOk result (text.new ≡ text.old ++ spec.clip_text clip.now) }
{
    text.extend(rule_letter(clip.rule))?;
    push_polygons(text, clip.polygons.as_slice())
}

/// Appends clips behind a space each.
#[tactic(auto, using(crate::proofs::Pieces::one_more_spaced))]
fn push_spaced_clips(text: &mut Text, clips: &[Clip]) -> Result<(), NoMemory>
    ensures { OnOk result (text.new ≡ text.old ++ spaced spec.clip_text clips.now) }
{
    for clip in clips {
        text.push(b' ')?;
        push_clip(text, clip)?;
    }
    Ok(())
}

/// Appends clips with a space between them.
fn push_clips(text: &mut Text, clips: &[Clip]) -> Result<(), NoMemory>
    ensures { OnOk result (text.new ≡ text.old ++ parted spec.clip_text clips.now) }
{
    match clips.split_first() {
        Some((first, others)) => {
            push_clip(text, first)?;
            push_spaced_clips(text, others)
        }
        None => Ok(()),
    }
}

/// The list of clips.
pub(crate) fn clips_text(alloc: Global, clips: &[Clip]) -> Result<Text, NoMemory>
    ensures { IfOk result (λ text. text ≡ spec.clips_text clips.now) }
{
    let mut text = Text::from_bytes(alloc, b"[")?;
    push_clips(&mut text, clips)?;
    text.push(b']')?;
    Ok(text)
}

/// The name of a colour space.
pub(crate) fn space_name(colour: &Colour) -> &'static [u8]
    ensures { result.now ≡ spec.space_text colour.now }
{
    match colour {
        Colour::Gray(_) => b"/DeviceGray",
        Colour::Rgb(_, _, _) => b"/DeviceRGB",
        Colour::Cmyk(_, _, _, _) => b"/DeviceCMYK",
    }
}

/// No colour.
fn no_ink() -> Real
    ensures { result ≡ spec.no_ink }
{
    Real { count: 0 }
}

/// The first component of a colour.
pub(crate) fn first_of(colour: &Colour) -> Real
    ensures { result ≡ spec.first_of colour.now }
{
    match colour {
        Colour::Gray(gray) => gray.real(),
        Colour::Rgb(red, _, _) => red.real(),
        Colour::Cmyk(cyan, _, _, _) => cyan.real(),
    }
}

/// The second component of a colour, 0 where its space has none.
pub(crate) fn second_of(colour: &Colour) -> Real
    ensures { result ≡ spec.second_of colour.now }
{
    match colour {
        Colour::Gray(_) => no_ink(),
        Colour::Rgb(_, green, _) => green.real(),
        Colour::Cmyk(_, magenta, _, _) => magenta.real(),
    }
}

/// The third component of a colour, 0 where its space has none.
pub(crate) fn third_of(colour: &Colour) -> Real
    ensures { result ≡ spec.third_of colour.now }
{
    match colour {
        Colour::Gray(_) => no_ink(),
        Colour::Rgb(_, _, blue) => blue.real(),
        Colour::Cmyk(_, _, yellow, _) => yellow.real(),
    }
}

/// The fourth component of a colour, 0 where its space has none.
pub(crate) fn fourth_of(colour: &Colour) -> Real
    ensures { result ≡ spec.fourth_of colour.now }
{
    match colour {
        Colour::Gray(_) | Colour::Rgb(_, _, _) => no_ink(),
        Colour::Cmyk(_, _, _, black) => black.real(),
    }
}

/// The number of a cap.
pub(crate) fn cap_digit(cap: LineCap) -> &'static [u8]
    ensures { result.now ≡ spec.cap_text cap }
{
    match cap {
        LineCap::Butt => b"0",
        LineCap::Round => b"1",
        LineCap::Square => b"2",
    }
}

/// The number of a join.
pub(crate) fn join_digit(join: LineJoin) -> &'static [u8]
    ensures { result.now ≡ spec.join_text join }
{
    match join {
        LineJoin::Miter => b"0",
        LineJoin::Round => b"1",
        LineJoin::Bevel => b"2",
    }
}

/// Thresholds as the width, the height and the bytes in hex.
pub(crate) fn thresholds_text(alloc: Global, thresholds: &Thresholds) -> Result<Text, NoMemory>
    ensures { IfOk result (λ text. text ≡ spec.thresholds_text thresholds.now) }
{
    let mut text = Text::new(alloc);
    push_decimal(&mut text, thresholds.width())?;
    text.push(b' ')?;
    push_decimal(&mut text, thresholds.height())?;
    text.push(b' ')?;
    push_hex(&mut text, thresholds.as_bytes())?;
    Ok(text)
}
