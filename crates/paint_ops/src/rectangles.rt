//! Rectangles that are painted (section 8.2 of the language manual).
ghost use Rattle.std.specs.Prelude.{◌≡◌, ◌++◌, ◌+◌, ◌≤◌, [], ◌∷◌, length, slice_get, Some, OnOk};
ghost use Rattle.ps_meaning.specs.Ready.{Ready};
ghost use Rattle.ps_objects.specs.Operands.{Reads};
ghost use Rattle.ps_operator.specs.Owes.{Does};
ghost use Rattle.paint_ops.specs.Rectangles as spec;

use crate::outlines::polygons_of;
use crate::painting::paint_polygons;
use ps_fixed::sub;
use ps_kinds::{
    DevicePoint, ErrorName, Interval, Kind, Matrix, NoMemory, Number, Object, Objects, Operands,
    Path, Polygons, Real, Refusal, Rule, Segment, Sequence, State,
};
use ps_operator::{Mem, items_of};
use real_operands::{as_real, defined, moved, placed, point_at};
use std::alloc::Global;

/// A rectangle in user space.
#[derive(Clone, Copy)]
pub(crate) struct Rectangle {
    pub(crate) x: Real,
    pub(crate) y: Real,
    pub(crate) width: Real,
    pub(crate) height: Real,
}

/// The corners of a rectangle on the device, in the order in which they are drawn.
#[derive(Clone, Copy)]
pub(crate) struct Corners {
    pub(crate) first: DevicePoint,
    pub(crate) second: DevicePoint,
    pub(crate) third: DevicePoint,
    pub(crate) fourth: DevicePoint,
}

const NOUGHT: Real = Real { count: 0 };

/// The corners of a rectangle: undefinedresult, limitcheck.
fn corners_of(matrix: &Matrix, rectangle: Rectangle) -> Result<Corners, ErrorName>
    ensures { result ≡ spec.corners_of matrix.now rectangle }
{
    let first = placed(matrix, rectangle.x, rectangle.y)?;
    let second = moved(matrix, first, rectangle.width, NOUGHT)?;
    let third = moved(matrix, second, NOUGHT, rectangle.height)?;
    let back = defined(sub(NOUGHT, rectangle.width))?;
    let fourth = moved(matrix, third, back, NOUGHT)?;
    Ok(Corners {
        first,
        second,
        third,
        fourth,
    })
}

/// Appends a closed subpath through the corners.
#[tactic(auto, using(crate::proofs::Drawing::has_begun, crate::proofs::Drawing::is_outlined))]
fn draw(path: &mut Path, corners: Corners) -> Result<(), NoMemory>
    ensures { OnOk result (path.new ≡ path.old ++ spec.outline corners) }
{
    path.push(Segment::Move(corners.first))?;
    path.push(Segment::Line(corners.second))?;
    path.push(Segment::Line(corners.third))?;
    path.push(Segment::Line(corners.fourth))?;
    path.push(Segment::Close)
}

/// The rectangle that four numbers tell.
fn rectangle_at(numbers: &[Real], at: usize) -> Rectangle
    requires { at + 4 ≤ length numbers.now }
    ensures x { slice_get numbers.now at ≡ Some result.x }
    ensures y { slice_get numbers.now (at + 1) ≡ Some result.y }
    ensures width { slice_get numbers.now (at + 2) ≡ Some result.width }
    ensures height { slice_get numbers.now (at + 3) ≡ Some result.height }
{
    Rectangle {
        x: numbers[at],
        y: numbers[at + 1],
        width: numbers[at + 2],
        height: numbers[at + 3],
    }
}

/// The path of rectangles, four numbers each: undefinedresult, limitcheck.
fn path_of(alloc: Global, matrix: &Matrix, numbers: &[Real]) -> Result<Path, Refusal>
    ensures { Reads (spec.drawn_behind matrix.now [] numbers.now) result }
{
    let mut path = Path::new(alloc);
    for n in 0..numbers.len() / 4 {
        match corners_of(matrix, rectangle_at(numbers, 4 * n)) {
            Ok(corners) => draw(&mut path, corners)?,
            Err(error) => return Err(Refusal::Error(error)),
        }
    }
    Ok(path)
}

/// The polygons of rectangles, four numbers each: undefinedresult, limitcheck.
#[tactic(auto, unfolding(crate::specs::Rectangles::rectangle_polygons))]
pub(crate) fn rectangle_polygons(
    alloc: Global,
    matrix: &Matrix,
    numbers: &[Real],
) -> Result<Polygons, Refusal>
    ensures { Reads (spec.rectangle_polygons matrix.now numbers.now) result }
{
    let path = path_of(alloc, matrix, numbers)?;
    polygons_of(alloc, &path)
}

/// Whether an array has four items for each rectangle: rangecheck.
fn fours(array: Interval) -> Result<(), ErrorName>
    ensures { result ≡ spec.fours array }
{
    if array.len % 4 == 0 {
        Ok(())
    } else {
        Err(ErrorName::RangeCheck)
    }
}

/// The number that an item is: typecheck.
fn real_in(kind: &Kind) -> Result<Real, ErrorName>
    ensures { result ≡ spec.real_in kind.now }
{
    match kind {
        Kind::Integer(n) => Ok(as_real(Number::Integer(*n))),
        Kind::Real(real) => Ok(*real),
        _ => Err(ErrorName::TypeCheck),
    }
}

/// The numbers that items are: typecheck.
#[tactic(auto, using(crate::proofs::Drawing::real_read, crate::proofs::Drawing::real_refused, crate::proofs::Drawing::reals_read))]
fn reals_of(alloc: Global, items: &[Object]) -> Result<Sequence<Real>, Refusal>
    ensures { Reads (spec.reals_behind [] items.now) result }
{
    let mut reals = Sequence::new(alloc);
    for at in 0..items.len() {
        match real_in(&items[at].kind) {
            Ok(real) => reals.push(real)?,
            Err(error) => return Err(Refusal::Error(error)),
        }
    }
    Ok(reals)
}

/// Paints rectangles in the place of so many operands.
#[tactic(auto, using(crate::proofs::Papers::paints_so))]
fn fill_all<M: Mem>(
    state: &mut State,
    count: usize,
    numbers: &[Real],
    mem: &mut M,
) -> Result<(), Refusal>
    requires ready { Ready state.old (M.log mem.old).view }
    requires count { count ≤ length state.old.regs.operands }
    ensures { Does (λ s. spec.fills_all s count numbers.now) state.old (M.log mem.old)
        result state.new (M.log mem.new) }
{
    let alloc = state.regs.operands.alloc();
    let polygons = rectangle_polygons(alloc, &state.regs.state.ctm, numbers)?;
    paint_polygons(state, Rule::NonZero, &polygons, mem)?;
    state.regs.operands.shrink(count);
    Ok(())
}

/// Paints one rectangle, whose numbers are operands.
fn fill_one<M: Mem>(state: &mut State, mem: &mut M) -> Result<(), Refusal>
    requires { Ready state.old (M.log mem.old).view }
    ensures { Does spec.fills_one state.old (M.log mem.old) result state.new (M.log mem.new) }
{
    let operands = &state.regs.operands;
    operands.need(4)?;
    let (width, height) = point_at(operands, 0)?;
    let (x, y) = point_at(operands, 2)?;
    let numbers = [x, y, width, height];
    fill_all(state, 4, numbers.as_slice(), mem)
}

/// Paints the rectangles whose numbers are items of an array.
#[tactic(auto, using(ps_operator::proofs::Then::answer_then, ps_operator::proofs::Standing::array_stands))]
fn fill_array<M: Mem>(state: &mut State, mem: &mut M) -> Result<(), Refusal>
    requires { Ready state.old (M.log mem.old).view }
    ensures { Does spec.fills_array state.old (M.log mem.old) result state.new (M.log mem.new) }
{
    let operands = &state.regs.operands;
    let alloc = operands.alloc();
    let array = operands.array(0)?;
    operands.readable(0)?;
    fours(array)?;
    let items = items_of(alloc, array, mem)?;
    let numbers = reals_of(alloc, items.as_slice())?;
    fill_all(state, 1, numbers.as_slice(), mem)
}

/// Whether the newest operand is an array.
fn is_array_next(operands: &Objects) -> bool
    ensures { result ≡ spec.is_array_next operands.now }
{
    operands.array(0).is_ok()
}

#[tactic(auto, using(crate::proofs::Drawing::does_array, crate::proofs::Drawing::does_one))]
pub(crate) fn rectfill<M: Mem>(state: &mut State, mem: &mut M) -> Result<(), Refusal>
    requires { Ready state.old (M.log mem.old).view }
    ensures { Does spec.rectfill state.old (M.log mem.old) result state.new (M.log mem.new) }
{
    if is_array_next(&state.regs.operands) {
        fill_array(state, mem)
    } else {
        fill_one(state, mem)
    }
}
