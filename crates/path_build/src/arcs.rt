//! Arcs of circles, as curves (section 8.2 of the language manual).
ghost use Rattle.std.specs.Prelude.{◌≡◌, ◌≤◌, ◌<◌, ◌*◌, ◌^◌, ◌*ℤ◌, pos, [], ◌∷◌, ◌++◌, length, unsigned_abs, Ok, IfOk, MatchResult, OnOk};
ghost use Rattle.std.specs.Int.{int_div_euclid};
ghost use Rattle.ps_operator.specs.Owes.{DoesAlone};
ghost use Rattle.path_build.specs.Arcs as spec;
ghost use Rattle.path_build.specs.Paths.{with_segment};

use crate::paths::point_room;
use crate::points::curve_of;
use ps_fixed::{Undefined, add, cos, div, mul, sin, sub};
use ps_kinds::{
    DevicePoint, ErrorName, Matrix, NoMemory, Objects, Operands, Path, Real, Refusal, Segment,
    State,
};
use real_operands::{defined, placed, point_at, real_at};
use std::alloc::Global;

/// 360 degrees in counts.
const FULL_TURN: i128 = 360 << 24;

/// 90 degrees in counts.
const QUARTER_TURN: u64 = 90 << 24;

/// Which way an arc turns.
#[derive(Clone, Copy)]
pub(crate) enum Turn {
    Up,
    Down,
}

/// An arc of a circle in user space.
#[derive(Clone, Copy)]
pub(crate) struct Sweep {
    pub x: Real,
    pub y: Real,
    pub radius: Real,

    /// The angle where it begins, in degrees.
    pub first: Real,

    /// How far it turns, in counts of 2^-24 degree.
    pub way: i64,

    /// In how many curves of at most 90 degrees.
    pub pieces: u64,
}

/// From one angle up to another, which is raised by whole turns until it isn't below the first.
fn raised(from: i64, to: i64) -> i128
    ensures value { result ≡ spec.raised from to }
    ensures bound { unsigned_abs result < 2 ^ 64 }
{
    let way = to as i128 - from as i128;
    if way >= 0 {
        way
    } else {
        way.rem_euclid(FULL_TURN)
    }
}

fn way_of(turn: Turn, from: i64, to: i64) -> i128
    ensures { result ≡ spec.way_of turn from to }
{
    match turn {
        Turn::Up => raised(from, to),
        Turn::Down => -raised(to, from),
    }
}

/// At most ten turns: limitcheck.
fn turn_right(way: i128) -> Result<i64, ErrorName>
    ensures value { result ≡ spec.turn_right way }
    ensures bound { IfOk result (λ right. unsigned_abs right ≤ spec.farthest) }
{
    if way.unsigned_abs() > 10 * FULL_TURN as u128 {
        Err(ErrorName::LimitCheck)
    } else {
        Ok(way as i64)
    }
}

/// The least number of pieces of at most 90 degrees.
fn pieces_of(way: i64) -> u64
    requires { unsigned_abs way ≤ spec.farthest }
    ensures value { result ≡ spec.pieces_of way }
    ensures few { result ≤ 40 }
{
    (way.unsigned_abs() + (QUARTER_TURN - 1)) / QUARTER_TURN
}

/// A whole number as a real.
fn whole(n: u32) -> Real
    ensures { result ≡ spec.whole n }
{
    Real {
        count: n as i64 * 16_777_216,
    }
}

/// Minus the sine of an angle.
fn against_sine(angle: Real) -> Real
    ensures { result ≡ spec.against_sine angle }
{
    Real {
        count: -sin(angle).count,
    }
}

/// So many times a way.
#[tactic(auto, using(crate::proofs::Shares::product_bound))]
fn times(way: i64, n: u64) -> i64
    requires way { unsigned_abs way ≤ spec.farthest }
    requires few { n ≤ 40 }
    ensures { result ≡ way *ℤ pos n }
{
    (way as i128 * n as i128) as i64
}

/// A part of a way, rounded down.
#[tactic(auto, using(crate::proofs::Shares::share_bound))]
fn part_of(way: i64, pieces: u64) -> i64
    requires { 0 < pieces }
    ensures { result ≡ int_div_euclid way (pos pieces) }
{
    (way as i128).div_euclid(pieces as i128) as i64
}

/// How far on piece `n` begins.
fn turned(arc: &Sweep, n: u64) -> Real
    requires way { unsigned_abs arc.now.way ≤ spec.farthest }
    requires pieces { 0 < arc.now.pieces }
    requires few { n ≤ 40 }
    ensures { result ≡ spec.turned arc.now n }
{
    Real {
        count: part_of(times(arc.way, n), arc.pieces),
    }
}

/// The angle where piece `n` begins, and the one before it ends.
fn angle_at(arc: &Sweep, n: u64) -> Result<Real, Undefined>
    requires way { unsigned_abs arc.now.way ≤ spec.farthest }
    requires pieces { 0 < arc.now.pieces }
    requires few { n ≤ 40 }
    ensures { result ≡ spec.angle_at arc.now n }
{
    add(arc.first, turned(arc, n))
}

/// The point at an angle.
fn rim(arc: &Sweep, angle: Real) -> Result<(Real, Real), Undefined>
    ensures { result ≡ spec.rim arc.now angle }
{
    let right = mul(arc.radius, cos(angle))?;
    let x = add(arc.x, right)?;
    let up = mul(arc.radius, sin(angle))?;
    let y = add(arc.y, up)?;
    Ok((x, y))
}

/// How far a control point lies from its end of the piece between two angles.
fn handle(radius: Real, from: Real, to: Real) -> Result<Real, Undefined>
    ensures { result ≡ spec.handle radius from to }
{
    let angle = sub(to, from)?;
    let quarter = div(angle, whole(4))?;
    let over = mul(whole(4), sin(quarter))?;
    let under = mul(whole(3), cos(quarter))?;
    let ratio = div(over, under)?;
    mul(radius, ratio)
}

/// So far on from a point, at right angles to its angle.
fn ahead(point: (Real, Real), far: Real, angle: Real) -> Result<(Real, Real), Undefined>
    ensures { result ≡ spec.ahead point far angle }
{
    let right = mul(far, against_sine(angle))?;
    let x = add(point.0, right)?;
    let up = mul(far, cos(angle))?;
    let y = add(point.1, up)?;
    Ok((x, y))
}

/// So far back.
fn behind(point: (Real, Real), far: Real, angle: Real) -> Result<(Real, Real), Undefined>
    ensures { result ≡ spec.behind point far angle }
{
    let right = mul(far, against_sine(angle))?;
    let x = sub(point.0, right)?;
    let up = mul(far, cos(angle))?;
    let y = sub(point.1, up)?;
    Ok((x, y))
}

/// Three points of user space: two control points and an end.
type Bow = ((Real, Real), (Real, Real), (Real, Real));

/// The two control points and the end of the piece between two angles.
fn bow(arc: &Sweep, from: Real, to: Real) -> Result<Bow, Undefined>
    ensures { result ≡ spec.bow arc.now from to }
{
    let first = rim(arc, from)?;
    let last = rim(arc, to)?;
    let far = handle(arc.radius, from, to)?;
    let a = ahead(first, far, from)?;
    let b = behind(last, far, to)?;
    Ok((a, b, last))
}

/// Those of piece `n`.
fn bow_at(arc: &Sweep, n: u64) -> Result<Bow, Undefined>
    requires way { unsigned_abs arc.now.way ≤ spec.farthest }
    requires pieces { 0 < arc.now.pieces }
    requires few { n < 40 }
    ensures { result ≡ spec.bow_at arc.now n }
{
    let from = angle_at(arc, n)?;
    let to = angle_at(arc, n + 1)?;
    bow(arc, from, to)
}

/// Piece `n` as a curve: undefinedresult, limitcheck.
fn piece(matrix: &Matrix, arc: &Sweep, n: u64) -> Result<Segment, ErrorName>
    requires way { unsigned_abs arc.now.way ≤ spec.farthest }
    requires pieces { 0 < arc.now.pieces }
    requires few { n < 40 }
    ensures { result ≡ spec.piece matrix.now arc.now n }
{
    let (a, b, c) = defined(bow_at(arc, n))?;
    curve_of(matrix, a, b, c)
}

/// All pieces: undefinedresult, limitcheck.
#[tactic(auto, using(crate::proofs::Pieces::piece_made, crate::proofs::Pieces::piece_refused))]
fn pieces(alloc: Global, matrix: &Matrix, arc: &Sweep) -> Result<Vec<Segment>, Refusal>
    requires way { unsigned_abs arc.now.way ≤ spec.farthest }
    requires few { arc.now.pieces ≤ 40 }
    ensures { MatchResult result
        (λ curves. spec.pieces_from matrix.now arc.now 0 arc.now.pieces [] ≡ Ok curves.items)
        (λ e. spec.IsRefused (spec.pieces_from matrix.now arc.now 0 arc.now.pieces []) e) }
{
    let mut curves = Vec::new(alloc);
    for n in 0..arc.pieces {
        let curve = match piece(matrix, arc, n) {
            Ok(curve) => curve,
            Err(error) => return Err(Refusal::Error(error)),
        };
        curves.push(curve)?;
    }
    Ok(curves)
}

/// Where an arc begins: undefinedresult, limitcheck.
fn arc_start(matrix: &Matrix, arc: &Sweep) -> Result<DevicePoint, ErrorName>
    ensures { result ≡ spec.arc_start matrix.now arc.now }
{
    let (x, y) = defined(rim(arc, arc.first))?;
    placed(matrix, x, y)
}

/// What leads to an arc: a line, or a Move where the path is empty.
fn leading(path: &Path, point: DevicePoint) -> Segment
    ensures { result ≡ spec.leading path.now point }
{
    if path.as_slice().is_empty() {
        Segment::Move(point)
    } else {
        Segment::Line(point)
    }
}

/// Appends an arc, which begins at a point.
fn append(path: &mut Path, point: DevicePoint, curves: &[Segment]) -> Result<(), NoMemory>
    ensures { OnOk result
        (path.new ≡ with_segment path.old (spec.leading path.old point) ++ curves.now) }
{
    let first = leading(path, point);
    path.push(first)?;
    for curve in curves {
        path.push(*curve)?;
    }
    Ok(())
}

/// Draws an arc, in the place of the newest five operands: undefinedresult, limitcheck.
#[tactic(auto, using(crate::proofs::Drawing::curves_refused))]
fn draw(arc: &Sweep, state: &mut State) -> Result<(), Refusal>
    requires way { unsigned_abs arc.now.way ≤ spec.farthest }
    requires few { arc.now.pieces ≤ 40 }
    requires operands { 5 ≤ length state.old.regs.operands }
    ensures { DoesAlone (λ s. spec.draws_arc s arc.now) state.old result state.new }
{
    let operands = &mut state.regs.operands;
    let graphics = &mut state.regs.state;
    let point = arc_start(&graphics.ctm, arc)?;
    let curves = pieces(operands.alloc(), &graphics.ctm, arc)?;
    point_room(&graphics.path, 1 + 3 * arc.pieces as usize)?;
    append(&mut graphics.path, point, curves.as_slice())?;
    operands.shrink(5);
    Ok(())
}

/// The arc that the newest five operands tell: stackunderflow, typecheck, limitcheck.
fn arc_at(turn: Turn, operands: &Objects) -> Result<Sweep, ErrorName>
    ensures arc { result ≡ spec.arc_at turn operands.now }
    ensures way { IfOk result (λ arc. unsigned_abs arc.way ≤ spec.farthest) }
    ensures few { IfOk result (λ arc. arc.pieces ≤ 40) }
    ensures operands { OnOk result (5 ≤ length operands.now) }
{
    operands.need(5)?;
    let to = real_at(operands, 0)?;
    let from = real_at(operands, 1)?;
    let radius = real_at(operands, 2)?;
    let centre = point_at(operands, 3)?;
    let way = turn_right(way_of(turn, from.count, to.count))?;
    Ok(Sweep {
        x: centre.0,
        y: centre.1,
        radius,
        first: from,
        way,
        pieces: pieces_of(way),
    })
}

fn arc_by(turn: Turn, state: &mut State) -> Result<(), Refusal>
    ensures { DoesAlone (spec.arc_by turn) state.old result state.new }
{
    let arc = arc_at(turn, &state.regs.operands)?;
    draw(&arc, state)
}

pub(crate) fn arc(state: &mut State) -> Result<(), Refusal>
    ensures { DoesAlone spec.arc state.old result state.new }
{
    arc_by(Turn::Up, state)
}

pub(crate) fn arcn(state: &mut State) -> Result<(), Refusal>
    ensures { DoesAlone spec.arcn state.old result state.new }
{
    arc_by(Turn::Down, state)
}
