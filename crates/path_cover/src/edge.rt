//! The edges of polygons.
ghost use Rattle.std.specs.Prelude.{ℕ, ◌≡◌, ◌+◌, ◌*◌, ◌<◌, ◌≤◌, ◌≤ℤ◌, ◌<ℤ◌, ◌-ℤ◌, ◌*ℤ◌, ◌+ℤ◌, pos, negsuc, min, ◌^◌, nat_le, nat_lt, int_le, length, Bool, OnOk, count_by, ◌&&◌, if◌then◌else◌};
ghost use Rattle.ps_shapes.specs.Near.{IsNear};
ghost use Rattle.path_cover.specs.Cover.{centre, is_left, sides_after, counts, counted};
ghost use Rattle.path_cover.specs.Rows.{HasRows};

use copy_lists::NoMemory;
use ps_shapes::Point;

/// An edge from its upper to its lower point, with the rows whose centres it passes.
#[derive(Clone, Copy)]
pub(crate) struct Edge {
    pub(crate) top: Point,
    pub(crate) bottom: Point,
    pub(crate) down: bool,
    pub(crate) first: u32,
    pub(crate) past: u32,
    ghost rows: { HasRows top bottom first past },
}

/// The first row whose centre is not above `y`, or `height`.
pub(crate) fn row_at(y: i32, height: u32) -> u32
    requires { IsNear y }
    ensures least { (row : ℕ) → row < height → nat_le result row ≡ int_le y (centre row) }
    ensures capped { result ≤ height }
{
    if y <= 128 {
        0
    } else {
        ((y as u32 + 127) / 256).min(height)
    }
}

impl Edge {
    /// The first column that is not left of the edge in that row, or `width`.
    pub(crate) fn column(&self, row: u32, width: u32) -> u32
        requires first { self.now.first ≤ row }
        requires past { row < self.now.past }
        ensures least { (x : ℕ) → x < width →
            nat_le result x ≡ is_left self.now.top self.now.bottom x row }
        ensures capped { result ≤ width }
    {
        let left = product(self.top.x, below(row, self.bottom.y));
        let right = product(self.bottom.x, above(self.top.y, row));
        column_at(sum(left, right), rise(self.top.y, self.bottom.y), width)
    }

    /// Whether the edge passes the centre of the row.
    pub(crate) fn is_in_row(&self, row: u32) -> bool
        ensures { result ≡ (nat_le self.now.first row && nat_lt row self.now.past) }
    {
        self.first <= row && row < self.past
    }
}

/// The product of a coordinate and a height.
fn product(a: i32, b: i64) -> i64
    requires near { IsNear a }
    requires low { pos 0 ≤ℤ b }
    requires high { b ≤ℤ pos 2147483648 }
    ensures value { result ≡ a *ℤ b }
    ensures low { negsuc 2305843009213693951 ≤ℤ result }
    ensures high { result ≤ℤ pos 2305843009213693952 }
{
    a as i64 * b
}

fn sum(a: i64, b: i64) -> i64
    requires a_low { negsuc 2305843009213693951 ≤ℤ a }
    requires a_high { a ≤ℤ pos 2305843009213693952 }
    requires b_low { negsuc 2305843009213693951 ≤ℤ b }
    requires b_high { b ≤ℤ pos 2305843009213693952 }
    ensures value { result ≡ a +ℤ b }
    ensures low { negsuc 4611686018427387903 ≤ℤ result }
    ensures high { result ≤ℤ pos 4611686018427387904 }
{
    a + b
}

/// How far the centre of the row is above the lower point.
fn below(row: u32, lower: i32) -> i64
    requires near { IsNear lower }
    requires order { centre row <ℤ lower }
    ensures value { result ≡ lower -ℤ centre row }
    ensures low { pos 0 ≤ℤ result }
    ensures high { result ≤ℤ pos 2147483648 }
{
    i64::from(lower) - (i64::from(row) * 256 + 128)
}

/// How far the centre of the row is below the upper point.
fn above(upper: i32, row: u32) -> i64
    requires near { IsNear upper }
    requires order { upper ≤ℤ centre row }
    requires limit { centre row ≤ℤ pos 1073741824 }
    ensures value { result ≡ centre row -ℤ upper }
    ensures low { pos 0 ≤ℤ result }
    ensures high { result ≤ℤ pos 2147483648 }
{
    i64::from(row) * 256 + 128 - i64::from(upper)
}

/// The height of an edge.
fn rise(upper: i32, lower: i32) -> u32
    requires upper { IsNear upper }
    requires lower { IsNear lower }
    requires order { upper <ℤ lower }
    ensures value { lower -ℤ upper ≡ pos result }
    ensures low { 0 < result }
    ensures high { result ≤ 2147483648 }
{
    (i64::from(lower) - i64::from(upper)) as u32
}

/// The first column whose centre times `scale` is not below `sum`, or `width`.
fn column_at(sum: i64, scale: u32, width: u32) -> u32
    requires low { negsuc 4611686018427387903 ≤ℤ sum }
    requires high { sum ≤ℤ pos 4611686018427387904 }
    requires scale { 0 < scale }
    ensures least { (x : ℕ) → x < width → nat_le result x ≡ int_le sum (centre x *ℤ pos scale) }
    ensures capped { result ≤ width }
{
    let over = over(sum, scale);
    if over <= 0 {
        0
    } else {
        capped(quotient(over as u64, 256 * u64::from(scale)), width)
    }
}

fn capped(n: u64, width: u32) -> u32
    ensures { result ≡ min n width }
{
    n.min(u64::from(width)) as u32
}

fn over(sum: i64, scale: u32) -> i64
    requires low { negsuc 4611686018427387903 ≤ℤ sum }
    requires high { sum ≤ℤ pos 4611686018427387904 }
    ensures value { result ≡ sum -ℤ pos (128 * scale) }
    ensures high { result ≤ℤ sum }
{
    sum - 128 * i64::from(scale)
}

/// The least number that `by` times is not below `n`.
fn quotient(n: u64, by: u64) -> u64
    requires n { n < 2 ^ 63 }
    requires by { 0 < by }
    requires fits { by < 2 ^ 62 }
    ensures { (x : ℕ) → nat_le result x ≡ nat_le n (by * x) }
{
    (n + (by - 1)) / by
}
