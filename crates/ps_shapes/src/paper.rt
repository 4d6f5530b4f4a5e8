//! The paper of a page.
ghost use Rattle.std.specs.Prelude.{◌≡◌, ◌+◌, ◌-◌, ◌*◌, ◌^◌, ◌<◌, ◌≤◌, ◌&&◌, ℕ, length, slice_index, false, nat_eq, nat_le, nat_lt, if◌then◌else◌, IfOk, IsTrue, ◌↔◌, All};
ghost use Rattle.std.specs.Int.{bit_at};
ghost use Rattle.ps_shapes.specs.Bits.{IsBytes, IsFilled, IsInked, IsPacked};
ghost use Rattle.ps_shapes.specs.Picture.{picture_bytes};
ghost use Rattle.ps_shapes.specs.Sheet.{drawn, pixel, repainted, IsWhole};
ghost use Rattle.ps_shapes.specs.Span.{holds};

use crate::Span;
use copy_lists::{Duplicate, NoMemory};
use std::alloc::Global;
use std::marker::Model;

/// Rows of pixels, each padded to whole bytes, the highest bit of a byte first. Black is 1.
#[derive(Drop)]
pub struct Paper {
    width: u32,
    height: u32,
    stride: usize,
    bytes: Vec<u8>,
}

impl Model for Paper {
    ghost use Rattle.ps_shapes.specs.Bits.{IsRows, dot_of};
    ghost use Rattle.ps_shapes.specs.Sheet.{Sheet, drawn};

    ghost Value = { Sheet };

    ghost view = { λ p. drawn p.width p.height (dot_of p.stride p.bytes.items) };

    ghost invariant = { λ p. IsRows p.width p.height p.stride p.bytes.items };
}

impl Paper {
    /// White paper.
    pub fn blank(alloc: Global, width: u32, height: u32) -> Result<Paper, NoMemory>
        ensures { IfOk result (λ p. p ≡ drawn width height (λ _ _. false)) }
    {
        let stride = (width as usize + 7) / 8;
        let bytes = vec![in alloc; 0u8; height as usize * stride]?;
        Ok(Paper {
            width,
            height,
            stride,
            bytes,
        })
    }

    pub fn width(&self) -> u32
        ensures value { result ≡ self.now.width }
        ensures whole { IsWhole self.now }
    {
        self.width
    }

    pub fn height(&self) -> u32
        ensures { result ≡ self.now.height }
    {
        self.height
    }

    /// Whether the pixel is black.
    pub fn pixel(&self, x: u32, y: u32) -> bool
        requires x { x < self.now.width }
        requires y { y < self.now.height }
        ensures { result ≡ pixel self.now x y }
    {
        let at = place(self.stride, x, y);
        self.bytes[at / 8] >> (7 - at % 8) & 1 == 1
    }

    /// Makes the pixels of the span black, or white.
    pub fn fill(&mut self, span: Span, black: bool)
        requires row { span.row < self.old.height }
        requires first { span.first ≤ span.past }
        requires past { span.past ≤ self.old.width }
        ensures { self.new ≡ repainted self.old (λ x y. holds x y span) (λ _ _. black) }
    {
        let first = place(self.stride, span.first, span.row);
        let past = place(self.stride, span.past, span.row);
        fill_bits(self.bytes.as_mut_slice(), first, past, black);
    }

    /// The rows as a picture has them: each padded to whole bytes with 0 bits, the high bit first.
    pub fn as_bytes(&self) -> &[u8]
        ensures packed { IsPacked self.now result.now }
        ensures bytes { result.now ≡ picture_bytes self.now }
    {
        eight_bits(self.bytes.as_slice())
    }

    /// Whether all pixels are white.
    pub fn is_blank(&self) -> bool
        ensures { IsTrue result ↔ (self.now ≡ drawn self.now.width self.now.height (λ _ _. false)) }
    {
        are_zero(eight_bits(self.bytes.as_slice()))
    }

    pub fn copy(&self) -> Result<Paper, NoMemory>
        ensures { IfOk result (λ paper. paper ≡ self.now) }
    {
        Ok(Paper {
            width: self.width,
            height: self.height,
            stride: self.stride,
            bytes: Vec::from_slice(*self.bytes.allocator(), self.bytes.as_slice())?,
        })
    }
}

impl PartialEq for Paper {
    ghost use Rattle.std.specs.Cmp.{partial_equiv_from_equiv};
    ghost use Rattle.ps_shapes.specs.Same.{same_sheet};
    ghost use Rattle.ps_shapes.specs.Laws.{same_sheet_equivalence};

    ghost eq = { same_sheet };

    ghost laws = { partial_equiv_from_equiv same_sheet_equivalence };

    fn eq(&self, other: &Paper) -> bool {
        let bytes = eight_bits(self.bytes.as_slice());
        let others = eight_bits(other.bytes.as_slice());
        self.width == other.width && self.height == other.height && bytes == others
    }
}

impl Eq for Paper {
    ghost use Rattle.ps_shapes.specs.Laws.{same_sheet_equivalence};

    ghost laws = { same_sheet_equivalence };
}

/// The bytes, of which a proof then knows that each has eight bits.
fn eight_bits(bytes: &[u8]) -> &[u8]
    ensures same { result.now ≡ bytes.now }
    ensures small { IsBytes bytes.now }
{
    bytes
}

fn are_zero(bytes: &[u8]) -> bool
    ensures { IsTrue result ↔ All (λ byte. byte ≡ 0) bytes.now }
{
    bytes.iter().all(|&byte| byte == 0)
}

/// The place of the pixel's bit.
fn place(stride: usize, x: u32, y: u32) -> usize
    requires { stride ≤ 536870912 }
    ensures { result ≡ y * (8 * stride) + x }
{
    y as usize * (8 * stride) + x as usize
}

/// Makes the bits from `first` up to `past` 1, or 0.
fn fill_bits(bytes: &mut [u8], first: usize, past: usize, ink: bool)
    requires first { first ≤ past }
    requires past { past ≤ 8 * length bytes.old }
    ensures { IsFilled bytes.old bytes.new first past ink }
{
    let low = first / 8;
    let high = past / 8;
    if low == high {
        if first < past {
            fill_byte(bytes, low, first % 8, past % 8, ink);
        }
    } else {
        fill_byte(bytes, low, first % 8, 8, ink);
        fill_bytes(bytes, low + 1, high, ink);
        if past % 8 != 0 {
            fill_byte(bytes, high, 0, past % 8, ink);
        }
    }
}

/// Makes the bits of the bytes from `low` up to `high` 1, or 0.
fn fill_bytes(bytes: &mut [u8], low: usize, high: usize, ink: bool)
    requires low { low ≤ high }
    requires high { high ≤ length bytes.old }
    ensures { IsFilled bytes.old bytes.new (8 * low) (8 * high) ink }
{
    let value = whole_byte(ink);
    for k in low..high {
        bytes[k] = value;
    }
}

/// Eight bits of that ink.
fn whole_byte(ink: bool) -> u8
    ensures { result ≡ (if ink then 255 else 0) }
{
    if ink { 255 } else { 0 }
}

/// Makes the bits of one byte from `first` up to `past` 1, or 0.
fn fill_byte(bytes: &mut [u8], at: usize, first: usize, past: usize, ink: bool)
    requires at { at < length bytes.old }
    requires first { first ≤ past }
    requires past { past ≤ 8 }
    ensures { IsFilled bytes.old bytes.new (8 * at + first) (8 * at + past) ink }
{
    bytes[at] = filled(bytes[at], first, past, ink);
}

/// The byte with its bits from `first` up to `past`, counted from the highest, made 1, or 0.
fn filled(byte: u8, first: usize, past: usize, ink: bool) -> u8
    requires first { first ≤ past }
    requires past { past ≤ 8 }
    ensures { IsInked byte result first past ink }
{
    let mask = mask(first, past);
    if ink { byte | mask } else { byte & !mask }
}

/// The bits from `first` up to `past`, counted from the highest.
fn mask(first: usize, past: usize) -> u8
    requires first { first ≤ past }
    requires past { past ≤ 8 }
    ensures { result ≡ 2 ^ (8 - first) - 2 ^ (8 - past) }
{
    ((1u16 << (8 - first)) - (1u16 << (8 - past))) as u8
}

impl Duplicate for Paper {
    fn duplicate(&self) -> Result<Paper, NoMemory> {
        self.copy()
    }
}
