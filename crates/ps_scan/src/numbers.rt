//! Which rows of regular characters are numbers, and their values.
ghost use Rattle.std.specs.Prelude.{◌≡◌, ℕ, ◌+◌, ◌≤◌, ◌^◌, ◌==◌, length, drop, nat_lt, min, true};
ghost use Rattle.std.specs.List.{list_all, position_or_len};
ghost use Rattle.std.specs.Char.{is_ascii_digit, digit_value};
ghost use Rattle.std.specs.Str.Parse.{digits_value};
ghost use Rattle.ps_scan.specs.Numbers.{is_negative, unsigned, is_digits, is_integer, in_32_bits, integer_value, is_exponent_mark, is_mantissa, is_exponent, is_decimal, is_base, are_radix_digits, is_radix, radix_value};

/// A row without its sign.
pub(crate) fn unsigned(row: &[u8]) -> &[u8]
    ensures { result.now ≡ unsigned row.now }
{
    match row {
        [b'+' | b'-', digits @ ..] => digits,
        _ => row,
    }
}

pub(crate) fn is_negative(row: &[u8]) -> bool
    ensures { result ≡ is_negative row.now }
{
    matches!(row, [b'-', ..])
}

fn are_digits(bytes: &[u8]) -> bool
    ensures { result ≡ list_all is_ascii_digit bytes.now }
{
    bytes.iter().all(|byte| byte.is_ascii_digit())
}

/// Whether the bytes are digits, and at least one.
fn is_digits(bytes: &[u8]) -> bool
    ensures { result ≡ is_digits bytes.now }
{
    !bytes.is_empty() && are_digits(bytes)
}

#[tactic(auto, unfolding(crate::specs::Numbers::is_integer))]
pub fn is_integer(row: &[u8]) -> bool
    ensures { result ≡ is_integer row.now }
{
    is_digits(unsigned(row))
}

/// The value of a digit or a letter of either case, 36 for any other byte.
pub(crate) fn digit_value(byte: u8) -> u64
    ensures { result ≡ digit_value byte }
{
    match byte {
        b'0'..=b'9' => u64::from(byte - b'0'),
        b'A'..=b'Z' => u64::from(byte - b'A') + 10,
        b'a'..=b'z' => u64::from(byte - b'a') + 10,
        _ => 36,
    }
}

/// No number is taken for more than this.
pub(crate) const MOST: u64 = u64::MAX;

/// What the digits give in a base, or `MOST` where that is more.
#[tactic(auto, using(crate::proofs::NumberLemmas::capped_digit))]
pub(crate) fn digits_value(base: u64, digits: &[u8]) -> u64
    requires low { 1 ≤ base }
    requires high { base ≤ 36 }
    ensures { result ≡ min (digits_value base digits.now) MOST }
{
    let mut value = 0;
    for digit in digits {
        let more = u128::from(value) * u128::from(base) + u128::from(digit_value(*digit));
        value = more.min(u128::from(MOST)) as u64;
    }
    value
}

fn in_32_bits(negative: bool, magnitude: u64) -> Option<i32>
    ensures { result ≡ in_32_bits negative magnitude }
{
    let magnitude = i128::from(magnitude);
    i32::try_from(if negative { -magnitude } else { magnitude }).ok()
}

/// The value of an integer within 32 signed bits.
#[tactic(auto, unfolding(crate::specs::Numbers::integer_value))]
pub fn integer_value(row: &[u8]) -> Option<i32>
    ensures { result ≡ integer_value row.now }
{
    in_32_bits(is_negative(row), digits_value(10, unsigned(row)))
}

fn is_exponent_mark(byte: u8) -> bool
    ensures { result ≡ is_exponent_mark byte }
{
    matches!(byte, b'e' | b'E')
}

/// Where the first `e` or `E` stands, or the end.
pub(crate) fn exponent_place(bytes: &[u8]) -> usize
    ensures place { result ≡ position_or_len is_exponent_mark bytes.now }
    ensures within { result ≤ length bytes.now }
{
    for (i, byte) in bytes.iter().enumerate() {
        if is_exponent_mark(*byte) {
            return i;
        }
    }
    bytes.len()
}

/// Where the byte stands first, or the end.
pub(crate) fn place_of(bytes: &[u8], wanted: u8) -> usize
    ensures place { result ≡ position_or_len (λ b. b == wanted) bytes.now }
    ensures within { result ≤ length bytes.now }
{
    for (i, byte) in bytes.iter().enumerate() {
        if *byte == wanted {
            return i;
        }
    }
    bytes.len()
}

/// What stands behind a place.
pub(crate) fn after(bytes: &[u8], place: usize) -> &[u8]
    requires { place ≤ length bytes.now }
    ensures { result.now ≡ drop (place + 1) bytes.now }
{
    if place < bytes.len() {
        &bytes[place + 1..]
    } else {
        &[]
    }
}

fn is_mantissa(bytes: &[u8]) -> bool
    ensures { result ≡ is_mantissa bytes.now }
{
    let point = place_of(bytes, b'.');
    let whole = &bytes[..point];
    let fraction = after(bytes, point);
    are_digits(whole) && are_digits(fraction) && !(whole.is_empty() && fraction.is_empty())
}

fn is_exponent(bytes: &[u8]) -> bool
    ensures { result ≡ is_exponent bytes.now }
{
    match bytes {
        [] => true,
        [_, digits @ ..] => is_integer(digits),
    }
}

/// Whether a row is an integer or a real.
#[tactic(auto, unfolding(crate::specs::Numbers::is_decimal))]
pub fn is_decimal(row: &[u8]) -> bool
    ensures { result ≡ is_decimal row.now }
{
    let digits = unsigned(row);
    let (mantissa, exponent) = digits.split_at(exponent_place(digits));
    is_mantissa(mantissa) && is_exponent(exponent)
}

/// Whether the bytes give a base from 2 to 36 by one or two digits.
fn is_base(bytes: &[u8]) -> bool
    ensures { result ≡ is_base bytes.now }
{
    let base = digits_value(10, bytes);
    is_digits(bytes) && bytes.len() <= 2 && 2 <= base && base <= 36
}

fn are_below(base: u64, bytes: &[u8]) -> bool
    ensures { result ≡ list_all (λ d. nat_lt (digit_value d) base) bytes.now }
{
    bytes.iter().all(|digit| digit_value(*digit) < base)
}

/// Whether the bytes are digits or letters below the base, and at least one.
fn are_radix_digits(base: u64, bytes: &[u8]) -> bool
    ensures { result ≡ are_radix_digits base bytes.now }
{
    !bytes.is_empty() && are_below(base, bytes)
}

/// Whether a row is a radix number.
#[tactic(auto, unfolding(crate::specs::Numbers::is_radix))]
pub fn is_radix(row: &[u8]) -> bool
    ensures { result ≡ is_radix row.now }
{
    let hash = place_of(row, b'#');
    let base = &row[..hash];
    is_base(base) && are_radix_digits(digits_value(10, base), after(row, hash))
}

/// The value of a radix number, less 2^32 from 2^31 on, where it is below 2^32.
#[tactic(auto, unfolding(crate::specs::Numbers::radix_value, crate::specs::Numbers::is_radix))]
pub(crate) fn radix_value(row: &[u8]) -> Option<i32>
    requires { is_radix row.now ≡ true }
    ensures { result ≡ radix_value row.now }
{
    let hash = place_of(row, b'#');
    let (base, _) = row.split_at(hash);
    let value = digits_value(digits_value(10, base), after(row, hash));
    if value < 1 << 31 {
        Some(value as i32)
    } else if value < 1 << 32 {
        Some((value as i64 - (1 << 32)) as i32)
    } else {
        None
    }
}
