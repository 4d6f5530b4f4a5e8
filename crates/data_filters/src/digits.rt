//! White space, digits and characters.
ghost use Rattle.std.specs.Prelude.{◌≡◌, ◌<◌, ◌≤◌, ◌^◌, MatchOption};
ghost use Rattle.std.specs.Char.{digit_value};
ghost use Rattle.data_filters.specs.Codes.{is_white, IsNoDigit, is_character, word_of};

pub(crate) fn is_white(byte: u8) -> bool
    ensures { result ≡ is_white byte }
{
    matches!(byte, 0 | b'\t' | b'\n' | 0x0c | b'\r' | b' ')
}

/// The value of a hexadecimal digit.
pub(crate) fn hex_digit(byte: u8) -> Option<u8>
    ensures value { MatchOption result (IsNoDigit byte) (λ digit. digit ≡ digit_value byte) }
    ensures range { MatchOption result (IsNoDigit byte) (λ digit. digit < 16) }
{
    match byte {
        b'0'..=b'9' => Some(byte - b'0'),
        b'A'..=b'F' => Some(byte - b'A' + 10),
        b'a'..=b'f' => Some(byte - b'a' + 10),
        _ => None,
    }
}

/// Whether a byte is a digit in base 85.
pub(crate) fn is_character(byte: u8) -> bool
    ensures { result ≡ is_character byte }
{
    matches!(byte, b'!'..=b'u')
}

/// A number's four bytes, the highest first.
pub(crate) fn word_of(value: u64) -> [u8; 4]
    requires { value < 2 ^ 32 }
    ensures { result ≡ word_of value }
{
    [
        (value / 16_777_216) as u8,
        (value / 65_536 % 256) as u8,
        (value / 256 % 256) as u8,
        (value % 256) as u8,
    ]
}
