//! The value of an option.
ghost use Rattle.std.specs.Prelude.{◌≡◌, ◌≤◌, ◌<◌, ◌-◌, ◌^◌, min, true, IfSome};
ghost use Rattle.std.specs.List.{list_all};
ghost use Rattle.std.specs.Char.{is_ascii_digit};
ghost use Rattle.command_words.specs.Numbers as spec;

/// Whether all bytes of a word are decimal digits.
fn are_digits(word: &[u8]) -> bool
    ensures { result ≡ list_all is_ascii_digit word.now }
{
    word.iter().all(|byte| byte.is_ascii_digit())
}

/// Whether a word is 1 to 9 decimal digits and nothing else.
fn is_value(word: &[u8]) -> bool
    ensures { result ≡ spec.is_value word.now }
{
    1 <= word.len() && word.len() <= 9 && are_digits(word)
}

/// The number that a row of decimal digits writes, or the greatest number of 32 bits where it is larger.
fn decimal_value(digits: &[u8]) -> u32
    requires { list_all is_ascii_digit digits.now ≡ true }
    ensures { result ≡ min (spec.decimal_value digits.now) (2 ^ 32 - 1) }
{
    let mut value: u32 = 0;
    for digit in digits {
        value = value
            .saturating_mul(10)
            .saturating_add((*digit - b'0') as u32);
    }
    value
}

/// The number of a word that is a value from 1 to `most`.
pub(crate) fn number_up_to(most: u32, word: &[u8]) -> Option<u32>
    requires { most < 2 ^ 31 }
    ensures number { result ≡ spec.number_up_to most word.now }
    ensures range { IfSome result (λ n. (1 ≤ n) × (n ≤ most)) }
{
    if !is_value(word) {
        return None;
    }
    let value = decimal_value(word);
    if 1 <= value && value <= most {
        Some(value)
    } else {
        None
    }
}
