//! White space, special characters and comments.
ghost use Rattle.std.specs.Prelude.{◌≡◌, ◌≤◌, length, drop, false};
ghost use Rattle.std.specs.List.{position_or_len, before_first};
ghost use Rattle.ps_scan.specs.Characters.{is_white, is_special, is_delimiter, is_line_end, blanks, closing};

pub(crate) fn is_white(byte: u8) -> bool
    ensures { result ≡ is_white byte }
{
    matches!(byte, 0 | b'\t' | b'\n' | 0x0c | b'\r' | b' ')
}

pub fn is_special(byte: u8) -> bool
    ensures { result ≡ is_special byte }
{
    matches!(
        byte,
        b'(' | b')' | b'<' | b'>' | b'[' | b']' | b'{' | b'}' | b'/' | b'%'
    )
}

pub(crate) fn is_delimiter(byte: u8) -> bool
    ensures { result ≡ is_delimiter byte }
{
    is_white(byte) || is_special(byte)
}

fn is_line_end(byte: u8) -> bool
    ensures { result ≡ is_line_end byte }
{
    matches!(byte, b'\n' | 0x0c | b'\r')
}

/// How many bytes at the front are white space or of a comment.
#[tactic(auto, using(crate::proofs::BlankLemmas::blanks_at, crate::proofs::BlankLemmas::blanks_at_end))]
pub(crate) fn blank_length(text: &[u8]) -> usize
    ensures length { result ≡ blanks false text.now }
    ensures within { result ≤ length text.now }
{
    let mut in_comment = false;
    for (i, byte) in text.iter().enumerate() {
        if is_line_end(*byte) {
            in_comment = false;
        } else if in_comment || *byte == b'%' {
            in_comment = true;
        } else if !is_white(*byte) {
            return i;
        }
    }
    text.len()
}

/// How many regular characters stand at the front.
fn row_length(text: &[u8]) -> usize
    ensures length { result ≡ position_or_len is_delimiter text.now }
    ensures within { result ≤ length text.now }
{
    for (i, byte) in text.iter().enumerate() {
        if is_delimiter(*byte) {
            return i;
        }
    }
    text.len()
}

/// How many bytes of white space at the front end a name or a number.
pub(crate) fn closing_length(text: &[u8]) -> usize
    ensures length { result ≡ closing text.now }
    ensures within { result ≤ length text.now }
{
    match text {
        [b'\r', b'\n', ..] => 2,
        [byte, ..] if is_white(*byte) => 1,
        _ => 0,
    }
}

/// The text behind its white space and comments.
pub fn skip_blanks(text: &[u8]) -> &[u8]
    ensures { result.now ≡ drop (blanks false text.now) text.now }
{
    &text[blank_length(text)..]
}

/// The row of regular characters at the front, and the text behind it.
pub fn split_row(text: &[u8]) -> (&[u8], &[u8])
    ensures row { result.0.now ≡ before_first is_delimiter text.now }
    ensures rest { result.1.now ≡ drop (position_or_len is_delimiter text.now) text.now }
{
    text.split_at(row_length(text))
}
