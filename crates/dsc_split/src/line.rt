//! The lines of a job, and the data that some of them count.
ghost use Rattle.std.specs.Prelude.{◌≡◌, ◌≤◌, ◌<◌, length, drop, min};
ghost use Rattle.dsc_split.specs.Lines.{line_of, line_end_len, line_len, lines_len, counted_len, data_len};
ghost use Rattle.dsc_split.specs.Comments.{words};

use crate::comment::Comment;
use crate::words::{count_of, length_before};

/// The first line of a text: its bytes without the line end, and its length with it.
#[derive(Clone, Copy)]
pub(crate) struct Line<'a> {
    pub(crate) text: &'a [u8],
    pub(crate) len: usize,
}

#[tactic(auto, using(crate::proofs::LineLemmas::line_len_le, crate::proofs::LineLemmas::line_len_pos))]
pub(crate) fn first_line(text: &[u8]) -> Line<'_>
    ensures text { result.text.now ≡ line_of text.now }
    ensures len { result.len ≡ line_len text.now }
    ensures bound { result.len ≤ length text.now }
    ensures some { 0 < length text.now → 0 < result.len }
{
    let (line, rest) = text.split_at(length_before(b'\r', b'\n', text));
    Line {
        text: line,
        len: line.len() + line_end_len(rest),
    }
}

/// The length of the line end that a text begins with.
#[tactic(auto, using(crate::proofs::LineLemmas::line_end_len_le))]
fn line_end_len(text: &[u8]) -> usize
    ensures value { result ≡ line_end_len text.now }
    ensures bound { result ≤ length text.now }
{
    match text {
        [] => 0,
        [b'\r', b'\n', ..] => 2,
        _ => 1,
    }
}

/// The length of a text's first lines.
fn lines_len(count: usize, text: &[u8]) -> usize
    ensures value { result ≡ lines_len count text.now }
    ensures bound { result ≤ length text.now }
{
    let mut left = count;
    let mut len = 0;
    while left > 0 && len < text.len() {
        len += first_line(&text[len..]).len;
        left -= 1;
    }
    len
}

/// What follows a comment's name.
fn text_behind<'a>(name: &[u8], line: &'a [u8]) -> &'a [u8]
    ensures { result.now ≡ drop (length name.now) line.now }
{
    &line[name.len().min(line.len())..]
}

/// The length of the data that words count, of what follows their line.
fn counted_len(text: &[u8], after: &[u8]) -> usize
    ensures { result ≡ min (counted_len (words text.now) after.now) (length after.now) }
{
    let count = count_of(text);
    if count.by_lines {
        lines_len(count.number, after)
    } else {
        count.number.min(after.len())
    }
}

/// The length of the data that a line counts, of what follows it.
pub(crate) fn data_len(comment: Option<Comment>, line: &[u8], after: &[u8]) -> usize
    ensures { result ≡ min (data_len comment line.now after.now) (length after.now) }
{
    match comment {
        Some(Comment::BeginData) => counted_len(text_behind(b"%%BeginData:", line), after),
        Some(Comment::BeginBinary) => {
            let count = count_of(text_behind(b"%%BeginBinary:", line));
            count.number.min(after.len())
        }
        _ => 0,
    }
}
