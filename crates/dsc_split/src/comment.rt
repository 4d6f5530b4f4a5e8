//! The comments that say where the sections of a job are, and the words behind them.
ghost use Rattle.std.specs.Prelude.{◌≡◌};
ghost use Rattle.dsc_split.specs.Comments.{ends_in_letter, begins_blank, is_comment, comment_of};

use crate::words::is_blank;

/// A comment of the document structuring conventions that says where sections are.
#[derive(Clone, Copy, Debug, PartialEq, Eq)]
pub enum Comment {
    EndProlog,
    Page,
    Trailer,
    BeginDocument,
    EndDocument,
    BeginData,
    BeginBinary,
}

fn ends_in_letter(name: &[u8]) -> bool
    ensures { result ≡ ends_in_letter name.now }
{
    name.last().is_some_and(|byte| byte.is_ascii_alphabetic())
}

fn begins_blank(rest: &[u8]) -> bool
    ensures { result ≡ begins_blank rest.now }
{
    rest.first().is_none_or(|byte| is_blank(*byte))
}

fn is_comment(name: &[u8], line: &[u8]) -> bool
    ensures { result ≡ is_comment name.now line.now }
{
    line.starts_with(name) && (!ends_in_letter(name) || begins_blank(&line[name.len()..]))
}

/// The comment that a line is, given without its line end.
#[tactic(auto, using(crate::proofs::CommentLemmas::other_line))]
pub(crate) fn comment_of(line: &[u8]) -> Option<Comment>
    ensures { result ≡ comment_of line.now }
{
    if !line.starts_with(b"%") {
        return None;
    }
    if is_comment(b"%%EndProlog", line) {
        Some(Comment::EndProlog)
    } else if is_comment(b"%%Page:", line) {
        Some(Comment::Page)
    } else if is_comment(b"%%Trailer", line) {
        Some(Comment::Trailer)
    } else if is_comment(b"%%BeginDocument:", line) {
        Some(Comment::BeginDocument)
    } else if is_comment(b"%%EndDocument", line) {
        Some(Comment::EndDocument)
    } else if is_comment(b"%%BeginData:", line) {
        Some(Comment::BeginData)
    } else if is_comment(b"%%BeginBinary:", line) {
        Some(Comment::BeginBinary)
    } else {
        None
    }
}
