//! The lines that cut a job into sections.
ghost use Rattle.std.specs.Prelude.{◌≡◌, ◌≤◌, ◌<◌, ◌+◌, ◌++◌, ◌^◌, length, drop};
ghost use Rattle.std.specs.Option.{option_to_list};
ghost use Rattle.std.specs.Iterator.{YieldsFirst, item_count};
ghost use Rattle.dsc_split.specs.Marks.{depth_after, mark_of, marks_from};

use crate::comment::{Comment, comment_of};
use crate::line::{data_len, first_line};

/// A line that cuts a job into sections.
#[derive(Clone, Copy, Debug, PartialEq, Eq)]
pub enum Mark {
    /// The place after an `%%EndProlog` line.
    EndProlog(usize),
    /// The place of a `%%Page:` line.
    Page(usize),
    /// The place of a `%%Trailer` line.
    Trailer(usize),
}

/// How many inner documents are open after a line.
fn depth_after(depth: usize, comment: Option<Comment>) -> usize
    requires { depth + 1 < 2 ^ 64 }
    ensures value { result ≡ depth_after depth comment }
    ensures bound { result ≤ depth + 1 }
{
    match comment {
        Some(Comment::BeginDocument) => depth + 1,
        Some(Comment::EndDocument) => depth.saturating_sub(1),
        _ => depth,
    }
}

/// The mark that a line is, where so many inner documents are open.
fn mark_of(depth: usize, comment: Option<Comment>, from: usize, to: usize) -> Option<Mark>
    ensures { result ≡ mark_of depth comment from to }
{
    if depth > 0 {
        return None;
    }
    match comment {
        Some(Comment::EndProlog) => Some(Mark::EndProlog(to)),
        Some(Comment::Page) => Some(Mark::Page(from)),
        Some(Comment::Trailer) => Some(Mark::Trailer(from)),
        _ => None,
    }
}

/// The marks of a job from a line on.
#[derive(Drop)]
pub(crate) struct Marks<'a> {
    job: &'a [u8],
    at: usize,
    depth: usize,
    ghost within: { at ≤ length job.now },
    ghost shallow: { depth ≤ at },
}

impl<'a> Marks<'a> {
    pub(crate) fn new(job: &'a [u8], at: usize) -> Marks<'a>
        requires { at ≤ length job.now }
        ensures job { result.job.now ≡ job.now }
        ensures at { result.at ≡ at }
        ensures depth { result.depth ≡ 0 }
    {
        Marks { job, at, depth: 0 }
    }

    /// Goes over a line and its data.
    #[tactic(auto, using(crate::proofs::MarkLemmas::marks_step))]
    fn step(&mut self) -> Option<Mark>
        requires { self.old.at < length self.old.job.now }
        ensures marks { marks_from self.old.depth self.old.at self.old.job.now ≡
            option_to_list result ++ marks_from self.new.depth self.new.at self.new.job.now }
        ensures job { self.new.job.now ≡ self.old.job.now }
        ensures further { self.old.at < self.new.at }
    {
        let (_, text) = self.job.split_at(self.at);
        let line = first_line(text);
        let (_, after) = text.split_at(line.len);
        let comment = comment_of(line.text);
        let from = self.at;
        let to = from + line.len;
        let mark = mark_of(self.depth, comment, from, to);
        self.at = to + data_len(comment, line.text, after);
        self.depth = depth_after(self.depth, comment);
        mark
    }
}

impl Iterator for Marks<'_> {
    type Item = Mark;

    ghost next_gives = { YieldsFirst (λ m. marks_from m.depth m.at m.job.now) };

    ghost remaining = { item_count (λ m. marks_from m.depth m.at m.job.now) };

    #[tactic(auto, using(crate::proofs::MarkLemmas::marks_end))]
    fn next(&mut self) -> Option<Mark> {
        while self.at < self.job.len() {
            let mark = self.step();
            if mark.is_some() {
                return mark;
            }
        }
        None
    }
}
