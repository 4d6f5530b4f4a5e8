//! Pages and messages that go to two sinks.
ghost use Rattle.std.specs.Prelude.{◌≡◌, ◌≤◌, OnOk, OnErr};
ghost use Rattle.out_writers.specs.Faults.{IsFailed};
ghost use Rattle.out_writers.specs.Showing.{Shows, ShowsFront};
ghost use Rattle.rip_ports.specs.Ports.{HasRisen};

use crate::{OutRefusal, Outlet, header};
use ps_kinds::Paper;
use rip_ports::Sink;
use std::alloc::Global;

/// Writes each page to one sink, by a put of its header and one of its rows, and messages to the other.
#[derive(Drop)]
pub struct ToSinks<'a, P, B> {
    alloc: Global,
    pages: &'a mut P,
    back: &'a mut B,
}

impl<'a, P, B> ToSinks<'a, P, B> {
    /// Over these two sinks.
    pub fn new(alloc: Global, pages: &'a mut P, back: &'a mut B) -> ToSinks<'a, P, B>
        ensures pages { result.pages ≡ pages.entry }
        ensures back { result.back ≡ back.entry }
    {
        ToSinks { alloc, pages, back }
    }
}

/// Puts the header, then the rows.
#[tactic(auto, using(crate::proofs::Pictures::header_cut, crate::proofs::Pictures::rows_cut, crate::proofs::Pictures::both_put, crate::proofs::Pictures::none_put))]
fn put_picture<P: Sink>(alloc: Global, paper: &Paper, pages: &mut P) -> Result<(), OutRefusal>
    ensures counted { P.faults pages.old ≤ P.faults pages.new }
    ensures failed { IsFailed result → HasRisen (P.faults pages.old) (P.faults pages.new) }
    ensures put { OnOk result (Shows paper.now (P.holds pages.old) (P.holds pages.new)) }
    ensures cut { OnErr result (ShowsFront paper.now (P.holds pages.old) (P.holds pages.new)) }
{
    let head = header(alloc, paper)?;
    pages.put(head.as_slice())?;
    pages.put(paper.as_bytes())?;
    Ok(())
}

impl<P: Sink, B: Sink> Outlet for ToSinks<'_, P, B> {
    ghost use Rattle.out_writers.specs.Faults.{sum_of_faults};
    ghost use Rattle.out_writers.specs.ToSinks.{WritesAll, WritesFront};
    ghost use Rattle.out_writers.specs.Writing as writing;

    ghost faults = { λ o. sum_of_faults (P.faults o.pages.now) (B.faults o.back.now) };

    ghost since = { WritesAll P.holds B.holds };

    ghost cut = { WritesFront P.holds B.holds };

    fn show(&mut self, paper: &Paper) -> Result<(), OutRefusal> {
        put_picture(self.alloc, paper, self.pages)
    }

    fn say(&mut self, bytes: &[u8]) -> Result<(), OutRefusal> {
        self.back.put(bytes)?;
        Ok(())
    }

    ghost nothing = { writing.nothing P.holds B.holds };

    ghost joined = { writing.joined P.holds B.holds };

    ghost joined_cut = { writing.joined_cut P.holds B.holds };

    ghost whole = { writing.whole P.holds B.holds };

    ghost longer = { writing.longer P.holds B.holds };
}
