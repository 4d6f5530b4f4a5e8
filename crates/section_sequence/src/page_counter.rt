//! An outlet that counts pages.
ghost use Rattle.std.specs.Prelude.{◌≡◌, ◌+◌, ◌≤◌, ◌∷◌, [], length, OnOk, OnErr};
ghost use Rattle.out_writers.specs.Faults.{HasRisen, IsFailed};

use out_writers::{OutRefusal, Outlet};
use ps_kinds::Paper;

/// Hands pages and messages on to an outlet, and counts the pages that were shown.
#[derive(Drop)]
pub(crate) struct PageCounter<'a, O> {
    out: &'a mut O,
    shown: u64,
}

impl<'a, O> PageCounter<'a, O> {
    /// Before any page.
    pub(crate) fn new(out: &'a mut O) -> PageCounter<'a, O>
        ensures out { result.out ≡ out.entry }
        ensures shown { result.shown ≡ 0 }
    {
        PageCounter { out, shown: 0 }
    }

    pub(crate) fn shown(&self) -> u64
        ensures { result ≡ self.now.shown }
    {
        self.shown
    }
}

impl<O: Outlet> Outlet for PageCounter<'_, O> {
    ghost use Rattle.section_sequence.specs.Counting.{CountsAll, CountsFront};
    ghost use Rattle.section_sequence.specs.Counted as counted;

    ghost faults = { λ o. O.faults o.out.now };

    ghost since = { CountsAll O.since };

    ghost cut = { CountsFront O.cut };

    /// More pages than a number of 64 bits counts find no memory.
    fn show(&mut self, paper: &Paper) -> Result<(), OutRefusal> {
        if self.shown == u64::MAX {
            return Err(OutRefusal::NoMemory);
        }
        self.out.show(paper)?;
        self.shown += 1;
        Ok(())
    }

    fn say(&mut self, bytes: &[u8]) -> Result<(), OutRefusal> {
        self.out.say(bytes)?;
        Ok(())
    }

    ghost nothing = { counted.nothing O.since O.nothing };

    ghost joined = { counted.joined O.since O.joined };

    ghost joined_cut = { counted.joined_cut O.since O.cut O.joined_cut };

    ghost whole = { counted.whole O.since O.cut O.whole };

    ghost longer = { counted.longer O.cut O.longer };
}
