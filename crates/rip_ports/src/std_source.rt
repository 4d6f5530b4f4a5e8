//! A source over a reader.
ghost use Rattle.std.specs.Prelude.{◌≡◌, ◌≤◌, ◌<◌, length, None, IfOk, OnErr};
ghost use Rattle.std.specs.Io.KnownBytes.{ReadConsumes};

use crate::{Failed, Source};
use std::io::{ErrorKind, Read};
use std::marker::Model;

/// Gives the bytes of a reader, and counts the reader's errors. It doesn't tell how many bytes are left.
#[derive(Drop)]
pub struct StdSource<R> {
    reader: R,
    faults: u64,
}

impl<R> Model for StdSource<R> {
    ghost use Rattle.rip_ports.specs.Counted.{Counted};

    ghost Value = { Counted R };

    ghost view = { λ s. record { device = s.reader; faults = s.faults } };
}

impl<R> StdSource<R> {
    /// Over this reader, with a count of 0.
    pub fn new(reader: R) -> StdSource<R>
        ensures { result ≡ record { device = reader; faults = 0 } }
    {
        StdSource { reader, faults: 0 }
    }
}

impl<R: Read> Source for StdSource<R> {
    ghost use Rattle.rip_ports.specs.Ports.{HasRisen};

    ghost left = { λ _. None };

    ghost faults = { λ s. s.faults };

    /// One read. A read that a signal interrupts is done again, though it counts as a fault.
    fn take(&mut self, into: &mut [u8]) -> Result<usize, Failed>
        requires { 0 < length into.old }
        ensures counted { self.old.faults ≤ self.new.faults }
        ensures within { IfOk result (λ n. n ≤ length into.old) }
        ensures failed { OnErr result (HasRisen self.old.faults self.new.faults) }
        ensures passed { ReadConsumes
            (R.remaining self.old.device) (R.remaining self.new.device) result into.new }
    {
        for _ in 0..u64::MAX {
            match self.reader.read(into) {
                Ok(count) => return Ok(count),
                Err(error) => {
                    self.faults = self.faults.saturating_add(1);
                    if error.kind() != ErrorKind::Interrupted {
                        return Err(Failed);
                    }
                }
            }
        }
        self.faults = self.faults.saturating_add(1);
        Err(Failed)
    }
}
