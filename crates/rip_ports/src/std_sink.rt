//! A sink over a writer.
ghost use Rattle.std.specs.Prelude.{◌≡◌, ◌≤◌, ◌<◌, ℕ, length, take, None, IfOk, OnOk, OnErr};
ghost use Rattle.std.specs.Io.KnownBytes.{WriteAppends, Keeps};

use crate::{Failed, Sink};
use std::io::{ErrorKind, Write};
use std::marker::Model;

/// Hands its bytes to a writer, and counts the writer's errors. It doesn't tell what the writer holds.
#[derive(Drop)]
pub struct StdSink<W> {
    writer: W,
    faults: u64,
}

impl<W> Model for StdSink<W> {
    ghost use Rattle.rip_ports.specs.Counted.{Counted};

    ghost Value = { Counted W };

    ghost view = { λ s. record { device = s.writer; faults = s.faults } };
}

impl<W> StdSink<W> {
    ghost use Rattle.rip_ports.specs.Ports.{raised};

    /// Over this writer, with a count of 0.
    pub fn new(writer: W) -> StdSink<W>
        ensures { result ≡ record { device = writer; faults = 0 } }
    {
        StdSink { writer, faults: 0 }
    }

    /// Counts one more fault.
    fn fault(&mut self) -> Failed
        ensures counted { self.new ≡ record self.old { faults = raised self.old.faults } }
        ensures rises { self.old.faults ≤ self.new.faults }
    {
        self.faults = self.faults.saturating_add(1);
        Failed
    }
}

impl<W: Write> StdSink<W> {
    ghost use Rattle.rip_ports.specs.Ports.{HasRisen};

    /// One write, of a byte or more. A write that takes nothing is a fault.
    fn write(&mut self, piece: &[u8]) -> Result<usize, Failed>
        requires { 0 < length piece.now }
        ensures counted { self.old.faults ≤ self.new.faults }
        ensures some { IfOk result (λ n. 0 < n) }
        ensures within { IfOk result (λ n. n ≤ length piece.now) }
        ensures failed { OnErr result (HasRisen self.old.faults self.new.faults) }
        ensures passed { WriteAppends
            (W.contents self.old.device) (W.contents self.new.device) result piece.now }
    {
        for _ in 0..u64::MAX {
            match self.writer.write(piece) {
                Ok(0) => return Err(self.fault()),
                Ok(count) => return Ok(count),
                Err(error) => {
                    let failed = self.fault();
                    if error.kind() != ErrorKind::Interrupted {
                        return Err(failed);
                    }
                }
            }
        }
        Err(self.fault())
    }

    fn flush(&mut self) -> Result<(), Failed>
        ensures counted { self.old.faults ≤ self.new.faults }
        ensures failed { OnErr result (HasRisen self.old.faults self.new.faults) }
        ensures passed { Keeps (W.contents self.old.device) (W.contents self.new.device) }
    {
        for _ in 0..u64::MAX {
            match self.writer.flush() {
                Ok(()) => return Ok(()),
                Err(error) => {
                    let failed = self.fault();
                    if error.kind() != ErrorKind::Interrupted {
                        return Err(failed);
                    }
                }
            }
        }
        Err(self.fault())
    }
}

impl<W: Write> Sink for StdSink<W> {
    ghost use Rattle.std.specs.Io.KnownBytes.{Appends};
    ghost use Rattle.rip_ports.specs.Ports.{HasRisen};

    ghost holds = { λ _. None };

    ghost faults = { λ s. s.faults };

    /// Writes until the writer has the whole piece, and flushes it. A write or a flush that a signal interrupts is
    /// done again, though it counts as a fault.
    fn put(&mut self, bytes: &[u8]) -> Result<(), Failed>
        ensures counted { self.old.faults ≤ self.new.faults }
        ensures failed { OnErr result (HasRisen self.old.faults self.new.faults) }
        ensures passed { OnOk result
            (Appends (W.contents self.old.device) (W.contents self.new.device) bytes.now) }
        ensures cut { OnErr result ((n : ℕ) × (n ≤ length bytes.now)
            × Appends (W.contents self.old.device) (W.contents self.new.device)
            (take n bytes.now)) }
    {
        let mut done = 0;
        while done < bytes.len() {
            done += self.write(&bytes[done..])?;
        }
        self.flush()
    }
}
