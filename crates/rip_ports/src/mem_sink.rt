//! A sink in memory.
ghost use Rattle.std.specs.Prelude.{◌≡◌, ◌≤◌, ◌+◌, ◌↔◌, ◌⊎◌, ◌++◌, [], length, Some, IfOk, OnOk, OnErr, IsErr, vec_len, vec_capacity};

use crate::call_counter::CallCounter;
use crate::{Failed, Sink};
use copy_lists::NoMemory;
use std::alloc::Global;
use std::marker::Model;

/// Keeps bytes up to a number that is fixed at its making, and fails at the calls that are listed.
#[derive(Drop)]
pub struct MemSink {
    bytes: Vec<u8>,
    room: usize,
    calls: CallCounter,
}

impl Model for MemSink {
    ghost use Rattle.std.specs.Prelude.{◌≤◌, vec_len, vec_capacity};
    ghost use Rattle.rip_ports.specs.MemSink.{SinkInMemory};

    ghost Value = { SinkInMemory };

    ghost view = { λ s. record { bytes = s.bytes.items; room = s.room; calls = s.calls } };

    ghost invariant = { λ s. (vec_len s.bytes ≤ s.room) × (s.room ≤ vec_capacity s.bytes) };
}

impl MemSink {
    /// Takes memory for `room` bytes at once; no put takes any. Calls are numbered from 1, and those whose numbers
    /// stand in `fail` fail.
    pub fn new(alloc: Global, room: u64, fail: Vec<u64>) -> Result<MemSink, NoMemory>
        ensures { IfOk result (λ sink. sink ≡ record {
          bytes = [];
          room = room;
          calls = record { made = 0; failing = fail.items; faults = 0 };
        }) }
    {
        let room = room as usize;
        Ok(MemSink {
            bytes: Vec::with_capacity(alloc, room)?,
            room,
            calls: CallCounter::new(fail),
        })
    }

    /// The bytes so far.
    pub fn bytes(&self) -> &[u8]
        ensures { result.now ≡ self.now.bytes }
    {
        &self.bytes
    }
}

impl Sink for MemSink {
    ghost use Rattle.rip_ports.specs.Ports.{AppendsFront};
    ghost use Rattle.rip_ports.specs.Calls.{IsNextListed, after_success, after_fault};
    ghost use Rattle.rip_ports.specs.MemSink.{IsTooLong, half_kept};

    ghost holds = { λ s. Some s.bytes };

    ghost faults = { λ s. s.calls.faults };

    fn put(&mut self, bytes: &[u8]) -> Result<(), Failed>
        ensures counted { self.old.calls.faults ≤ self.new.calls.faults }
        ensures cut { OnErr result
            (AppendsFront bytes.now (Some self.old.bytes) (Some self.new.bytes)) }

        ensures cause { IsErr result ↔
            (IsNextListed self.old.calls ⊎ IsTooLong bytes.now self.old) }
        ensures whole { OnOk result (self.new ≡ record self.old {
          bytes = self.old.bytes ++ bytes.now;
          calls = after_success self.old.calls;
        }) }
        ensures part { OnErr result (self.new ≡ record self.old {
          bytes = self.new.bytes;
          calls = after_fault self.old.calls;
        }) }
        ensures half { IsNextListed self.old.calls →
            self.new.bytes ≡ self.old.bytes ++ half_kept bytes.now self.old }
        ensures none { ¬ IsNextListed self.old.calls →
            OnErr result (self.new.bytes ≡ self.old.bytes) }
    {
        let room = self.room - self.bytes.len();
        if self.calls.count_call() {
            let half = (bytes.len() / 2).min(room);
            append(&mut self.bytes, &bytes[..half]);
            return Err(self.calls.fault());
        }
        if bytes.len() > room {
            return Err(self.calls.fault());
        }
        append(&mut self.bytes, bytes);
        Ok(())
    }
}

/// Appends a piece that fits without more memory.
fn append(bytes: &mut Vec<u8>, piece: &[u8])
    requires { vec_len bytes.old + length piece.now ≤ vec_capacity bytes.old }
    ensures items { bytes.new.items ≡ bytes.old.items ++ piece.now }
    ensures len { vec_len bytes.new ≡ vec_len bytes.old + length piece.now }
    ensures capacity { vec_capacity bytes.old ≤ vec_capacity bytes.new }
{
    bytes.extend_from_slice(piece).unwrap()
}
