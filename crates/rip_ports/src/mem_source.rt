//! A source in memory.
ghost use Rattle.std.specs.Prelude.{◌≡◌, ◌≤◌, ◌<◌, ◌↔◌, length, take, drop, max, Some, IfOk, OnErr, IsErr};

use crate::call_counter::CallCounter;
use crate::{Failed, Source};
use std::marker::Model;

/// Gives the bytes of a `Vec`, a few a call, and fails at the calls that are listed.
#[derive(Drop)]
pub struct MemSource {
    bytes: Vec<u8>,
    given: usize,
    step: usize,
    calls: CallCounter,
}

impl Model for MemSource {
    ghost use Rattle.std.specs.Prelude.{◌≤◌, drop, vec_len};
    ghost use Rattle.rip_ports.specs.MemSource.{SourceInMemory};

    ghost Value = { SourceInMemory };

    ghost view = { λ s.
        record { rest = drop s.given s.bytes.items; step = s.step; calls = s.calls } };

    ghost invariant = { λ s. (s.given ≤ vec_len s.bytes) × (1 ≤ s.step) };
}

impl MemSource {
    /// Gives at most `step` bytes a call, where 0 acts as 1. Calls are numbered from 1, and those whose numbers
    /// stand in `fail` fail.
    pub fn new(bytes: Vec<u8>, step: u32, fail: Vec<u64>) -> MemSource
        ensures { result ≡ record {
          rest = bytes.items;
          step = max step 1;
          calls = record { made = 0; failing = fail.items; faults = 0 };
        } }
    {
        MemSource {
            bytes,
            given: 0,
            step: (step as usize).max(1),
            calls: CallCounter::new(fail),
        }
    }
}

impl Source for MemSource {
    ghost use Rattle.rip_ports.specs.Ports.{GivesNoneAtEnd};
    ghost use Rattle.rip_ports.specs.Calls.{IsNextListed, after_success, after_fault};
    ghost use Rattle.rip_ports.specs.MemSource.{given_count};

    ghost left = { λ s. Some s.rest };

    ghost faults = { λ s. s.calls.faults };

    fn take(&mut self, into: &mut [u8]) -> Result<usize, Failed>
        requires { 0 < length into.old }
        ensures counted { self.old.calls.faults ≤ self.new.calls.faults }
        ensures ended { IfOk result (λ n. GivesNoneAtEnd n (Some self.old.rest)) }

        ensures cause { IsErr result ↔ IsNextListed self.old.calls }
        ensures count { IfOk result (λ n. n ≡ given_count (length into.old) self.old) }
        ensures front { IfOk result (λ n. take n into.new ≡ take n self.old.rest) }
        ensures back { IfOk result (λ n. drop n into.new ≡ drop n into.old) }
        ensures ok { IfOk result (λ n. self.new ≡ record self.old {
          rest = drop n self.old.rest;
          calls = after_success self.old.calls;
        }) }
        ensures err { OnErr result
            (self.new ≡ record self.old { calls = after_fault self.old.calls }) }
        ensures untouched { OnErr result (into.new ≡ into.old) }
    {
        if self.calls.count_call() {
            return Err(self.calls.fault());
        }
        let rest = &self.bytes[self.given..];
        let count = rest.len().min(self.step).min(into.len());
        into[..count].copy_from_slice(&rest[..count]);
        self.given += count;
        Ok(count)
    }
}
