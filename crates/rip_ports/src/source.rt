//! Sources.
ghost use Rattle.std.specs.Prelude.{◌≡◌, ◌≤◌, ◌<◌, ℕ, List, Option, length, take, IfOk, OnErr};
ghost use Rattle.rip_ports.specs.Ports.{HasRisen, Gives, GivesNoneAtEnd};

use crate::Failed;

/// Gives the bytes of a job in pieces.
pub trait Source {
    /// The bytes not yet given, where the source tells them.
    ghost left: { Self → Option (List ℕ) };

    /// How often the source has failed.
    ghost faults: { Self → ℕ };

    /// Puts the next bytes at the front of `into`, and tells their number. 0 is the end.
    ///
    /// # Errors
    ///
    /// `Failed` only where the count of faults has risen; no byte is taken then.
    fn take(&mut self, into: &mut [u8]) -> Result<usize, Failed>
        requires { 0 < length into.old }
        ensures counted { faults self.old ≤ faults self.new }

        ensures within { IfOk result (λ n. n ≤ length into.old) }
        ensures given { IfOk result (λ n. Gives (take n into.new) (left self.old) (left self.new)) }
        ensures ended { IfOk result (λ n. GivesNoneAtEnd n (left self.old)) }

        ensures failed { OnErr result (HasRisen (faults self.old) (faults self.new)) }
        ensures kept { OnErr result (left self.new ≡ left self.old) };
}
