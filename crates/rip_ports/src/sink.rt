//! Sinks.
ghost use Rattle.std.specs.Prelude.{◌≡◌, ◌≤◌, ℕ, List, Option, OnOk, OnErr};
ghost use Rattle.rip_ports.specs.Ports.{HasRisen, Appends, AppendsFront};

use crate::Failed;

/// Takes bytes, in pieces.
pub trait Sink {
    /// The bytes so far, where the sink tells them.
    ghost holds: { Self → Option (List ℕ) };

    /// How often the sink has failed.
    ghost faults: { Self → ℕ };

    /// Takes the whole piece, or fails and has taken a part of it, from its front.
    ///
    /// # Errors
    ///
    /// `Failed` only where the count of faults has risen.
    fn put(&mut self, bytes: &[u8]) -> Result<(), Failed>
        ensures counted { faults self.old ≤ faults self.new }
        ensures failed { OnErr result (HasRisen (faults self.old) (faults self.new)) }
        ensures appended { OnOk result (Appends bytes.now (holds self.old) (holds self.new)) }
        ensures cut { OnErr result (AppendsFront bytes.now (holds self.old) (holds self.new)) };
}
