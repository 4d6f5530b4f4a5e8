//! What the machine does next.

use ps_kinds::{ErrorName, Object, SaveName, Text};

/// How a run ends.
#[derive(Clone, Copy, Debug, PartialEq, Eq)]
pub enum Outcome {
    /// The text was read to its end.
    Next,

    /// An `exit` came to the top. Operators refuse it before.
    Exit,

    /// A `stop` came to the top.
    Stop,
    Quit,

    /// No turn was left.
    Spent,
}

/// What is next.
#[derive(Drop)]
pub enum Next {
    /// A step of the newest frame, or of the section's text where no frame stands.
    Goes,

    /// A step that executes the entry of an error, after the object was pushed that was executed.
    Raised { error: ErrorName, object: Object },

    /// A message is to be given out.
    Says(Text),

    /// The page is to be given out, and then wiped or kept.
    Shows { wipe: bool },

    /// Nothing.
    Ended { outcome: Outcome },

    /// Nothing: a save was to be restored that was made before the run.
    Outer { save: SaveName },
}
