//! What an operator answers.
ghost use Rattle.std.specs.Prelude.{◌≡◌, IfOk};

use crate::{ErrorName, Frame, NoMemory, SaveName, Text};

/// What is to be done after an operator or a step.
#[derive(Drop)]
pub enum Act {
    Done,

    /// A frame begins.
    Body(Frame),

    /// The operator failed, and changed nothing.
    Fail(ErrorName),
    Exit,
    Stop,
    Quit,

    /// A message is written.
    Say(Text),

    /// The page is given out, and then wiped or kept.
    Show { wipe: bool },

    /// A restore of a save that was made outside of the page.
    Outer { save: SaveName },
}

impl Act {
    pub fn copy(&self) -> Result<Act, NoMemory>
        ensures { IfOk result (λ act. act ≡ self.now) }
    {
        Ok(match self {
            Act::Done => Act::Done,
            Act::Body(frame) => Act::Body(frame.copy()?),
            Act::Fail(error) => Act::Fail(*error),
            Act::Exit => Act::Exit,
            Act::Stop => Act::Stop,
            Act::Quit => Act::Quit,
            Act::Say(text) => Act::Say(text.copy()?),
            Act::Show { wipe } => Act::Show { wipe: *wipe },
            Act::Outer { save } => Act::Outer { save: *save },
        })
    }
}
