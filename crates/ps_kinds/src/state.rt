//! The state of a section.
ghost use Rattle.std.specs.Prelude.{◌≡◌, IfOk};

use crate::{Frames, NoMemory, Regs, SectionKind, Settings};
use copy_lists::may_be_shared;

/// What a section holds while it runs, besides memory.
#[derive(Drop)]
pub struct State {
    pub regs: Regs,
    pub settings: Settings,

    /// What `realtime` tells.
    pub moment: u64,

    /// The section's number.
    pub section: u32,
    pub kind: SectionKind,

    /// The next count of a cell or a save of this section.
    pub count: u32,

    /// Turns, units, shown pages and message bytes so far.
    pub turns: u64,
    pub units: u64,
    pub shows: u32,
    pub said: u64,

    /// Where in the section's text scanning goes on.
    pub place: u64,
    pub frames: Frames,
}

impl State {
    pub fn copy(&self) -> Result<State, NoMemory>
        ensures { IfOk result (λ state. state ≡ self.now) }
    {
        Ok(State {
            regs: self.regs.copy()?,
            settings: self.settings,
            moment: self.moment,
            section: self.section,
            kind: self.kind,
            count: self.count,
            turns: self.turns,
            units: self.units,
            shows: self.shows,
            said: self.said,
            place: self.place,
            frames: self.frames.copy()?,
        })
    }
}

/// A state, and all that it holds, may be sent to and shared between threads.
pub fn state_may_be_shared(state: &State) {
    may_be_shared(state);
}
