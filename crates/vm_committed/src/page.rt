//! The paper of a memory.

use ps_objects::{NoMemory, Paper};
use std::mem::replace;

/// The paper, or its size in pixels while an operator has it in its hands.
#[derive(Drop)]
pub(crate) enum Page {
    Here(Paper),
    Out { width: u32, height: u32 },
}

impl Page {
    ghost use Rattle.std.specs.Prelude.{◌≡◌, true, IfOk};
    ghost use Rattle.ps_memory.specs.Memory.{here, page_out};
    ghost use Rattle.vm_mem.specs.Conditions.{is_here};
    ghost use Rattle.vm_committed.specs.Whole.{page_of};

    /// Takes the paper out.
    pub(crate) fn take(&mut self) -> Paper
        requires { is_here (page_of self.old) ≡ true }
        ensures paper { page_of self.old ≡ here result }
        ensures out { page_of self.new ≡ page_out (page_of self.old) }
    {
        let nowhere = Page::Out {
            width: 0,
            height: 0,
        };
        match replace(self, nowhere) {
            Page::Here(paper) => {
                *self = Page::Out {
                    width: paper.width(),
                    height: paper.height(),
                };
                paper
            }
            Page::Out { .. } => unreachable!(),
        }
    }

    pub(crate) fn copy(&self) -> Result<Page, NoMemory>
        ensures { IfOk result (λ copy. copy ≡ self.now) }
    {
        Ok(match self {
            Page::Here(paper) => Page::Here(paper.copy()?),
            Page::Out { width, height } => Page::Out {
                width: *width,
                height: *height,
            },
        })
    }
}
