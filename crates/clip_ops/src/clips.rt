//! Operators on the clips and on the whole path (section 8.2 of the language manual).
ghost use Rattle.std.specs.Prelude.{◌≡◌};
ghost use Rattle.ps_operator.specs.Owes.{DoesAlone};
ghost use Rattle.clip_ops.specs.Clips as spec;

use crate::flats::{lines_of, polygons_of};
use ps_kinds::{Clip, Clips, ErrorName, Refusal, Rule, State};

/// How many clips there may be.
const CLIP_LIMIT: usize = 32;

/// Whether there may be one more clip: limitcheck.
pub(crate) fn clip_room(clips: &Clips) -> Result<(), ErrorName>
    ensures { result ≡ spec.clip_room clips.now }
{
    if clips.len() < CLIP_LIMIT {
        Ok(())
    } else {
        Err(ErrorName::LimitCheck)
    }
}

pub(crate) fn flattenpath(state: &mut State) -> Result<(), Refusal>
    ensures { DoesAlone spec.flattenpath state.old result state.new }
{
    let alloc = state.regs.operands.alloc();
    let path = lines_of(alloc, &state.regs.state.path)?;
    state.regs.state.path = path;
    Ok(())
}

pub(crate) fn initclip(state: &mut State) -> Result<(), Refusal>
    ensures { DoesAlone spec.initclip state.old result state.new }
{
    state.regs.state.clips.clear();
    Ok(())
}

fn clipped_by(rule: Rule, state: &mut State) -> Result<(), Refusal>
    ensures { DoesAlone (spec.clipped_by rule) state.old result state.new }
{
    let alloc = state.regs.operands.alloc();
    let polygons = polygons_of(alloc, &state.regs.state.path)?;
    clip_room(&state.regs.state.clips)?;
    state.regs.state.clips.push(Clip { rule, polygons })?;
    Ok(())
}

pub(crate) fn clip(state: &mut State) -> Result<(), Refusal>
    ensures { DoesAlone spec.clip state.old result state.new }
{
    clipped_by(Rule::NonZero, state)
}

pub(crate) fn eoclip(state: &mut State) -> Result<(), Refusal>
    ensures { DoesAlone spec.eoclip state.old result state.new }
{
    clipped_by(Rule::EvenOdd, state)
}
