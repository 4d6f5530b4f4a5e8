//! The pixels of the clips.
ghost use Rattle.std.specs.Prelude.{IfOk};
ghost use Rattle.paint_ops.specs.Covering.{HoldClips};

use path_cover::cover;
use ps_kinds::{Clips, NoMemory, SpansList};
use std::alloc::Global;

/// The pixels of each clip, on a paper of that size.
#[tactic(auto, using(crate::proofs::Clipping::no_clips, crate::proofs::Clipping::one_clip_more, crate::proofs::Clipping::all_clips))]
pub(crate) fn spans_of_clips(
    alloc: Global,
    clips: &Clips,
    width: u32,
    height: u32,
) -> Result<SpansList, NoMemory>
    ensures { IfOk result (λ lists. HoldClips width height clips.now lists) }
{
    let mut lists = SpansList::new(alloc);
    for clip in clips.as_slice() {
        let spans = cover(alloc, &clip.polygons, clip.rule, width, height)?;
        lists.push(spans)?;
    }
    Ok(lists)
}
