//! The registers of a running job: the graphics state, saves, frames and the state of a section.
#![tactic(auto)]

mod act;
mod frame;
mod graphics;
mod ranges;
mod regs;
mod show;
mod state;
#[cfg(test)]
mod tests;

pub use act::Act;
pub use copy_lists::{Boxed, Duplicate, NoMemory, Sequence, Stack, Text};
pub use frame::{FRAME_LIMIT, Frame, Frames, ImageRun, Pair, PathWalk, Samples, frames_room};
pub use graphics::{Colour, GStack, GState, Layer};
pub use ps_objects::{
    Access, Cell, DICT_STACK_LIMIT, DictStack, ErrorName, FileName, Interval, Key, KeyForm, Keys,
    Kind, Loc, NAME_LIMIT, Name, Number, OPERAND_LIMIT, Object, Objects, Op, Operands, Refusal,
    SaveName, SectionKind, Settings, Shape, Space, Value, dict_room, op_name, places,
};
pub use ps_shapes::{
    Clip, Clips, DevicePoint, Matrix, ONE, Paper, Path, Point, Polygon, Polygons, Real, Rule,
    Segment, Span, Spans, SpansList, Thresholds,
};
pub use ranges::{Component, Lengths, LineCap, LineJoin, LineWidth, MiterLimit, PageSide};
pub use regs::{Pages, Papers, RegField, Regs, SaveMark, Saves};
pub use show::{Glyph, Offset, ShowForm, ShowPhase, ShowRun};
pub use state::{State, state_may_be_shared};
