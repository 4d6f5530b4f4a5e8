//! The fields of a graphics state that differ from the start's.
ghost use Rattle.std.specs.Prelude.{◌≡◌, ◌++◌, codes, OnOk};
ghost use Rattle.std.specs.Fmt.{decimal};
ghost use Rattle.dump_lines.specs.Objects as objects;
ghost use Rattle.dump_lines.specs.Values as values;
ghost use Rattle.dump_lines.specs.Fields as spec;
ghost use Rattle.dump_lines.specs.Fields.{field};

use crate::objects::truth;
use crate::values::{
    cap_digit, clips_text, count_text, decimal_text, first_of, fourth_of, join_digit, lengths_text,
    matrix_text, object_text, path_text, second_of, space_name, third_of, thresholds_text,
};
use copy_lists::{NoMemory, Text};
use ps_kinds::{GState, Object, PageSide, Real};
use std::alloc::Global;

/// Appends a name and a value, where the value isn't the start's.
#[tactic(auto, using(crate::proofs::Pieces::four_pieces))]
fn push_field(text: &mut Text, name: &[u8], now: &[u8], before: &[u8]) -> Result<(), NoMemory>
    ensures { OnOk result (text.new ≡ text.old ++ field name.now now.now before.now) }
{
    if now == before {
        return Ok(());
    }
    text.push(b' ')?;
    text.extend(name)?;
    text.push(b' ')?;
    text.extend(now)
}

/// Appends a real, where it isn't the start's.
fn push_real(
    alloc: Global,
    text: &mut Text,
    name: &[u8],
    now: Real,
    before: Real,
) -> Result<(), NoMemory>
    ensures { OnOk result (text.new ≡
        text.old ++ field name.now (values.count_text now) (values.count_text before)) }
{
    let now = count_text(alloc, now)?;
    let before = count_text(alloc, before)?;
    push_field(text, name, now.as_slice(), before.as_slice())
}

/// Appends an object, where it isn't the start's.
fn push_object(
    alloc: Global,
    text: &mut Text,
    name: &[u8],
    now: &Object,
    before: &Object,
) -> Result<(), NoMemory>
    ensures { OnOk result (text.new ≡
        text.old ++ field name.now (objects.object_text now.now) (objects.object_text before.now)) }
{
    let now = object_text(alloc, now)?;
    let before = object_text(alloc, before)?;
    push_field(text, name, now.as_slice(), before.as_slice())
}

/// Appends a side of the page, where it isn't the start's.
fn push_side(
    alloc: Global,
    text: &mut Text,
    name: &[u8],
    now: PageSide,
    before: PageSide,
) -> Result<(), NoMemory>
    ensures { OnOk result (text.new ≡
        text.old ++ field name.now (decimal now) (decimal before)) }
{
    let now = decimal_text(alloc, now.pixels())?;
    let before = decimal_text(alloc, before.pixels())?;
    push_field(text, name, now.as_slice(), before.as_slice())
}

/// Appends the matrix, where it isn't the start's.
fn push_matrix(
    alloc: Global,
    text: &mut Text,
    state: &GState,
    start: &GState,
) -> Result<(), NoMemory>
    ensures { OnOk result (text.new ≡ text.old ++
        field (codes "ctm") (values.matrix_text state.now.ctm) (values.matrix_text start.now.ctm)) }
{
    let now = matrix_text(alloc, &state.ctm)?;
    let before = matrix_text(alloc, &start.ctm)?;
    push_field(text, b"ctm", now.as_slice(), before.as_slice())
}

/// Appends the path, where it isn't the start's.
fn push_path(alloc: Global, text: &mut Text, state: &GState, start: &GState) -> Result<(), NoMemory>
    ensures { OnOk result (text.new ≡ text.old ++
        field (codes "path") (values.path_text state.now.path) (values.path_text start.now.path)) }
{
    let now = path_text(alloc, state.path.as_slice())?;
    let before = path_text(alloc, start.path.as_slice())?;
    push_field(text, b"path", now.as_slice(), before.as_slice())
}

/// Appends the clips, where they aren't the start's.
fn push_clips(
    alloc: Global,
    text: &mut Text,
    state: &GState,
    start: &GState,
) -> Result<(), NoMemory>
    ensures { OnOk result (text.new ≡ text.old ++
        field (codes "clips") (values.clips_text state.now.clips)
        (values.clips_text start.now.clips)) }
{
    let now = clips_text(alloc, state.clips.as_slice())?;
    let before = clips_text(alloc, start.clips.as_slice())?;
    push_field(text, b"clips", now.as_slice(), before.as_slice())
}

/// Appends the lengths of the dashes, where they aren't the start's.
fn push_lengths(
    alloc: Global,
    text: &mut Text,
    state: &GState,
    start: &GState,
) -> Result<(), NoMemory>
    ensures { OnOk result (text.new ≡ text.old ++
        field (codes "lengths") (values.lengths_text state.now.lengths)
        (values.lengths_text start.now.lengths)) }
{
    let now = lengths_text(alloc, state.lengths.as_slice())?;
    let before = lengths_text(alloc, start.lengths.as_slice())?;
    push_field(text, b"lengths", now.as_slice(), before.as_slice())
}

/// Appends the thresholds, where they aren't the start's.
fn push_thresholds(
    alloc: Global,
    text: &mut Text,
    state: &GState,
    start: &GState,
) -> Result<(), NoMemory>
    ensures { OnOk result (text.new ≡ text.old ++ field (codes "thresholds")
        (values.thresholds_text state.now.thresholds)
        (values.thresholds_text start.now.thresholds)) }
{
    let now = thresholds_text(alloc, &state.thresholds)?;
    let before = thresholds_text(alloc, &start.thresholds)?;
    push_field(text, b"thresholds", now.as_slice(), before.as_slice())
}

/// Appends what differs of where it is painted.
#[tactic(auto, using(crate::proofs::Pieces::three_pieces))]
fn push_area(alloc: Global, text: &mut Text, state: &GState, start: &GState) -> Result<(), NoMemory>
    ensures { OnOk result (text.new ≡ text.old ++ spec.area_fields state.now start.now) }
{
    push_matrix(alloc, text, state, start)?;
    push_path(alloc, text, state, start)?;
    push_clips(alloc, text, state, start)
}

/// Appends what differs of the colour.
#[tactic(auto, using(crate::proofs::Pieces::five_pieces))]
fn push_colour(
    alloc: Global,
    text: &mut Text,
    state: &GState,
    start: &GState,
) -> Result<(), NoMemory>
    ensures { OnOk result (text.new ≡ text.old ++ spec.colour_fields state.now start.now) }
{
    let now = &state.colour;
    let before = &start.colour;
    push_field(text, b"space", space_name(now), space_name(before))?;
    push_real(alloc, text, b"c0", first_of(now), first_of(before))?;
    push_real(alloc, text, b"c1", second_of(now), second_of(before))?;
    push_real(alloc, text, b"c2", third_of(now), third_of(before))?;
    push_real(alloc, text, b"c3", fourth_of(now), fourth_of(before))
}

/// Appends what differs of how lines look.
#[tactic(auto, using(crate::proofs::Pieces::four_pieces))]
fn push_line(alloc: Global, text: &mut Text, state: &GState, start: &GState) -> Result<(), NoMemory>
    ensures { OnOk result (text.new ≡ text.old ++ spec.line_fields state.now start.now) }
{
    push_real(
        alloc,
        text,
        b"width",
        state.width.real(),
        start.width.real(),
    )?;
    push_field(text, b"cap", cap_digit(state.cap), cap_digit(start.cap))?;
    push_field(
        text,
        b"join",
        join_digit(state.join),
        join_digit(start.join),
    )?;
    push_real(
        alloc,
        text,
        b"miter",
        state.miter.real(),
        start.miter.real(),
    )
}

/// Appends what differs of how lines are dashed.
#[tactic(auto, using(crate::proofs::Pieces::three_pieces))]
fn push_dash(alloc: Global, text: &mut Text, state: &GState, start: &GState) -> Result<(), NoMemory>
    ensures { OnOk result (text.new ≡ text.old ++ spec.dash_fields state.now start.now) }
{
    push_object(alloc, text, b"dash", &state.dash, &start.dash)?;
    push_real(alloc, text, b"offset", state.offset, start.offset)?;
    push_lengths(alloc, text, state, start)
}

/// Appends what differs of what is told, and has no effect.
#[tactic(auto, using(crate::proofs::Pieces::four_pieces))]
fn push_told(alloc: Global, text: &mut Text, state: &GState, start: &GState) -> Result<(), NoMemory>
    ensures { OnOk result (text.new ≡ text.old ++ spec.told_fields state.now start.now) }
{
    push_real(alloc, text, b"flat", state.flat, start.flat)?;
    push_field(text, b"adjust", truth(state.adjust), truth(start.adjust))?;
    push_real(alloc, text, b"frequency", state.frequency, start.frequency)?;
    push_real(alloc, text, b"angle", state.angle, start.angle)
}

/// Appends what differs of the screens.
#[tactic(auto, using(crate::proofs::Pieces::four_pieces))]
fn push_screen(
    alloc: Global,
    text: &mut Text,
    state: &GState,
    start: &GState,
) -> Result<(), NoMemory>
    ensures { OnOk result (text.new ≡ text.old ++ spec.screen_fields state.now start.now) }
{
    push_object(alloc, text, b"spot", &state.spot, &start.spot)?;
    push_object(alloc, text, b"transfer", &state.transfer, &start.transfer)?;
    push_object(alloc, text, b"halftone", &state.halftone, &start.halftone)?;
    push_thresholds(alloc, text, state, start)
}

/// Appends what differs of the font and of the page's size.
#[tactic(auto, using(crate::proofs::Pieces::three_pieces))]
fn push_page(alloc: Global, text: &mut Text, state: &GState, start: &GState) -> Result<(), NoMemory>
    ensures { OnOk result (text.new ≡ text.old ++ spec.page_fields state.now start.now) }
{
    push_object(alloc, text, b"font", &state.font, &start.font)?;
    push_side(alloc, text, b"wide", state.wide, start.wide)?;
    push_side(alloc, text, b"high", state.high, start.high)
}

/// Appends all fields that differ.
#[tactic(auto, using(crate::proofs::Pieces::seven_pieces), unfolding(crate::specs::Fields::state_fields))]
pub(crate) fn push_fields(
    alloc: Global,
    text: &mut Text,
    state: &GState,
    start: &GState,
) -> Result<(), NoMemory>
    ensures { OnOk result (text.new ≡ text.old ++ spec.state_fields state.now start.now) }
{
    push_area(alloc, text, state, start)?;
    push_colour(alloc, text, state, start)?;
    push_line(alloc, text, state, start)?;
    push_dash(alloc, text, state, start)?;
    push_told(alloc, text, state, start)?;
    push_screen(alloc, text, state, start)?;
    push_page(alloc, text, state, start)
}
