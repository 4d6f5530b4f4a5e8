//! What names a local composite object that is newer than a save.
#![tactic(auto, using(ps_operator::proofs::StoreSteps::any_hit, ps_operator::proofs::StoreSteps::any_miss))]

ghost use Rattle.std.specs.Prelude.{◌≡◌, drop};
ghost use Rattle.ps_memory.specs.Memory.{newer};
ghost use Rattle.ps_operator.specs.Newer as spec;
ghost use Rattle.ps_operator.specs.Registers.{any_of};

use ps_kinds::{
    Cell, DictStack, Frame, Frames, Object, Objects, Pair, SaveName, Sequence, ShowForm,
};

fn cell_newer(save: SaveName, cell: Option<Cell>) -> bool
    ensures { result ≡ spec.cell_newer save cell }
{
    match cell {
        Some(cell) => cell.is_newer_than(save),
        None => false,
    }
}

/// Whether an object is a local composite one that was made after a save, so that a restore of the save takes its value away
/// (section 3.7 of the language manual: memory management).
pub fn newer(object: &Object, save: SaveName) -> bool
    ensures { result ≡ spec.object_newer save object.now }
{
    cell_newer(save, object.kind.cell())
}

/// Whether one of these objects is newer, but for the first ones.
pub(crate) fn objects_newer(save: SaveName, objects: &Objects, from: usize) -> bool
    ensures { result ≡ any_of (spec.object_newer save) (drop from objects.now) }
{
    for depth in from..objects.len() {
        if newer(objects.at(depth), save) {
            return true;
        }
    }
    false
}

/// Whether one of these dictionaries is newer.
pub(crate) fn dicts_newer(save: SaveName, dicts: &DictStack) -> bool
    ensures { result ≡ any_of (λ d. newer d save) dicts.now }
{
    for depth in 0..dicts.len() {
        if dicts.at(depth).is_newer_than(save) {
            return true;
        }
    }
    false
}

fn pair_newer(save: SaveName, pair: &Pair) -> bool
    ensures { result ≡ spec.pair_newer save pair.now }
{
    cell_newer(save, pair.key.cell()) || newer(&pair.value, save)
}

fn pairs_newer(save: SaveName, pairs: &Sequence<Pair>) -> bool
    ensures { result ≡ any_of (spec.pair_newer save) pairs.now }
{
    for at in 0..pairs.len() {
        if pair_newer(save, pairs.at(at)) {
            return true;
        }
    }
    false
}

fn form_newer(save: SaveName, form: &ShowForm) -> bool
    ensures { result ≡ spec.form_newer save form.now }
{
    match form {
        ShowForm::Kshow { procedure } => newer(procedure, save),
        _ => false,
    }
}

/// Whether an object that a frame keeps is newer.
fn frame_newer(save: SaveName, frame: &Frame) -> bool
    ensures { result ≡ spec.frame_newer save frame.now }
{
    match frame {
        Frame::Proc { body, .. }
        | Frame::For { body, .. }
        | Frame::Repeat { body, .. }
        | Frame::Loop { body } => newer(body, save),
        Frame::Text { string, .. } => newer(string, save),
        Frame::Items { array, body, .. } => newer(array, save) || newer(body, save),
        Frame::Bytes { string, body, .. } => newer(string, save) || newer(body, save),
        Frame::Pairs { pairs, body, .. } => pairs_newer(save, pairs) || newer(body, save),
        Frame::Stopped => false,
        Frame::Show(run) => {
            let run = run.as_ref();
            newer(&run.string, save) || form_newer(save, &run.form)
        }
        Frame::Image(run) => newer(&run.as_ref().procedure, save),
        Frame::Walk(walk) => {
            let walk = walk.as_ref();
            newer(&walk.move_to, save)
                || newer(&walk.line_to, save)
                || newer(&walk.curve_to, save)
                || newer(&walk.close_path, save)
        }
    }
}

/// Whether an object that one of these frames keeps is newer.
pub(crate) fn frames_newer(save: SaveName, frames: &Frames) -> bool
    ensures { result ≡ any_of (spec.frame_newer save) frames.now }
{
    for depth in 0..frames.len() {
        if frame_newer(save, frames.at(depth)) {
            return true;
        }
    }
    false
}
