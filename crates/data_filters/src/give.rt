//! What a source gives, and where it and the sources below it stand then.
ghost use Rattle.std.specs.Prelude.{◌≡◌, ℕ, ◌+◌, ◌≤◌, ◌<◌, length, Option};
ghost use Rattle.filter_tower.specs.Layers.{IsTower, below_at, kind_at};
ghost use Rattle.data_filters.specs.Rests.{has_byte};
ghost use Rattle.data_filters.specs.Codes.{code, passes, left_behind, takes_more, length_taken};
ghost use Rattle.data_filters.specs.Layers.{the_text, source_of, source_below, rest, standing_at, is_spent, has_pending, put, at_end, taking, settled, code_begun, code_taken, give};

use crate::Given;
use crate::ahead::{next_code, read};
use crate::code::Code;
use crate::digits::is_white;
use crate::reading::Reading;
use filter_tower::{CodeBytes, FilterKind, FilterLayer, FilterState, Standing};

/// Puts another reading where a reading stands, as far as the lowest layers go.
fn copy_lowest(now: &Reading, ahead: &mut Reading, count: usize)
    requires now { count ≤ length now.now.standings }
    requires ahead { count ≤ length ahead.old.standings }
    ensures place { ahead.new.place ≡ now.now.place }
    ensures lowest { (k : ℕ) → k < count → standing_at ahead.new k ≡ standing_at now.now k }
    ensures same { length ahead.new.standings ≡ length ahead.old.standings }
{
    ahead.place = now.place;
    'layers: for layer in 0..count {
        ahead.standings.put(layer, now.standings.at(layer).copy());
    }
}

/// Whether a layer has bytes of its newest code that it hasn't given.
fn has_pending(standing: &Standing) -> bool
    ensures { result ≡ has_pending standing.now }
{
    standing.from < standing.code.len()
}

/// Whether a source would give a byte.
fn gives_byte(
    text: &[u8],
    layers: &[FilterLayer],
    now: &Reading,
    ahead: &mut Reading,
    source: usize,
) -> bool
    requires tower { IsTower layers.now }
    requires stands { source ≤ length layers.now }
    requires now { length layers.now ≤ length now.now.standings }
    requires ahead { length layers.now ≤ length ahead.old.standings }
    ensures value { result ≡ has_byte (rest text.now (source_of layers.now source) now.now) }
    ensures same { length ahead.new.standings ≡ length ahead.old.standings }
{
    if source > 0 && has_pending(now.standings.at(source - 1)) {
        return true;
    }
    copy_lowest(now, ahead, source);
    match read(text, layers, ahead, source) {
        Given::Byte(_) => true,
        Given::End => false,
        Given::Bad => false,
    }
}

/// The next code of a layer.
fn look(
    text: &[u8],
    layers: &[FilterLayer],
    now: &Reading,
    ahead: &mut Reading,
    layer: usize,
) -> Code
    requires tower { IsTower layers.now }
    requires stands { layer < length layers.now }
    requires now { length layers.now ≤ length now.now.standings }
    requires ahead { length layers.now ≤ length ahead.old.standings }
    ensures value { result ≡ code (kind_at layers.now layer) (standing_at now.now layer).given
        (rest text.now (source_below layers.now layer) now.now) }
    ensures same { length ahead.new.standings ≡ length ahead.old.standings }
{
    let below = layers[layer].below as usize;
    copy_lowest(now, ahead, below);
    let given = now.standings.at(layer).given;
    next_code(text, layers, ahead, below, &layers[layer].kind, given).code
}

/// Whether a layer has given all bytes of its newest code, and goes on.
fn is_spent(standing: &Standing) -> bool
    ensures { result ≡ is_spent standing.now }
{
    standing.state == FilterState::Open && standing.code.len() <= standing.from
}

/// Whether a filter passes over a byte in front of its codes and in them.
fn passes(kind: &FilterKind, byte: u8) -> bool
    ensures { result ≡ passes kind.now byte }
{
    match kind {
        FilterKind::Hex | FilterKind::Base85 => is_white(byte),
        FilterKind::RunLength | FilterKind::SubFile { .. } => false,
    }
}

/// How many bytes that aren't passed over are left to be taken behind a byte.
fn left_behind(kind: &FilterKind, byte: u8, left: Option<usize>) -> Option<usize>
    ensures { result ≡ left_behind kind.now byte left }
{
    let left = left?;
    Some(if passes(kind, byte) {
        left
    } else {
        left.saturating_sub(1)
    })
}

/// Whether more bytes are to be taken.
fn takes_more(left: Option<usize>) -> bool
    ensures { result ≡ takes_more left }
{
    match left {
        Some(count) => count > 0,
        None => true,
    }
}

/// Takes so many bytes from the text, those passed over not counted, or all that it has.
#[tactic(auto, using(crate::proofs::TakeLemmas::text_byte_taken, crate::proofs::TakeLemmas::text_over, crate::proofs::TakeLemmas::text_all_taken))]
fn take_text(text: &[u8], kind: &FilterKind, now: &mut Reading, taken: Option<usize>)
    ensures taken { now.new ≡ taking (length_taken kind.now (rest text.now the_text now.old) taken)
        (give text.now the_text) now.old }
    ensures same { now.new.standings ≡ now.old.standings }
{
    let mut left = taken;
    'bytes: while takes_more(left) && now.place < text.len() {
        left = left_behind(kind, text[now.place], left);
        now.place += 1;
    }
}

/// What a source gives.
#[cycle(give)]
pub(crate) fn give(
    text: &[u8],
    layers: &[FilterLayer],
    now: &mut Reading,
    ahead: &mut Reading,
    source: usize,
) -> Given
    requires tower { IsTower layers.now }
    requires stands { source ≤ length layers.now }
    requires now { length layers.now ≤ length now.old.standings }
    requires ahead { length layers.now ≤ length ahead.old.standings }
    ensures given { give text.now (source_of layers.now source) now.old ≡ (result, now.new) }
    ensures same { length now.new.standings ≡ length now.old.standings }
    ensures ahead { length ahead.new.standings ≡ length ahead.old.standings }
{
    if source == 0 {
        return now.text_byte(text);
    }
    let layer = source - 1;
    if let Some(byte) = now.pending_byte(layer) {
        settle(text, layers, now, ahead, layer);
        return Given::Byte(byte);
    }
    match now.standings.at(layer).state {
        FilterState::Ended => Given::End,
        FilterState::Failed => Given::Bad,
        FilterState::Open => take_code(text, layers, now, ahead, layer),
    }
}

/// Takes so many bytes from a layer's source, those passed over not counted, or all that it has.
#[cycle(give)]
fn take(
    text: &[u8],
    layers: &[FilterLayer],
    now: &mut Reading,
    ahead: &mut Reading,
    layer: usize,
    taken: Option<usize>,
)
    requires tower { IsTower layers.now }
    requires stands { layer < length layers.now }
    requires now { length layers.now ≤ length now.old.standings }
    requires ahead { length layers.now ≤ length ahead.old.standings }
    ensures taken { now.new ≡ taking (length_taken (kind_at layers.now layer)
        (rest text.now (source_below layers.now layer) now.old) taken)
        (give text.now (source_below layers.now layer)) now.old }
    ensures same { length now.new.standings ≡ length now.old.standings }
    ensures ahead { length ahead.new.standings ≡ length ahead.old.standings }
{
    let below = layers[layer].below as usize;
    if below == 0 {
        take_text(text, &layers[layer].kind, now, taken);
        return;
    }
    let mut left = taken;
    'bytes: while takes_more(left) {
        if !gives_byte(text, layers, now, ahead, below) {
            return;
        }
        match give(text, layers, now, ahead, below) {
            Given::Byte(byte) => left = left_behind(&layers[layer].kind, byte, left),
            Given::End => return,
            Given::Bad => return,
        }
    }
}

/// Takes an end of a layer with so many bytes of its source, or with all that it has.
#[cycle(give)]
fn end_layer(
    text: &[u8],
    layers: &[FilterLayer],
    now: &mut Reading,
    ahead: &mut Reading,
    layer: usize,
    taken: Option<usize>,
)
    requires tower { IsTower layers.now }
    requires stands { layer < length layers.now }
    requires now { length layers.now ≤ length now.old.standings }
    requires ahead { length layers.now ≤ length ahead.old.standings }
    ensures ended { now.new ≡ put layer at_end (taking (length_taken (kind_at layers.now layer)
        (rest text.now (source_below layers.now layer) now.old) taken)
        (give text.now (source_below layers.now layer)) now.old) }
    ensures same { length now.new.standings ≡ length now.old.standings }
    ensures ahead { length ahead.new.standings ≡ length ahead.old.standings }
{
    take(text, layers, now, ahead, layer, taken);
    now.standings
        .put(layer, Standing::empty(FilterState::Ended));
}

/// Takes the end, where a layer's code is spent and the next one is an end.
#[cycle(give)]
fn settle(text: &[u8], layers: &[FilterLayer], now: &mut Reading, ahead: &mut Reading, layer: usize)
    requires tower { IsTower layers.now }
    requires stands { layer < length layers.now }
    requires now { length layers.now ≤ length now.old.standings }
    requires ahead { length layers.now ≤ length ahead.old.standings }
    ensures settled { now.new ≡ settled text.now layer (kind_at layers.now layer)
        (source_below layers.now layer) (give text.now (source_below layers.now layer)) now.old }
    ensures same { length now.new.standings ≡ length now.old.standings }
    ensures ahead { length ahead.new.standings ≡ length ahead.old.standings }
{
    if !is_spent(now.standings.at(layer)) {
        return;
    }
    match look(text, layers, now, ahead, layer) {
        Code::Gives { .. } => {}
        Code::Ends { taken } => end_layer(text, layers, now, ahead, layer, Some(taken)),
        Code::EndsWithSource => end_layer(text, layers, now, ahead, layer, None),
        Code::Wrong => {}
    }
}

/// Takes a layer's next code, and gives its first byte.
#[cycle(give)]
fn take_code(
    text: &[u8],
    layers: &[FilterLayer],
    now: &mut Reading,
    ahead: &mut Reading,
    layer: usize,
) -> Given
    requires tower { IsTower layers.now }
    requires stands { layer < length layers.now }
    requires now { length layers.now ≤ length now.old.standings }
    requires ahead { length layers.now ≤ length ahead.old.standings }
    ensures given { code_taken text.now layer (kind_at layers.now layer)
        (source_below layers.now layer) (give text.now (source_below layers.now layer)) now.old
        (code (kind_at layers.now layer) (standing_at now.old layer).given
        (rest text.now (source_below layers.now layer) now.old))
        ≡ (result, now.new) }
    ensures same { length now.new.standings ≡ length now.old.standings }
    ensures ahead { length ahead.new.standings ≡ length ahead.old.standings }
{
    let given = now.standings.at(layer).given;
    match look(text, layers, now, ahead, layer) {
        Code::Gives { bytes, taken } => {
            let Some(first) = bytes.get(0) else {
                now.standings
                    .put(layer, Standing::empty(FilterState::Failed));
                return Given::Bad;
            };
            take(text, layers, now, ahead, layer, Some(taken));
            now.standings.put(layer, code_begun(given, bytes));
            settle(text, layers, now, ahead, layer);
            Given::Byte(first)
        }
        Code::Ends { taken } => {
            end_layer(text, layers, now, ahead, layer, Some(taken));
            Given::End
        }
        Code::EndsWithSource => {
            end_layer(text, layers, now, ahead, layer, None);
            Given::End
        }
        Code::Wrong => {
            now.standings
                .put(layer, Standing::empty(FilterState::Failed));
            Given::Bad
        }
    }
}

/// Where a layer stands that has given the first byte of a code.
fn code_begun(given: u64, bytes: CodeBytes) -> Standing
    ensures { result ≡ code_begun given bytes }
{
    Standing {
        from: 1,
        given: given.saturating_add(bytes.len() as u64),
        state: FilterState::Open,
        code: bytes,
    }
}
