//! Messages that grow piece by piece, up to what a section may still say.
ghost use Rattle.std.specs.Prelude.{◌≡◌, ◌+◌, ◌++◌, ◌^◌, ◌<◌, length, OnOk};
ghost use Rattle.full_texts.specs.Growing.{allowed, Makes};

use ps_kinds::{Refusal, State, Text};
use ps_operator::message_room;

/// Whether the section may still say a text: limitcheck.
#[tactic(auto, using(crate::proofs::Room::room_small))]
pub(crate) fn keep(text: &Text, state: &State) -> Result<(), Refusal>
    ensures made { Makes (allowed state.now text.now) result text.now }
    ensures said { OnOk result (state.now.said + length text.now < 2 ^ 64) }
{
    message_room(state.kind, state.said, text.len() as u64)?;
    Ok(())
}

/// Appends a piece of a message: limitcheck where the section may not say so much.
pub fn push_piece(text: &mut Text, piece: &[u8], state: &State) -> Result<(), Refusal>
    ensures made { Makes (allowed state.now (text.old ++ piece.now)) result text.new }
    ensures said { OnOk result (state.now.said + length text.new < 2 ^ 64) }
{
    text.extend(piece)?;
    keep(text, state)
}
