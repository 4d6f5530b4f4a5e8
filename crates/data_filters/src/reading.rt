//! Where the text and the layers stand.
ghost use Rattle.std.specs.Prelude.{◌≡◌, ◌<◌, ◌≤◌, length, if◌then◌else◌};
ghost use Rattle.filter_tower.specs.declared.standing.FilterState.TheVariants.{Open, Ended};

use crate::Given;
use crate::code::{Code, Found};
use filter_tower::{FilterState, Standing, Standings};

/// The place of the text's next byte, and where each layer stands.
#[derive(Drop)]
pub(crate) struct Reading {
    pub(crate) place: usize,
    pub(crate) standings: Standings,
}

impl Reading {
    ghost use Rattle.data_filters.specs.Layers.{text_gives, standing_at, put};
    ghost use Rattle.data_filters.specs.Found.{GivesPending, begun};

    /// The text's next byte.
    pub(crate) fn text_byte(&mut self, text: &[u8]) -> Given
        ensures { text_gives text.now self.old ≡ (result, self.new) }
    {
        if self.place < text.len() {
            let byte = text[self.place];
            self.place += 1;
            Given::Byte(byte)
        } else {
            Given::End
        }
    }

    /// The next byte of a layer's newest code, if one is left.
    #[tactic(auto, using(crate::proofs::Readings::gives_none, crate::proofs::Readings::gives_some))]
    pub(crate) fn pending_byte(&mut self, layer: usize) -> Option<u8>
        requires { layer < length self.old.standings }
        ensures { GivesPending layer self.old result self.new }
    {
        let standing = self.standings.at(layer);
        let byte = standing.code.get(standing.from)?;
        let passed = Standing {
            code: standing.code.copy(),
            from: standing.from + 1,
            given: standing.given,
            state: standing.state,
        };
        self.standings.put(layer, passed);
        Some(byte)
    }

    /// Gives the first byte of a code that was read ahead, and keeps the others for the layer.
    pub(crate) fn begin(&mut self, layer: usize, found: Found, given: u64) -> Given
        requires { layer < length self.old.standings }
        ensures { begun layer given found.is_cut self.old found.code ≡ (result, self.new) }
    {
        let Found { code, is_cut } = found;
        match code {
            Code::Ends { .. } | Code::EndsWithSource => {
                self.standings
                    .put(layer, Standing::empty(FilterState::Ended));
                Given::End
            }
            Code::Wrong => {
                self.standings
                    .put(layer, Standing::empty(FilterState::Failed));
                Given::Bad
            }
            Code::Gives { bytes, .. } => {
                let Some(first) = bytes.get(0) else {
                    self.standings
                        .put(layer, Standing::empty(FilterState::Failed));
                    return Given::Bad;
                };
                let begun = Standing {
                    from: 1,
                    given: given.saturating_add(bytes.len() as u64),
                    state: state_behind(is_cut),
                    code: bytes,
                };
                self.standings.put(layer, begun);
                Given::Byte(first)
            }
        }
    }
}

/// Whether a layer goes on behind a code.
fn state_behind(is_cut: bool) -> FilterState
    ensures { result ≡ (if is_cut then Ended else Open) }
{
    if is_cut {
        FilterState::Ended
    } else {
        FilterState::Open
    }
}
