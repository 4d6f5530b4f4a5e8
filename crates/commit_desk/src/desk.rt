//! The desk.
ghost use Rattle.std.specs.Prelude.{◌≡◌, ◌+◌, ◌*◌, ◌≤◌, ℕ, true, sum_by, slice_index_or, vec_len, vec_capacity, IsTrue, IsFalse, IfOk, IfErr, OnOk, OnSome, IfNone, None};
ghost use Rattle.commit_desk.specs.History.{claimed_count, committed_count, is_legal};
ghost use Rattle.commit_desk.specs.Slots.{ClaimedUpTo, HoldPieces, TellFinished, TellTaken, event_count};
ghost use Rattle.commit_desk.specs.declared.slot.Slot.TheVariants.{Vacant};

use crate::event::{Claim, Event};
use crate::slot::Slot;
use copy_lists::NoMemory;
use std::alloc::Global;

/// The pages of a job, numbered from 1: which are claimed, whose pieces are finished, which of these were taken, and how
/// many are committed. A history of all that happened comes with them, and is legal at every moment.
#[derive(Drop)]
pub struct Desk<C> {
    pages: u32,
    ahead: u32,
    claimed: u32,
    committed: u32,
    stopped: bool,
    // A page's slot is at its number. The first belongs to no page, and stays vacant.
    slots: Vec<Slot<C>>,
    history: Vec<Event>,

    /// The history is legal.
    pub ghost legal: { IsTrue (is_legal ahead history.items) },
    /// The numbers are those of the history.
    pub ghost claims: { claimed ≡ claimed_count history.items },
    pub ghost commits: { committed ≡ committed_count history.items },
    /// The pieces on the desk are those of the pages that were finished and not taken.
    pub ghost pieces: { HoldPieces slots.items history.items },
    pub ghost within: { claimed ≤ pages },

    ghost behind: { committed ≤ claimed },
    ghost claimed_pages: { ClaimedUpTo claimed history.items },
    ghost finished_pages: { TellFinished slots.items history.items },
    ghost taken_pages: { TellTaken slots.items history.items },
    ghost slot_count: { vec_len slots ≡ pages + 1 },
    ghost event_counts: { vec_len history ≤ claimed + committed + sum_by event_count slots.items },
    ghost room: { 4 * pages + 2 ≤ vec_capacity history },
}

impl<C: Drop> Desk<C> {
    ghost use Rattle.commit_desk.specs.State.{initial_state, claim_answer, claim_events, accepts, commit_events};
    ghost use Rattle.commit_desk.specs.Desk.{state_of, piece_on, SamePieces, Adds, Unchanged, LaysDown, TakesAway};

    /// A desk for so many pages, of which none is claimed yet. At most `ahead` pages may be claimed past the committed
    /// ones. It takes all the memory that the other calls will need.
    pub fn new(alloc: Global, pages: u32, ahead: u32) -> Result<Desk<C>, NoMemory>
        requires { 1 ≤ ahead }
        ensures state { IfOk result (λ desk. state_of desk ≡ initial_state pages ahead) }
        ensures pieces { IfOk result (λ desk. (page : ℕ) → piece_on desk page ≡ None) }
    {
        let history = Vec::with_capacity(alloc, 4 * pages as usize + 2)?;
        let slots = vacant_slots(alloc, pages as usize + 1)?;
        Ok(Desk {
            pages,
            ahead,
            claimed: 0,
            committed: 0,
            stopped: false,
            slots,
            history,
        })
    }

    /// How many pages are claimed.
    pub fn claimed(&self) -> u32
        ensures { result ≡ claimed_count (state_of self.now).history }
    {
        self.claimed
    }

    /// How many pages are committed.
    pub fn committed(&self) -> u32
        ensures { result ≡ committed_count (state_of self.now).history }
    {
        self.committed
    }

    /// Claims the next page.
    pub fn claim(&mut self) -> Claim
        ensures answer { result ≡ claim_answer (state_of self.old) }
        ensures events { Adds self.old self.new (claim_events result) }
    {
        if self.stopped || self.claimed >= self.pages {
            return Claim::Over;
        }
        if self.claimed - self.committed >= self.ahead {
            return Claim::Full;
        }
        let page = self.claimed + 1;
        self.history.push_reserved(Event::Claimed(page));
        self.claimed = page;
        Claim::Page(page)
    }

    /// Lays the piece of a claimed page down. The piece comes back where the page isn't claimed or is finished already.
    pub fn finish(&mut self, page: u32, piece: C) -> Result<(), C>
        ensures ok { OnOk result
            (IsTrue (accepts (state_of self.old) page) × LaysDown self.old self.new page piece) }
        ensures err { IfErr result (λ back. (back ≡ piece)
            × IsFalse (accepts (state_of self.old) page) × Unchanged self.old self.new) }
    {
        if page == 0 || page > self.claimed {
            return Err(piece);
        }
        if self.slots[page as usize].is_finished() {
            return Err(piece);
        }
        self.slots[page as usize] = Slot::Filled(piece);
        self.history.push_reserved(Event::Finished(page));
        Ok(())
    }

    /// Takes the piece that lies there for a page.
    pub fn take(&mut self, page: u32) -> Option<C>
        ensures answer { result ≡ piece_on self.old page }
        ensures some { OnSome result (TakesAway self.old self.new page) }
        ensures none { IfNone result (Unchanged self.old self.new) }
    {
        if page > self.pages {
            return None;
        }
        let piece = self.slots[page as usize].take()?;
        self.history.push_reserved(Event::Taken(page));
        Some(piece)
    }

    /// Tells that so many pages are committed.
    pub fn done(&mut self, count: u32)
        requires present_or_above { committed_count (state_of self.old).history ≤ count }
        requires claimed { count ≤ claimed_count (state_of self.old).history }
        ensures { Adds self.old self.new (commit_events (state_of self.old) count) }
    {
        if count > self.committed {
            self.history.push_reserved(Event::Committed(count));
            self.committed = count;
        }
    }

    /// Ends the claims.
    pub fn stop(&mut self)
        ensures state { state_of self.new ≡ record (state_of self.old) { stopped = true } }
        ensures pieces { SamePieces self.old self.new }
    {
        self.stopped = true;
    }
}

// So many vacant slots.
fn vacant_slots<C>(alloc: Global, count: usize) -> Result<Vec<Slot<C>>, NoMemory>
    ensures len { IfOk result (λ slots. vec_len slots ≡ count) }
    ensures vacant { IfOk result (λ slots.
        (page : ℕ) → slice_index_or slots.items page Vacant ≡ Vacant) }
    ensures events { IfOk result (λ slots. sum_by event_count slots.items ≡ 0) }
{
    let mut slots = Vec::with_capacity(alloc, count)?;
    for _ in 0..count {
        slots.push_reserved(Slot::Vacant);
    }
    Ok(slots)
}
