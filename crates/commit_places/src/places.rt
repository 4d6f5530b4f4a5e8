//! The places, and the seats of those that share them.
ghost use Rattle.std.specs.Prelude.{◌≡◌, ℕ, ◌+◌, ◌*◌, ◌^◌, ◌<◌, ◌≤◌, ◌==◌, true, is_some, IfOk, IfSome};
ghost use Rattle.commit_places.specs.Seats.{sizes_with, new_hand_state, first_state, MayDraw, HasDrawn, HasBegun, MayTake, MayCommit, draw_answer, after_draw, ready_answer, after_ready, after_take, after_finish, after_join};
ghost use Rattle.commit_places.specs.Rule.{place_of};
ghost use Rattle.commit_places.specs.Steps.{page_of};
ghost use Rattle.commit_places.specs.declared.view.Ticket.TheVariants.{Free};
ghost use Rattle.commit_places.specs.declared.view.Next.TheVariants.{Waiting};

use crate::answer::{Draw, Ready};
use crate::rule::{
    Clearing, Committing, Drawing, Joining, Laying, Looking, PlacesRule, Seizing, Splitting,
    Stopping, Taking,
};
use crate::view::{Sizes, View};
use atomic_table::{Seat, Table};
use commit_desk::PieceSpec;
use copy_lists::NoMemory;
use std::alloc::Global;
use std::marker::Model;

/// The places of the pages of a job, numbered from 1. Threads share them by reference, each with a seat of its own. Contracts
/// see which places they are, and their sizes.
#[derive(Drop)]
pub struct Places<T: PieceSpec> {
    table: Table<Option<T::Piece>, View, Sizes, PlacesRule<T>, Global>,
    sizes: Sizes,
}

impl<T: PieceSpec> Model for Places<T> {
    ghost use Rattle.commit_places.specs.Seats.{PlacesId, IsTableOf};

    ghost Value = { PlacesId };

    ghost view = { λ p. record { table = p.table.shared.table_id; sizes = p.sizes } };

    ghost invariant = { λ p. IsTableOf p.sizes p.table.shared.key p.table.shared.table_id };
}

/// The seat of one that draws pages and makes their pieces. Contracts see its state.
#[derive(Drop)]
pub struct Hand<C> {
    seat: Seat<Option<C>, View>,
    page: u32,
}

impl<C> Model for Hand<C> {
    ghost use Rattle.commit_places.specs.Seats.{HandState, hand_state, IsHandWith};
    ghost use Rattle.commit_places.specs.Steps.{hand_of};

    ghost Value = { HandState };

    ghost view = { λ h. hand_state h.seat.table_id (hand_of h.seat.me.0) };

    ghost invariant = { λ h. IsHandWith h.seat.me h.page };
}

/// The seat of the one that takes the pieces in order and tells how many pages are committed. Contracts see its state.
#[derive(Drop)]
pub struct Committer<C> {
    seat: Seat<Option<C>, View>,
}

impl<C> Model for Committer<C> {
    ghost use Rattle.std.specs.Prelude.{◌≡◌, []};
    ghost use Rattle.commit_places.specs.Seats.{CommitterState, committer_state};
    ghost use Rattle.commit_places.specs.Steps.{committer_of};
    ghost use Rattle.commit_places.specs.declared.view.View.TheVariants.{Committer as a_committer};

    ghost Value = { CommitterState };

    ghost view = { λ b. committer_state b.seat.table_id (committer_of b.seat.me.0) };

    ghost invariant = { λ b. b.seat.me ≡ (a_committer (committer_of b.seat.me.0), []) };
}

impl<T: PieceSpec> Places<T> {
    /// Places for so many pages, of which none is drawn yet, with the committer's seat and the hand of the committer's own. A page
    /// may be begun at most `ahead` past the committed ones, and at most `workers` more hands may be split. It takes all the
    /// memory that the other calls will need.
    pub fn new(
        alloc: Global,
        pages: u32,
        ahead: u32,
        workers: u32,
    ) -> Result<(Places<T>, Committer<T::Piece>, Hand<T::Piece>), NoMemory>
        requires some_place { 1 ≤ ahead }
        requires small { pages + workers < 2 ^ 32 }
        ensures sizes { IfOk result (λ r. r.0.sizes ≡ sizes_with pages ahead workers) }
        ensures seats { IfOk result (λ r. (r.1 ≡ first_state r.0) × (r.2 ≡ new_hand_state r.0)) }
    {
        let sizes = Sizes {
            pages,
            ahead,
            workers,
        };
        let words = Vec::from_elem(alloc, 0u64, ahead as usize + 2)?;
        let (table, mut seat) = Table::vacant(alloc, words.as_slice(), ahead as usize, &sizes)?;
        let hand = table.shared.split_seat::<Splitting>(&mut seat);
        let hand = Hand {
            seat: hand,
            page: 0,
        };
        Ok((Places { table, sizes }, Committer { seat }, hand))
    }

    /// Splits a hand for a worker.
    pub fn split(&self, by: &mut Committer<T::Piece>) -> Hand<T::Piece>
        requires places { by.old.places ≡ self.now }
        requires some_left { by.old.hands ≤ self.now.sizes.workers }
        ensures hand { result ≡ new_hand_state self.now }
        ensures by { by.new ≡ record by.old { hands = by.old.hands + 1 } }
    {
        let seat = self.table.shared.split_seat::<Splitting>(&mut by.seat);
        Hand { seat, page: 0 }
    }

    /// Takes a hand back.
    pub fn join(&self, by: &mut Committer<T::Piece>, hand: Hand<T::Piece>)
        requires places { (by.old.places ≡ self.now) × (hand.places ≡ self.now) }
        requires free { hand.ticket ≡ Free }
        ensures { by.new ≡ after_join by.old hand }
    {
        let Hand { seat, page: _ } = hand;
        self.table.shared.join_seat::<Joining>(&mut by.seat, seat);
    }

    /// Draws the next page.
    pub fn draw(&self, hand: &mut Hand<T::Piece>) -> Draw
        requires places { hand.old.places ≡ self.now }
        requires free { MayDraw hand.old }
        ensures answer { (last : ℕ) × (result ≡ draw_answer self.now.sizes.pages last) }
        ensures hand { hand.new ≡ after_draw hand.old result }
    {
        let last = self.table.shared.fetch_add::<Drawing>(&mut hand.seat, 0, 1);
        if last >= u64::from(self.sizes.pages) {
            return Draw::Over;
        }
        let page = last as u32 + 1;
        hand.page = page;
        Draw::Page(page)
    }

    /// Looks once whether the page of a hand may begin.
    pub fn ready(&self, hand: &mut Hand<T::Piece>) -> Ready
        requires places { hand.old.places ≡ self.now }
        requires drawn { HasDrawn hand.old }
        ensures answer { (found : ℕ) × (result ≡ ready_answer hand.old found) }
        ensures hand { hand.new ≡ after_ready hand.old result }
    {
        let found = self.table.shared.load::<Looking>(&mut hand.seat, 1);
        if found >= 1 << 32 {
            hand.page = 0;
            return Ready::Stopped;
        }
        if u64::from(hand.page) > found + u64::from(self.sizes.ahead) {
            return Ready::Later {
                committed: found as u32,
            };
        }
        Ready::Go
    }

    /// Lays down the piece of the page that the hand has begun. The page's place is empty, so nothing comes back.
    pub fn finish(&self, hand: &mut Hand<T::Piece>, piece: T::Piece)
        requires places { hand.old.places ≡ self.now }
        requires begun { HasBegun hand.old }
        requires right { T.right (page_of hand.old.ticket) piece }
        ensures { hand.new ≡ after_finish hand.old }
    {
        let page = hand.page;
        let place = self.place_of(page);
        let shared = &self.table.shared;
        shared.swap::<Seizing>(&mut hand.seat, place + 2, 1 << 32);
        let before = shared.exchange(&mut hand.seat, place, Some(piece));
        let None = before else { unreachable!() };
        shared.swap::<Laying>(&mut hand.seat, place + 2, u64::from(page));
        hand.page = 0;
    }

    /// Takes the piece of the page after the committed ones, where it lies in its place. It is right for the page.
    pub fn take(&self, by: &mut Committer<T::Piece>, page: u32) -> Option<T::Piece>
        requires places { by.old.places ≡ self.now }
        requires next { MayTake by.old page }
        ensures answer { (found : ℕ) × (is_some result ≡ (found == page)) }
        ensures right { IfSome result (T.right page) }
        ensures by { by.new ≡ after_take by.old (is_some result) }
    {
        let place = self.place_of(page);
        let shared = &self.table.shared;
        let number = u64::from(page);
        let found = shared.compare_exchange::<Taking<T>>(&mut by.seat, place + 2, number, 1 << 32);
        if found != number {
            return None;
        }
        let piece = shared.exchange(&mut by.seat, place, None);
        shared.swap::<Clearing>(&mut by.seat, place + 2, 0);
        piece
    }

    /// Tells that so many pages are committed: the page that was just taken is the last of them.
    pub fn done(&self, by: &mut Committer<T::Piece>, count: u32)
        requires places { by.old.places ≡ self.now }
        requires taken { MayCommit by.old count }
        ensures { by.new ≡ record by.old { count = count; next = Waiting } }
    {
        self.table
            .shared
            .fetch_max::<Committing>(&mut by.seat, 1, u64::from(count));
    }

    /// Stops the work: no page that isn't begun yet will be.
    pub fn stop(&self, by: &mut Committer<T::Piece>)
        requires { by.old.places ≡ self.now }
        ensures { by.new ≡ record by.old { is_stopped = true } }
    {
        self.table
            .shared
            .fetch_max::<Stopping>(&mut by.seat, 1, 1 << 32);
    }

    // The place to which a page belongs.
    fn place_of(&self, page: u32) -> usize
        ensures { result ≡ place_of self.now.sizes.ahead page }
    {
        (page.saturating_sub(1) % self.sizes.ahead) as usize
    }
}
