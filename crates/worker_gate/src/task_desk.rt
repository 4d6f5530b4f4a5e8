//! The desk of a task.
ghost use Rattle.std.specs.Prelude.{◌≡◌, ℕ, ◌∷◌, [], true, None, is_some, if◌then◌else◌, IfSome};
ghost use Rattle.commit_desk.specs.State.{after, claim_answer, claim_events, accepts, is_lying, may_commit, commit_events};
ghost use Rattle.commit_desk.specs.Desk.{state_of, piece_on};
ghost use Rattle.commit_desk.specs.declared.event.Event.TheVariants.{Finished, Taken};
ghost use Rattle.worker_gate.specs.After.{after_if};

use commit_desk::{Claim, Desk, PieceSpec};
use std::marker::{Model, PhantomData};

/// A desk on which each piece that lies there is right for its page. Contracts see its state.
#[derive(Drop)]
pub struct TaskDesk<T: PieceSpec> {
    desk: Desk<T::Piece>,
    task: PhantomData<T>,
}

impl<T: PieceSpec> Model for TaskDesk<T> {
    ghost use Rattle.std.specs.Prelude.{◌≡◌, ℕ, Some};
    ghost use Rattle.commit_desk.specs.State.{DeskState};
    ghost use Rattle.commit_desk.specs.Desk.{state_of, piece_on};

    ghost Value = { DeskState };

    ghost view = { λ d. state_of d.desk };

    ghost invariant = { λ d. (page : ℕ) (piece : T.Piece) →
        piece_on d.desk page ≡ Some piece → T.right page piece };
}

impl<T: PieceSpec> TaskDesk<T> {
    /// Takes a desk on which no piece lies.
    pub fn new(desk: Desk<T::Piece>) -> TaskDesk<T>
        requires { (page : ℕ) → piece_on desk page ≡ None }
        ensures { result ≡ state_of desk }
    {
        TaskDesk {
            desk,
            task: PhantomData,
        }
    }

    /// Claims the next page.
    pub fn claim(&mut self) -> Claim
        ensures answer { result ≡ claim_answer self.old }
        ensures events { self.new ≡ after self.old (claim_events result) }
    {
        self.desk.claim()
    }

    /// Lays a page's right piece down. Says whether it was accepted.
    pub fn finish(&mut self, page: u32, piece: T::Piece) -> bool
        requires { T.right page piece }
        ensures answer { result ≡ accepts self.old page }
        ensures events { self.new ≡ after_if result self.old (Finished page ∷ []) }
    {
        self.desk.finish(page, piece).is_ok()
    }

    /// Takes the piece that lies there for a page. It is right.
    pub fn take(&mut self, page: u32) -> Option<T::Piece>
        ensures answer { is_some result ≡ is_lying self.old page }
        ensures right { IfSome result (T.right page) }
        ensures events { self.new ≡ after_if (is_some result) self.old (Taken page ∷ []) }
    {
        self.desk.take(page)
    }

    /// Tells that so many pages are committed, where `Desk::done` may be told so. Says whether it may.
    pub fn done(&mut self, count: u32) -> bool
        ensures answer { result ≡ may_commit self.old count }
        ensures events { self.new ≡ after_if result self.old (commit_events self.old count) }
    {
        if count < self.desk.committed() || count > self.desk.claimed() {
            return false;
        }
        self.desk.done(count);
        true
    }

    /// Ends the claims.
    pub fn stop(&mut self)
        ensures { self.new ≡ record self.old { stopped = true } }
    {
        self.desk.stop();
    }
}
