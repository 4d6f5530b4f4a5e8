//! The desk that the threads of a job share.
ghost use Rattle.std.specs.Prelude.{◌≡◌, ℕ, None};
ghost use Rattle.commit_desk.specs.Desk.{piece_on};
ghost use Rattle.worker_gate.specs.Next.{IsRight};

use crate::task::Task;
use crate::task_desk::TaskDesk;
use commit_desk::{Claim, Desk, PieceSpec};
use rip_ports::Gate;
use std::sync::{Condvar, Mutex, Wait};

/// A desk that threads share by a lock. Each piece that lies on it is right for its page.
#[derive(Drop)]
pub struct Shared<T: PieceSpec> {
    desk: Mutex<TaskDesk<T>>,
    changed: Condvar,
}

impl<T: PieceSpec> Shared<T> {
    /// Shares a desk on which no piece lies.
    pub fn new(desk: Desk<T::Piece>) -> Shared<T>
        requires { (page : ℕ) → piece_on desk page ≡ None }
    {
        Shared {
            desk: Mutex::new(TaskDesk::new(desk)),
            changed: Condvar::new(),
        }
    }

    /// Tells that so many pages are committed, where `Desk::done` may be told so, and wakes those that wait.
    pub fn done<R: Wait>(&self, rt: &R, count: u32) {
        self.desk.lock(rt).done(count);
        self.changed.notify_all();
    }

    /// Ends the claims, and wakes those that wait.
    pub fn stop<R: Wait>(&self, rt: &R) {
        self.desk.lock(rt).stop();
        self.changed.notify_all();
    }

    // Claims a page, and waits while the desk is full. None where the claims are over.
    fn claim<R: Wait>(&self, rt: &R) -> Option<u32> {
        let mut desk = self.desk.lock(rt);
        for _ in rt.forever() {
            match desk.claim() {
                Claim::Page(page) => return Some(page),
                Claim::Over => return None,
                Claim::Full => desk = self.changed.wait(rt, desk),
            }
        }
        unreachable!()
    }

    // Lays a page's right piece down, and wakes those that wait.
    fn finish<R: Wait>(&self, rt: &R, page: u32, piece: T::Piece)
        requires { T.right page piece }
    {
        self.desk.lock(rt).finish(page, piece);
        self.changed.notify_all();
    }

    // Takes the piece of a page, or else claims a page. Where it can do neither it waits until the desk changed.
    fn take_or_claim<R: Wait>(&self, rt: &R, page: u32) -> Next<T::Piece>
        ensures { IsRight (T.right page) result }
    {
        let mut desk = self.desk.lock(rt);
        if let Some(piece) = desk.take(page) {
            return Next::Piece(piece);
        }
        match desk.claim() {
            Claim::Page(claimed) => Next::Claimed(claimed),
            Claim::Over | Claim::Full => {
                drop(self.changed.wait(rt, desk));
                Next::Changed
            }
        }
    }
}

// What the committer has to go on with.
enum Next<C> {
    // The piece that it wants.
    Piece(C),
    // A page that it claimed.
    Claimed(u32),
    // A desk that may have changed.
    Changed,
}

/// A worker: claims pages until the claims are over, and makes the piece of each and lays it down. It waits while the desk
/// is full, and doesn't hold the lock while it makes a piece.
pub fn work<T: Task, G: Gate, R: Wait>(rt: &R, task: &T, shared: &Shared<T>, gate: &G) {
    for _ in rt.forever() {
        let Some(page) = shared.claim(rt) else {
            return;
        };
        make(rt, task, shared, gate, page);
    }
}

// Makes the piece of a claimed page between the gate's two calls, and lays it down.
fn make<T: Task, G: Gate, R: Wait>(rt: &R, task: &T, shared: &Shared<T>, gate: &G, page: u32) {
    gate.before(page);
    let piece = task.piece(page);
    gate.after(page);
    shared.finish(rt, page, piece);
}

/// The committer's way to a page: it takes the page's piece. While none lies there it claims pages and makes their pieces as
/// a worker does, and waits where it can't claim. The piece is right for the page.
pub fn step<T: Task, G: Gate, R: Wait>(
    rt: &R,
    task: &T,
    shared: &Shared<T>,
    gate: &G,
    page: u32,
) -> T::Piece
    ensures { T.right page result }
{
    for _ in rt.forever() {
        match shared.take_or_claim(rt, page) {
            Next::Piece(piece) => return piece,
            Next::Claimed(claimed) => make(rt, task, shared, gate, claimed),
            Next::Changed => {}
        }
    }
    unreachable!()
}
