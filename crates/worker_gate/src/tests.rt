ghost use Rattle.std.specs.Prelude.{◌≡◌, ◌*◌};

use super::*;
use commit_desk::{Desk, PieceSpec};
use rip_ports::Gate;
use std::alloc::{AllocError, Global};
use std::process::Abort;
use std::sync::Wait;
use std::sync::atomic::{AtomicBool, AtomicU64, Ordering};
use std::test::*;
use std::thread::Threads;
use std::{hint, thread};

// Enough turns for another thread to get on, and few enough for a test to end.
const LIMIT: u64 = 1_000_000_000;

// How often something happened to each page.
#[derive(Drop)]
struct Tally {
    counts: Vec<AtomicU64>,
}

impl Tally {
    fn new(alloc: Global, pages: u32) -> Result<Tally, AllocError> {
        let mut counts = Vec::new(alloc);
        for _ in 0..=pages {
            counts.push(AtomicU64::new(0))?;
        }
        Ok(Tally { counts })
    }

    fn add(&self, page: u32) {
        if let Some(count) = self.counts.get(page as usize) {
            count.fetch_add(1, Ordering::SeqCst);
        }
    }

    fn of(&self, page: u32) -> u64 {
        match self.counts.get(page as usize) {
            Some(count) => count.load(Ordering::SeqCst),
            None => 0,
        }
    }

    // Whether it happened once to each page, and never to what is no page.
    fn is_once_each(&self, pages: u32) -> bool {
        for page in 1..=pages {
            if self.of(page) != 1 {
                return false;
            }
        }
        self.of(0) == 0
    }
}

// A page's piece is the square of its number. The gate and the task count their calls.
#[derive(Drop)]
struct Squares {
    begun: Tally,
    made: Tally,
    ended: Tally,
}

fn square(page: u32) -> u64
    ensures { result ≡ page * page }
{
    let number = u64::from(page);
    number * number
}

impl Squares {
    fn new(alloc: Global, pages: u32) -> Result<Squares, AllocError> {
        Ok(Squares {
            begun: Tally::new(alloc, pages)?,
            made: Tally::new(alloc, pages)?,
            ended: Tally::new(alloc, pages)?,
        })
    }
}

impl PieceSpec for Squares {
    ghost use Rattle.std.specs.Prelude.{◌≡◌, ◌*◌};

    type Piece = u64;

    ghost right = { λ page piece. piece ≡ page * page };
}

impl Task for Squares {
    fn piece(&self, page: u32) -> u64 {
        self.made.add(page);
        square(page)
    }
}

impl Gate for Squares {
    fn before(&self, page: u32) {
        self.begun.add(page);
    }

    fn after(&self, page: u32) {
        self.ended.add(page);
    }
}

// Squares of pages 1 and 2, each of which waits until the other is begun.
#[derive(Drop)]
struct Meeting {
    begun: Tally,
    is_missed: AtomicBool,
}

impl PieceSpec for Meeting {
    ghost use Rattle.std.specs.Prelude.{◌≡◌, ◌*◌};

    type Piece = u64;

    ghost right = { λ page piece. piece ≡ page * page };
}

impl Task for Meeting {
    fn piece(&self, page: u32) -> u64 {
        self.begun.add(page);
        let other = if page == 1 { 2 } else { 1 };
        for _ in 0..LIMIT {
            if self.begun.of(other) > 0 {
                return square(page);
            }
            hint::spin_loop();
        }
        self.is_missed.store(true, Ordering::SeqCst);
        square(page)
    }
}

// Makes all pages beside so many workers, as a committer does. The pieces come in order, each for its page.
fn commit_all<
    'x,
    T: Task<Piece = u64> + Send + Sync,
    G: Gate + Sync,
    R: Threads + Wait + Abort + Sync,
>(rt: &'x R, workers: u32, pages: u32, task: &'x T, shared: &'x Shared<T>, gate: &'x G) {
    thread::scope(thread::scope_env(), rt, |scope| {
        for _ in 0..workers {
            if scope.spawn(move || work(rt, task, shared, gate)).is_err() {
                break;
            }
        }
        for page in 1..=pages {
            assert_eq!(rt; step(rt, task, shared, gate, page), square(page));
            shared.done(rt, page);
        }
        shared.stop(rt);
    });
}

#[test]
fn each_page_is_made_once(rt: HostRuntime) -> Result<(), Fail> {
    for workers in [1, 2, 4] {
        let task = Squares::new(rt.alloc(), 50)?;
        let shared = Shared::new(Desk::new(rt.alloc(), 50, 2 * workers).ok().ok_or("memory")?);
        commit_all(&rt, workers, 50, &task, &shared, &task);
        assert!(rt; task.begun.is_once_each(50), "{workers} workers");
        assert!(rt; task.made.is_once_each(50), "{workers} workers");
        assert!(rt; task.ended.is_once_each(50), "{workers} workers");
    }
    Ok(())
}

#[test]
fn a_stop_ends_the_work(rt: HostRuntime) -> Result<(), Fail> {
    let task = Squares::new(rt.alloc(), 50)?;
    let shared = Shared::new(Desk::new(rt.alloc(), 50, 4).ok().ok_or("memory")?);
    commit_all(&rt, 2, 3, &task, &shared, &task);
    assert!(rt; task.made.is_once_each(3));
    assert_eq!(rt; task.made.of(8), 0, "page 8 is more than 4 past page 3");
    Ok(())
}

#[test]
fn pieces_are_made_side_by_side(rt: HostRuntime) -> Result<(), Fail> {
    let task = Squares::new(rt.alloc(), 3)?;
    let shared = Shared::new(Desk::new(rt.alloc(), 3, 4).ok().ok_or("memory")?);
    let gate = HoldGate::new(LIMIT);
    commit_all(&rt, 2, 3, &task, &shared, &gate);
    assert!(rt; !gate.kept());
    assert!(rt; task.made.is_once_each(3));

    let meeting = Meeting {
        begun: Tally::new(rt.alloc(), 2)?,
        is_missed: AtomicBool::new(false),
    };
    let shared = Shared::new(Desk::new(rt.alloc(), 2, 4).ok().ok_or("memory")?);
    commit_all(&rt, 2, 2, &meeting, &shared, &HoldGate::new(0));
    assert!(rt; !meeting.is_missed.load(Ordering::SeqCst));
    Ok(())
}

#[test]
fn holds_page_one(rt: HostRuntime) {
    let gate = HoldGate::new(5);
    gate.before(1);
    gate.after(2);
    assert!(rt; gate.kept());

    let gate = HoldGate::new(5);
    gate.before(2);
    gate.after(2);
    gate.before(1);
    gate.after(1);
    assert!(rt; !gate.kept());
}
