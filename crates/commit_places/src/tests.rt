ghost use Rattle.std.specs.Prelude.{◌≡◌, ℕ, ◌+◌, ◌*◌, ◌^◌, ◌<◌, ◌≤◌, true, false, if◌then◌else◌, IsTrue, IfSome};
ghost use Rattle.commit_places.specs.Seats.{MayDraw, HasDrawn, MayTake, after_ready};
ghost use Rattle.commit_places.specs.declared.answer.Ready.TheVariants.{Go, Stopped};
ghost use Rattle.commit_places.specs.declared.view.Next.TheVariants.{Waiting, Taken};

use super::*;
use commit_desk::PieceSpec;
use std::alloc::{AllocError, Global};
use std::process::Abort;
use std::sync::Wait;
use std::sync::atomic::{AtomicU64, Ordering};
use std::test::*;
use std::thread;
use std::thread::Threads;

// A page's piece is the square of its number.
#[derive(Drop)]
struct Squares;

impl PieceSpec for Squares {
    ghost use Rattle.std.specs.Prelude.{◌≡◌, ◌*◌};

    type Piece = u64;

    ghost right = { λ page piece. piece ≡ page * page };
}

fn square(page: u32) -> u64
    ensures { result ≡ page * page }
{
    let number = u64::from(page);
    number * number
}

// The hand draws this page, begins it at once and lays its piece down.
fn make_at_once<R: Abort>(rt: &R, places: &Places<Squares>, hand: &mut Hand<u64>, page: u32)
    requires { (hand.old.places ≡ places.now) × MayDraw hand.old }
    ensures { (hand.new.places ≡ places.now) × MayDraw hand.new }
{
    assert_eq!(rt; places.draw(hand), Draw::Page(page));
    assert_eq!(rt; places.ready(hand), Ready::Go);
    places.finish(hand, square(page));
}

// The piece of this page lies there, and is taken and committed.
fn commit_at_once<R: Abort>(
    rt: &R,
    places: &Places<Squares>,
    committer: &mut Committer<u64>,
    page: u32,
)
    requires { (committer.old.places ≡ places.now) × MayTake committer.old page }
    ensures { committer.new ≡ record committer.old { count = page; next = Waiting } }
{
    let Some(piece) = places.take(committer, page) else {
        panic!(rt; "page {page} isn't there")
    };
    assert_eq!(rt; piece, square(page));
    places.done(committer, page);
}

#[test]
fn three_pages_by_one_hand(rt: HostRuntime) -> Result<(), Fail> {
    let made = Places::<Squares>::new(rt.alloc(), 3, 2, 1);
    let (places, mut committer, mut hand) = made.ok().ok_or("memory")?;
    make_at_once(&rt, &places, &mut hand, 1);
    make_at_once(&rt, &places, &mut hand, 2);
    assert_eq!(rt; places.draw(&mut hand), Draw::Page(3));
    assert_eq!(rt; places.ready(&mut hand), Ready::Later { committed: 0 });
    commit_at_once(&rt, &places, &mut committer, 1);
    assert_eq!(rt; places.ready(&mut hand), Ready::Go);
    places.finish(&mut hand, square(3));
    assert_eq!(rt; places.draw(&mut hand), Draw::Over);
    commit_at_once(&rt, &places, &mut committer, 2);
    commit_at_once(&rt, &places, &mut committer, 3);
    Ok(())
}

#[test]
fn a_stop_spends_tickets(rt: HostRuntime) -> Result<(), Fail> {
    let made = Places::<Squares>::new(rt.alloc(), 2, 1, 1);
    let (places, mut committer, mut hand) = made.ok().ok_or("memory")?;
    let mut second = places.split(&mut committer);
    assert_eq!(rt; places.draw(&mut hand), Draw::Page(1));
    assert_eq!(rt; places.draw(&mut second), Draw::Page(2));
    assert_eq!(rt; places.ready(&mut second), Ready::Later { committed: 0 });
    assert_eq!(rt; places.take(&mut committer, 1), None);
    places.stop(&mut committer);
    assert_eq!(rt; places.ready(&mut second), Ready::Stopped);
    assert_eq!(rt; places.ready(&mut hand), Ready::Stopped);
    places.join(&mut committer, second);
    places.stop(&mut committer);
    assert_eq!(rt; places.draw(&mut hand), Draw::Over);
    Ok(())
}

// How often something happened to each page.
#[derive(Drop)]
struct Tally {
    counts: Vec<AtomicU64>,
}

impl Tally {
    fn new(alloc: Global, pages: u32) -> Result<Tally, AllocError> {
        let mut counts = Vec::new(alloc);
        for _ in 0..=pages {
            counts.push(AtomicU64::new(0))?;
        }
        Ok(Tally { counts })
    }

    fn add(&self, page: u32) {
        if let Some(count) = self.counts.get(page as usize) {
            count.fetch_add(1, Ordering::SeqCst);
        }
    }

    // Whether it happened once to each page, and never to what is no page.
    fn is_once_each(&self) -> bool {
        for (page, count) in self.counts.iter().enumerate() {
            if count.load(Ordering::SeqCst) != u64::from(page > 0) {
                return false;
            }
        }
        true
    }
}

// A hand at its places, which may draw.
#[derive(Drop)]
struct Worker<'a> {
    places: &'a Places<Squares>,
    hand: Hand<u64>,
    ghost here: { hand.places ≡ places.now },
    ghost free: { MayDraw hand },
}

// Waits until the hand's page may begin. Says whether it may; it may not where the work is stopped.
fn begin<R: Wait>(rt: &R, places: &Places<Squares>, hand: &mut Hand<u64>) -> bool
    requires { (hand.old.places ≡ places.now) × HasDrawn hand.old }
    ensures { hand.new ≡ after_ready hand.old (if result then Go else Stopped) }
{
    for _ in rt.forever() {
        match places.ready(hand) {
            Ready::Go => return true,
            Ready::Stopped => return false,
            Ready::Later { .. } => thread::yield_now(),
        }
    }
    unreachable!()
}

// Draws a page and makes its piece, once the page may begin. Says whether there may be another.
fn make<R: Wait>(rt: &R, places: &Places<Squares>, hand: &mut Hand<u64>, made: &Tally) -> bool
    requires { (hand.old.places ≡ places.now) × MayDraw hand.old }
    ensures { (hand.new.places ≡ hand.old.places) × (IsTrue result → MayDraw hand.new) }
{
    let Draw::Page(page) = places.draw(hand) else {
        return false;
    };
    if !begin(rt, places, hand) {
        return false;
    }
    made.add(page);
    places.finish(hand, square(page));
    true
}

impl<'a> Worker<'a> {
    // Makes pieces until the pages are over, or the work is stopped.
    fn work<R: Wait>(self, rt: &R, made: &Tally) {
        let Worker { places, mut hand } = self;
        for _ in rt.forever() {
            if !make(rt, places, &mut hand, made) {
                return;
            }
        }
    }
}

// Takes the piece of the next page. Meanwhile the committer's own hand works as a worker does, where it isn't over.
fn take<R: Wait>(rt: &R, places: &Places<Squares>, committer: &mut Committer<u64>, page: u32) -> u64
    requires { (committer.old.places ≡ places.now) × MayTake committer.old page }
    ensures { committer.new ≡ record committer.old { next = Taken } }
{
    for _ in rt.forever() {
        if let Some(piece) = places.take(committer, page) {
            return piece;
        }
        thread::yield_now();
    }
    unreachable!()
}

// Takes and commits all pages in order, and stops. The pieces are right.
fn commit_all<R: Wait + Abort>(
    rt: &R,
    places: &Places<Squares>,
    committer: &mut Committer<u64>,
    pages: u32,
)
    requires places { committer.old.places ≡ places.now }
    requires all { pages ≡ places.now.sizes.pages }
    requires none { committer.old.count ≡ 0 }
    requires waits { committer.old.next ≡ Waiting }
    requires runs { committer.old.is_stopped ≡ false }
{
    for count in 0..pages {
        let page = count + 1;
        let piece = take(rt, places, committer, page);
        assert_eq!(rt; piece, square(page));
        places.done(committer, page);
    }
    places.stop(committer);
}

// The committer of places of which no page is committed yet.
#[derive(Drop)]
struct Manager<'a> {
    places: &'a Places<Squares>,
    committer: Committer<u64>,
    pages: u32,
    ghost here: { committer.places ≡ places.now },
    ghost all: { pages ≡ places.now.sizes.pages },
    ghost none: { committer.count ≡ 0 },
    ghost waits: { committer.next ≡ Waiting },
    ghost runs: { committer.is_stopped ≡ false },
}

impl<'a> Manager<'a> {
    fn work<R: Wait + Abort>(self, rt: &R) {
        let Manager {
            places,
            mut committer,
            pages,
        } = self;
        commit_all(rt, places, &mut committer, pages);
    }
}

// Splits so many hands.
fn hire<'x>(
    alloc: Global,
    places: &'x Places<Squares>,
    committer: &mut Committer<u64>,
    workers: u32,
) -> Result<Vec<Worker<'x>>, AllocError>
    requires places { committer.old.places ≡ places.now }
    requires hands { committer.old.hands + workers ≤ places.now.sizes.workers + 1 }
    ensures { committer.new ≡ record committer.old { hands = committer.new.hands } }
{
    let mut all = Vec::with_capacity(alloc, workers as usize)?;
    for i in 0..workers {
        let hand = places.split(committer);
        all.push(Worker { places, hand })?;
    }
    Ok(all)
}

// Lets the workers make all pages, and the manager commit them.
fn run<'x, R: Threads + Wait + Abort + Sync>(
    rt: &'x R,
    workers: Vec<Worker<'x>>,
    manager: Manager<'x>,
    made: &'x Tally,
) {
    thread::scope(thread::scope_env(), rt, |scope| {
        for worker in workers {
            if scope.spawn(move || worker.work(rt, made)).is_err() {
                panic!(rt; "a thread couldn't be started");
            }
        }
        manager.work(rt);
    });
}

// Makes all pages by so many hands, each in a thread of its own.
fn make_all<R: Threads + Wait + Abort + Sync>(
    rt: &R,
    alloc: Global,
    workers: u32,
    pages: u32,
    ahead: u32,
) -> Result<(), Fail>
    requires { (1 ≤ ahead) × (pages + workers < 2 ^ 32) × (1 ≤ workers) }
{
    let made = Places::<Squares>::new(alloc, pages, ahead, workers);
    let (places, mut committer, hand) = made.ok().ok_or("memory")?;
    let tally = Tally::new(alloc, pages)?;
    let mut all = hire(alloc, &places, &mut committer, workers - 1)?;
    all.push(Worker {
        places: &places,
        hand,
    })?;
    let manager = Manager {
        places: &places,
        committer,
        pages,
    };
    run(rt, all, manager, &tally);
    assert!(rt; tally.is_once_each(), "{workers} workers");
    Ok(())
}

#[test]
fn each_page_is_made_once(rt: HostRuntime) -> Result<(), Fail> {
    for _ in 0..50 {
        make_all(&rt, rt.alloc(), 1, 40, 2)?;
        make_all(&rt, rt.alloc(), 2, 40, 1)?;
        make_all(&rt, rt.alloc(), 2, 40, 4)?;
        make_all(&rt, rt.alloc(), 4, 40, 8)?;
        make_all(&rt, rt.alloc(), 8, 40, 3)?;
        make_all(&rt, rt.alloc(), 8, 5, 16)?;
    }
    Ok(())
}
