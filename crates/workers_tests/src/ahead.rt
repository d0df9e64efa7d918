//! Pieces that workers make ahead: so many at once, others behind one that takes long, parts of one side by side, and none behind the
//! last one taken.
ghost use Rattle.std.specs.Prelude.{◌≡◌, ◌<◌, IfOk};
ghost use Rattle.lookahead.specs.Parts.{AreParts};
ghost use Rattle.std.specs.Thread.{IsSync};
ghost use Rattle.lookahead.specs.Picked.{IsPicked};

use lookahead::{Ahead, Makeable, PartedWork};
use std::alloc::{AllocError, Global};
use std::marker::Brand;
use std::sync::Wait;
use std::sync::atomic::{AtomicBool, AtomicU32, Ordering};
use std::thread;
use std::thread::{Scope, Threads};
use test_support::{Failed, check};

/// How many workers make pieces.
const WORKERS: u32 = 3;

/// How many pieces at most are begun and not taken.
const WINDOW: u32 = 12;

/// How often a worker that is held looks whether it may go on.
const TURNS: u32 = 2_000_000;

/// How often it looks whether more is made than may be.
const MORE_TURNS: u32 = 20_000;

static PIECES: [u32; 40] = [
    0, 1, 2, 3, 4, 5, 6, 7, 8, 9, 10, 11, 12, 13, 14, 15, 16, 17, 18, 19, 20, 21, 22, 23, 24, 25,
    26, 27, 28, 29, 30, 31, 32, 33, 34, 35, 36, 37, 38, 39,
];

/// What becomes of the pieces.
#[derive(Drop)]
struct Watched {
    /// In how many parts a piece is made.
    parts: usize,
    /// Until so many others are made the first part of the first piece waits.
    awaited: u32,
    at_work: AtomicU32,
    made: AtomicU32,
    are_too_many: AtomicBool,
    /// The others were made while the first piece was held.
    came: AtomicBool,
}

impl Watched {
    fn new(parts: usize, awaited: u32) -> Watched {
        Watched {
            parts,
            awaited,
            at_work: AtomicU32::new(0),
            made: AtomicU32::new(0),
            are_too_many: AtomicBool::new(false),
            came: AtomicBool::new(false),
        }
    }

    fn hold(&self) {
        for _ in 0..TURNS {
            if self.made.load(Ordering::SeqCst) >= self.awaited {
                self.came.store(true, Ordering::SeqCst);
                break;
            }
            thread::yield_now();
        }
        for _ in 0..MORE_TURNS {
            if self.made.load(Ordering::SeqCst) > self.awaited {
                self.are_too_many.store(true, Ordering::SeqCst);
            }
            thread::yield_now();
        }
    }

    fn enter(&self) {
        if self.at_work.fetch_add(1, Ordering::SeqCst) >= WORKERS {
            self.are_too_many.store(true, Ordering::SeqCst);
        }
    }

    fn leave(&self) {
        self.made.fetch_add(1, Ordering::SeqCst);
        self.at_work.fetch_sub(1, Ordering::SeqCst);
    }
}

impl PartedWork<u32, u32, u32> for Watched {
    ghost gives = { λ watched piece made. made ≡ piece };

    ghost gives_part = { λ watched piece count number made. made ≡ piece };

    fn parts(&self, _piece: &u32) -> usize {
        self.parts
    }

    fn make_part(
        &self,
        _alloc: Global,
        piece: &u32,
        _count: usize,
        number: usize,
    ) -> Result<u32, AllocError>
        requires { number < _count }
        ensures { IfOk result (λ made. made ≡ piece.now) }
    {
        self.enter();
        if self.awaited > 0 && *piece == 0 && number == 0 {
            self.hold();
        } else {
            thread::yield_now();
        }
        self.leave();
        Ok(*piece)
    }

    fn join(&self, _alloc: Global, piece: &u32, _parts: Vec<u32>) -> Result<u32, AllocError>
        requires { AreParts (λ count number made. made ≡ piece.now) _parts.items }
        ensures { IfOk result (λ made. made ≡ piece.now) }
    {
        Ok(*piece)
    }
}

// Whether the first pieces, so many, came in their order. No more is taken then.
fn are_taken<'s, 'e, J: Makeable<u32, u32> + Send + Sync + 's, R: Threads + Wait + Sync>(
    scope: &'s Scope<'s, &'e ()>,
    rt: &'e R,
    alloc: Global,
    pieces: &'e [u32],
    watched: &'e Watched,
    workers: usize,
    count: usize,
) -> bool
    requires picked { IsPicked J.may_be J.may_be_part (λ piece made. made ≡ piece) (λ piece count number made. made ≡ piece) pieces.now }
{
    let mut ahead: Ahead<'s, 'e, J, R, u32, u32, u32, Watched> = Ahead::new(
        scope, rt, alloc, pieces, watched, workers,
    );
    let mut are_right = true;
    for piece in pieces.iter().take(count) {
        if ahead.taken >= ahead.pieces.len() {
            return false;
        }
        are_right = are_right && ahead.next() == Ok(*piece);
    }
    ahead.close();
    are_right
}

fn are_taken_in_scope<'e, J: Makeable<u32, u32> + Send + Sync, R: Threads + Wait + Sync>(
    rt: &'e R,
    alloc: Global,
    pieces: &'e [u32],
    watched: &'e Watched,
    workers: usize,
    count: usize,
) -> bool
    requires picked { IsPicked J.may_be J.may_be_part (λ piece made. made ≡ piece) (λ piece count number made. made ≡ piece) pieces.now }
{
    thread::scope(
        thread::scope_env(),
        rt,
        |scope| -> bool
            requires { IsSync R.row × IsPicked J.may_be J.may_be_part (λ piece made. made ≡ piece) (λ piece count number made. made ≡ piece) pieces.now }
        { are_taken::<J, R>(scope, rt, alloc, pieces, watched, workers, count) },
    )
}

fn do_come<R: Threads + Wait + Sync>(
    rt: &R,
    alloc: Global,
    pieces: &[u32],
    watched: &Watched,
    workers: usize,
    count: usize,
) -> bool {
    are_taken_in_scope::<Brand, R>(rt, alloc, pieces, watched, workers, count)
}

#[test]
fn others_are_made_behind_one_that_takes_long(rt: HostRuntime) -> Result<(), Failed> {
    let watched = Watched::new(1, WINDOW - 1);
    check(do_come(
        &rt,
        rt.alloc(),
        &PIECES,
        &watched,
        WORKERS as usize,
        PIECES.len(),
    ))?;
    check(watched.came.load(Ordering::SeqCst))?;
    check(!watched.are_too_many.load(Ordering::SeqCst))?;
    check(watched.made.load(Ordering::SeqCst) == 40)
}

#[test]
fn none_begins_when_no_more_is_taken(rt: HostRuntime) -> Result<(), Failed> {
    let watched = Watched::new(1, 0);
    check(do_come(&rt, rt.alloc(), &PIECES, &watched, WORKERS as usize, 3))?;
    check(!watched.are_too_many.load(Ordering::SeqCst))?;
    check(watched.made.load(Ordering::SeqCst) <= 3 + WINDOW)
}

#[test]
fn one_worker_makes_all(rt: HostRuntime) -> Result<(), Failed> {
    let watched = Watched::new(1, 0);
    check(do_come(&rt, rt.alloc(), &PIECES, &watched, 1, PIECES.len()))?;
    check(watched.made.load(Ordering::SeqCst) == 40)
}

#[test]
fn parts_of_one_piece_are_made_side_by_side(rt: HostRuntime) -> Result<(), Failed> {
    let watched = Watched::new(3, 2);
    check(do_come(&rt, rt.alloc(), &PIECES[..1], &watched, WORKERS as usize, 1))?;
    check(watched.came.load(Ordering::SeqCst))?;
    check(!watched.are_too_many.load(Ordering::SeqCst))?;
    check(watched.made.load(Ordering::SeqCst) == 3)
}

#[test]
fn all_parts_of_all_pieces_are_made(rt: HostRuntime) -> Result<(), Failed> {
    let watched = Watched::new(3, 0);
    check(do_come(
        &rt,
        rt.alloc(),
        &PIECES,
        &watched,
        WORKERS as usize,
        PIECES.len(),
    ))?;
    check(!watched.are_too_many.load(Ordering::SeqCst))?;
    check(watched.made.load(Ordering::SeqCst) == 120)
}
