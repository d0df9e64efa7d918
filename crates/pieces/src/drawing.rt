//! Workers draw the places of pieces, each place once.
ghost use Rattle.std.specs.Prelude.{◌≡◌, ◌<◌, length, IfOk};
ghost use Rattle.std.specs.List.{All};
ghost use Rattle.pieces.specs.Pieces.{IsMade};

use crate::work::Work;
use std::alloc::{AllocError, Global};
use std::sync::atomic::{AtomicUsize, Ordering};
use std::thread;
use std::thread::Threads;

/// Pieces from which workers draw, what is made of each, and the first place that nobody has drawn.
#[derive(Drop)]
pub(crate) struct Pile<'a, P, W> {
    pub(crate) pieces: &'a [P],
    pub(crate) work: &'a W,
    next: AtomicUsize,
}

impl<'a, P, W> Pile<'a, P, W> {
    /// Nobody has drawn a piece of it.
    pub(crate) fn new(pieces: &'a [P], work: &'a W) -> Pile<'a, P, W>
        ensures pieces { result.pieces.now ≡ pieces.entry.now }
        ensures work { result.work.now ≡ work.entry.now }
    {
        Pile {
            pieces,
            work,
            next: AtomicUsize::new(0),
        }
    }
}

/// What was made of the piece at a place.
#[derive(Drop)]
pub(crate) struct Placed<X> {
    pub(crate) place: usize,
    pub(crate) item: X,
}

/// What one worker made of the pieces that it drew, or that it was refused memory.
pub(crate) type Drawn<X> = Result<Vec<Placed<X>>, AllocError>;

fn make_one<P, X: Drop, W: Work<P, X>>(
    alloc: Global,
    pieces: &[P],
    place: usize,
    work: &W,
) -> Result<Placed<X>, AllocError>
    requires { place < length pieces.now }
    ensures { IfOk result (λ made. IsMade (W.gives work.now) pieces.now made.place made.item) }
{
    let item = work.make(alloc, &pieces[place])?;
    Ok(Placed { place, item })
}

/// Makes what is to be made of pieces for as long as there are places to draw, and lets other threads run behind each.
pub(crate) fn draw<P, X: Drop, W: Work<P, X>>(alloc: Global, pile: &Pile<'_, P, W>) -> Drawn<X>
    ensures { IfOk result (λ all. All (λ made. IsMade (W.gives pile.now.work.now) pile.now.pieces.now made.place made.item) all.items) }
{
    let mut all = Vec::new(alloc);
    for _ in 0..pile.pieces.len() {
        let place = pile.next.fetch_add(1, Ordering::SeqCst);
        if place >= pile.pieces.len() {
            break;
        }
        all.push(make_one(alloc, pile.pieces, place, pile.work)?)?;
        // threads at work may be more than processors, and whoever waits for one isn't to wait until all is drawn
        thread::yield_now();
    }
    Ok(all)
}

/// What each of so many workers draws.
pub(crate) fn draw_all<R: Threads + Sync, P: Sync, X: Send + Drop, W: Work<P, X> + Sync>(
    rt: &R,
    alloc: Global,
    pile: &Pile<'_, P, W>,
    workers: usize,
) -> Result<Vec<Drawn<X>>, AllocError>
    ensures { IfOk result (λ drawn. All (λ one. IfOk one (λ all. All (λ made. IsMade (W.gives pile.now.work.now) pile.now.pieces.now made.place made.item) all.items)) drawn.items) }
{
    thread::map_indices(
        rt,
        alloc,
        workers,
        &|_| -> Drawn<X>
            ensures { IfOk result (λ all. All (λ made. IsMade (W.gives pile.entry.now.work.now) pile.entry.now.pieces.now made.place made.item) all.items) }
        { draw(alloc, pile) },
    )
}
