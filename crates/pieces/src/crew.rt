ghost use Rattle.std.specs.Prelude.{IfOk};
ghost use Rattle.std.specs.List.{All};
ghost use Rattle.pieces.specs.Pieces.{IsMade, AreMade};

use crate::drawing::{Drawn, Pile, draw, draw_all};
use crate::joining::joined;
use crate::work::Work;
use std::alloc::{AllocError, Global};
use std::thread;
use std::thread::Threads;

/// Who works: the runtime that starts threads, the memory, and how many workers there are, of whom the calling thread is one.
#[derive(Clone, Copy)]
pub struct Crew<'m, R> {
    pub rt: &'m R,
    pub alloc: Global,
    pub workers: usize,
}

// What each worker drew, or that memory for them was refused.
type DrawnByAll<X> = Result<Vec<Drawn<X>>, AllocError>;

// What all workers drew, the calling thread last, joined.
fn joined_of<P, X: Drop, W: Work<P, X>>(
    alloc: Global,
    pile: &Pile<'_, P, W>,
    drawn: DrawnByAll<X>,
    own: Drawn<X>,
) -> Result<Vec<X>, AllocError>
    requires drawn { IfOk drawn (λ drawn. All (λ one. IfOk one (λ all. All (λ made. IsMade (W.gives pile.now.work.now) pile.now.pieces.now made.place made.item) all.items)) drawn.items) }
    requires own { IfOk own (λ all. All (λ made. IsMade (W.gives pile.now.work.now) pile.now.pieces.now made.place made.item) all.items) }
    ensures { IfOk result (λ all. AreMade (W.gives pile.now.work.now) pile.now.pieces.now all.items) }
{
    let mut drawn = drawn?;
    drawn.push(own)?;
    joined(alloc, pile.pieces, drawn, pile.work)
}

// What so many threads drew, and what the calling thread drew meanwhile.
fn drawn_by<R: Threads + Sync, P: Sync, X: Send + Drop, W: Work<P, X> + Sync>(
    rt: &R,
    alloc: Global,
    pile: &Pile<'_, P, W>,
    threads: usize,
) -> (DrawnByAll<X>, Drawn<X>)
    ensures drawn { IfOk result.0 (λ drawn. All (λ one. IfOk one (λ all. All (λ made. IsMade (W.gives pile.now.work.now) pile.now.pieces.now made.place made.item) all.items)) drawn.items) }
    ensures own { IfOk result.1 (λ all. All (λ made. IsMade (W.gives pile.now.work.now) pile.now.pieces.now made.place made.item) all.items) }
{
    if threads == 0 {
        return (Ok(Vec::new(alloc)), draw(alloc, pile));
    }
    thread::join_mut(
        rt,
        &mut || draw_all(rt, alloc, pile, threads),
        &mut || draw(alloc, pile),
    )
}

/// Makes all pieces, in their order, by a crew.
///
/// Pieces are drawn one by one, so that a worker that is late or can't be started is done without. An `Err` is want of memory
/// alone. One worker starts no thread; each other one costs its start, some 15 microseconds.
pub fn in_pieces<R: Threads + Sync, P: Sync, X: Send + Drop, W: Work<P, X> + Sync>(
    crew: &Crew<'_, R>,
    pieces: &[P],
    work: &W,
) -> Result<Vec<X>, AllocError>
    ensures { IfOk result (λ all. AreMade (W.gives work.now) pieces.now all.items) }
{
    let pile = Pile::new(pieces, work);
    let (drawn, own) = drawn_by(crew.rt, crew.alloc, &pile, crew.workers.saturating_sub(1));
    joined_of(crew.alloc, &pile, drawn, own)
}
