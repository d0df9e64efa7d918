ghost use Rattle.std.specs.Prelude.{◌≡◌, ◌+◌, ◌<◌, length, IfOk, IfSome};
ghost use Rattle.pieces.specs.Pieces.{IsMade};
ghost use Rattle.lookahead.specs.Picked.{IsPicked};

use crate::joining::{join, make_alone};
use crate::made::{Made, MadePart, Makeable};
use crate::part::Part;
use crate::parted_work::PartedWork;
use crate::shelf::MOST_PARTS;
use crate::window::Window;
use std::alloc::{AllocError, Global};
use std::sync::{Arc, Wait};
use std::thread::{Scope, Threads};

/// For each worker so many pieces are made and not taken at most: enough that the others go on behind one that takes long, also
/// where pieces differ in size.
const AHEAD_OF_EACH: usize = 4;

/// Pieces that are taken one by one, in their order. Threads make the next ones meanwhile, and so does the taker while the one that
/// it takes isn't made.
#[derive(Drop)]
pub struct Ahead<'s, 'e, J: Makeable<Y, X>, R, P, Y: Drop, X: Drop, W: PartedWork<P, Y, X>> {
    pub pieces: &'e [P],
    pub work: &'e W,
    /// How many were taken.
    pub taken: usize,
    scope: &'s Scope<'s, &'e ()>,
    rt: &'e R,
    alloc: Global,
    window: Option<Arc<Window<J, Y, X>>>,
}

// Makes a part, and its piece where it is the last one.
fn make<J: Makeable<Y, X>, R: Wait, P, Y: Drop, X: Drop, W: PartedWork<P, Y, X>>(
    rt: &R,
    alloc: Global,
    window: &Window<J, Y, X>,
    pieces: &[P],
    work: &W,
    part: Part,
)
    requires place { part.place < length pieces.now }
    requires number { part.number < part.count }
    requires picked { IsPicked J.may_be J.may_be_part (W.gives work.now) (W.gives_part work.now) pieces.now }
{
    if part.count == 1 {
        let item = make_alone(alloc, &pieces[part.place], work);
        window.put(rt, Made::new(part.place, item));
        return;
    }
    let item = work.make_part(alloc, &pieces[part.place], part.count, part.number);
    if let Some(parts) = window.put_part(rt, MadePart::new(part, item)) {
        window.put(rt, join(alloc, pieces, work, part, parts));
    }
}

// Makes parts until none is left, or no more is taken.
fn make_ahead<J: Makeable<Y, X>, R: Wait, P, Y: Drop, X: Drop, W: PartedWork<P, Y, X>>(
    rt: &R,
    alloc: Global,
    window: &Window<J, Y, X>,
    pieces: &[P],
    work: &W,
)
    requires picked { IsPicked J.may_be J.may_be_part (W.gives work.now) (W.gives_part work.now) pieces.now }
{
    for _ in 0..pieces.len().saturating_mul(MOST_PARTS) {
        let Some(part) = window.draw(rt, pieces, work) else {
            break;
        };
        make(rt, alloc, window, pieces, work, part);
    }
}

impl<
    's,
    'e,
    J: Makeable<Y, X> + Send + Sync + 's,
    R: Threads + Wait + Sync + 's,
    P: Sync + 's,
    Y: Send + Drop + 's,
    X: Send + Drop + 's,
    W: PartedWork<P, Y, X> + Sync + 's,
> Ahead<'s, 'e, J, R, P, Y, X, W> {
    /// Starts threads for pieces of which none is taken: one for each worker but the taker, and no more than there are parts.
    /// One that can't be started is done without, and so are all where memory for what they make is refused: the taker makes
    /// what nobody else does. Call `close` at the end; threads may wait for it.
    pub fn new(
        scope: &'s Scope<'s, &'e ()>,
        rt: &'e R,
        alloc: Global,
        pieces: &'e [P],
        work: &'e W,
        workers: usize,
    ) -> Ahead<'s, 'e, J, R, P, Y, X, W>
        requires picked { IsPicked J.may_be J.may_be_part (W.gives work.now) (W.gives_part work.now) pieces.now }
        ensures pieces { result.pieces.now ≡ pieces.entry.now }
        ensures work { result.work.now ≡ work.entry.now }
        ensures taken { result.taken ≡ 0 }
    {
        let ahead = Ahead {
            pieces,
            work,
            taken: 0,
            scope,
            rt,
            alloc,
            window: shared_window(alloc, workers.saturating_mul(AHEAD_OF_EACH)),
        };
        ahead.start_others(ahead.useful(workers));
        ahead
    }

    // How many of so many workers have a part to make.
    fn useful(&self, workers: usize) -> usize {
        let mut parts = 0usize;
        for piece in self.pieces {
            if parts >= workers {
                break;
            }
            parts = parts.saturating_add(self.work.parts(piece).max(1));
        }
        parts.min(workers)
    }

    fn start_others(&self, workers: usize)
        requires picked { IsPicked J.may_be J.may_be_part (W.gives self.now.work.now) (W.gives_part self.now.work.now) self.now.pieces.now }
    {
        for _ in 1..workers {
            if !self.start_one() {
                break;
            }
        }
    }

    /// Starts a thread that makes pieces. Says whether it did.
    fn start_one(&self) -> bool
        requires picked { IsPicked J.may_be J.may_be_part (W.gives self.now.work.now) (W.gives_part self.now.work.now) self.now.pieces.now }
    {
        let Some(window) = &self.window else {
            return false;
        };
        let Ok(theirs) = Arc::try_clone(window) else {
            return false;
        };
        let (rt, alloc, pieces, work) = (self.rt, self.alloc, self.pieces, self.work);
        self.scope
            .spawn(
                move ||
                    requires { IsPicked J.may_be J.may_be_part (W.gives work.now) (W.gives_part work.now) pieces.now }
                { make_ahead(rt, alloc, &theirs, pieces, work) },
            )
            .is_ok()
    }
}

fn shared_window<J: Makeable<Y, X>, Y: Drop, X: Drop>(
    alloc: Global,
    most: usize,
) -> Option<Arc<Window<J, Y, X>>> {
    Arc::new(alloc, Window::new(alloc, most).ok()?).ok()
}

// What some worker made of the next piece, the one at this place. Makes parts until it is made or none is left, and waits then.
fn made_by_all<J: Makeable<Y, X>, R: Wait, P, Y: Drop, X: Drop, W: PartedWork<P, Y, X>>(
    rt: &R,
    alloc: Global,
    window: &Window<J, Y, X>,
    pieces: &[P],
    work: &W,
    place: usize,
) -> Option<Made<J, Y, X>>
    requires picked { IsPicked J.may_be J.may_be_part (W.gives work.now) (W.gives_part work.now) pieces.now }
    ensures { IfSome result (λ made. made ≡ place) }
{
    for _ in 0..pieces.len().saturating_mul(MOST_PARTS) {
        let Some(part) = window.draw_meanwhile(rt, pieces, work) else {
            break;
        };
        make(rt, alloc, window, pieces, work, part);
    }
    window.take(rt, place)
}

impl<'s, 'e, J: Makeable<Y, X>, R: Wait, P, Y: Drop, X: Drop, W: PartedWork<P, Y, X>> Ahead<
    's,
    'e,
    J,
    R,
    P,
    Y,
    X,
    W,
> {
    /// What is made of the next piece, the one at this place.
    fn made(&self, place: usize) -> Result<X, AllocError>
        requires place { place < length self.now.pieces.now }
        requires picked { IsPicked J.may_be J.may_be_part (W.gives self.now.work.now) (W.gives_part self.now.work.now) self.now.pieces.now }
        ensures { IfOk result (λ made. IsMade (W.gives self.now.work.now) self.now.pieces.now place made) }
    {
        if let Some(window) = &self.window {
            if let Some(made) = made_by_all(
                self.rt,
                self.alloc,
                window,
                self.pieces,
                self.work,
                place,
            ) {
                return made.into_item();
            }
        }
        make_alone(self.alloc, &self.pieces[place], self.work)
    }

    /// What is made of the next piece, which is taken. An `Err` is want of memory alone; the piece counts as taken.
    pub fn next(&mut self) -> Result<X, AllocError>
        requires left { self.old.taken < length self.old.pieces.now }
        requires picked { IsPicked J.may_be J.may_be_part (W.gives self.old.work.now) (W.gives_part self.old.work.now) self.old.pieces.now }
        ensures made { IfOk result (λ made. IsMade (W.gives self.old.work.now) self.old.pieces.now self.old.taken made) }
        ensures pieces { self.new.pieces.now ≡ self.old.pieces.now }
        ensures work { self.new.work.now ≡ self.old.work.now }
        ensures taken { self.new.taken ≡ self.old.taken + 1 }
    {
        let place = self.taken;
        self.taken += 1;
        self.made(place)
    }

    /// Takes no more: threads make what they have begun, and no other piece.
    pub fn close(self) {
        if let Some(window) = &self.window {
            window.close(self.rt);
        }
    }
}
