//! The pieces that are made ahead, for all threads.
ghost use Rattle.std.specs.Prelude.{◌≡◌, ◌<◌, length, IfSome};

use crate::made::{Made, MadePart, Makeable};
use crate::part::Part;
use crate::parted_work::PartedWork;
use crate::shelf::Shelf;
use std::alloc::{AllocError, Global};
use std::sync::{Condvar, Mutex, Wait};

/// What is made ahead, and how many pieces at most are drawn and not taken. Where so many are, threads wait for room, until `close`;
/// the taker waits for the next piece.
#[derive(Drop)]
pub(crate) struct Window<J: Makeable<Y, X>, Y: Drop, X: Drop> {
    most: usize,
    shelf: Mutex<Shelf<J, Y, X>>,
    /// A part may be drawn, or none ever. Threads wait for it.
    room: Condvar,
    /// The next piece is made, or nobody makes any. The taker waits for it.
    ready: Condvar,
}

impl<J: Makeable<Y, X>, Y: Drop, X: Drop> Window<J, Y, X> {
    /// Of so many pieces, or one if that is 0.
    pub(crate) fn new(alloc: Global, most: usize) -> Result<Window<J, Y, X>, AllocError> {
        let most = most.max(1);
        Ok(Window {
            most,
            shelf: Mutex::new(Shelf::new(alloc, most)?),
            room: Condvar::new(),
            ready: Condvar::new(),
        })
    }

    /// The part that a thread makes now. Waits for room. There is none where no part is left or no more is taken.
    pub(crate) fn draw<R: Wait, P, W: PartedWork<P, Y, X>>(
        &self,
        rt: &R,
        pieces: &[P],
        work: &W,
    ) -> Option<Part>
        ensures { IfSome result (λ part. (part.place < length pieces.now) × (part.number < part.count)) }
    {
        let mut shelf = self.room.wait_while(rt, self.shelf.lock(rt), |shelf| {
            shelf.must_wait(pieces.len(), self.most)
        });
        let part = shelf.draw(pieces, work, self.most);
        if shelf.is_amid_a_piece() {
            // whoever waits makes the next part of it
            self.room.notify_one();
        }
        part
    }

    /// The part that the taker makes while the next piece isn't made. Doesn't wait.
    pub(crate) fn draw_meanwhile<R: Wait, P, W: PartedWork<P, Y, X>>(
        &self,
        rt: &R,
        pieces: &[P],
        work: &W,
    ) -> Option<Part>
        ensures { IfSome result (λ part. (part.place < length pieces.now) × (part.number < part.count)) }
    {
        let mut shelf = self.shelf.lock(rt);
        if shelf.has_next() {
            return None;
        }
        shelf.draw(pieces, work, self.most)
    }

    /// A part that was drawn is made. Answers all parts of its piece, in no order, where none lacks; they are to be joined, and `put`.
    pub(crate) fn put_part<R: Wait>(
        &self,
        rt: &R,
        made: MadePart<J, Y, X>,
    ) -> Option<Vec<MadePart<J, Y, X>>> {
        let mut shelf = self.shelf.lock(rt);
        let parts = shelf.put_part(made);
        if parts.is_none() && shelf.is_ready() {
            self.ready.notify_one();
        }
        parts
    }

    /// A piece whose parts are joined is made.
    pub(crate) fn put<R: Wait>(&self, rt: &R, made: Made<J, Y, X>) {
        let mut shelf = self.shelf.lock(rt);
        shelf.put(made);
        if shelf.is_ready() {
            self.ready.notify_one();
        }
    }

    /// What was made of the next piece, the one at this place, which is taken. Waits until it is made. There is nothing where nobody
    /// makes any.
    pub(crate) fn take<R: Wait>(&self, rt: &R, place: usize) -> Option<Made<J, Y, X>>
        ensures { IfSome result (λ made. made ≡ place) }
    {
        let mut shelf = self
            .ready
            .wait_while(rt, self.shelf.lock(rt), |shelf| !shelf.is_ready());
        let made = shelf.take(place);
        // a small piece takes less time than to wake a thread
        if shelf.is_half_empty(self.most) {
            self.room.notify_all();
        }
        made
    }

    /// Has no other part drawn.
    pub(crate) fn close<R: Wait>(&self, rt: &R) {
        self.shelf.lock(rt).close();
        self.room.notify_all();
    }
}
