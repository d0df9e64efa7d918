//! What is made and isn't taken, and how far pieces are drawn and taken.
ghost use Rattle.std.specs.Prelude.{◌≡◌, ◌<◌, length, slice_index_or, IfSome, IfOk};

use crate::made::{Made, MadePart, Makeable};
use crate::part::Part;
use crate::parted_work::PartedWork;
use std::alloc::{AllocError, Global};

/// The most parts of a piece.
pub(crate) const MOST_PARTS: usize = 64;

/// Lies under a lock.
#[derive(Drop)]
pub(crate) struct Shelf<J: Makeable<Y, X>, Y: Drop, X: Drop> {
    alloc: Global,
    /// In no order.
    made: Vec<Made<J, Y, X>>,
    /// Parts of pieces of which others lack, in no order.
    parts: Vec<MadePart<J, Y, X>>,
    /// The first place of which not all parts are drawn, and how many are.
    drawn: usize,
    drawn_parts: usize,
    /// How many parts are drawn and not yet made, or the last ones of their piece, which is being joined.
    making: usize,
    /// The place of the piece that is taken next.
    taken: usize,
    is_closed: bool,
}

impl<J: Makeable<Y, X>, Y: Drop, X: Drop> Shelf<J, Y, X> {
    /// Nothing is drawn. There is room for so many.
    pub(crate) fn new(alloc: Global, most: usize) -> Result<Shelf<J, Y, X>, AllocError> {
        Ok(Shelf {
            alloc,
            made: Vec::with_capacity(alloc, most)?,
            parts: Vec::new(alloc),
            drawn: 0,
            drawn_parts: 0,
            making: 0,
            taken: 0,
            is_closed: false,
        })
    }

    fn position(&self, place: usize) -> Option<usize>
        ensures { IfSome result (λ at. (at < length self.now.made.items) × (slice_index_or self.now.made.items at place ≡ place)) }
    {
        for at in 0..self.made.len() {
            if self.made[at].place() == place {
                return Some(at);
            }
        }
        None
    }

    fn is_full(&self, most: usize) -> bool {
        self.drawn >= self.taken.saturating_add(most)
    }

    /// Whether at least half of this many pieces may be drawn now.
    pub(crate) fn is_half_empty(&self, most: usize) -> bool {
        self.drawn <= self.taken.saturating_add(most / 2)
    }

    /// Whether a thread that wants a part waits: some are left, and so many pieces are drawn and not taken that there is no room.
    pub(crate) fn must_wait(&self, len: usize, most: usize) -> bool {
        !self.is_closed && self.drawn < len && self.is_full(most)
    }

    /// Whether the piece that is taken next is made.
    pub(crate) fn has_next(&self) -> bool {
        self.position(self.taken).is_some()
    }

    /// Whether the piece that is taken next is made, or nobody makes any.
    pub(crate) fn is_ready(&self) -> bool {
        self.making == 0 || self.has_next()
    }

    /// Whether parts are left of a piece of which one is drawn.
    pub(crate) fn is_amid_a_piece(&self) -> bool {
        self.drawn_parts > 0
    }

    /// A part that is to be made now.
    pub(crate) fn draw<P, W: PartedWork<P, Y, X>>(
        &mut self,
        pieces: &[P],
        work: &W,
        most: usize,
    ) -> Option<Part>
        ensures { IfSome result (λ part. (part.place < length pieces.now) × (part.number < part.count)) }
    {
        if self.is_closed || self.drawn >= pieces.len() || self.is_full(most) {
            return None;
        }
        let place = self.drawn;
        let count = work.parts(&pieces[place]).min(MOST_PARTS).max(1);
        let number = self.drawn_parts.min(count - 1);
        if number + 1 < count {
            self.drawn_parts = number + 1;
        } else {
            self.drawn_parts = 0;
            self.drawn += 1;
        }
        self.making = self.making.saturating_add(1);
        Some(Part {
            place,
            number,
            count,
        })
    }

    fn parts_at(&self, place: usize) -> usize {
        let mut count = 0usize;
        for made in &self.parts {
            if made.part().place == place {
                count = count.saturating_add(1);
            }
        }
        count
    }

    fn position_of_part_at(&self, place: usize) -> Option<usize>
        ensures { IfSome result (λ at. at < length self.now.parts.items) }
    {
        for at in 0..self.parts.len() {
            if self.parts[at].part().place == place {
                return Some(at);
            }
        }
        None
    }

    /// The parts of the piece at a place, in no order. Those for which there is no memory are lost, and the piece is made again.
    fn take_parts(&mut self, place: usize) -> Vec<MadePart<J, Y, X>> {
        let mut taken = Vec::new(self.alloc);
        for _ in 0..self.parts.len() {
            let Some(at) = self.position_of_part_at(place) else {
                break;
            };
            let _ = taken.push(self.parts.swap_remove(at));
        }
        taken
    }

    /// A part that was drawn is made. Answers all parts of its piece where none lacks, in no order: they are to be joined now.
    /// A part that is refused room is lost, and its piece is made again.
    pub(crate) fn put_part(&mut self, made: MadePart<J, Y, X>) -> Option<Vec<MadePart<J, Y, X>>> {
        let part = made.part();
        let _ = self.parts.push(made);
        if self.parts_at(part.place) < part.count {
            self.making = self.making.saturating_sub(1);
            return None;
        }
        Some(self.take_parts(part.place))
    }

    /// A piece whose parts are joined is made. There is room for it, since no more than fit are drawn and not taken; one that were
    /// refused room would be made again.
    pub(crate) fn put(&mut self, made: Made<J, Y, X>) {
        let _ = self.made.push(made);
        self.making = self.making.saturating_sub(1);
    }

    /// What was made of the piece at a place, which is taken.
    pub(crate) fn take(&mut self, place: usize) -> Option<Made<J, Y, X>>
        ensures { IfSome result (λ made. made ≡ place) }
    {
        self.taken = place.saturating_add(1);
        let at = self.position(place)?;
        Some(self.made.swap_remove(at))
    }

    /// Has no other part drawn.
    pub(crate) fn close(&mut self) {
        self.is_closed = true;
    }
}
