//! What was made of one piece, or of a part of one, as it goes from thread to thread.
ghost use Rattle.std.specs.Prelude.{◌≡◌, IfOk};

use crate::part::Part;
use std::alloc::AllocError;
use std::marker::{Brand, Model, PhantomData};

/// What may be made of the piece at a place, and of its parts. Who takes pieces ahead picks it.
pub trait Makeable<Y, X> {
    ghost use Rattle.std.specs.Prelude.{ℕ};

    ghost may_be: { ℕ → X → Type 0 };

    /// Of the piece at a place, where it has so many parts, of the one with this number.
    ghost may_be_part: { ℕ → ℕ → ℕ → Y → Type 0 };
}

impl<Y, X> Makeable<Y, X> for Brand {
    ghost may_be = { λ place made. Unit {0} };

    ghost may_be_part = { λ place count number made. Unit {0} };
}

/// What was made of the piece at a place, or want of memory. Contracts see it as the place.
#[derive(Drop)]
pub(crate) struct Made<J: Makeable<Y, X>, Y, X: Drop> {
    place: usize,
    item: Result<X, AllocError>,
    of: PhantomData<(J, Y)>,
}

impl<J: Makeable<Y, X>, Y, X: Drop> Model for Made<J, Y, X> {
    ghost use Rattle.std.specs.Prelude.{ℕ, IfOk};

    ghost Value = { ℕ };

    ghost view = { λ made. made.place };

    ghost invariant = { λ made. IfOk made.item (J.may_be made.place) };
}

impl<J: Makeable<Y, X>, Y, X: Drop> Made<J, Y, X> {
    pub(crate) fn new(place: usize, item: Result<X, AllocError>) -> Made<J, Y, X>
        requires { IfOk item (J.may_be place) }
        ensures { result ≡ place }
    {
        Made {
            place,
            item,
            of: PhantomData,
        }
    }

    pub(crate) fn place(&self) -> usize
        ensures { result ≡ self.now }
    {
        self.place
    }

    pub(crate) fn into_item(self) -> Result<X, AllocError>
        ensures { IfOk result (J.may_be self) }
    {
        let Made {
            place: _,
            item,
            of: _,
        } = self;
        item
    }
}

/// What was made of a part, or want of memory. Contracts see it as which part that is.
#[derive(Drop)]
pub(crate) struct MadePart<J: Makeable<Y, X>, Y: Drop, X> {
    part: Part,
    item: Result<Y, AllocError>,
    of: PhantomData<(J, X)>,
}

impl<J: Makeable<Y, X>, Y: Drop, X> Model for MadePart<J, Y, X> {
    ghost use Rattle.std.specs.Prelude.{IfOk};
    ghost use Rattle.lookahead.specs.declared.part.Part.{Part};

    ghost Value = { Part };

    ghost view = { λ made. made.part };

    ghost invariant = { λ made. IfOk made.item (J.may_be_part made.part.place made.part.count made.part.number) };
}

impl<J: Makeable<Y, X>, Y: Drop, X> MadePart<J, Y, X> {
    pub(crate) fn new(part: Part, item: Result<Y, AllocError>) -> MadePart<J, Y, X>
        requires { IfOk item (J.may_be_part part.place part.count part.number) }
        ensures { result ≡ part }
    {
        MadePart {
            part,
            item,
            of: PhantomData,
        }
    }

    pub(crate) fn part(&self) -> Part
        ensures { result ≡ self.now }
    {
        self.part
    }

    pub(crate) fn into_item(self) -> Result<Y, AllocError>
        ensures { IfOk result (J.may_be_part self.place self.count self.number) }
    {
        let MadePart {
            part: _,
            item,
            of: _,
        } = self;
        item
    }
}
