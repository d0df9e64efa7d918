//! The parts of a piece, which threads made in any order, are joined.
ghost use Rattle.std.specs.Prelude.{◌≡◌, ◌<◌, length, slice_index_or, IfSome, IfOk};
ghost use Rattle.pieces.specs.Pieces.{Fits, IsMade};
ghost use Rattle.lookahead.specs.Picked.{IsPicked};

use crate::made::{Made, MadePart, Makeable};
use crate::part::Part;
use crate::parted_work::PartedWork;
use std::alloc::{AllocError, Global};

fn position<J: Makeable<Y, X>, Y: Drop, X>(
    made: &[MadePart<J, Y, X>],
    wanted: Part,
) -> Option<usize>
    ensures { IfSome result (λ at. (at < length made.now) × (slice_index_or made.now at wanted ≡ wanted)) }
{
    for at in 0..made.len() {
        if made[at].part() == wanted {
            return Some(at);
        }
    }
    None
}

// What was made of a part, which leaves the list. An `Err` is want of memory: of one that isn't there, when it was put.
fn take<J: Makeable<Y, X>, Y: Drop, X>(
    made: &mut Vec<MadePart<J, Y, X>>,
    wanted: Part,
) -> Result<Y, AllocError>
    ensures { IfOk result (J.may_be_part wanted.place wanted.count wanted.number) }
{
    let Some(at) = position(made.as_slice(), wanted) else {
        return Err(AllocError);
    };
    made.swap_remove(at).into_item()
}

// What was made of the parts of the piece at a place, in their order.
fn in_order<J: Makeable<Y, X>, Y: Drop, X>(
    alloc: Global,
    place: usize,
    count: usize,
    made: &mut Vec<MadePart<J, Y, X>>,
) -> Result<Vec<Y>, AllocError>
    ensures len { IfOk result (λ all. length all.items ≡ count) }
    ensures fits { IfOk result (λ all. Fits (λ number part. J.may_be_part place count number part) all.items) }
{
    let mut all = Vec::with_capacity(alloc, count)?;
    for number in 0..count {
        all.push(take(
            made,
            Part {
                place,
                number,
                count,
            },
        )?)?;
    }
    Ok(all)
}

// What is made of the piece at a place, of its parts.
fn joined<J: Makeable<Y, X>, P, Y: Drop, X, W: PartedWork<P, Y, X>>(
    alloc: Global,
    pieces: &[P],
    work: &W,
    part: Part,
    made: &mut Vec<MadePart<J, Y, X>>,
) -> Result<X, AllocError>
    requires place { part.place < length pieces.now }
    requires number { part.number < part.count }
    requires picked { IsPicked J.may_be J.may_be_part (W.gives work.now) (W.gives_part work.now) pieces.now }
    ensures { IfOk result (J.may_be part.place) }
{
    let parts = in_order(alloc, part.place, part.count, made)?;
    work.join(alloc, &pieces[part.place], parts)
}

/// Makes the piece of which this is a part, of all its parts, in any order.
pub(crate) fn join<J: Makeable<Y, X>, P, Y: Drop, X: Drop, W: PartedWork<P, Y, X>>(
    alloc: Global,
    pieces: &[P],
    work: &W,
    part: Part,
    made: Vec<MadePart<J, Y, X>>,
) -> Made<J, Y, X>
    requires place { part.place < length pieces.now }
    requires number { part.number < part.count }
    requires picked { IsPicked J.may_be J.may_be_part (W.gives work.now) (W.gives_part work.now) pieces.now }
    ensures { result ≡ part.place }
{
    let mut made = made;
    Made::new(part.place, joined(alloc, pieces, work, part, &mut made))
}

/// Makes a piece, of one part.
pub(crate) fn make_alone<P, Y: Drop, X, W: PartedWork<P, Y, X>>(
    alloc: Global,
    piece: &P,
    work: &W,
) -> Result<X, AllocError>
    ensures { IfOk result (λ made. W.gives work.now piece.now made) }
{
    let mut parts = Vec::with_capacity(alloc, 1)?;
    parts.push(work.make_part(alloc, piece, 1, 0)?)?;
    work.join(alloc, piece, parts)
}
