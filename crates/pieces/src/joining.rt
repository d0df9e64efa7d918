//! What was drawn is put into slots, a slot for each place, and joined in their order.
ghost use Rattle.std.specs.Prelude.{◌≡◌, ◌<◌, length, IfOk, IfSome};
ghost use Rattle.std.specs.List.{All};
ghost use Rattle.pieces.specs.Pieces.{IsMade, Fits, AreMade};

use crate::drawing::{Drawn, Placed};
use crate::work::Work;
use std::alloc::{AllocError, Global};

// `work` is for the clauses alone, here and below: it says what may be made.
fn no_slots<P, X: Drop, W: Work<P, X>>(
    alloc: Global,
    pieces: &[P],
    work: &W,
) -> Result<Vec<Option<X>>, AllocError>
    ensures len { IfOk result (λ slots. length slots.items ≡ length pieces.now) }
    ensures fits { IfOk result (λ slots. Fits (λ place slot. IfSome slot (λ made. IsMade (W.gives work.now) pieces.now place made)) slots.items) }
{
    let mut slots = Vec::with_capacity(alloc, pieces.len())?;
    for _ in 0..pieces.len() {
        slots.push(None)?;
    }
    Ok(slots)
}

fn put<P, X: Drop, W: Work<P, X>>(pieces: &[P], slots: &mut [Option<X>], made: Placed<X>, work: &W)
    requires len { length slots.old ≡ length pieces.now }
    requires made { IsMade (W.gives work.now) pieces.now made.place made.item }
    requires fits { Fits (λ place slot. IfSome slot (λ made. IsMade (W.gives work.now) pieces.now place made)) slots.old }
    ensures len { length slots.new ≡ length pieces.now }
    ensures fits { Fits (λ place slot. IfSome slot (λ made. IsMade (W.gives work.now) pieces.now place made)) slots.new }
{
    let _work = work;
    slots[made.place] = Some(made.item);
}

fn put_all<P, X: Drop, W: Work<P, X>>(
    pieces: &[P],
    slots: &mut [Option<X>],
    all: Vec<Placed<X>>,
    work: &W,
)
    requires len { length slots.old ≡ length pieces.now }
    requires made { All (λ made. IsMade (W.gives work.now) pieces.now made.place made.item) all.items }
    requires fits { Fits (λ place slot. IfSome slot (λ made. IsMade (W.gives work.now) pieces.now place made)) slots.old }
    ensures len { length slots.new ≡ length pieces.now }
    ensures fits { Fits (λ place slot. IfSome slot (λ made. IsMade (W.gives work.now) pieces.now place made)) slots.new }
{
    for made in all {
        put(pieces, slots, made, work);
    }
}

fn put_drawn<P, X: Drop, W: Work<P, X>>(
    pieces: &[P],
    slots: &mut [Option<X>],
    drawn: Vec<Drawn<X>>,
    work: &W,
) -> Result<(), AllocError>
    requires len { length slots.old ≡ length pieces.now }
    requires drawn { All (λ one. IfOk one (λ all. All (λ made. IsMade (W.gives work.now) pieces.now made.place made.item) all.items)) drawn.items }
    requires fits { Fits (λ place slot. IfSome slot (λ made. IsMade (W.gives work.now) pieces.now place made)) slots.old }
    ensures len { length slots.new ≡ length pieces.now }
    ensures fits { Fits (λ place slot. IfSome slot (λ made. IsMade (W.gives work.now) pieces.now place made)) slots.new }
{
    let mut is_refused = false;
    for one in drawn {
        match one {
            Ok(all) => put_all(pieces, slots, all, work),
            Err(AllocError) => is_refused = true,
        }
    }
    if is_refused {
        return Err(AllocError);
    }
    Ok(())
}

fn take<P, X: Drop, W: Work<P, X>>(
    pieces: &[P],
    slots: &mut [Option<X>],
    place: usize,
    work: &W,
) -> Option<X>
    requires place { place < length pieces.now }
    requires len { length slots.old ≡ length pieces.now }
    requires fits { Fits (λ place slot. IfSome slot (λ made. IsMade (W.gives work.now) pieces.now place made)) slots.old }
    ensures len { length slots.new ≡ length pieces.now }
    ensures fits { Fits (λ place slot. IfSome slot (λ made. IsMade (W.gives work.now) pieces.now place made)) slots.new }
    ensures slot { IfSome result (λ made. IsMade (W.gives work.now) pieces.now place made) }
{
    let _work = work;
    slots[place].take()
}

fn taken_or_made<P, X: Drop, W: Work<P, X>>(
    alloc: Global,
    pieces: &[P],
    place: usize,
    slot: Option<X>,
    work: &W,
) -> Result<X, AllocError>
    requires place { place < length pieces.now }
    requires slot { IfSome slot (λ made. IsMade (W.gives work.now) pieces.now place made) }
    ensures { IfOk result (λ made. IsMade (W.gives work.now) pieces.now place made) }
{
    match slot {
        Some(made) => Ok(made),
        None => work.make(alloc, &pieces[place]),
    }
}

fn join<P, X: Drop, W: Work<P, X>>(
    alloc: Global,
    pieces: &[P],
    slots: &mut [Option<X>],
    work: &W,
) -> Result<Vec<X>, AllocError>
    requires len { length slots.old ≡ length pieces.now }
    requires fits { Fits (λ place slot. IfSome slot (λ made. IsMade (W.gives work.now) pieces.now place made)) slots.old }
    ensures { IfOk result (λ all. AreMade (W.gives work.now) pieces.now all.items) }
{
    let mut all = Vec::with_capacity(alloc, pieces.len())?;
    for place in 0..pieces.len() {
        let slot = take(pieces, slots, place, work);
        all.push(taken_or_made(alloc, pieces, place, slot, work)?)?;
    }
    Ok(all)
}

fn through_slots<P, X: Drop, W: Work<P, X>>(
    alloc: Global,
    pieces: &[P],
    slots: &mut [Option<X>],
    drawn: Vec<Drawn<X>>,
    work: &W,
) -> Result<Vec<X>, AllocError>
    requires len { length slots.old ≡ length pieces.now }
    requires drawn { All (λ one. IfOk one (λ all. All (λ made. IsMade (W.gives work.now) pieces.now made.place made.item) all.items)) drawn.items }
    requires fits { Fits (λ place slot. IfSome slot (λ made. IsMade (W.gives work.now) pieces.now place made)) slots.old }
    ensures { IfOk result (λ all. AreMade (W.gives work.now) pieces.now all.items) }
{
    put_drawn(pieces, slots, drawn, work)?;
    join(alloc, pieces, slots, work)
}

/// What workers drew of all pieces, in the order of the pieces. What none of them made is made now.
pub(crate) fn joined<P, X: Drop, W: Work<P, X>>(
    alloc: Global,
    pieces: &[P],
    drawn: Vec<Drawn<X>>,
    work: &W,
) -> Result<Vec<X>, AllocError>
    requires { All (λ one. IfOk one (λ all. All (λ made. IsMade (W.gives work.now) pieces.now made.place made.item) all.items)) drawn.items }
    ensures { IfOk result (λ all. AreMade (W.gives work.now) pieces.now all.items) }
{
    let mut slots = no_slots(alloc, pieces, work)?;
    through_slots(alloc, pieces, slots.as_mut_slice(), drawn, work)
}
