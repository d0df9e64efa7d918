//! Which transactions have edges.
ghost use Rattle.std.specs.Prelude.{◌≡◌, ◌<◌, ◌||◌, false, true, is_some, length, replicate, get_or, set, IfOk};
ghost use Rattle.dot_lines.specs.Edges.{named_by};
ghost use Rattle.dot_lines.specs.Graph.{AreNamed, with_named};

use crate::named::{Named, named_by};
use reasons::Reason;
use std::alloc::{AllocError, Global};

fn none_of(alloc: Global, count: usize) -> Result<Vec<bool>, AllocError>
    ensures { IfOk result (λ places. places.items ≡ replicate count false) }
{
    vec![in alloc; false; count]
}

// A place that the block doesn't have is skipped.
fn mark(places: &mut [bool], place: u32)
    ensures { places.new ≡ set places.old place true }
{
    if (place as usize) < places.len() {
        places[place as usize] = true;
    }
}

fn mark_named(places: &mut [bool], named: Option<Named>)
    ensures { places.new ≡ with_named named places.old }
{
    match named {
        Some(Named::Here(place)) => mark(places, place),
        Some(Named::Earlier { .. }) | None => {}
    }
}

/// Whether each place of the block is named by one of the reasons. A byte for each.
pub(crate) fn named_places(alloc: Global, reasons: &[Reason]) -> Result<Vec<bool>, AllocError>
    ensures { IfOk result (λ places. AreNamed reasons.now places.items) }
{
    let mut places = none_of(alloc, reasons.len())?;
    for reason in reasons {
        mark_named(places.as_mut_slice(), named_by(reason));
    }
    Ok(places)
}

/// Whether the transaction at this place has an edge by its reason, or to it by another's.
pub(crate) fn has_edge(places: &[bool], place: usize, reason: &Reason) -> bool
    requires { place < length places.now }
    ensures { result ≡ (is_some (named_by reason.now) || get_or places.now place false) }
{
    named_by(reason).is_some() || places[place]
}
