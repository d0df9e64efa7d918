//! Which transaction made another invalid.
ghost use Rattle.std.specs.Prelude.{◌≡◌, Some};
ghost use Rattle.dot_lines.specs.Edges as spec;
ghost use Rattle.dot_lines.specs.Graph.{node_name};

use reasons::{EndorsementFault, IdUse, Reason};
use std::fmt;
use transaction::Version;

/// A transaction that a reason names, which prints as the name of its node.
#[derive(Clone, Copy)]
pub(crate) enum Named {
    /// Of the same block.
    Here(u32),
    /// Of an earlier block.
    Earlier { block: u64, tx: u32 },
}

impl fmt::Display for Named {
    ghost output = { λ named. Some (node_name named) };

    fn fmt<W: fmt::Write>(&self, f: &mut fmt::Formatter<W>) -> fmt::Result {
        match self {
            Named::Here(place) => write!(f, "t{place}"),
            Named::Earlier { block, tx } => write!(f, "b{block}_{tx}"),
        }
    }
}

fn use_of(first: &IdUse) -> Named
    ensures { result ≡ spec.use_of first.now }
{
    match first {
        IdUse::Earlier { block, place, .. } => Named::Earlier {
            block: *block,
            tx: *place,
        },
        IdUse::Here { place, .. } => Named::Here(*place),
    }
}

// The last writer of a key: of the block, or otherwise of an earlier one, if the key exists.
fn writer_of(writer: Option<u32>, there: Option<Version>) -> Option<Named>
    ensures { result ≡ spec.writer_of writer there }
{
    match (writer, there) {
        (Some(place), _) => Some(Named::Here(place)),
        (None, Some(version)) => Some(Named::Earlier {
            block: version.block,
            tx: version.tx,
        }),
        (None, None) => None,
    }
}

fn touched_by(fault: &EndorsementFault) -> Option<Named>
    ensures { result ≡ spec.touched_by fault.now }
{
    match fault {
        EndorsementFault::Touched { place, .. } => Some(Named::Here(*place)),
        _ => None,
    }
}

/// The transaction that the reason names, if any.
pub(crate) fn named_by(reason: &Reason) -> Option<Named>
    ensures { result ≡ spec.named_by reason.now }
{
    match reason {
        Reason::UsedId(first) => Some(use_of(first)),
        Reason::NotEndorsed(fault) => touched_by(fault),
        Reason::ReadConflict(read) => writer_of(read.writer, read.there),
        Reason::PhantomConflict(phantom) => writer_of(phantom.writer, phantom.there),
        _ => None,
    }
}
