//! The keys that made transactions invalid.
ghost use Rattle.std.specs.Prelude.{◌≡◌, ◌++◌, ◌∷◌, [], OnOk, IfOk, option_map};
ghost use Rattle.conflicts.specs.Conflict.{conflict_of, conflicts_of, endorsement_conflict};
ghost use Rattle.conflicts.specs.Tally.{found_conflict};

use crate::conflict_key::ConflictKey;
use crate::kind::Kind;
use reasons::{EndorsementFault, PolicyOwner, Reason};
use std::alloc::{AllocError, Global};
use values::{Key, KeyRef, Name, NameRef};

/// The key that made a transaction invalid, and how.
#[derive(Debug, Drop)]
pub(crate) struct Conflict {
    pub key: ConflictKey,
    pub kind: Kind,
    /// Whether a transaction of the same block caused it.
    pub in_block: bool,
}

// A conflict whose key is borrowed.
#[derive(Drop)]
struct Found<'a> {
    namespace: NameRef<'a>,
    key: KeyRef<'a>,
    kind: Kind,
    in_block: bool,
}

impl<'a> Found<'a> {
    fn new(namespace: &'a Name, key: &'a Key, kind: Kind, in_block: bool) -> Found<'a>
        ensures { found_conflict result ≡ record { key = (namespace.now, key.now); kind = kind; in_block = in_block } }
    {
        Found {
            namespace: namespace.lend(),
            key: key.lend(),
            kind,
            in_block,
        }
    }
}

fn found_in_endorsements(fault: &EndorsementFault) -> Option<Found<'_>>
    ensures { option_map found_conflict result ≡ endorsement_conflict fault.now }
{
    match fault {
        EndorsementFault::Touched { namespace, key, .. } => Some(Found::new(
            namespace,
            key,
            Kind::PolicyTouched,
            true,
        )),
        EndorsementFault::Unsatisfied {
            namespace,
            key,
            owner,
            ..
        } => match owner {
            PolicyOwner::OfKey => Some(Found::new(namespace, key, Kind::OwnPolicy, false)),
            PolicyOwner::OfChaincode => None,
        },
        EndorsementFault::ChaincodeUnsatisfied { .. } => None,
    }
}

fn found_in(reason: &Reason) -> Option<Found<'_>>
    ensures { option_map found_conflict result ≡ conflict_of reason.now }
{
    match reason {
        Reason::ReadConflict(read) => Some(Found::new(
            &read.namespace,
            &read.key,
            Kind::StaleRead,
            read.writer.is_some(),
        )),
        Reason::PhantomConflict(phantom) => Some(Found::new(
            &phantom.range.namespace,
            &phantom.key,
            Kind::Phantom,
            phantom.writer.is_some(),
        )),
        Reason::NotEndorsed(fault) => found_in_endorsements(fault),
        _ => None,
    }
}

// Copies the key.
fn copied(alloc: Global, found: &Found<'_>) -> Result<Conflict, AllocError>
    ensures { IfOk result (λ c. c ≡ found_conflict found.now) }
{
    Ok(Conflict {
        key: ConflictKey::copied(alloc, &found.namespace, &found.key)?,
        kind: found.kind,
        in_block: found.in_block,
    })
}

fn push_conflict(
    alloc: Global,
    conflicts: &mut Vec<Conflict>,
    reason: &Reason,
) -> Result<(), AllocError>
    ensures { OnOk result (conflicts.new.items ≡ conflicts.old.items ++ conflicts_of (reason.now ∷ [])) }
{
    if let Some(found) = found_in(reason) {
        conflicts.push(copied(alloc, &found)?)?;
    }
    Ok(())
}

/// The conflicts of transactions with these reasons, in order. Copies each key.
pub(crate) fn conflicts_of(alloc: Global, reasons: &[Reason]) -> Result<Vec<Conflict>, AllocError>
    ensures { IfOk result (λ conflicts. conflicts.items ≡ conflicts_of reasons.now) }
{
    let mut conflicts = Vec::new(alloc);
    for reason in reasons {
        push_conflict(alloc, &mut conflicts, reason)?;
    }
    Ok(conflicts)
}
