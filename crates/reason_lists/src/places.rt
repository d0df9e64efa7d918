//! Whom and what a reason names.
ghost use Rattle.std.specs.Prelude.{◌≡◌};
ghost use Rattle.reason_lists.specs.Places.{no_places, named, keyed, ranged, update_places, endorsement_places, form_places, places_in};

use reasons::{EndorsementFault, FormFault, QueriedRange, Reason, UpdateFault};
use values::{Key, Name, Slice};

/// The name of a namespace, a chaincode or a channel; a key; and the bounds of a range. What isn't named is empty.
#[derive(Drop)]
pub(crate) struct Places<'a> {
    pub(crate) name: Slice<'a>,
    pub(crate) key: Slice<'a>,
    pub(crate) start: Slice<'a>,
    pub(crate) end: Slice<'a>,
}

fn no_places<'a>() -> Places<'a>
    ensures { result ≡ no_places }
{
    Places {
        name: Slice::new(&[]),
        key: Slice::new(&[]),
        start: Slice::new(&[]),
        end: Slice::new(&[]),
    }
}

fn named<'a>(name: &'a Name) -> Places<'a>
    ensures { result ≡ named name.now }
{
    Places {
        name: Slice::new(name.as_slice()),
        key: Slice::new(&[]),
        start: Slice::new(&[]),
        end: Slice::new(&[]),
    }
}

fn keyed<'a>(name: &'a Name, key: &'a Key) -> Places<'a>
    ensures { result ≡ keyed name.now key.now }
{
    Places {
        name: Slice::new(name.as_slice()),
        key: Slice::new(key.as_slice()),
        start: Slice::new(&[]),
        end: Slice::new(&[]),
    }
}

fn ranged<'a>(range: &'a QueriedRange, key: &'a Key) -> Places<'a>
    ensures { result ≡ ranged range.now key.now }
{
    Places {
        name: Slice::new(range.namespace.as_slice()),
        key: Slice::new(key.as_slice()),
        start: Slice::new(range.start.as_slice()),
        end: Slice::new(range.end.as_slice()),
    }
}

fn update_places(fault: &UpdateFault) -> Places<'_>
    ensures { result ≡ update_places fault.now }
{
    match fault {
        UpdateFault::NoDefinition { chaincode } => named(chaincode),
        _ => no_places(),
    }
}

fn endorsement_places(fault: &EndorsementFault) -> Places<'_>
    ensures { result ≡ endorsement_places fault.now }
{
    match fault {
        EndorsementFault::Touched { namespace, key, .. } => keyed(namespace, key),
        EndorsementFault::Unsatisfied { namespace, key, .. } => keyed(namespace, key),
        EndorsementFault::ChaincodeUnsatisfied { chaincode, .. } => named(chaincode),
    }
}

fn form_places(fault: &FormFault) -> Places<'_>
    ensures { result ≡ form_places fault.now }
{
    match fault {
        FormFault::NamespaceRepeats { namespace } => named(namespace),
        FormFault::KeyRepeats { namespace, key, .. } => keyed(namespace, key),
        FormFault::ResultFalls(found) => ranged(&found.range, &found.key),
        FormFault::ResultLeaves(found) => ranged(&found.range, &found.key),
        FormFault::UnreadablePolicy { namespace, key, .. } => keyed(namespace, key),
    }
}

pub(crate) fn places_in(reason: &Reason) -> Places<'_>
    ensures { result ≡ places_in reason.now }
{
    match reason {
        Reason::InvalidUpdate(fault) => update_places(fault),
        Reason::NotEndorsed(fault) => endorsement_places(fault),
        Reason::ReadConflict(read) => keyed(&read.namespace, &read.key),
        Reason::PhantomConflict(phantom) => ranged(&phantom.range, &phantom.key),
        Reason::OtherChannel { channel } => named(channel),
        Reason::NotInForm(fault) => form_places(fault),
        Reason::Undefined { chaincode } => named(chaincode),
        _ => no_places(),
    }
}
