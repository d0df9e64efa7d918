//! The rows that a batch makes differ, spelled. The bytes were worked out by hand.

use crate::fixture::{key, name};
use policy::Policy;
use rules::Row;
use state_db::{Batch, StateDb};
use state_keys::StateKey;
use std::alloc::Global;
use test_support::Failed;
use transaction::Version;
use values::{Part, Shared};

// A value, the place in block 0 where it was written, and whether the row has the policy `'A.peer'`.
type Put = (&'static [u8], u32, bool);

// A namespace, a key, and the row that is put, or none where it is removed.
type Edit = (&'static [u8], &'static [u8], Option<Put>);

// What is edited beforehand, what the batch edits, and the bytes.
type Case = (
    &'static str,
    &'static [Edit],
    &'static [Edit],
    &'static [u8],
);

fn cases() -> &'static [Case] {
    &CASES
}

const K: Edit = (b"cc", b"k", Some((b"v", 0, false)));

static CASES: [Case; 10] = [
    ("nothing", &[K], &[], b"\0\0\0\0"),
    (
        "a row with a policy",
        &[],
        &[(b"cc", b"k1", Some((b"v1", 0, true)))],
        b"\0\0\0\x01\x02cc\0\x02k1\x01\0\0\0\0\0\0\0\0\0\0\0\0\0\0\0\x02v1\0\x08'A.peer'",
    ),
    (
        "put and removed at once",
        &[],
        &[K, (b"cc", b"k", None)],
        b"\0\0\0\0",
    ),
    (
        "removed where it isn't there",
        &[],
        &[(b"cc", b"k", None)],
        b"\0\0\0\0",
    ),
    (
        "removed",
        &[K],
        &[(b"cc", b"k", None)],
        b"\0\0\0\x01\x02cc\0\x01k\0",
    ),
    ("the same row", &[K], &[K], b"\0\0\0\0"),
    (
        "the same value, written later",
        &[K],
        &[(b"cc", b"k", Some((b"v", 7, false)))],
        b"\0\0\0\x01\x02cc\0\x01k\x01\0\0\0\0\0\0\0\0\0\0\0\x07\0\0\0\x01v\0\0",
    ),
    (
        "another value",
        &[K],
        &[(b"cc", b"k", Some((b"", 0, false)))],
        b"\0\0\0\x01\x02cc\0\x01k\x01\0\0\0\0\0\0\0\0\0\0\0\0\0\0\0\0\0\0",
    ),
    (
        "a policy alone",
        &[K],
        &[(b"cc", b"k", Some((b"v", 0, true)))],
        b"\0\0\0\x01\x02cc\0\x01k\x01\0\0\0\0\0\0\0\0\0\0\0\0\0\0\0\x01v\0\x08'A.peer'",
    ),
    // Neither in the order of the edits, nor in that of what is spelled.
    (
        "in the order of namespaces and keys",
        &[
            (b"cc", b"b", Some((b"v", 0, false))),
            (b"cc", b"aa", Some((b"v", 0, false))),
            (b"d", b"a", Some((b"v", 0, false))),
            (b"cc", b"a", Some((b"v", 0, false))),
        ],
        &[
            (b"d", b"a", None),
            (b"cc", b"b", None),
            (b"cc", b"a", None),
            (b"cc", b"aa", None),
        ],
        b"\0\0\0\x04\x02cc\0\x01a\0\x02cc\0\x02aa\0\x02cc\0\x01b\0\x01d\0\x01a\0",
    ),
];

fn policy_of(alloc: Global, has_policy: bool) -> Result<Option<Shared<Policy>>, Failed> {
    if !has_policy {
        return Ok(None);
    }
    let policy = Policy::parse(alloc, "'A.peer'")?;
    Ok(Some(Shared::new(alloc, policy)?))
}

fn row_of(alloc: Global, put: Put) -> Result<Row, Failed> {
    let (value, tx, has_policy) = put;
    let policy = policy_of(alloc, has_policy)?;
    Ok(Row {
        value: Part::copied(alloc, value)?,
        version: Version { block: 0, tx },
        policy,
    })
}

fn add(alloc: Global, batch: &mut Batch, edit: &Edit) -> Result<(), Failed> {
    let (namespace, at, put) = *edit;
    let namespace = name(namespace)?.copy(alloc)?;
    let at = key(at)?.copy(alloc)?;
    match put {
        None => Ok(batch.remove(namespace, at)?),
        Some(put) => Ok(batch.put(namespace, at, row_of(alloc, put)?)?),
    }
}

fn add_all(alloc: Global, batch: &mut Batch, edits: &[Edit]) -> Result<(), Failed> {
    for edit in edits {
        add(alloc, batch, edit)?;
    }
    Ok(())
}

fn batch_of(alloc: Global, edits: &[Edit]) -> Result<Batch, Failed> {
    let mut batch = Batch::new(alloc);
    add_all(alloc, &mut batch, edits)?;
    Ok(batch)
}

fn apply(alloc: Global, state: &mut StateDb, edits: &[Edit]) -> Result<(), Failed> {
    let batch = batch_of(alloc, edits)?;
    Ok(state.apply(&batch)?)
}

fn keys_of(alloc: Global, edits: &[Edit]) -> Result<Vec<StateKey<'static>>, Failed> {
    let mut keys = Vec::new(alloc);
    for &(namespace, at, _) in edits {
        keys.push(StateKey::new(&name(namespace)?, &key(at)?))?;
    }
    Ok(keys)
}

// Where the rows of these keys are known.
fn is_spelled_knowing(
    alloc: Global,
    state: &StateDb,
    keys: &[StateKey<'_>],
    edits: &[Edit],
    bytes: &[u8],
) -> Result<bool, Failed> {
    let batch = batch_of(alloc, edits)?;
    let found = state.rows_of(alloc, keys)?;
    let spelled = state.update_bytes(&batch, keys, &found)?;
    Ok(spelled.as_slice() == bytes)
}

// No row is known; all are, of keys in their order, and as they were given; the first one is, and the last.
fn is_spelled_in(
    alloc: Global,
    state: &StateDb,
    edits: &[Edit],
    bytes: &[u8],
) -> Result<bool, Failed> {
    let given = keys_of(alloc, edits)?;
    let given = given.as_slice();
    let mut ordered = keys_of(alloc, edits)?;
    ordered.sort_unstable();
    let one = given.len().min(1);
    Ok(
        is_spelled_knowing(alloc, state, &[], edits, bytes)?
            && is_spelled_knowing(alloc, state, ordered.as_slice(), edits, bytes)?
            && is_spelled_knowing(alloc, state, given, edits, bytes)?
            && is_spelled_knowing(alloc, state, &given[..one], edits, bytes)?
            && is_spelled_knowing(alloc, state, &given[given.len() - one..], edits, bytes)?,
    )
}

fn is_spelled(
    alloc: Global,
    before: &[Edit],
    edits: &[Edit],
    bytes: &[u8],
) -> Result<bool, Failed> {
    let mut state = StateDb::new(alloc);
    apply(alloc, &mut state, before)?;
    is_spelled_in(alloc, &state, edits, bytes)
}

#[test]
fn rows_that_differ(rt: HostRuntime) -> Result<(), Failed> {
    for &(case, before, edits, bytes) in cases() {
        assert!(rt; is_spelled(rt.alloc(), before, edits, bytes)?, "{case}");
    }
    Ok(())
}
