//! Whether answers are the same.

use query::Reply;
use rules::{CommittedBlock, HistoryEntry, KeyedRow, Row};
use std::alloc::{AllocError, Global};
use test_support::Failed;
use values::Part;
use world::World;

/// Whether a reply is of this world's height.
pub fn is_of<A>(reply: &Reply<A>, world: &World) -> bool {
    reply.height == world.height()
        && reply.header_hash == world.header_hash()
        && reply.commit_hash == world.commit_hash()
}

fn is_same_value(one: &Option<Part>, other: &Option<Part>) -> bool {
    match (one, other) {
        (None, None) => true,
        (Some(one), Some(other)) => one.as_slice() == other.as_slice(),
        _ => false,
    }
}

fn has_same_policy(alloc: Global, one: &Row, other: &Row) -> Result<bool, AllocError> {
    Ok(match (&one.policy, &other.policy) {
        (None, None) => true,
        (Some(one), Some(other)) => {
            one.get().text(alloc)?.as_str() == other.get().text(alloc)?.as_str()
        }
        _ => false,
    })
}

/// Whether value, version and policy are the same.
pub fn is_same_row(alloc: Global, one: &Row, other: &Row) -> Result<bool, AllocError> {
    Ok(
        one.version == other.version
            && one.value.as_slice() == other.value.as_slice()
            && has_same_policy(alloc, one, other)?,
    )
}

/// Whether key and row are the same.
pub fn is_same_keyed_row(
    alloc: Global,
    one: &KeyedRow,
    other: &KeyedRow,
) -> Result<bool, AllocError> {
    Ok(
        one.namespace().is_same(&other.namespace())
            && one.key().is_same(&other.key())
            && is_same_row(alloc, one.row(), other.row())?,
    )
}

/// Whether version, id and value are the same.
pub fn is_same_entry(one: &HistoryEntry, other: &HistoryEntry) -> bool {
    one.version == other.version && one.id == other.id && is_same_value(&one.value, &other.value)
}

/// Whether bytes, hashes and flags are the same.
pub fn is_same_block(one: &CommittedBlock, other: &CommittedBlock) -> bool {
    one.bytes.get().is_same(other.bytes.get())
        && one.header_hash == other.header_hash
        && one.commit_hash == other.commit_hash
        && one.flags.as_slice() == other.flags.as_slice()
}
