//! Each query, compared with what a world answers itself.

use crate::alike::{is_of, is_same_block, is_same_entry, is_same_keyed_row, is_same_row};
use crate::blocks::{bound, key, name};
use policy::Policy;
use query::{PolicyText, QueryHandle, RangeRows, Reply};
use rules::{CommittedBlock, HistoryEntry, Row};
use std::alloc::{AllocError, Global};
use test_support::{Failed, check};
use transaction::TxId;
use values::{BoundRef, KeyRef, NameRef};
use world::World;

fn check_row_reply(
    alloc: Global,
    reply: &Reply<Option<Row>>,
    world: &World,
    row: Option<&Row>,
) -> Result<(), Failed> {
    check(is_of(reply, world))?;
    match (&reply.answer, row) {
        (None, None) => Ok(()),
        (Some(one), Some(other)) => check(is_same_row(alloc, one, other)?),
        _ => Err(Failed::Unlike),
    }
}

fn check_row(
    alloc: Global,
    handle: &mut QueryHandle,
    world: &World,
    namespace: &NameRef<'_>,
    key: &KeyRef<'_>,
) -> Result<(), Failed> {
    let reply = handle.get(namespace, key)?;
    check_row_reply(alloc, &reply, world, world.row(namespace, key))
}

/// What is answered for a key of the chaincode `cc`.
pub fn row_of_cc(handle: &mut QueryHandle, at: &[u8]) -> Result<Reply<Option<Row>>, Failed> {
    let (namespace, at) = (name(b"cc")?, key(at)?);
    Ok(handle.get(&namespace, &at)?)
}

fn are_entries_alike(
    entries: &[HistoryEntry],
    world: &World,
    namespace: &NameRef<'_>,
    key: &KeyRef<'_>,
) -> Result<bool, AllocError> {
    let mut left = entries.iter();
    for entry in world.history(namespace, key) {
        match left.next() {
            Some(other) if is_same_entry(&entry.entry()?, other) => {}
            _ => return Ok(false),
        }
    }
    Ok(left.next().is_none())
}

fn check_history(
    alloc: Global,
    handle: &mut QueryHandle,
    world: &World,
    namespace: &NameRef<'_>,
    key: &KeyRef<'_>,
) -> Result<(), Failed> {
    let reply = handle.history(alloc, namespace, key)?;
    let entries = reply.answer.as_slice();
    check(is_of(&reply, world) && are_entries_alike(entries, world, namespace, key)?)
}

/// Wants row and history of a key answered alike.
pub fn check_key(
    alloc: Global,
    handle: &mut QueryHandle,
    world: &World,
    namespace: &[u8],
    at: &[u8],
) -> Result<(), Failed> {
    let (namespace, at) = (name(namespace)?, key(at)?);
    check_row(alloc, handle, world, &namespace, &at)?;
    check_history(alloc, handle, world, &namespace, &at)
}

// A range that is asked for.
#[derive(Drop)]
struct Range<'a> {
    namespace: NameRef<'a>,
    start: BoundRef<'a>,
    end: BoundRef<'a>,
    limit: usize,
}

fn are_rows_alike(
    alloc: Global,
    answer: &RangeRows,
    world: &World,
    range: &Range<'_>,
) -> Result<bool, AllocError> {
    let mut left = answer.rows.as_slice().iter();
    for other in world
        .state()
        .range(&range.namespace, &range.start, &range.end)
    {
        match left.next() {
            Some(one) if is_same_keyed_row(alloc, one, other)? => {}
            Some(_) => return Ok(false),
            None => return Ok(answer.more && answer.rows.len() == range.limit),
        }
    }
    Ok(!answer.more && left.next().is_none() && answer.rows.len() <= range.limit)
}

fn check_range_reply(
    alloc: Global,
    reply: &Reply<RangeRows>,
    world: &World,
    range: &Range<'_>,
) -> Result<(), Failed> {
    check(is_of(reply, world))?;
    check(are_rows_alike(alloc, &reply.answer, world, range)?)
}

fn check_range_of(
    alloc: Global,
    handle: &mut QueryHandle,
    world: &World,
    range: &Range<'_>,
) -> Result<(), Failed> {
    let reply = handle.range(
        alloc,
        &range.namespace,
        &range.start,
        &range.end,
        range.limit,
    )?;
    check_range_reply(alloc, &reply, world, range)
}

/// Wants a range answered alike.
pub fn check_range(
    alloc: Global,
    handle: &mut QueryHandle,
    world: &World,
    namespace: &[u8],
    (start, end): (&[u8], &[u8]),
    limit: usize,
) -> Result<(), Failed> {
    let range = Range {
        namespace: name(namespace)?,
        start: bound(start)?,
        end: bound(end)?,
        limit,
    };
    check_range_of(alloc, handle, world, &range)
}

fn is_same_answer(kept: &Option<CommittedBlock>, block: Option<&CommittedBlock>) -> bool {
    match (kept, block) {
        (None, None) => true,
        (Some(one), Some(other)) => is_same_block(one, other),
        _ => false,
    }
}

/// Wants the block of a number answered alike.
pub fn check_block(
    alloc: Global,
    handle: &mut QueryHandle,
    world: &World,
    number: u64,
) -> Result<(), Failed> {
    let reply = handle.block(alloc, number)?;
    check(is_of(&reply, world) && is_same_answer(&reply.answer, world.block(number)))
}

/// Wants the first use of an id answered alike.
pub fn check_use(handle: &mut QueryHandle, world: &World, id: &TxId) -> Result<(), Failed> {
    let reply = handle.flag_of(id)?;
    check(is_of(&reply, world) && reply.answer == world.flag_of(id))
}

fn has_text(
    alloc: Global,
    answer: &Option<PolicyText>,
    policy: Option<&Policy>,
) -> Result<bool, AllocError> {
    match (answer, policy) {
        (None, None) => Ok(true),
        (Some(text), Some(policy)) => Ok(text.as_str() == policy.text(alloc)?.as_str()),
        _ => Ok(false),
    }
}

/// Wants a chaincode's policy answered alike.
pub fn check_definition(
    alloc: Global,
    handle: &mut QueryHandle,
    world: &World,
    chaincode: &[u8],
) -> Result<(), Failed> {
    let chaincode = name(chaincode)?;
    let reply = handle.definition(alloc, &chaincode)?;
    let policy = world.definitions().of(&chaincode);
    check(is_of(&reply, world) && has_text(alloc, &reply.answer, policy)?)
}

/// Wants the height answered alike.
pub fn check_height(handle: &mut QueryHandle, world: &World) -> Result<(), Failed> {
    let reply = handle.height()?;
    check(is_of(&reply, world) && reply.answer == world.height())
}

/// Wants the blocks up to this number, and the height, answered alike.
pub fn check_blocks(
    alloc: Global,
    handle: &mut QueryHandle,
    world: &World,
    last: u64,
) -> Result<(), Failed> {
    for number in 0..=last {
        check_block(alloc, handle, world, number)?;
    }
    check_height(handle, world)
}
