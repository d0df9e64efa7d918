//! Behind the end of its committer a handle gets no entry, and what it was answered before stays.

use crate::blocks::{bound, key, name};
use crate::opening::{opened, submit_next};
use crate::story::Story;
use block::BlockVersion;
use commit::{CommittedBlock, Committer, QueryFault, QueryHandle, Reply};
use gates::Open;
use header_hash::tx_id;
use rules::{HistoryEntry, Row};
use std::alloc::{AllocError, Global};
use std::sync::Wait;
use std::thread::Threads;
use test_support::Failed;
use values::Items;

const SCRIPT: &str =
    "tx Org1:client:c0 a cc\nns cc\nwrite k v\npolicy k 'Org1.peer'\nendorse Org1:peer:p0\n";

/// The bytes of the identity `Org1:client:c0`.
const CREATOR: &[u8] = b"\x04Org1\x01\x02c0";

type Asked<A> = Result<Reply<A>, QueryFault>;

/// What was answered before the end.
#[derive(Drop)]
struct Seen {
    row: Asked<Option<Row>>,
    entries: Asked<Items<HistoryEntry>>,
    block: Asked<Option<CommittedBlock>>,
}

fn asked(alloc: Global, handle: &mut QueryHandle) -> Result<Seen, Failed> {
    let (namespace, at) = (name(b"cc")?, key(b"k")?);
    Ok(Seen {
        row: handle.get(&namespace, &at),
        entries: handle.history(alloc, &namespace, &at),
        block: handle.block(alloc, 0),
    })
}

fn is_v(row: &Row) -> bool {
    row.value.as_slice() == b"v".as_slice() && (row.version.block, row.version.tx) == (0, 0)
}

fn has_policy(alloc: Global, row: &Row) -> Result<bool, AllocError> {
    match &row.policy {
        Some(policy) => Ok(policy.get().text(alloc)?.as_str() == "'Org1.peer'"),
        None => Ok(false),
    }
}

fn is_row(alloc: Global, asked: &Asked<Option<Row>>) -> Result<bool, AllocError> {
    let Ok(reply) = asked else {
        return Ok(false);
    };
    match &reply.answer {
        Some(row) if reply.height == 1 && is_v(row) => has_policy(alloc, row),
        _ => Ok(false),
    }
}

fn is_entry(entry: &HistoryEntry) -> bool {
    let Some(value) = &entry.value else {
        return false;
    };
    (entry.version.block, entry.version.tx) == (0, 0)
        && entry.id == tx_id(b"a", CREATOR)
        && value.as_slice() == b"v".as_slice()
}

fn is_history(asked: &Asked<Items<HistoryEntry>>) -> bool {
    let Ok(reply) = asked else {
        return false;
    };
    match reply.answer.as_slice() {
        [entry] => reply.height == 1 && is_entry(entry),
        _ => false,
    }
}

fn is_block(asked: &Asked<Option<CommittedBlock>>, bytes: &[u8]) -> bool {
    let Ok(reply) = asked else {
        return false;
    };
    match &reply.answer {
        Some(kept) => reply.height == 1 && kept.bytes.get().as_slice() == bytes,
        None => false,
    }
}

// Whether all of it is still what the script wrote.
fn stays(story: &Story, seen: &Seen) -> Result<bool, AllocError> {
    if !is_history(&seen.entries) || !is_block(&seen.block, story.bytes(0)) {
        return Ok(false);
    }
    is_row(story.alloc, &seen.row)
}

fn is_no_entry<A: Drop>(asked: Asked<A>) -> bool {
    asked.err() == Some(QueryFault::NoEntry)
}

// Whether the queries of a key have no entry.
fn has_no_entry_of_keys(alloc: Global, handle: &mut QueryHandle) -> Result<bool, Failed> {
    let (namespace, at, none) = (name(b"cc")?, key(b"k")?, bound(b"")?);
    Ok(
        is_no_entry(handle.get(&namespace, &at))
            && is_no_entry(handle.history(alloc, &namespace, &at))
            && is_no_entry(handle.range(alloc, &namespace, &none, &none, 9)),
    )
}

fn has_no_entry(alloc: Global, handle: &mut QueryHandle) -> bool {
    is_no_entry(handle.block(alloc, 0))
        && is_no_entry(handle.flag_of(&tx_id(b"a", CREATOR)))
        && is_no_entry(handle.height())
}

// Twice, since the first time might have changed the handle.
fn has_no_entries(alloc: Global, handles: &mut Vec<QueryHandle>) -> Result<bool, Failed> {
    let Some(handle) = handles.first_mut() else {
        return Err(Failed::Missing("a handle"));
    };
    for _ in 0..2 {
        if !has_no_entry_of_keys(alloc, handle)? || !has_no_entry(alloc, handle) {
            return Ok(false);
        }
    }
    Ok(true)
}

// What the handle of a committer is answered behind the block.
fn seen_by<R: Threads + Wait + Sync>(
    rt: &R,
    committer: &mut Committer,
    handles: &mut Vec<QueryHandle>,
    story: &Story,
) -> Result<Seen, Failed> {
    submit_next(rt, committer, story.drafter.keys(), story.bytes(0), &Open)?;
    match handles.first_mut() {
        Some(handle) => asked(story.alloc, handle),
        None => Err(Failed::Missing("a handle")),
    }
}

fn is_so_of(
    story: &Story,
    seen: &Result<Seen, Failed>,
    handles: &mut Vec<QueryHandle>,
) -> Result<bool, Failed> {
    if !has_no_entries(story.alloc, handles)? {
        return Ok(false);
    }
    match seen {
        Ok(seen) => Ok(stays(story, seen)?),
        Err(failed) => Err(*failed),
    }
}

/// How a committer ends.
#[derive(Clone, Copy)]
enum End {
    Close,
    Leak,
}

impl End {
    fn of<R: Wait>(self, rt: &R, committer: Committer) {
        match self {
            End::Close => committer.close(rt),
            End::Leak => committer.leak(rt),
        };
    }
}

fn is_so_by<R: Threads + Wait + Sync>(rt: &R, story: &mut Story, end: End) -> Result<bool, Failed> {
    story.take(BlockVersion::V1, SCRIPT)?;
    let (mut committer, mut handles) = opened(rt, story.alloc, 2, 1)?;
    let seen = seen_by(rt, &mut committer, &mut handles, story);
    end.of(rt, committer);
    is_so_of(story, &seen, &mut handles)
}

fn is_so<R: Threads + Wait + Sync>(rt: &R, alloc: Global, end: End) -> Result<bool, Failed> {
    let mut story = Story::open(alloc, 0)?;
    is_so_by(rt, &mut story, end)
}

#[test]
fn no_entry_behind_the_end(rt: HostRuntime) -> Result<(), Failed> {
    for end in [End::Close, End::Leak] {
        assert!(rt; is_so(&rt, rt.alloc(), end)?);
    }
    Ok(())
}
