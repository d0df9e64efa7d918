//! 600 rows that one transaction writes, and another one once more, asked of a handle in ranges, and what is left once a third deletes
//! some. They are so long that each block's commit hash is made beside other work.

use crate::blocks::{bound, name};
use crate::committing::are_same;
use crate::opening::{opened, submit_next};
use crate::story::Story;
use block::BlockVersion;
use commit::{Accepted, Committer, Flag, QueryHandle, Refused};
use gates::Open;
use rules::KeyedRow;
use std::alloc::{AllocError, Global};
use std::sync::Wait;
use std::thread::Threads;
use test_support::Failed;

const ROWS: u32 = 600;

const DELETED: u32 = 256;

// With a blank before it, as a line has it.
const VALUE: &str =
    " vvvvvvvvvvvvvvvvvvvvvvvvvvvvvvvvvvvvvvvvvvvvvvvvvvvvvvvvvvvvvvvvvvvvvvvvvvvvvvvvvvvvvvvvvvvvvvvvvvvv";

fn put_line(
    alloc: Global,
    script: &mut String,
    word: &str,
    key: u32,
    rest: &str,
) -> Result<(), AllocError> {
    let line = format!(in alloc; "{word} k{key:03}{rest}\n")?;
    script.push_str(line.as_str())
}

// A script of one transaction with this nonce, which has a line of this word for the keys k000 to before this one.
fn script_of(
    alloc: Global,
    nonce: &str,
    word: &str,
    count: u32,
    rest: &str,
) -> Result<String, AllocError> {
    let mut script = format!(in alloc;
        "tx Org1:client:c0 {nonce} cc\nendorse Org1:peer:p0\nns cc\n"
    )?;
    for key in 0..count {
        put_line(alloc, &mut script, word, key, rest)?;
    }
    Ok(script)
}

/// A start, an end and a limit; and the first row that is to be answered, how many, and whether more are left.
type Ask = (&'static [u8], &'static [u8], usize, usize, usize, bool);

static BEHIND_WRITES: [Ask; 5] = [
    (b"", b"", 300, 0, 300, true),
    (b"k300", b"", 300, 300, 300, false),
    (b"k250", b"k260", 300, 250, 10, false),
    (b"", b"", 600, 0, 600, false),
    (b"", b"", 599, 0, 599, true),
];

fn behind_writes() -> &'static [Ask] {
    &BEHIND_WRITES
}

static BEHIND_DELETES: [Ask; 3] = [
    (b"", b"", 300, 256, 300, true),
    (b"", b"", 344, 256, 344, false),
    (b"", b"k256", 300, 256, 0, false),
];

fn behind_deletes() -> &'static [Ask] {
    &BEHIND_DELETES
}

fn digit(number: usize) -> u8 {
    b'0' + (number % 10) as u8
}

fn is_row(row: &KeyedRow, number: usize, block: u64) -> bool {
    let key = [b'k', digit(number / 100), digit(number / 10), digit(number)];
    let version = row.row().version;
    row.key().as_slice() == key.as_slice()
        && row.row().value.as_slice() == &VALUE.as_bytes()[1..]
        && (version.block, version.tx) == (block, 0)
}

fn are_rows(rows: &[KeyedRow], first: usize, block: u64) -> bool {
    for (place, row) in rows.iter().enumerate() {
        if !is_row(row, place.wrapping_add(first), block) {
            return false;
        }
    }
    true
}

// Of rows that this block wrote.
fn is_answered(
    alloc: Global,
    handle: &mut QueryHandle,
    ask: &Ask,
    block: u64,
) -> Result<bool, Failed> {
    let &(start, end, limit, first, count, more) = ask;
    let (namespace, start, end) = (name(b"cc")?, bound(start)?, bound(end)?);
    let reply = handle.range(alloc, &namespace, &start, &end, limit)?;
    let rows = reply.answer.rows.as_slice();
    Ok(are_rows(rows, first, block) && rows.len() == count && reply.answer.more == more)
}

fn are_answered(
    alloc: Global,
    handle: &mut QueryHandle,
    asks: &[Ask],
    block: u64,
) -> Result<bool, Failed> {
    for ask in asks {
        if !is_answered(alloc, handle, ask, block)? {
            return Ok(false);
        }
    }
    Ok(true)
}

// Whether the block is committed, and its one transaction valid.
fn is_valid<R: Threads + Wait + Sync>(
    rt: &R,
    committer: &mut Committer,
    story: &Story,
    number: usize,
) -> Result<bool, Failed> {
    let keys = story.drafter.keys();
    let receipt = submit_next(rt, committer, keys, story.bytes(number), &Open)?;
    Ok(receipt.flags.as_slice() == [Flag::Valid].as_slice())
}

// Whether the block of this number is valid, and all of this is answered behind it, of rows that a block wrote.
fn is_answered_behind<R: Threads + Wait + Sync>(
    rt: &R,
    committer: &mut Committer,
    handle: &mut QueryHandle,
    story: &Story,
    number: usize,
    (asks, written_in): (&[Ask], u64),
) -> Result<bool, Failed> {
    if !is_valid(rt, committer, story, number)? {
        return Ok(false);
    }
    are_answered(story.alloc, handle, asks, written_in)
}

fn is_so_of<R: Threads + Wait + Sync>(
    rt: &R,
    committer: &mut Committer,
    handles: &mut Vec<QueryHandle>,
    story: &Story,
) -> Result<bool, Failed> {
    let Some(handle) = handles.first_mut() else {
        return Err(Failed::Missing("a handle"));
    };
    if !is_answered_behind(rt, committer, handle, story, 0, (behind_writes(), 0))? {
        return Ok(false);
    }
    if !is_answered_behind(rt, committer, handle, story, 1, (behind_writes(), 1))? {
        return Ok(false);
    }
    is_answered_behind(rt, committer, handle, story, 2, (behind_deletes(), 1))
}

fn is_so_by<R: Threads + Wait + Sync>(rt: &R, story: &mut Story) -> Result<bool, Failed> {
    add_all(story)?;
    let (mut committer, mut handles) = opened(rt, story.alloc, 2, 1)?;
    let is_so = is_so_of(rt, &mut committer, &mut handles, story);
    committer.close(rt);
    is_so
}

fn add(story: &mut Story, nonce: &str, word: &str, count: u32, rest: &str) -> Result<(), Failed> {
    let script = script_of(story.alloc, nonce, word, count, rest);
    story.take_of(BlockVersion::V1, script)
}

fn add_all(story: &mut Story) -> Result<(), Failed> {
    add(story, "first", "write", ROWS, VALUE)?;
    add(story, "again", "write", ROWS, VALUE)?;
    add(story, "last", "delete", DELETED, "")
}

fn is_so<R: Threads + Wait + Sync>(rt: &R, alloc: Global) -> Result<bool, Failed> {
    let mut story = Story::open(alloc, 0)?;
    is_so_by(rt, &mut story)
}

#[test]
fn ranges_of_600_rows(rt: HostRuntime) -> Result<(), Failed> {
    assert!(rt; is_so(&rt, rt.alloc())?);
    Ok(())
}

// The second block has the id of the first one.
fn add_with_a_used_id(story: &mut Story) -> Result<(), Failed> {
    add(story, "first", "write", ROWS, VALUE)?;
    add(story, "first", "write", ROWS, VALUE)?;
    add(story, "again", "write", ROWS, VALUE)?;
    add(story, "last", "delete", DELETED, "")
}

fn is_used(answer: Option<&Result<Accepted, Refused>>) -> bool {
    match answer {
        Some(Ok(accepted)) => accepted.flags.as_slice() == [Flag::DuplicateTxId].as_slice(),
        _ => false,
    }
}

fn are_answered_as_by_ledger<R: Threads + Wait + Sync>(
    rt: &R,
    committer: &mut Committer,
    story: &Story,
) -> Result<bool, Failed> {
    let answers = committer.run(rt, story.blocks_from(0), story.drafter.keys(), &Open)?;
    Ok(are_same(answers.as_slice(), story.answers.as_slice()) && is_used(story.answers.get(1)))
}

fn is_tentative_by<R: Threads + Wait + Sync>(rt: &R, story: &mut Story) -> Result<bool, Failed> {
    add_with_a_used_id(story)?;
    let (mut committer, _handles) = opened(rt, story.alloc, 2, 0)?;
    let is_so = are_answered_as_by_ledger(rt, &mut committer, story);
    committer.close(rt);
    is_so
}

fn is_tentative<R: Threads + Wait + Sync>(rt: &R, alloc: Global) -> Result<bool, Failed> {
    let mut story = Story::open(alloc, 0)?;
    is_tentative_by(rt, &mut story)
}

// In this run the second block is tentative while the commit hash of the first, whose id it has, is made.
#[test]
fn a_tentative_block_has_a_used_id(rt: HostRuntime) -> Result<(), Failed> {
    assert!(rt; is_tentative(&rt, rt.alloc())?);
    Ok(())
}
