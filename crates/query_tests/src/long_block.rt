//! A block of 1,000 transactions, each of which reads a key that the one before it writes, by committers whose checks go in
//! reverse. A handle is told of its receipt; another one asks all the while in a thread of its own.
ghost use Rattle.std.specs.Prelude.{◌≡◌, All, IfOk};

use crate::opening::{opened, submit_next};
use crate::story::Story;
use block::BlockVersion;
use commit::{Committer, Flag, QueryFault, QueryHandle, Receipt};
use gates::{Open, Reverse};
use std::alloc::{AllocError, Global};
use std::sync::Wait;
use std::thread;
use std::thread::Threads;
use test_support::{Failed, chain_flags, chain_script, check, keys_script};

const LENGTH: u32 = 1000;

/// How often the handle that nobody tells asks at most.
const TURNS: u32 = 2_000_000;

fn are_numbered(flags: &[Flag], numbers: &[u8]) -> bool {
    for (flag, number) in flags.iter().zip(numbers) {
        if flag.number() != *number {
            return false;
        }
    }
    flags.len() == numbers.len()
}

// Whether these are the flags of the long block.
fn are_of_chain(alloc: Global, flags: &[Flag]) -> Result<bool, AllocError> {
    let numbers = chain_flags(alloc, LENGTH)?;
    Ok(are_numbered(flags, numbers.as_slice()))
}

// Asks until the height is 2, and once more: it is 0, 1 or 2, and never less than before.
fn never_goes_back(untold: &mut QueryHandle) -> Result<bool, QueryFault> {
    let mut least = 0;
    for _ in 0..TURNS {
        let reply = untold.height()?;
        if reply.answer != reply.height || reply.answer < least || reply.answer > 2 {
            return Ok(false);
        }
        if least == 2 {
            break;
        }
        least = reply.answer;
        thread::yield_now();
    }
    Ok(true)
}

// Whether a ledger found this commit hash for the block of this number.
fn has_hash_of(story: &Story, number: usize, receipt: &Receipt) -> bool {
    match story.answers.get(number) {
        Some(Ok(accepted)) => accepted.commit_hash == receipt.commit_hash,
        _ => false,
    }
}

// Takes the block of the keys, and then the long one.
fn submit_both<R: Threads + Wait + Sync>(
    rt: &R,
    committer: &mut Committer,
    story: &Story,
    reverse: &Reverse,
) -> Result<Receipt, Failed>
    ensures { IfOk result (λ r. r.front.book ≡ committer.old.book) }
{
    let keys = story.drafter.keys();
    let first = submit_next(rt, committer, keys, story.bytes(0), &Open)?;
    check(has_hash_of(story, 0, &first))?;
    submit_next(rt, committer, keys, story.bytes(1), reverse)
}

// Whether the long block has its flags and its commit hash, and a handle that is told of it answers its height.
fn is_told<R: Threads + Wait + Sync>(
    rt: &R,
    committer: &mut Committer,
    told: &mut QueryHandle,
    story: &Story,
    reverse: &Reverse,
) -> Result<bool, Failed>
    requires { told.old.book ≡ committer.old.book }
{
    let receipt = submit_both(rt, committer, story, reverse)?;
    told.learn(&receipt);
    let reply = told.height()?;
    Ok(
        (reply.height, reply.answer) == (2, 2)
            && has_hash_of(story, 1, &receipt)
            && are_of_chain(story.alloc, receipt.flags.as_slice())?,
    )
}

fn in_two_threads<R: Threads + Wait + Sync>(
    rt: &R,
    committer: &mut Committer,
    told: &mut QueryHandle,
    untold: &mut QueryHandle,
    story: &Story,
    reverse: &Reverse,
) -> Result<bool, Failed>
    requires { told.old.book ≡ committer.old.book }
{
    let (goes_on, is_told) = thread::join(
        rt,
        || never_goes_back(untold),
        ||
            requires { told.now.book ≡ committer.now.book }
        { is_told(rt, committer, told, story, reverse) },
    );
    Ok(is_told? && goes_on?)
}

fn with_handles<R: Threads + Wait + Sync>(
    rt: &R,
    committer: &mut Committer,
    handles: &mut Vec<QueryHandle>,
    story: &Story,
    reverse: &Reverse,
) -> Result<bool, Failed>
    requires { All (λ h. h.book ≡ committer.old.book) handles.old.items }
{
    match (handles.pop(), handles.pop()) {
        (Some(mut told), Some(mut untold)) => {
            in_two_threads(rt, committer, &mut told, &mut untold, story, reverse)
        }
        _ => Err(Failed::Missing("two handles")),
    }
}

fn is_so_by<R: Threads + Wait + Sync>(
    rt: &R,
    workers: usize,
    story: &Story,
    reverse: &Reverse,
) -> Result<bool, Failed> {
    let (mut committer, mut handles) = opened(rt, story.alloc, workers, 2)?;
    let is_so = with_handles(rt, &mut committer, &mut handles, story, reverse);
    committer.close(rt);
    is_so
}

fn is_so_in_reverse<R: Threads + Wait + Sync>(
    rt: &R,
    workers: usize,
    story: &mut Story,
) -> Result<bool, Failed> {
    add_both(story)?;
    let reverse = Reverse::new(story.alloc, LENGTH)?;
    is_so_by(rt, workers, story, &reverse)
}

fn add_both(story: &mut Story) -> Result<(), Failed> {
    story.take_of(BlockVersion::V1, keys_script(story.alloc, LENGTH))?;
    story.take_of(BlockVersion::V1, chain_script(story.alloc, LENGTH))
}

fn is_so<R: Threads + Wait + Sync>(rt: &R, alloc: Global, workers: usize) -> Result<bool, Failed> {
    let mut story = Story::open(alloc, 0)?;
    is_so_in_reverse(rt, workers, &mut story)
}

#[test]
fn every_second_one_is_stale_by_one_worker(rt: HostRuntime) -> Result<(), Failed> {
    assert!(rt; is_so(&rt, rt.alloc(), 1)?);
    Ok(())
}

#[test]
fn every_second_one_is_stale_by_two_workers(rt: HostRuntime) -> Result<(), Failed> {
    assert!(rt; is_so(&rt, rt.alloc(), 2)?);
    Ok(())
}

#[test]
fn every_second_one_is_stale_by_many_workers(rt: HostRuntime) -> Result<(), Failed> {
    assert!(rt; is_so(&rt, rt.alloc(), 64)?);
    Ok(())
}
