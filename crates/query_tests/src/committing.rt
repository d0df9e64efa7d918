//! A committer answers and publishes what a ledger does on one thread, whatever its workers, their order, and what is refused
//! between its blocks.

use crate::asking::{check_blocks, check_definition, check_key, check_range, check_use};
use crate::at_random::{AtRandom, add_next};
use crate::blocks::configuration;
use crate::opening::opened;
use crate::story::Story;
use block::BlockVersion;
use commit::{Accepted, Committer, NotCommitted, OpenFault, QueryHandle, Receipt, Refused};
use gates::{Gate, Open, Phase, Reverse};
use rules::NewUse;
use std::alloc::{AllocError, Global};
use std::sync::Wait;
use std::thread::Threads;
use test_support::{Failed, Meeting, Yielding, check};
use world::World;

static KEYS: [&[u8]; 5] = [b"a", b"b", b"c", b"d", b"e"];

/// What the blocks of a course are.
#[derive(Clone, Copy)]
pub enum Blocks {
    AtRandom(AtRandom),
    /// Of so many writes, each of another key.
    OfWrites(u32),
}

/// How a story goes on, and how its blocks are handed in.
#[derive(Clone, Copy)]
pub struct Course {
    /// So often blocks are handed in, and all is asked behind them:
    pub times: u64,
    /// so many each time, but for spoiled ones,
    pub blocks: u64,
    pub kind: Blocks,
    /// all at once, or else one by one.
    pub is_run: bool,
}

fn is_same(answer: &Result<Receipt, NotCommitted>, of_ledger: &Result<Accepted, Refused>) -> bool {
    match (answer, of_ledger) {
        (Ok(receipt), Ok(accepted)) => {
            receipt.number == accepted.number
                && receipt.height == accepted.number.wrapping_add(1)
                && receipt.header_hash == accepted.header_hash
                && receipt.commit_hash == accepted.commit_hash
                && receipt.flags.as_slice() == accepted.flags.as_slice()
        }
        (Err(NotCommitted::Refused(refused)), Err(of_ledger)) => refused == of_ledger,
        _ => false,
    }
}

/// Whether a committer answered as the ledger did.
pub fn are_same(
    answers: &[Result<Receipt, NotCommitted>],
    of_ledger: &[Result<Accepted, Refused>],
) -> bool {
    for (answer, of_ledger) in answers.iter().zip(of_ledger) {
        if !is_same(answer, of_ledger) {
            return false;
        }
    }
    answers.len() == of_ledger.len()
}

// Whether this block is answered as the ledger answered it.
fn is_answered<R: Threads + Wait + Sync, G: Gate + Sync>(
    rt: &R,
    committer: &mut Committer,
    story: &Story,
    number: usize,
    gate: &G,
) -> bool {
    let answer = committer.submit(rt, story.bytes(number), story.drafter.keys(), gate);
    match story.answers.get(number) {
        Some(of_ledger) => is_same(&answer, of_ledger) && committer.gathered() == 0,
        None => false,
    }
}

// Whether all from this one on, handed in one by one, are answered as the ledger answered them.
fn are_answered<R: Threads + Wait + Sync, G: Gate + Sync>(
    rt: &R,
    committer: &mut Committer,
    story: &Story,
    start: usize,
    gate: &G,
) -> bool {
    for number in start..story.blocks.len() {
        if !is_answered(rt, committer, story, number, gate) {
            return false;
        }
    }
    true
}

// Whether all from this one on, handed in at once, are answered as the ledger answered them.
fn are_answered_at_once<R: Threads + Wait + Sync, G: Gate + Sync>(
    rt: &R,
    committer: &mut Committer,
    story: &Story,
    start: usize,
    gate: &G,
) -> bool {
    let of_ledger = story.answers.get(start..).unwrap_or(&[]);
    match committer.run(rt, story.blocks_from(start), story.drafter.keys(), gate) {
        Ok(answers) => are_same(answers.as_slice(), of_ledger) && committer.gathered() == 0,
        Err(_) => false,
    }
}

fn check_keys(alloc: Global, handle: &mut QueryHandle, world: &World) -> Result<(), Failed> {
    for key in &KEYS {
        check_key(alloc, handle, world, b"cc", key)?;
    }
    let (none, middle) = (b"".as_slice(), b"b".as_slice());
    check_range(alloc, handle, world, b"cc", (middle, none), 2)?;
    check_range(alloc, handle, world, b"cc", (none, none), 9)
}

fn check_uses(handle: &mut QueryHandle, world: &World, uses: &[NewUse]) -> Result<(), Failed> {
    for used in uses {
        check_use(handle, world, &used.id)?;
    }
    Ok(())
}

fn check_published(
    alloc: Global,
    handle: &mut QueryHandle,
    world: &World,
    uses: &[NewUse],
) -> Result<(), Failed> {
    check_keys(alloc, handle, world)?;
    check_blocks(alloc, handle, world, world.height().max(3))?;
    check_definition(alloc, handle, world, b"cc")?;
    check_definition(alloc, handle, world, b"dd")?;
    check_uses(handle, world, uses)
}

fn put_write(alloc: Global, script: &mut String, block: u64, i: u32) -> Result<(), AllocError> {
    let tx = format!(in alloc;
        "tx Org1:client:c0 b{block}n{i} cc\nns cc\nwrite k{i} v\nendorse Org1:peer:p0\n"
    )?;
    script.push_str(tx.as_str())
}

// Its nonces begin with the block's number.
fn script_of_writes(alloc: Global, block: u64, count: u32) -> Result<String, AllocError> {
    let mut script = String::new(alloc);
    for i in 0..count {
        put_write(alloc, &mut script, block, i)?;
    }
    Ok(script)
}

fn add(story: &mut Story, kind: Blocks) -> Result<(), Failed> {
    match kind {
        Blocks::AtRandom(kind) => add_next(story, kind),
        Blocks::OfWrites(count) => {
            let script = script_of_writes(story.alloc, story.height(), count);
            story.take_of(BlockVersion::V1, script)
        }
    }
}

fn add_all(story: &mut Story, course: Course) -> Result<(), Failed> {
    for _ in 0..course.blocks {
        add(story, course.kind)?;
    }
    Ok(())
}

// Hands the next blocks in.
fn check_next<R: Threads + Wait + Sync, G: Gate + Sync>(
    rt: &R,
    committer: &mut Committer,
    handle: &mut QueryHandle,
    story: &mut Story,
    course: Course,
    gate: &G,
) -> Result<(), Failed> {
    let start = story.blocks.len();
    add_all(story, course)?;
    let are_answered = if course.is_run {
        are_answered_at_once(rt, committer, story, start, gate)
    } else {
        are_answered(rt, committer, story, start, gate)
    };
    check(are_answered)?;
    check_published(
        story.alloc,
        handle,
        story.drafter.world(),
        story.uses.as_slice(),
    )
}

// How many updates in it are valid.
fn check_all<R: Threads + Wait + Sync, G: Gate + Sync>(
    rt: &R,
    committer: &mut Committer,
    handle: &mut QueryHandle,
    story: &mut Story,
    course: Course,
    gate: &G,
) -> Result<usize, Failed> {
    for _ in 0..course.times {
        check_next(rt, committer, handle, story, course, gate)?;
    }
    check(story.height() == course.times.saturating_mul(course.blocks))?;
    Ok(story.updated)
}

fn check_story<R: Threads + Wait + Sync, G: Gate + Sync>(
    rt: &R,
    workers: usize,
    story: &mut Story,
    course: Course,
    gate: &G,
) -> Result<usize, Failed> {
    let (mut committer, mut handles) = opened(rt, story.alloc, workers, 1)?;
    let checked = match handles.first_mut() {
        Some(handle) => check_all(rt, &mut committer, handle, story, course, gate),
        None => Err(Failed::Missing("a handle")),
    };
    committer.close(rt);
    checked
}

// How many updates are valid in a story of this seed and course, whose blocks are answered as the ledger answers them.
fn check_seed<R: Threads + Wait + Sync, G: Gate + Sync>(
    rt: &R,
    alloc: Global,
    workers: usize,
    seed: u64,
    course: Course,
    gate: &G,
) -> Result<usize, Failed> {
    let mut story = Story::open(alloc, seed)?;
    check_story(rt, workers, &mut story, course, gate)
}

const WORKERS: [usize; 3] = [1, 2, 5];

fn check_seeds_at<R: Threads + Wait + Sync>(
    rt: &R,
    alloc: Global,
    seeds: u64,
    course: Course,
    gate: &Yielding,
) -> Result<usize, Failed> {
    let mut updated = 0usize;
    for seed in 1..=seeds {
        let workers = WORKERS[(seed % 3) as usize];
        let more = check_seed(rt, alloc, workers, seed, course, gate)?;
        updated = updated.saturating_add(more);
    }
    Ok(updated)
}

/// How many updates are valid in stories of so many seeds, whose workers yield now and then.
pub fn check_seeds<R: Threads + Wait + Sync>(
    rt: &R,
    alloc: Global,
    seeds: u64,
    course: Course,
    yields: u64,
) -> Result<usize, Failed> {
    let gate = Yielding::new(yields);
    check_seeds_at(rt, alloc, seeds, course, &gate)
}

const ONE_BY_ONE: Course = Course {
    times: 3,
    blocks: 1,
    kind: Blocks::AtRandom(AtRandom {
        before: 7,
        behind: 0,
        has_updates: false,
        is_noted: true,
    }),
    is_run: false,
};

#[test]
fn as_the_ledger(rt: HostRuntime) -> Result<(), Failed> {
    assert!(rt; check_seeds(&rt, rt.alloc(), 1_000, ONE_BY_ONE, 17)? == 0);
    Ok(())
}

/// So many blocks of so many writes, handed in once.
pub const fn of_writes(blocks: u64, count: u32, is_run: bool) -> Course {
    Course {
        times: 1,
        blocks,
        kind: Blocks::OfWrites(count),
        is_run,
    }
}

/// Wants these blocks answered as the ledger answers them.
pub fn check_writes<R: Threads + Wait + Sync, G: Gate + Sync>(
    rt: &R,
    alloc: Global,
    workers: usize,
    course: Course,
    gate: &G,
) -> Result<(), Failed> {
    check_seed(rt, alloc, workers, 0, course, gate)?;
    Ok(())
}

fn do_two_meet<R: Threads + Wait + Sync>(rt: &R, alloc: Global) -> Result<bool, Failed> {
    let gate = Meeting::of_others(1, Phase::Intake);
    // three pieces
    check_writes(rt, alloc, 2, of_writes(1, 160, false), &gate)?;
    Ok(gate.is_met())
}

#[test]
fn two_workers_meet_in_intake(rt: HostRuntime) -> Result<(), Failed> {
    assert!(rt; do_two_meet(&rt, rt.alloc())?);
    Ok(())
}

fn check_in_reverse<R: Threads + Wait + Sync>(rt: &R, alloc: Global) -> Result<(), Failed> {
    let gate = Reverse::new(alloc, 40)?;
    check_writes(rt, alloc, 2, of_writes(1, 40, false), &gate)
}

#[test]
fn checks_in_reverse(rt: HostRuntime) -> Result<(), Failed> {
    check_in_reverse(&rt, rt.alloc())
}

#[test]
fn many_workers_take_an_empty_block(rt: HostRuntime) -> Result<(), Failed> {
    check_writes(&rt, rt.alloc(), 64, of_writes(1, 0, false), &Open)?;
    check_writes(&rt, rt.alloc(), 64, of_writes(1, 3, false), &Open)
}

#[test]
fn no_blocks_have_no_answers(rt: HostRuntime) -> Result<(), Failed> {
    check_writes(&rt, rt.alloc(), 2, of_writes(0, 0, true), &Open)
}

// Why no committer is opened, or none.
fn fault_of<R: Wait>(
    rt: &R,
    alloc: Global,
    workers: usize,
    readers: usize,
) -> Result<Option<OpenFault>, Failed> {
    match Committer::open(alloc, rt, configuration(alloc)?, workers, readers) {
        Ok((committer, _handles)) => {
            committer.close(rt);
            Ok(None)
        }
        Err(fault) => Ok(Some(fault)),
    }
}

static FAULTS: [(usize, usize, Option<OpenFault>); 5] = [
    (0, 33, Some(OpenFault::Workers)),
    (65, 0, Some(OpenFault::Workers)),
    (64, 33, Some(OpenFault::Readers)),
    (64, 32, None),
    (1, 0, None),
];

fn faults() -> &'static [(usize, usize, Option<OpenFault>)] {
    &FAULTS
}

#[test]
fn what_is_opened(rt: HostRuntime) -> Result<(), Failed> {
    for &(workers, readers, fault) in faults() {
        assert!(rt; fault_of(&rt, rt.alloc(), workers, readers)? == fault);
    }
    Ok(())
}
