//! What workers do at once, and what they try again.

use crate::building::{Ground, Keys};
use crate::holding::Late;
use check_workers::{Checked, check_all};
use gates::{Gate, Phase, Reverse};
use key_chains::Job;
use rules::Flag;
use std::alloc::Global;
use std::sync::Wait;
use std::thread::Threads;
use test_support::{Failed, Meeting};

/// What holds workers back.
#[derive(Clone, Copy)]
enum Held {
    // the first who enters a phase waits for so many others
    ForOthers(u32, Phase),
    // the first check of the first transaction waits for all others
    Late,
    // each check waits for the same one of the next transaction
    Reverse,
}

/// So many transactions, which touch the same keys or different ones, and so many workers.
#[derive(Clone, Copy)]
struct Case {
    held: Held,
    count: u32,
    keys: Keys,
    workers: usize,
}

// Where keys are of the next one, each second transaction is valid, each other one stale.
fn flag_of(keys: Keys, i: usize) -> Flag {
    match keys {
        Keys::OfNext if i % 2 == 1 => Flag::MvccReadConflict,
        _ => Flag::Valid,
    }
}

fn are_flags_of(flags: &[Flag], keys: Keys) -> bool {
    for (i, flag) in flags.iter().enumerate() {
        if *flag != flag_of(keys, i) {
            return false;
        }
    }
    true
}

// Whether the flags are those of a block of so many, which touch the same keys or different ones, and workers decided all.
fn are_right(checked: &Checked, count: u32, keys: Keys) -> bool {
    let flags = checked.flags.as_slice();
    are_flags_of(flags, keys) && checked.gathered == 0 && flags.len() == count as usize
}

fn is_checked<R: Threads + Wait + Sync, G: Gate + Sync>(
    rt: &R,
    alloc: Global,
    job: &Job<'_, '_>,
    case: Case,
    gate: &G,
) -> Result<bool, Failed> {
    if case.workers < 1 || case.workers > 64 {
        return Err(Failed::Missing("workers"));
    }
    let checked = check_all(rt, alloc, job, case.workers, gate)?;
    Ok(are_right(&checked, case.count, case.keys))
}

fn do_others_come<R: Threads + Wait + Sync>(
    rt: &R,
    alloc: Global,
    job: &Job<'_, '_>,
    case: Case,
    gate: &Meeting,
) -> Result<bool, Failed> {
    let is_checked = is_checked(rt, alloc, job, case, gate)?;
    Ok(is_checked && gate.is_met())
}

fn is_tried_again<R: Threads + Wait + Sync>(
    rt: &R,
    alloc: Global,
    job: &Job<'_, '_>,
    case: Case,
    gate: &Late,
) -> Result<bool, Failed> {
    let is_checked = is_checked(rt, alloc, job, case, gate)?;
    Ok(is_checked && gate.is_tried_again())
}

fn is_reversed<R: Threads + Wait + Sync>(
    rt: &R,
    alloc: Global,
    job: &Job<'_, '_>,
    case: Case,
) -> Result<bool, Failed> {
    let gate = Reverse::new(alloc, case.count)?;
    is_checked(rt, alloc, job, case, &gate)
}

fn is_job_checked<R: Threads + Wait + Sync>(
    rt: &R,
    alloc: Global,
    job: &Job<'_, '_>,
    case: Case,
) -> Result<bool, Failed> {
    match case.held {
        Held::ForOthers(others, phase) => {
            do_others_come(rt, alloc, job, case, &Meeting::of_others(others, phase))
        }
        Held::Late => is_tried_again(rt, alloc, job, case, &Late::new()),
        Held::Reverse => is_reversed(rt, alloc, job, case),
    }
}

fn is_ground_checked<R: Threads + Wait + Sync>(
    rt: &R,
    alloc: Global,
    ground: &Ground,
    case: Case,
) -> Result<bool, Failed> {
    let job = ground.job(alloc)?;
    is_job_checked(rt, alloc, &job, case)
}

fn is_block_checked<R: Threads + Wait + Sync>(
    rt: &R,
    alloc: Global,
    case: Case,
) -> Result<bool, Failed> {
    let ground = Ground::of_links(alloc, case.count, case.keys)?;
    is_ground_checked(rt, alloc, &ground, case)
}

fn cases() -> &'static [(&'static str, Case)] {
    &CASES
}

static CASES: [(&str, Case); 6] = [
    (
        "two workers meet at endorsement checks",
        Case {
            held: Held::ForOthers(1, Phase::Endorse),
            count: 16,
            keys: Keys::OfNext,
            workers: 2,
        },
    ),
    (
        "two workers meet at read checks",
        Case {
            held: Held::ForOthers(1, Phase::Reads),
            count: 16,
            keys: Keys::OfNext,
            workers: 2,
        },
    ),
    (
        "two workers share a batch",
        Case {
            held: Held::ForOthers(31, Phase::Endorse),
            count: 32,
            keys: Keys::Apart,
            workers: 2,
        },
    ),
    (
        "a blocked check is tried again",
        Case {
            held: Held::Late,
            count: 3,
            keys: Keys::OfNext,
            workers: 2,
        },
    ),
    (
        "two workers, in reverse",
        Case {
            held: Held::Reverse,
            count: 1000,
            keys: Keys::OfNext,
            workers: 2,
        },
    ),
    (
        "64 workers, in reverse",
        Case {
            held: Held::Reverse,
            count: 1000,
            keys: Keys::OfNext,
            workers: 64,
        },
    ),
];

#[test]
fn workers_that_are_held(rt: HostRuntime) -> Result<(), Failed> {
    for &(name, case) in cases() {
        assert!(rt; is_block_checked(&rt, rt.alloc(), case)?, "{name}");
    }
    Ok(())
}
