//! Small blocks at random, whose flags any number of workers finds as one thread does in order.

use crate::building::{Ground, RowCase};
use check_workers::{Checked, check_all};
use key_chains::Job;
use rules::Flag;
use std::alloc::{AllocError, AllocGlobal, Global};
use std::sync::Wait;
use std::thread::Threads;
use test_support::{Failed, Random, Yielding, script};

// The rows before each block. Two of the keys that scripts use have none.
const ROWS: [RowCase<'static>; 3] = [
    RowCase {
        key: b"a",
        policy: None,
    },
    RowCase {
        key: b"b",
        policy: Some(b"'Org1.peer'"),
    },
    RowCase {
        key: b"c",
        policy: Some(b"AND('Org1.peer','Org2.peer')"),
    },
];

// Of each seed. A test for each keeps each well below the time that a test may take.
const JOBS: u32 = 500;

static WORKERS: [usize; 5] = [1, 2, 3, 8, 64];

fn numbers_of_workers() -> &'static [usize] {
    &WORKERS
}

/// How often each flag was found that a check decides.
#[derive(Clone, Copy)]
struct Times {
    valid: u32,
    refused: u32,
    stale: u32,
    phantom: u32,
}

const NONE: Times = Times {
    valid: 0,
    refused: 0,
    stale: 0,
    phantom: 0,
};

fn add_one(times: &mut u32) {
    *times = times.saturating_add(1);
}

impl Times {
    fn count(&mut self, flags: &[Flag]) {
        for flag in flags {
            match flag {
                Flag::Valid => add_one(&mut self.valid),
                Flag::EndorsementPolicyFailure => add_one(&mut self.refused),
                Flag::MvccReadConflict => add_one(&mut self.stale),
                Flag::PhantomReadConflict => add_one(&mut self.phantom),
                _ => {}
            }
        }
    }

    fn are_all_often(&self) -> bool {
        self.valid >= 50 && self.refused >= 50 && self.stale >= 50 && self.phantom >= 50
    }
}

fn is_same(checked: &Checked, flags: &[Flag]) -> bool {
    checked.gathered == 0 && checked.flags.as_slice() == flags
}

fn is_found<R: Threads + Wait + Sync>(
    rt: &R,
    alloc: Global,
    job: &Job<'_, '_>,
    flags: &[Flag],
    workers: usize,
    gate: &Yielding,
) -> Result<bool, AllocError> {
    if workers < 1 || workers > 64 {
        return Ok(false);
    }
    let checked = check_all(rt, alloc, job, workers, gate)?;
    Ok(is_same(&checked, flags))
}

/// Whether so many workers find these flags, each number of them.
pub fn are_flags_found<R: Threads + Wait + Sync>(
    rt: &R,
    alloc: Global,
    job: &Job<'_, '_>,
    flags: &[Flag],
    gate: &Yielding,
) -> Result<bool, Failed> {
    for workers in numbers_of_workers() {
        if !is_found(rt, alloc, job, flags, *workers, gate)? {
            return Ok(false);
        }
    }
    Ok(true)
}

fn are_found<R: Threads + Wait + Sync>(
    rt: &R,
    alloc: Global,
    job: &Job<'_, '_>,
    gate: &Yielding,
    times: &mut Times,
) -> Result<bool, Failed> {
    let flags = serial_checks::flags(alloc, job)?;
    times.count(flags.as_slice());
    are_flags_found(rt, alloc, job, flags.as_slice(), gate)
}

fn ground_at_random(alloc: Global, random: &mut Random) -> Result<Ground, Failed> {
    let script = script(alloc, random)?;
    Ground::of(alloc, &ROWS, script.as_str())
}

fn is_ground_checked<R: Threads + Wait + Sync>(
    rt: &R,
    alloc: Global,
    ground: &Ground,
    gate: &Yielding,
    times: &mut Times,
) -> Result<bool, Failed> {
    let job = ground.job(alloc)?;
    are_found(rt, alloc, &job, gate, times)
}

fn is_job_checked<R: Threads + Wait + Sync>(
    rt: &R,
    alloc: Global,
    random: &mut Random,
    gate: &Yielding,
    times: &mut Times,
) -> Result<bool, Failed> {
    let ground = ground_at_random(alloc, random)?;
    is_ground_checked(rt, alloc, &ground, gate, times)
}

// How many jobs are checked so, up to the first that isn't.
fn jobs_checked_through<R: Threads + Wait + Sync>(
    rt: &R,
    alloc: Global,
    random: &mut Random,
    gate: &Yielding,
    times: &mut Times,
) -> Result<u32, Failed> {
    for number in 0..JOBS {
        if !is_job_checked(rt, alloc, random, gate, times)? {
            return Ok(number);
        }
    }
    Ok(JOBS)
}

fn jobs_checked<R: Threads + Wait + Sync>(
    rt: &R,
    alloc: Global,
    seed: u64,
    times: &mut Times,
) -> Result<u32, Failed> {
    let mut random = Random::new(seed);
    let gate = Yielding::new(seed);
    jobs_checked_through(rt, alloc, &mut random, &gate, times)
}

fn are_checked<R: AllocGlobal + Threads + Wait + Sync>(rt: &R, seed: u64) -> Result<bool, Failed> {
    let mut times = NONE;
    let checked = jobs_checked(rt, rt.alloc(), seed, &mut times)?;
    Ok(checked == JOBS && times.are_all_often())
}

#[test]
fn any_number_of_workers_by_seed_15(rt: HostRuntime) -> Result<(), Failed> {
    assert!(rt; are_checked(&rt, 15)?);
    Ok(())
}

#[test]
fn any_number_of_workers_by_seed_16(rt: HostRuntime) -> Result<(), Failed> {
    assert!(rt; are_checked(&rt, 16)?);
    Ok(())
}

#[test]
fn any_number_of_workers_by_seed_17(rt: HostRuntime) -> Result<(), Failed> {
    assert!(rt; are_checked(&rt, 17)?);
    Ok(())
}

#[test]
fn any_number_of_workers_by_seed_18(rt: HostRuntime) -> Result<(), Failed> {
    assert!(rt; are_checked(&rt, 18)?);
    Ok(())
}
