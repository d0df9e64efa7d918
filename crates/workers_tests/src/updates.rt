//! Updates, each alone in its block: their flags by the checks in order, and by any number of workers.

use crate::building::Ground;
use crate::random_jobs::are_flags_found;
use crate::rows::{BlockCase, updates};
use key_chains::Job;
use rules::Flag;
use std::alloc::Global;
use std::sync::Wait;
use std::thread::Threads;
use test_support::{Failed, Yielding};

fn is_flag(flags: &[Flag], wanted: &[u8]) -> bool {
    match (flags, wanted) {
        ([flag], [number]) => flag.number() == *number,
        _ => false,
    }
}

fn is_flagged<R: Threads + Wait + Sync>(
    rt: &R,
    alloc: Global,
    job: &Job<'_, '_>,
    wanted: &[u8],
) -> Result<bool, Failed> {
    let flags = serial_checks::flags(alloc, job)?;
    let gate = Yielding::new(6);
    let are_found = are_flags_found(rt, alloc, job, flags.as_slice(), &gate)?;
    Ok(are_found && is_flag(flags.as_slice(), wanted))
}

fn is_flagged_on<R: Threads + Wait + Sync>(
    rt: &R,
    alloc: Global,
    ground: &Ground,
    wanted: &[u8],
) -> Result<bool, Failed> {
    let job = ground.job(alloc)?;
    is_flagged(rt, alloc, &job, wanted)
}

fn is_flagged_in<R: Threads + Wait + Sync>(
    rt: &R,
    alloc: Global,
    case: &BlockCase,
) -> Result<bool, Failed> {
    let ground = Ground::of(alloc, case.rows, case.script)?;
    is_flagged_on(rt, alloc, &ground, case.flags)
}

#[test]
fn updates_by_workers(rt: HostRuntime) -> Result<(), Failed> {
    for case in updates() {
        assert!(rt; is_flagged_in(&rt, rt.alloc(), case)?);
    }
    Ok(())
}
