//! Blocks that are handed in all at once: each is answered as a ledger answers it, and while one is committed the next one is
//! taken in.

use crate::at_random::AtRandom;
use crate::committing::{Blocks, Course, check_seeds, check_writes, of_writes};
use gates::Phase;
use std::alloc::Global;
use std::sync::Wait;
use std::thread::Threads;
use test_support::{Awaiting, Failed};

const AT_ONCE: Course = Course {
    times: 1,
    blocks: 3,
    kind: Blocks::AtRandom(AtRandom {
        before: 3,
        behind: 3,
        has_updates: false,
        is_noted: false,
    }),
    is_run: true,
};

#[test]
fn runs_as_the_ledger(rt: HostRuntime) -> Result<(), Failed> {
    assert!(rt; check_seeds(&rt, rt.alloc(), 300, AT_ONCE, 19)? == 0);
    Ok(())
}

fn is_next_taken_in<R: Threads + Wait + Sync>(rt: &R, alloc: Global) -> Result<bool, Failed> {
    // more than the 80 of blocks 0 and 1, which are taken in together, and whose checks wait
    let gate = Awaiting::new(Phase::Endorse, Phase::Intake, 80);
    check_writes(rt, alloc, 2, of_writes(3, 40, true), &gate)?;
    Ok(gate.is_met())
}

#[test]
fn the_next_block_is_taken_in_while_one_is_committed(rt: HostRuntime) -> Result<(), Failed> {
    assert!(rt; is_next_taken_in(&rt, rt.alloc())?);
    Ok(())
}
