//! Blocks without transactions that continue a chain, and such that don't, by committers.

use crate::committers::{Trial, check_by, refusal_of, worker_counts};
use crate::fixture::channel_with;
use chain_vectors::SaysOk;
use commit::{Committer, NotCommitted, QueryHandle, Refused};
use std::alloc::Global;
use std::sync::Wait;
use std::thread::Threads;
use test_support::{Failed, check};

// The header hashes that blocks 1 and 2 stand behind, by Python's pyasn1 and hashlib, and the data hash of no
// transactions, SHA-256 of no bytes (FIPS 180-4).

const BLOCK_0: &[u8] = b"FBK1\0\0\0\0\0\0\0\0\0\
    \xe3\xb0\xc4\x42\x98\xfc\x1c\x14\x9a\xfb\xf4\xc8\x99\x6f\xb9\x24\
    \x27\xae\x41\xe4\x64\x9b\x93\x4c\xa4\x95\x99\x1b\x78\x52\xb8\x55\
    \0\0\0\0";

const BLOCK_0_BEHIND_ANOTHER: &[u8] = b"FBK1\0\0\0\0\0\0\0\0\x20\
    \x9c\xae\x6f\x5c\x10\x75\x6f\xeb\xc4\x07\xbb\xa9\x5f\xc2\x38\x53\
    \x77\x4c\x1f\x65\xf1\x03\x54\x89\x5b\xfd\xab\x64\x43\xd6\x6e\xd3\
    \xe3\xb0\xc4\x42\x98\xfc\x1c\x14\x9a\xfb\xf4\xc8\x99\x6f\xb9\x24\
    \x27\xae\x41\xe4\x64\x9b\x93\x4c\xa4\x95\x99\x1b\x78\x52\xb8\x55\
    \0\0\0\0";

const BLOCK_1: &[u8] = b"FBK1\0\0\0\0\0\0\0\x01\x20\
    \x9c\xae\x6f\x5c\x10\x75\x6f\xeb\xc4\x07\xbb\xa9\x5f\xc2\x38\x53\
    \x77\x4c\x1f\x65\xf1\x03\x54\x89\x5b\xfd\xab\x64\x43\xd6\x6e\xd3\
    \xe3\xb0\xc4\x42\x98\xfc\x1c\x14\x9a\xfb\xf4\xc8\x99\x6f\xb9\x24\
    \x27\xae\x41\xe4\x64\x9b\x93\x4c\xa4\x95\x99\x1b\x78\x52\xb8\x55\
    \0\0\0\0";

const BLOCK_2: &[u8] = b"FBK1\0\0\0\0\0\0\0\x02\x20\
    \x91\x83\x2d\x32\x53\x1b\xdf\xd1\xa2\x85\xdd\x11\x74\x22\xf8\xd7\
    \x7e\xea\x07\xca\x7f\x93\x7b\x91\xb5\x5d\xed\xa9\xe6\x3d\x72\x6e\
    \xe3\xb0\xc4\x42\x98\xfc\x1c\x14\x9a\xfb\xf4\xc8\x99\x6f\xb9\x24\
    \x27\xae\x41\xe4\x64\x9b\x93\x4c\xa4\x95\x99\x1b\x78\x52\xb8\x55\
    \0\0\0\0";

// Block 3 behind block 1.
const BLOCK_3: &[u8] = b"FBK1\0\0\0\0\0\0\0\x03\x20\
    \x91\x83\x2d\x32\x53\x1b\xdf\xd1\xa2\x85\xdd\x11\x74\x22\xf8\xd7\
    \x7e\xea\x07\xca\x7f\x93\x7b\x91\xb5\x5d\xed\xa9\xe6\x3d\x72\x6e\
    \xe3\xb0\xc4\x42\x98\xfc\x1c\x14\x9a\xfb\xf4\xc8\x99\x6f\xb9\x24\
    \x27\xae\x41\xe4\x64\x9b\x93\x4c\xa4\x95\x99\x1b\x78\x52\xb8\x55\
    \0\0\0\0";

/// Bytes that are handed in, why they are refused, if they are, and the height then.
struct Step {
    bytes: &'static [u8],
    refusal: Option<NotCommitted>,
    height: u64,
}

fn steps() -> &'static [Step] {
    &STEPS
}

static STEPS: [Step; 6] = [
    Step {
        bytes: BLOCK_0_BEHIND_ANOTHER,
        refusal: Some(NotCommitted::Refused(Refused::WrongPrevious)),
        height: 0,
    },
    Step {
        bytes: BLOCK_0,
        refusal: None,
        height: 1,
    },
    Step {
        bytes: BLOCK_1,
        refusal: None,
        height: 2,
    },
    Step {
        bytes: BLOCK_1,
        refusal: Some(NotCommitted::Refused(Refused::WrongNumber { want: 2, got: 1 })),
        height: 2,
    },
    Step {
        bytes: BLOCK_3,
        refusal: Some(NotCommitted::Refused(Refused::WrongNumber { want: 2, got: 3 })),
        height: 2,
    },
    Step {
        bytes: BLOCK_2,
        refusal: None,
        height: 3,
    },
];

fn check_step<R: Threads + Wait + Sync>(
    rt: &R,
    committer: &mut Committer,
    handle: &mut QueryHandle,
    step: &Step,
) -> Result<(), Failed> {
    check(refusal_of(rt, committer, step.bytes, &SaysOk) == step.refusal)?;
    let reply = handle.height()?;
    check(reply.answer == step.height)
}

/// Wants each block committed or refused as it should be.
pub fn check_links<R: Threads + Wait + Sync>(
    rt: &R,
    committer: &mut Committer,
    handle: &mut QueryHandle,
) -> Result<(), Failed> {
    for step in steps() {
        check_step(rt, committer, handle, step)?;
    }
    Ok(())
}

fn check_links_by<R: Threads + Wait + Sync>(
    rt: &R,
    alloc: Global,
    workers: usize,
) -> Result<(), Failed> {
    let channel = channel_with(alloc, "")?;
    check_by(rt, alloc, channel, workers, &Trial::Links)
}

#[test]
fn what_continues_a_chain_by_workers(rt: HostRuntime) -> Result<(), Failed> {
    for workers in worker_counts() {
        check_links_by(&rt, rt.alloc(), *workers)?;
    }
    Ok(())
}
