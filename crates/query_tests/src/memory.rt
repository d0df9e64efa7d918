//! To be tried with memory that is refused at any one allocation, by `bench/refused_memory.py`. A query then leaves its handle
//! as it was; a publish leaves what is published, and its publisher as it was, or failed. Where memory is refused to what a test does beside,
//! it ends by `?`.

use crate::asking::{
    check_block, check_definition, check_height, check_key, check_range, row_of_cc,
};
use crate::blocks::{Drafter, first_worlds};
use crate::opening::opened_publisher;
use crate::publishing::publish_next;
use block::BlockVersion;
use query::{OpenFault, Publisher, QueryHandle, Reply, open};
use rules::{Delta, Row};
use std::alloc::Global;
use std::sync::Wait;
use test_support::{Failed, Outcome, begins, is_alike};
use values::Hash;
use world::World;

const FIRST: &str =
    "tx Org1:client:c0 a cc\nns cc\nwrite k0 v\nwrite k1 v\npolicy k1 'Org1.peer'\nendorse Org1:peer:p0\n";

const SECOND: &str =
    "tx Org1:client:c0 b cc\nns cc\nwrite k0 w\nwrite k2 w\nendorse Org1:peer:p0\n";

// How many handles are opened.
fn opened<R: Wait>(rt: &R, alloc: Global) -> Result<usize, OpenFault> {
    let (publisher, handles) = opened_publisher(rt, alloc, 32)?;
    publisher.close(rt);
    Ok(handles.len())
}

/// What comes of opening a publisher.
pub fn outcome_of_opening<R: Wait>(rt: &R, alloc: Global) -> Result<Outcome, Failed> {
    begins(alloc)?;
    match opened(rt, alloc) {
        Ok(32) => Ok(Outcome::Done),
        Err(OpenFault::Memory) if opened(rt, alloc)? == 32 => Ok(Outcome::MadeGood),
        _ => Ok(Outcome::Wrong),
    }
}

/// This outcome, where all is as it says.
pub fn outcome_if(is_so: Result<bool, Failed>, outcome: Outcome) -> Result<Outcome, Failed> {
    match is_so {
        Ok(true) => Ok(outcome),
        Ok(false) => Ok(Outcome::Wrong),
        Err(failed) => Err(failed),
    }
}

fn is_reply_at(reply: &Reply<Option<Row>>, height: u64, header_hash: Hash) -> bool {
    match &reply.answer {
        Some(row) => {
            reply.height == height
                && reply.header_hash == Some(header_hash)
                && row.version.block == height.wrapping_sub(1)
        }
        None => false,
    }
}

// Whether the answer is from this height: each block writes `k0`.
fn is_at(handle: &mut QueryHandle, height: u64, header_hash: Hash) -> Result<bool, Failed> {
    let reply = row_of_cc(handle, b"k0")?;
    Ok(is_reply_at(&reply, height, header_hash))
}

fn are_at(handles: &mut Vec<QueryHandle>, height: u64, header_hash: Hash) -> Result<bool, Failed> {
    for handle in handles.iter_mut() {
        if !is_at(handle, height, header_hash)? {
            return Ok(false);
        }
    }
    Ok(true)
}

// Publishes the second block, which memory was refused to. Until then handles answer from behind the first.
fn is_published_next<R: Wait>(
    rt: &R,
    alloc: Global,
    publisher: &mut Publisher,
    handles: &mut Vec<QueryHandle>,
    second: Delta,
    before: Hash,
) -> Result<bool, Failed> {
    if !are_at(handles, 1, before)? {
        return Ok(false);
    }
    let receipt = publish_next(rt, alloc, publisher, second)?;
    are_at(handles, 2, receipt.header_hash)
}

// Publishes the second block. Handles then answer from behind it or, where the publisher failed, from behind the first.
fn outcome_of_publish<R: Wait>(
    rt: &R,
    alloc: Global,
    publisher: &mut Publisher,
    handles: &mut Vec<QueryHandle>,
    (second, again): (Delta, Delta),
    before: Hash,
) -> Result<Outcome, Failed> {
    let after = second.block.get().header_hash;
    begins(alloc)?;
    let Some(failed) = publish_next(rt, alloc, publisher, second).err() else {
        return outcome_if(are_at(handles, 2, after), Outcome::Done);
    };
    if !failed.is_memory() {
        return Ok(Outcome::Wrong);
    }
    if publisher.failed() {
        return outcome_if(are_at(handles, 1, before), Outcome::Stopped);
    }
    outcome_if(
        is_published_next(rt, alloc, publisher, handles, again, before),
        Outcome::MadeGood,
    )
}

fn publish_script<R: Wait>(
    rt: &R,
    alloc: Global,
    publisher: &mut Publisher,
    drafter: &mut Drafter,
    script: &str,
) -> Result<(), Failed> {
    let delta = drafter.next(script)?;
    publish_next(rt, alloc, publisher, delta)?;
    Ok(())
}

fn outcome_of_second<R: Wait>(
    rt: &R,
    alloc: Global,
    publisher: &mut Publisher,
    handles: &mut Vec<QueryHandle>,
    drafter: &mut Drafter,
) -> Result<Outcome, Failed> {
    let Some(before) = drafter.world().header_hash() else {
        return Err(Failed::Missing("a header hash"));
    };
    let bytes = drafter.drafted(BlockVersion::V1, SECOND)?;
    let second = (drafter.delta(&bytes)?, drafter.delta(&bytes)?);
    outcome_of_publish(rt, alloc, publisher, handles, second, before)
}

fn check_alike(alloc: Global, handle: &mut QueryHandle, world: &World) -> Result<(), Failed> {
    let (start, end) = (b"k0".as_slice(), b"k9".as_slice());
    check_height(handle, world)?;
    check_key(alloc, handle, world, b"cc", b"k0")?;
    check_key(alloc, handle, world, b"cc", b"k1")?;
    check_range(alloc, handle, world, b"cc", (start, end), 2)?;
    check_definition(alloc, handle, world, b"cc")?;
    check_block(alloc, handle, world, 1)
}

// Asks once more where memory was refused to a query, or to what it is compared with.
fn outcome_of_queries(
    alloc: Global,
    handle: &mut QueryHandle,
    world: &World,
) -> Result<Outcome, Failed> {
    begins(alloc)?;
    match check_alike(alloc, handle, world) {
        Ok(()) => Ok(Outcome::Done),
        Err(failed) if failed.is_memory() => {
            outcome_if(
                is_alike(check_alike(alloc, handle, world)),
                Outcome::MadeGood,
            )
        }
        Err(_) => Ok(Outcome::Wrong),
    }
}

// Of queries behind the second block.
fn outcome_behind_second<R: Wait>(
    rt: &R,
    alloc: Global,
    publisher: &mut Publisher,
    handles: &mut Vec<QueryHandle>,
    drafter: &mut Drafter,
) -> Result<Outcome, Failed> {
    publish_script(rt, alloc, publisher, drafter, SECOND)?;
    match handles.first_mut() {
        Some(handle) => outcome_of_queries(alloc, handle, drafter.world()),
        None => Err(Failed::Missing("a handle")),
    }
}

fn outcome_behind_first<R: Wait>(
    rt: &R,
    alloc: Global,
    publisher: &mut Publisher,
    handles: &mut Vec<QueryHandle>,
    drafter: &mut Drafter,
    is_asked: bool,
) -> Result<Outcome, Failed> {
    publish_script(rt, alloc, publisher, drafter, FIRST)?;
    if is_asked {
        outcome_behind_second(rt, alloc, publisher, handles, drafter)
    } else {
        outcome_of_second(rt, alloc, publisher, handles, drafter)
    }
}

fn outcome_by<R: Wait>(
    rt: &R,
    alloc: Global,
    publisher: &mut Publisher,
    handles: &mut Vec<QueryHandle>,
    is_asked: bool,
) -> Result<Outcome, Failed> {
    let mut drafter = Drafter::open(alloc)?;
    outcome_behind_first(rt, alloc, publisher, handles, &mut drafter, is_asked)
}

/// What comes of a publish.
pub fn outcome_of_publishing<R: Wait>(rt: &R, alloc: Global) -> Result<Outcome, Failed> {
    let (mut publisher, mut handles) = opened_publisher(rt, alloc, 2)?;
    let outcome = outcome_by(rt, alloc, &mut publisher, &mut handles, false);
    publisher.close(rt);
    outcome
}

/// What comes of each query.
pub fn outcome_of_asking<R: Wait>(rt: &R, alloc: Global) -> Result<Outcome, Failed> {
    let (world, other) = first_worlds(alloc)?;
    let (mut publisher, mut handles) = open(alloc, rt, world, other, 1)?;
    let outcome = outcome_by(rt, alloc, &mut publisher, &mut handles, true);
    publisher.close(rt);
    outcome
}

#[test]
fn what_is_opened_published_and_answered(rt: HostRuntime) -> Result<(), Failed> {
    assert!(rt; outcome_of_opening(&rt, rt.alloc())? == Outcome::Done);
    assert!(rt; outcome_of_publishing(&rt, rt.alloc())? == Outcome::Done);
    assert!(rt; outcome_of_asking(&rt, rt.alloc())? == Outcome::Done);
    Ok(())
}
