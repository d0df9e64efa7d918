//! Drafting while allocations fail.

use crate::fixture::{book, channel};
use block::BlockVersion;
use drafts::{DraftFault, draft};
use key_book::KeyBook;
use std::alloc::Global;
use test_support::{Failed, Outcome, begins};
use values::{Bytes, Name};

// A transaction, a raw one and an update, each with all that takes memory.
const SCRIPT: &str = "tx Org1:client:c0 n0 cc
ns cc
range a b all
result a 0 0
write k v
policy k AND(
endorse Org1:peer:p0
raw 00ff
update Org1:client:c0 n1 cc OR('Org2.peer')
endorse Org1:peer:p0
endorse Org1:client:c0
";

fn drafted(alloc: Global, channel: &Name, keys: &KeyBook) -> Result<Bytes, DraftFault> {
    draft(alloc, channel, keys, BlockVersion::V2, None, SCRIPT)
}

// Whether the same block is drafted as before, or, if memory ran out, none, and the same when it is drafted again.
fn outcome_of_draft(
    alloc: Global,
    channel: &Name,
    keys: &KeyBook,
    wanted: &Bytes,
) -> Result<Outcome, Failed> {
    begins(alloc)?;
    let (block, done) = match drafted(alloc, channel, keys) {
        Err(DraftFault::Memory) => (drafted(alloc, channel, keys)?, Outcome::MadeGood),
        first => (first?, Outcome::Done),
    };
    if block.as_slice() == wanted.as_slice() {
        Ok(done)
    } else {
        Ok(Outcome::Wrong)
    }
}

/// The outcome of drafting the script.
pub fn outcome(alloc: Global) -> Result<Outcome, Failed> {
    let channel = channel(alloc)?;
    let keys = book(alloc)?;
    let wanted = drafted(alloc, &channel, &keys)?;
    outcome_of_draft(alloc, &channel, &keys, &wanted)
}

// Run by `bench/refused_memory.py`, which lets any one allocation of the second draft fail: then it returns out of
// memory, and the next draft is the same. If one fails before or after, it ends by `?`.
#[test]
fn drafts_are_all_or_nothing(rt: HostRuntime) -> Result<(), Failed> {
    assert!(rt; outcome(rt.alloc())? == Outcome::Done);
    Ok(())
}
