//! The chain of 32 blocks by the calls for C: flags, hashes, reasons, and what is left.

use crate::answers::check_left;
use crate::caller::{NO_RECEIPT, NOWHERE, Room, list_checked, open};
use c_calls::{
    OK, ReasonSizes, Receipt, Sizes, fabcommit_explain_by, fabcommit_flags, fabcommit_submit,
    fabcommit_submit_by,
};
use c_handle::Handle;
use chain_vectors::Committed;
use chain_vectors::first_blocks::first_blocks;
use chain_vectors::later_blocks::later_blocks;
use reason_lists::{PooledIdentity, PooledReason, Seen};
use std::alloc::{AllocError, Global};
use test_support::{Failed, check};

const NOT_SEEN: Seen = Seen {
    block: 0,
    tx: 0,
    is_there: false,
};

const NO_REASON: PooledReason = PooledReason {
    name: NOWHERE,
    key: NOWHERE,
    start: NOWHERE,
    end: NOWHERE,
    id: NOWHERE,
    policy: NOWHERE,
    missing_org: NOWHERE,
    read: NOT_SEEN,
    there: NOT_SEEN,
    block: 0,
    range_place: 0,
    result_place: 0,
    first_identity: 0,
    signers: 0,
    refused: 0,
    tx: 0,
    flag: 0,
    kind: 0,
    used_flag: 0,
    text_fault: 0,
    missing_role: 0,
    has_tx: false,
    exhausted: false,
    has_missing: false,
    another_order: false,
};

const NOBODY: PooledIdentity = PooledIdentity {
    org: NOWHERE,
    label: NOWHERE,
    role: 0,
};

/// Memory for the reasons of a block.
#[derive(Drop)]
struct Reasons {
    pool: Vec<u8>,
    reasons: Vec<PooledReason>,
    identities: Vec<PooledIdentity>,
}

impl Reasons {
    fn new(alloc: Global) -> Result<Reasons, AllocError> {
        Ok(Reasons {
            pool: vec![in alloc; 0; 65_536]?,
            reasons: vec![in alloc; NO_REASON; 64]?,
            identities: vec![in alloc; NOBODY; 1_024]?,
        })
    }
}

fn check_flags(found: &[u8], wanted: &[u8]) -> Result<(), Failed> {
    check(found.get(..wanted.len()) == Some(wanted))
}

fn are_flags_of(reasons: &[PooledReason], flags: &[u8]) -> bool {
    reasons.len() >= flags.len()
        && reasons
            .iter()
            .zip(flags)
            .all(|(reason, flag)| reason.flag == *flag)
}

/// Explains a block that comes next.
fn explain(
    alloc: Global,
    handle: &mut Handle,
    (room, sizes): (&Room, Sizes),
    to: &mut Reasons,
    block: &Committed,
) -> Result<(), Failed> {
    let mut told = ReasonSizes {
        number: 0,
        got: 0,
        pool: 0,
        reasons: 0,
        identities: 0,
    };
    let verdicts = room.verdicts.get(..sizes.verdicts).unwrap_or(&[]);
    let (pool, reasons, identities) = (&mut to.pool, &mut to.reasons, &mut to.identities);
    let code = fabcommit_explain_by(
        alloc,
        handle,
        block.bytes,
        room.pool.as_slice(),
        verdicts,
        pool.as_mut_slice(),
        reasons.as_mut_slice(),
        identities.as_mut_slice(),
        &mut told,
    );
    check(code == OK && told.reasons == block.flags.len())?;
    check(are_flags_of(to.reasons.as_slice(), block.flags))
}

fn is_of(receipt: &Receipt, number: u64, block: &Committed) -> bool {
    receipt.number == number
        && receipt.got == number
        && receipt.flags == block.flags.len()
        && receipt.header_hash == *block.header_hash
}

/// Submits a block by the verdicts on its signatures.
fn submit(
    alloc: Global,
    handle: &mut Handle,
    (room, sizes): (&Room, Sizes),
    number: u64,
    block: &Committed,
) -> Result<(), Failed> {
    let mut receipt = NO_RECEIPT;
    let verdicts = room.verdicts.get(..sizes.verdicts).unwrap_or(&[]);
    let pool = room.pool.as_slice();
    check(fabcommit_submit_by(alloc, handle, block.bytes, pool, verdicts, &mut receipt) == OK)?;
    check(is_of(&receipt, number, block))
}

fn check_kept(
    alloc: Global,
    handle: &mut Handle,
    number: u64,
    block: &Committed,
) -> Result<(), Failed> {
    let (mut flags, mut len) = ([0; 64], 0);
    check(fabcommit_flags(alloc, handle, number, &mut flags, &mut len) == OK)?;
    check(len == block.flags.len())?;
    check_flags(&flags, block.flags)
}

fn take_all(
    alloc: Global,
    handle: &mut Handle,
    room: &mut Room,
    to: &mut Reasons,
) -> Result<(), Failed> {
    let blocks = first_blocks().iter().chain(later_blocks().iter());
    for (number, block) in blocks.enumerate() {
        let sizes = list_checked(alloc, room, block.bytes)?;
        explain(alloc, handle, (&*room, sizes), to, block)?;
        submit(alloc, handle, (&*room, sizes), number as u64, block)?;
        check_kept(alloc, handle, number as u64, block)?;
    }
    Ok(())
}

#[test]
fn by_verdicts(rt: HostRuntime) -> Result<(), Failed> {
    let alloc = rt.alloc();
    let mut room = Room::new(alloc, 65_536, 1_024)?;
    let mut reasons = Reasons::new(alloc)?;
    let mut handle = Handle::closed(alloc);
    open(alloc, &mut handle)?;
    take_all(alloc, &mut handle, &mut room, &mut reasons)?;
    check_left(alloc, &mut handle)
}

// Without keys no signature is good: what isn't refused for its bytes or its channel has flag 4.
fn without_keys(flag: u8) -> u8 {
    if flag == 2 || flag == 14 { flag } else { 4 }
}

fn check_refused(alloc: Global, handle: &mut Handle, block: &Committed) -> Result<(), Failed> {
    let mut receipt = NO_RECEIPT;
    check(fabcommit_submit(alloc, handle, block.bytes, &mut receipt) == OK)?;
    let (mut flags, mut len) = ([0; 64], 0);
    check(fabcommit_flags(alloc, handle, receipt.number, &mut flags, &mut len) == OK)?;
    check(len == block.flags.len())?;
    for (flag, wanted) in flags.iter().zip(block.flags) {
        check(*flag == without_keys(*wanted))?;
    }
    Ok(())
}

#[test]
fn by_a_key_book_without_keys(rt: HostRuntime) -> Result<(), Failed> {
    let alloc = rt.alloc();
    let mut handle = Handle::closed(alloc);
    open(alloc, &mut handle)?;
    for block in first_blocks() {
        check_refused(alloc, &mut handle, block)?;
    }
    Ok(())
}
