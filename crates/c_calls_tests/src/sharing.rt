//! Handles that share a ledger: each may query it, and it takes a block only while one holds it.

use crate::answers::check_left;
use crate::caller::{NO_RECEIPT, Room, height, list_checked, open};
use c_calls::{
    CLOSED, OK, Receipt, SHARED, fabcommit_close, fabcommit_share, fabcommit_submit,
    fabcommit_submit_by,
};
use c_handle::Handle;
use chain_vectors::first_blocks::first_blocks;
use chain_vectors::later_blocks::later_blocks;
use std::alloc::Global;
use test_support::{Failed, check};

/// Submits a block, which has to give this code.
fn submit(alloc: Global, handle: &mut Handle, number: usize, code: u32) -> Result<(), Failed> {
    let Some(block) = first_blocks().get(number) else {
        return Err(Failed::Unlike);
    };
    let mut receipt = NO_RECEIPT;
    check(fabcommit_submit(alloc, handle, block.bytes, &mut receipt) == code)
}

fn share(alloc: Global, handle: &mut Handle, other: &mut Handle) -> Result<(), Failed> {
    check(fabcommit_share(alloc, handle, other) == OK)
}

/// The handles have ledgers of these heights.
fn check_heights(alloc: Global, handles: [(&mut Handle, u64); 2]) -> Result<(), Failed> {
    for (handle, wanted) in handles {
        check(height(alloc, handle)? == wanted)?;
    }
    Ok(())
}

#[test]
fn a_shared_ledger_takes_no_block(rt: HostRuntime) -> Result<(), Failed> {
    let alloc = rt.alloc();
    let (mut first, mut second) = (Handle::closed(alloc), Handle::closed(alloc));
    open(alloc, &mut first)?;
    submit(alloc, &mut first, 0, OK)?;
    share(alloc, &mut first, &mut second)?;
    check_heights(alloc, [(&mut first, 1), (&mut second, 1)])?;
    submit(alloc, &mut first, 1, SHARED)?;
    submit(alloc, &mut second, 1, SHARED)?;
    check_heights(alloc, [(&mut first, 1), (&mut second, 1)])?;
    fabcommit_close(alloc, &mut first);
    // the handle that is left holds the ledger, also if it isn't the one that opened it
    submit(alloc, &mut second, 1, OK)?;
    share(alloc, &mut second, &mut first)?;
    check_heights(alloc, [(&mut first, 2), (&mut second, 2)])
}

#[test]
fn a_closed_handle_shares_nothing(rt: HostRuntime) -> Result<(), Failed> {
    let alloc = rt.alloc();
    let (mut closed, mut other) = (Handle::closed(alloc), Handle::closed(alloc));
    open(alloc, &mut other)?;
    submit(alloc, &mut other, 0, OK)?;
    check(fabcommit_share(alloc, &mut closed, &mut other) == CLOSED)?;
    check(height(alloc, &mut other)? == 1)?;
    submit(alloc, &mut other, 1, OK)
}

#[test]
fn a_share_replaces_what_a_handle_held(rt: HostRuntime) -> Result<(), Failed> {
    let alloc = rt.alloc();
    let mut first = Handle::closed(alloc);
    let (mut second, mut third) = (Handle::closed(alloc), Handle::closed(alloc));
    open(alloc, &mut first)?;
    open(alloc, &mut third)?;
    submit(alloc, &mut third, 0, OK)?;
    share(alloc, &mut first, &mut second)?;
    submit(alloc, &mut first, 0, SHARED)?;
    share(alloc, &mut third, &mut second)?;
    check(height(alloc, &mut second)? == 1)?;
    submit(alloc, &mut first, 0, OK)?;
    submit(alloc, &mut third, 1, SHARED)
}

fn is_untouched(receipt: &Receipt) -> bool {
    receipt.number == 0 && receipt.got == 0 && receipt.flags == 0 && receipt.header_hash == [0; 32]
}

/// Submits the whole chain by verdicts; each block is refused at first, while the ledger has another handle.
fn take_all(
    alloc: Global,
    handle: &mut Handle,
    other: &mut Handle,
    room: &mut Room,
) -> Result<(), Failed> {
    for block in first_blocks().iter().chain(later_blocks().iter()) {
        let sizes = list_checked(alloc, room, block.bytes)?;
        let verdicts = room.verdicts.get(..sizes.verdicts).unwrap_or(&[]);
        let (pool, mut receipt) = (room.pool.as_slice(), NO_RECEIPT);
        share(alloc, handle, other)?;
        let code = fabcommit_submit_by(alloc, handle, block.bytes, pool, verdicts, &mut receipt);
        check(code == SHARED && is_untouched(&receipt))?;
        fabcommit_close(alloc, other);
        let code = fabcommit_submit_by(alloc, handle, block.bytes, pool, verdicts, &mut receipt);
        check(code == OK && receipt.header_hash == *block.header_hash)?;
    }
    share(alloc, handle, other)
}

#[test]
fn both_handles_have_the_answers_of_the_chain(rt: HostRuntime) -> Result<(), Failed> {
    let alloc = rt.alloc();
    let mut room = Room::new(alloc, 65_536, 1_024)?;
    let (mut first, mut second) = (Handle::closed(alloc), Handle::closed(alloc));
    open(alloc, &mut first)?;
    take_all(alloc, &mut first, &mut second, &mut room)?;
    check_left(alloc, &mut first)?;
    check_left(alloc, &mut second)
}
