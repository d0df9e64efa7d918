//! Calls that do nothing: their codes, and what they change.

use crate::caller::{NO_RECEIPT, Room, height, list_checked, open};
use c_calls::{
    CLOSED, INTERFACE, MALFORMED, NO_CHANNEL, NO_KEYS, NO_NAME, NO_TEXT, OK, SMALL, Sizes,
    Versions, WRONG_NUMBER, fabcommit_close, fabcommit_definition, fabcommit_height,
    fabcommit_list, fabcommit_open, fabcommit_submit, fabcommit_versions,
};
use c_handle::Handle;
use chain_vectors::CHANNEL;
use chain_vectors::first_blocks::first_blocks;
use std::alloc::Global;
use test_support::{Failed, check};

/// Texts that open no ledger, with the code.
static TEXTS: [(&[u8], &[u8], u32); 4] = [
    (b"\xff", b"", NO_TEXT),
    (b"channel ch\n", b"\xff", NO_TEXT),
    (b"no channel\n", b"", NO_CHANNEL),
    (b"channel ch\n", b"no key\n", NO_KEYS),
];

fn texts() -> &'static [(&'static [u8], &'static [u8], u32)] {
    &TEXTS
}

#[test]
fn texts_that_open_none(rt: HostRuntime) -> Result<(), Failed> {
    let alloc = rt.alloc();
    let mut handle = Handle::closed(alloc);
    for &(channel, keys, code) in texts() {
        assert!(rt; fabcommit_open(alloc, &mut handle, channel, keys) == code);
    }
    let mut height = 7;
    assert!(rt; fabcommit_height(alloc, &mut handle, &mut height) == CLOSED && height == 7);
    Ok(())
}

fn check_block(
    alloc: Global,
    handle: &mut Handle,
    bytes: &[u8],
    code: u32,
    got: u64,
) -> Result<(), Failed> {
    let mut receipt = NO_RECEIPT;
    check(fabcommit_submit(alloc, handle, bytes, &mut receipt) == code)?;
    check(receipt.got == got && receipt.number == 0)?;
    check(height(alloc, handle)? == 0)
}

#[test]
fn blocks_that_are_refused(rt: HostRuntime) -> Result<(), Failed> {
    let alloc = rt.alloc();
    let mut handle = Handle::closed(alloc);
    open(alloc, &mut handle)?;
    let Some(second) = first_blocks().get(1) else {
        return Err(Failed::Unlike);
    };
    check_block(alloc, &mut handle, b"", MALFORMED, 1)?;
    check_block(alloc, &mut handle, b"FBK1", MALFORMED, 2)?;
    check_block(alloc, &mut handle, second.bytes, WRONG_NUMBER, 1)
}

#[test]
fn names_and_closed_handles(rt: HostRuntime) -> Result<(), Failed> {
    let alloc = rt.alloc();
    let mut handle = Handle::closed(alloc);
    let (mut text, mut len) = ([0; 64], 0);
    open(alloc, &mut handle)?;
    check(fabcommit_definition(alloc, &mut handle, b"a b", &mut text, &mut len) == NO_NAME)?;
    fabcommit_close(alloc, &mut handle);
    check(fabcommit_definition(alloc, &mut handle, b"cc", &mut text, &mut len) == CLOSED)?;
    check(fabcommit_open(alloc, &mut handle, CHANNEL.as_bytes(), b"") == OK)
}

/// Lists the signatures of a block into too little memory: the sizes are told, and the memory stays as it is.
fn check_small(alloc: Global, block: &[u8], wanted: Sizes) -> Result<(), Failed> {
    let mut sizes = Sizes {
        pool: 0,
        verdicts: 0,
    };
    let mut small = [7; 8];
    check(fabcommit_list(alloc, block, &mut small, &mut [], &mut sizes) == SMALL)?;
    check(small == [7; 8])?;
    check(sizes.pool == wanted.pool && sizes.verdicts == wanted.verdicts)
}

#[test]
fn memory_that_is_too_small(rt: HostRuntime) -> Result<(), Failed> {
    let alloc = rt.alloc();
    let mut room = Room::new(alloc, 65_536, 1_024)?;
    for block in first_blocks() {
        let sizes = list_checked(alloc, &mut room, block.bytes)?;
        check_small(alloc, block.bytes, sizes)?;
    }
    let mut sizes = Sizes {
        pool: 7,
        verdicts: 7,
    };
    check(fabcommit_list(alloc, b"no block", &mut [], &mut [], &mut sizes) == MALFORMED)?;
    check(sizes.pool == 7 && sizes.verdicts == 7)
}

#[test]
fn versions(rt: HostRuntime) -> Result<(), Failed> {
    let mut versions = Versions {
        interface: 0,
        first_block: 0,
        last_block: 0,
    };
    fabcommit_versions(&mut versions);
    assert!(rt;
        (
            versions.interface,
            versions.first_block,
            versions.last_block
        ) == (INTERFACE, 1, 2)
    );
    Ok(())
}
