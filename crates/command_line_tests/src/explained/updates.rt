//! The words of each fault of an update that no other reason has: one block each, of one update.

use crate::explained::{drafted, is_explained, of_script};
use crate::files::File;
use crate::fixture::CHANNEL;
use crate::signatures::keys;
use std::alloc::AllocError;
use std::sync::Wait;
use std::thread::Threads;
use test_support::Failed;

/// A channel, the script of a block, and the line that explains its update.
type Update = (&'static [u8], &'static [u8], &'static str);

fn updates() -> &'static [Update] {
    &UPDATES
}

static UPDATES: [Update; 3] = [
    (
        b"channel ch\nchaincode cc 'Org1.peer'\n",
        b"update Org1:admin:a0 n0 cc 'Org2.peer'\nendorse Org1:admin:a0\n",
        "0 6 INVALID_CONFIG_TRANSACTION no-admin-policy\n",
    ),
    (
        CHANNEL,
        b"update Org1:admin:a0 n0 zz 'Org2.peer'\nendorse Org1:admin:a0\n",
        "0 6 INVALID_CONFIG_TRANSACTION undefined zz\n",
    ),
    (
        CHANNEL,
        b"update Org1:admin:a0 n0 cc AND(\nendorse Org1:admin:a0\n",
        "0 6 INVALID_CONFIG_TRANSACTION policy syntax\n",
    ),
];

fn of_block<'a>(channel: &'a [u8], keys: &'a [u8], block: &'a [u8]) -> [File<'a>; 3] {
    [("c", channel), ("k", keys), ("b0", block)]
}

fn is_block_said<'a>(
    rt: &(impl AllocGlobal + Threads + Wait + Sync),
    channel: &'a [u8],
    block: &'a [u8],
    line: &str,
) -> Result<bool, AllocError> {
    let files = of_block(channel, keys(), block);
    is_explained(rt, &files, "explain b0", "block 0 ", line)
}

fn is_said<'a>(
    rt: &(impl AllocGlobal + Threads + Wait + Sync),
    channel: &'a [u8],
    script: &'a [u8],
    line: &str,
) -> Result<bool, Failed> {
    let block = drafted(
        rt,
        &of_script(channel, keys(), script),
        "draft --format 2 s out",
    )?;
    Ok(is_block_said(rt, channel, block.as_slice(), line)?)
}

#[test]
fn each_fault_of_an_update(rt: HostRuntime) -> Result<(), Failed> {
    for (channel, script, line) in updates() {
        assert!(rt; is_said(&rt, channel, script, line)?);
    }
    Ok(())
}
