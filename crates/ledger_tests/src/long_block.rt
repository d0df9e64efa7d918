//! A long block, in which each transaction reads a key that the one before it writes: every second one is stale.

use crate::fixture::CREATOR;
use crate::scripted::ScriptedPeer;
use crate::shown::is_row;
use chain_vectors::LeftRow;
use header_hash::tx_id;
use rules::{FirstUse, Flag};
use std::alloc::Global;
use test_support::{Failed, chain_flags, chain_script, check, keys_script};
use world::World;

// Of the last two transactions the first is valid and the second isn't.
const LENGTH: u32 = 1000;

fn check_first(alloc: Global, peer: &mut ScriptedPeer) -> Result<(), Failed> {
    let script = keys_script(alloc, LENGTH)?;
    check(peer.is_taken(alloc, script.as_str(), &[0])?)
}

fn check_flags(alloc: Global, peer: &mut ScriptedPeer, script: &str) -> Result<(), Failed> {
    let flags = chain_flags(alloc, LENGTH)?;
    check(peer.is_taken(alloc, script, &flags)?)
}

fn check_later(alloc: Global, peer: &mut ScriptedPeer) -> Result<(), Failed> {
    let script = chain_script(alloc, LENGTH)?;
    check_flags(alloc, peer, script.as_str())
}

// The last valid one, at place 998, has written key 999.
static LAST_ROW: Option<LeftRow> = Some(LeftRow {
    value: b"v",
    block: 1,
    tx: 998,
    policy: "",
});

const LAST_USE: FirstUse = FirstUse {
    block: 1,
    place: 999,
    flag: Flag::MvccReadConflict,
};

fn check_left(alloc: Global, world: &World) -> Result<(), Failed> {
    check(is_row(alloc, world, b"cc", b"k999", &LAST_ROW)?)?;
    check(world.flag_of(&tx_id(b"n999", CREATOR)) == Some(LAST_USE))
}

fn check_by(alloc: Global, peer: &mut ScriptedPeer) -> Result<(), Failed> {
    check_first(alloc, peer)?;
    check_later(alloc, peer)?;
    check_left(alloc, peer.world())
}

fn check_blocks(alloc: Global) -> Result<(), Failed> {
    let mut peer = ScriptedPeer::open(alloc)?;
    check_by(alloc, &mut peer)
}

#[test]
fn every_second_one_is_stale(rt: HostRuntime) -> Result<(), Failed> {
    check_blocks(rt.alloc())
}
