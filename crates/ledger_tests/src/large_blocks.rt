//! A block of more bytes than a transaction can have, and policies of the most bytes and of one more.

use crate::fixture::row_at;
use crate::scripted::ScriptedPeer;
use rules::Row;
use std::alloc::{AllocError, Global};
use test_support::{Failed, check};
use world::World;

const LARGE: usize = 400_000;

static KEYS: [&str; 3] = ["a", "b", "c"];

fn keys() -> &'static [&'static str] {
    &KEYS
}

fn put_tx(alloc: Global, script: &mut String, key: &str, value: &str) -> Result<(), AllocError> {
    let tx = format!(in alloc;
        "tx Org1:client:c0 n{key} cc\nns cc\nwrite {key} {value}\nendorse Org1:peer:p0\n"
    )?;
    script.push_str(tx.as_str())
}

fn put_txs(alloc: Global, script: &mut String, value: &str) -> Result<(), AllocError> {
    for key in keys() {
        put_tx(alloc, script, key, value)?;
    }
    Ok(())
}

fn put_large(alloc: Global, script: &mut String) -> Result<(), AllocError> {
    let value = "v".repeat(alloc, LARGE)?;
    put_txs(alloc, script, value.as_str())
}

// Each key gets a value of LARGE bytes.
fn large_script(alloc: Global) -> Result<String, AllocError> {
    let mut script = String::new(alloc);
    put_large(alloc, &mut script)?;
    Ok(script)
}

fn is_large(row: Option<&Row>) -> bool {
    match row {
        None => false,
        Some(row) => row.value.as_slice().len() == LARGE,
    }
}

fn check_large(world: &World) -> Result<(), Failed> {
    for key in keys() {
        check(is_large(row_at(world, b"cc", key.as_bytes())?))?;
    }
    Ok(())
}

fn check_taken(alloc: Global, peer: &mut ScriptedPeer) -> Result<(), Failed> {
    let script = large_script(alloc)?;
    check(peer.is_taken(alloc, script.as_str(), &[0, 0, 0])?)
}

fn check_by(alloc: Global, peer: &mut ScriptedPeer) -> Result<(), Failed> {
    check_taken(alloc, peer)?;
    check_large(peer.world())
}

fn check_block(alloc: Global) -> Result<(), Failed> {
    let mut peer = ScriptedPeer::open(alloc)?;
    check_by(alloc, &mut peer)
}

#[test]
fn more_than_a_mebibyte(rt: HostRuntime) -> Result<(), Failed> {
    check_block(rt.alloc())
}

// A script that gives `k` a policy of this length, with blanks in its middle. The rest of it has 15 bytes.
fn policy_script(alloc: Global, length: usize) -> Result<String, AllocError> {
    let blanks = " ".repeat(alloc, length.saturating_sub(15))?;
    format!(in alloc;
        "tx Org1:client:c0 n{length} cc\nns cc\npolicy k OR({blanks}'Org1.peer')\nendorse Org1:peer:p0\n"
    )
}

fn check_policy(
    alloc: Global,
    peer: &mut ScriptedPeer,
    length: usize,
    flag: u8,
) -> Result<(), Failed> {
    let script = policy_script(alloc, length)?;
    check(peer.is_taken(alloc, script.as_str(), &[flag])?)
}

fn check_policies_by(alloc: Global, peer: &mut ScriptedPeer) -> Result<(), Failed> {
    check_policy(alloc, peer, 4_096, 0)?;
    check_policy(alloc, peer, 4_097, 22)
}

fn check_policies(alloc: Global) -> Result<(), Failed> {
    let mut peer = ScriptedPeer::open(alloc)?;
    check_policies_by(alloc, &mut peer)
}

#[test]
fn policies_of_the_most_bytes(rt: HostRuntime) -> Result<(), Failed> {
    check_policies(rt.alloc())
}
