//! Scripts at random with many updates: of each cause for which one isn't valid, and more that are valid.

use crate::random_scripts::{
    NONCES, UNDEFINED, creator_at_random, defined, put_endorsements, put_tx,
};
use crate::spoiling::{drafted_tx, raw_line, raw_line_of};
use block::BlockVersion;
use key_book::KeyBook;
use std::alloc::{AllocError, Global};
use test_support::{Failed, Random};
use world::World;

// The last is no policy.
const POLICIES: [&str; 8] = [
    "'Org1.peer'",
    "'Org2.peer'",
    "AND('Org1.peer','Org2.peer')",
    "OR('Org1.peer','Org2.peer')",
    "'Org9.peer'",
    "'Org1.member'",
    "OutOf(2,'Org1.peer','Org2.peer','Org9.peer')",
    "AND(",
];

const PEERS: [&str; 2] = ["Org1:peer:p0", "Org2:peer:q0"];

// Mostly the first one, so that updates and writes meet.
fn chaincode_at_random(random: &mut Random) -> &'static str {
    if random.one_of(3) {
        defined(random.below(3))
    } else {
        "cc"
    }
}

fn put_update(
    alloc: Global,
    script: &mut String,
    random: &mut Random,
    nonce: u8,
) -> Result<(), AllocError> {
    let creator = creator_at_random(random);
    let chaincode = if random.one_of(9) {
        UNDEFINED
    } else {
        chaincode_at_random(random)
    };
    let policy = POLICIES[random.below(8) as usize];
    let line = format!(in alloc; "update {creator} n{nonce} {chaincode} {policy}\n")?;
    script.push_str(line.as_str())?;
    put_endorsements(script, random)
}

// A write that one peer endorses, so that it depends on the chaincode's policy whether it is valid.
fn put_write(
    alloc: Global,
    script: &mut String,
    random: &mut Random,
    nonce: u8,
) -> Result<(), AllocError> {
    let chaincode = chaincode_at_random(random);
    let peer = PEERS[random.below(2) as usize];
    let value = random.below(200);
    let lines = format!(in alloc;
        "tx Org1:client:c0 n{nonce} {chaincode}\nns {chaincode}\nwrite a {value}\nendorse {peer}\n"
    )?;
    script.push_str(lines.as_str())
}

// An update with this nonce. One in twelve is spoiled, and in a block of version 1 it is no more than its bytes.
fn update_lines(
    alloc: Global,
    random: &mut Random,
    keys: &KeyBook,
    version: BlockVersion,
    nonce: u8,
) -> Result<String, Failed> {
    let mut lines = String::new(alloc);
    put_update(alloc, &mut lines, random, nonce)?;
    if random.one_of(12) {
        return raw_line(alloc, random, keys, lines.as_str());
    }
    if version == BlockVersion::V2 {
        return Ok(lines);
    }
    let update = drafted_tx(alloc, keys, lines.as_str())?;
    Ok(raw_line_of(alloc, update.as_slice())?)
}

// What stands at a place.
#[derive(Clone, Copy)]
enum Kind {
    Update,
    Write,
    // as in chains without updates
    Tx,
}

fn kind_at_random(random: &mut Random, is_of_updates: bool) -> Kind {
    match random.below(16) {
        0..=7 if is_of_updates => Kind::Update,
        0 => Kind::Update,
        1..=3 => Kind::Tx,
        _ => Kind::Write,
    }
}

/// What the next block is drafted for.
#[derive(Clone, Copy)]
pub struct Next<'a> {
    pub keys: &'a KeyBook,
    pub version: BlockVersion,
    /// What the block finds.
    pub world: &'a World,
}

fn put_place(
    alloc: Global,
    script: &mut String,
    random: &mut Random,
    next: Next<'_>,
    nonce: u8,
    kind: Kind,
) -> Result<(), Failed> {
    match kind {
        Kind::Tx => put_tx(alloc, script, random, next.keys, next.world, nonce),
        Kind::Write => Ok(put_write(alloc, script, random, nonce)?),
        Kind::Update => {
            let lines = update_lines(alloc, random, next.keys, next.version, nonce)?;
            Ok(script.push_str(lines.as_str())?)
        }
    }
}

fn put_places(
    alloc: Global,
    script: &mut String,
    random: &mut Random,
    next: Next<'_>,
    nonces: &mut Vec<u8>,
    is_of_updates: bool,
) -> Result<(), Failed> {
    let is_alone = is_of_updates && !random.one_of(8);
    let count = if is_alone { 1 } else { 1 + random.below(4) };
    for _ in 0..count {
        let nonce = random.below(NONCES);
        nonces.push(nonce)?;
        let kind = if is_alone {
            Kind::Update
        } else {
            kind_at_random(random, is_of_updates)
        };
        put_place(alloc, script, random, next, nonce, kind)?;
    }
    Ok(())
}

/// A script of one to four transactions and updates, mostly of an update alone or of transactions alone; their nonces stand behind
/// those that were there.
pub fn script_with_updates(
    alloc: Global,
    random: &mut Random,
    next: Next<'_>,
    nonces: &mut Vec<u8>,
    is_of_updates: bool,
) -> Result<String, Failed> {
    let mut script = String::new(alloc);
    put_places(alloc, &mut script, random, next, nonces, is_of_updates)?;
    Ok(script)
}
