//! Transactions at random, as lines of a script: few keys, operations and reads of every kind, most of them right.

use crate::fixture::{lent_name, row_at};
use crate::spoiling::raw_line;
use key_book::KeyBook;
use rules::KeyedRow;
use std::alloc::{AllocError, Global};
use test_support::{Failed, Random};
use text_lines::Word;
use transaction::Version;
use values::{BoundRef, is_bound};
use world::World;

static KEYS: [&[u8]; 5] = [b"a", b"ab", b"b", b"c", b"\xff"];

/// The keys of all scripts.
pub fn keys() -> &'static [&'static [u8]] {
    &KEYS
}

// The last has no definition.
static NAMESPACES: [&str; 4] = ["cc", "dd", "both", "zz"];

/// The namespaces of all scripts.
pub fn namespaces() -> &'static [&'static str] {
    &NAMESPACES
}

/// The namespace that has no definition.
pub const UNDEFINED: &str = "zz";

/// One of the others.
pub fn defined(number: u8) -> &'static str {
    match number % 3 {
        0 => "cc",
        1 => "dd",
        _ => "both",
    }
}

/// How many nonces there are: `n` with a number.
pub const NONCES: u8 = 96;

// The second of each is a forger: signatures that verify are made with another key.
const CREATORS: [&str; 2] = ["Org1:client:c0", "Org1:client:f"];

const PEERS: [(&str, &str); 2] = [
    ("Org1:peer:p0", "Org1:peer:f"),
    ("Org2:peer:q0", "Org2:peer:f"),
];

const POLICIES: [&str; 4] = [
    "'Org1.peer'",
    "AND('Org1.peer','Org2.peer')",
    "'Org2.peer'",
    "AND(",
];

fn key_at_random(random: &mut Random) -> &'static [u8] {
    KEYS[random.below(5) as usize]
}

// Seldom the one without a definition.
fn namespace_at_random(random: &mut Random) -> &'static str {
    let number = random.below(24);
    if number == 23 {
        UNDEFINED
    } else {
        defined(number)
    }
}

// One that an earlier transaction of the next block may give.
fn version_of_block(random: &mut Random, world: &World) -> Version {
    Version {
        block: world.height(),
        tx: random.below(4) as u32,
    }
}

// One that the state has, or that the next block may give.
fn version_at_random(
    random: &mut Random,
    world: &World,
    namespace: &str,
    at: &[u8],
) -> Result<Option<Version>, Failed> {
    if random.one_of(4) {
        return Ok(Some(version_of_block(random, world)));
    }
    match row_at(world, namespace.as_bytes(), at)? {
        None => Ok(None),
        Some(row) => Ok(Some(row.version)),
    }
}

fn put_version(
    alloc: Global,
    script: &mut String,
    front: &str,
    at: &[u8],
    version: Version,
) -> Result<(), AllocError> {
    let at = Word(at);
    let Version { block, tx } = version;
    let line = format!(in alloc; "{front} {at} {block} {tx}\n")?;
    script.push_str(line.as_str())
}

fn put_absent(alloc: Global, script: &mut String, at: &[u8]) -> Result<(), AllocError> {
    let at = Word(at);
    let line = format!(in alloc; "read {at} absent\n")?;
    script.push_str(line.as_str())
}

fn put_read(
    alloc: Global,
    script: &mut String,
    random: &mut Random,
    world: &World,
    namespace: &str,
) -> Result<(), Failed> {
    let at = key_at_random(random);
    match version_at_random(random, world, namespace, at)? {
        None => put_absent(alloc, script, at)?,
        Some(version) => put_version(alloc, script, "read", at, version)?,
    }
    Ok(())
}

fn bound(bytes: &[u8]) -> Result<BoundRef<'_>, Failed> {
    if !is_bound(bytes) {
        return Err(Failed::Missing("a bound"));
    }
    Ok(BoundRef::new(bytes))
}

fn bound_at_random(random: &mut Random) -> &'static [u8] {
    if random.one_of(3) {
        return key_at_random(random);
    }
    b""
}

fn put_range_line(
    alloc: Global,
    script: &mut String,
    start: &[u8],
    end: &[u8],
    is_whole: bool,
) -> Result<(), AllocError> {
    let (start, end) = (Word(start), Word(end));
    let how_far = if is_whole { "all" } else { "part" };
    let line = format!(in alloc; "range {start} {end} {how_far}\n")?;
    script.push_str(line.as_str())
}

// These rows, one in three with another version.
fn put_results(
    alloc: Global,
    script: &mut String,
    random: &mut Random,
    world: &World,
    rows: &[&KeyedRow],
) -> Result<(), AllocError> {
    for row in rows {
        let version = if random.one_of(3) {
            version_of_block(random, world)
        } else {
            row.row().version
        };
        put_version(alloc, script, "result", row.key().as_slice(), version)?;
    }
    Ok(())
}

// The rows that the state has in the range, of which some may be left out.
fn put_rows(
    alloc: Global,
    script: &mut String,
    random: &mut Random,
    world: &World,
    namespace: &str,
    (start, end): (&[u8], &[u8]),
) -> Result<(), Failed> {
    let limit = random.below(6) as usize;
    let namespace = lent_name(namespace.as_bytes())?;
    let (start, end) = (bound(start)?, bound(end)?);
    let answer = world.range(alloc, &namespace, &start, &end, limit)?;
    Ok(put_results(alloc, script, random, world, &answer.rows)?)
}

// A range, and whether it was read to its end.
fn put_range(
    alloc: Global,
    script: &mut String,
    random: &mut Random,
    world: &World,
    namespace: &str,
) -> Result<(), Failed> {
    let start = bound_at_random(random);
    let end = bound_at_random(random);
    put_range_line(alloc, script, start, end, random.one_of(2))?;
    put_rows(alloc, script, random, world, namespace, (start, end))
}

fn put_write(alloc: Global, script: &mut String, random: &mut Random) -> Result<(), AllocError> {
    let at = Word(key_at_random(random));
    let line = if random.one_of(3) {
        format!(in alloc; "delete {at}\n")?
    } else {
        let value = random.below(200);
        format!(in alloc; "write {at} {value}\n")?
    };
    script.push_str(line.as_str())
}

// A removal, or one of the texts, seldom the last.
fn put_policy(alloc: Global, script: &mut String, random: &mut Random) -> Result<(), AllocError> {
    let at = Word(key_at_random(random));
    let number = random.below(32);
    let line = if number >= 24 {
        format!(in alloc; "nopolicy {at}\n")?
    } else {
        let text = POLICIES[if number == 23 {
            3
        } else {
            (number % 3) as usize
        }];
        format!(in alloc; "policy {at} {text}\n")?
    };
    script.push_str(line.as_str())
}

// How many items a list has.
fn count_at_random(random: &mut Random) -> u8 {
    match random.below(16) {
        0 => 2,
        1..=7 => 1,
        _ => 0,
    }
}

fn put_namespace_line(script: &mut String, namespace: &str) -> Result<(), AllocError> {
    script.push_str("ns ")?;
    script.push_str(namespace)?;
    script.push_str("\n")
}

fn put_namespace(
    alloc: Global,
    script: &mut String,
    random: &mut Random,
    world: &World,
) -> Result<(), Failed> {
    let namespace = namespace_at_random(random);
    put_namespace_line(script, namespace)?;
    for _ in 0..count_at_random(random) {
        put_read(alloc, script, random, world, namespace)?;
    }
    for _ in 0..[1, 0, 1, 2, 0, 0][random.below(6) as usize] {
        put_range(alloc, script, random, world, namespace)?;
    }
    for _ in 0..count_at_random(random) {
        put_write(alloc, script, random)?;
    }
    for _ in 0..count_at_random(random) {
        put_policy(alloc, script, random)?;
    }
    Ok(())
}

// Seldom by the forger, whose signatures are bad.
fn put_endorsement(
    script: &mut String,
    random: &mut Random,
    peer: &str,
    forger: &str,
) -> Result<(), AllocError> {
    script.push_str("endorse ")?;
    script.push_str(if random.one_of(16) { forger } else { peer })?;
    script.push_str("\n")
}

/// By no peer, by one or by both.
pub fn put_endorsements(script: &mut String, random: &mut Random) -> Result<(), AllocError> {
    let (first, count) = match random.below(8) {
        0 => (0, 0),
        1 => (1, 1),
        2 => (0, 1),
        _ => (0, 2),
    };
    for (peer, forger) in PEERS.iter().skip(first).take(count) {
        put_endorsement(script, random, peer, forger)?;
    }
    Ok(())
}

/// Seldom the forger.
pub fn creator_at_random(random: &mut Random) -> &'static str {
    CREATORS[if random.one_of(64) { 1 } else { 0 }]
}

fn put_tx_line(
    alloc: Global,
    script: &mut String,
    random: &mut Random,
    nonce: u8,
) -> Result<(), AllocError> {
    let creator = creator_at_random(random);
    let chaincode = namespace_at_random(random);
    let line = format!(in alloc; "tx {creator} n{nonce} {chaincode}\n")?;
    script.push_str(line.as_str())
}

// A transaction over the rows that the world has.
fn put_lines(
    alloc: Global,
    script: &mut String,
    random: &mut Random,
    world: &World,
    nonce: u8,
) -> Result<(), Failed> {
    put_tx_line(alloc, script, random, nonce)?;
    for _ in 0..[1, 1, 1, 2, 0][random.below(5) as usize] {
        put_namespace(alloc, script, random, world)?;
    }
    Ok(put_endorsements(script, random)?)
}

// A transaction with this nonce. One in twelve is spoiled.
fn tx_lines(
    alloc: Global,
    random: &mut Random,
    keys: &KeyBook,
    world: &World,
    nonce: u8,
) -> Result<String, Failed> {
    let mut lines = String::new(alloc);
    put_lines(alloc, &mut lines, random, world, nonce)?;
    if random.one_of(12) {
        return raw_line(alloc, random, keys, lines.as_str());
    }
    Ok(lines)
}

/// Adds a transaction with this nonce.
pub fn put_tx(
    alloc: Global,
    script: &mut String,
    random: &mut Random,
    keys: &KeyBook,
    world: &World,
    nonce: u8,
) -> Result<(), Failed> {
    let lines = tx_lines(alloc, random, keys, world, nonce)?;
    Ok(script.push_str(lines.as_str())?)
}

fn put_txs(
    alloc: Global,
    script: &mut String,
    random: &mut Random,
    keys: &KeyBook,
    world: &World,
    nonces: &mut Vec<u8>,
) -> Result<(), Failed> {
    for _ in 0..random.below(8) {
        let nonce = random.below(NONCES);
        nonces.push(nonce)?;
        put_tx(alloc, script, random, keys, world, nonce)?;
    }
    Ok(())
}

/// A script of up to seven transactions, and their nonces behind those that were there.
pub fn script_at_random(
    alloc: Global,
    random: &mut Random,
    keys: &KeyBook,
    world: &World,
    nonces: &mut Vec<u8>,
) -> Result<String, Failed> {
    let mut script = String::new(alloc);
    put_txs(alloc, &mut script, random, keys, world, nonces)?;
    Ok(script)
}
