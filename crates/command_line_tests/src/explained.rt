//! Why transactions have their flags, from the scripts that they are drafted of.

use crate::explained::vectors::{
    block0, block1, block2, block3, block4, block5, every_flag, lines, objects,
};
use crate::files::{File, MemoryFiles};
use crate::fixture::{CHANNEL, End, Row, answered, unlike};
use crate::signatures::keys;
use command_line::{FileFault, Files};
use std::alloc::{AllocError, Global};
use std::str::from_utf8;
use std::sync::{OnceLock, Wait};
use std::thread::Threads;
use test_support::Failed;
use values::Bytes;

mod each_word;
mod policy_texts;
mod updates;
pub(crate) mod vectors;

// Files in memory, and what was written first, whatever its path.
#[derive(Drop)]
struct Desk<'a> {
    alloc: Global,
    files: MemoryFiles<'a>,
    written: OnceLock<Bytes>,
}

impl Files for Desk<'_> {
    fn read(&self, alloc: Global, path: &str) -> Result<Bytes, FileFault> {
        self.files.read(alloc, path)
    }

    fn write(&self, _path: &str, bytes: &[u8]) -> Result<(), FileFault> {
        let Ok(bytes) = Bytes::from_slice(self.alloc, bytes) else {
            return Err(FileFault::Memory);
        };
        match self.written.try_set(bytes) {
            Ok(_) => Ok(()),
            Err(_) => Err(FileFault::Inaccessible),
        }
    }
}

const NOT_DRAFTED: Failed = Failed::Missing("a drafted block");

// The block of the script `s`, drafted by these words.
pub(crate) fn drafted(
    rt: &(impl AllocGlobal + Threads + Wait + Sync),
    files: &[File<'_>],
    words: &str,
) -> Result<Bytes, Failed> {
    let desk = Desk {
        alloc: rt.alloc(),
        files: MemoryFiles(files),
        written: OnceLock::new(),
    };
    match status(rt, &desk, words) {
        Ok(0) => desk.written.into_inner().ok_or(NOT_DRAFTED),
        Ok(_) => Err(NOT_DRAFTED),
        Err(error) => Err(Failed::from(error)),
    }
}

fn status<F: Files + Sync>(
    rt: &(impl AllocGlobal + Threads + Wait + Sync),
    files: &F,
    words: &str,
) -> Result<u8, AllocError> {
    Ok(answered(rt, files, words)?.status)
}

// Whether a line with this front stands before these.
fn is_behind(said: &[u8], front: &str, lines: &str) -> bool {
    match from_utf8(said) {
        Ok(said) => match said.split_once('\n') {
            Some((first, rest)) => first.starts_with(front) && rest == lines,
            None => false,
        },
        Err(_) => false,
    }
}

fn says_reasons(ended: &End, front: &str, lines: &str) -> bool {
    ended.status == 0 && is_behind(&ended.out, front, lines)
}

// Whether explaining the last of these says these lines behind the one of the block, whose front is this.
fn is_explained(
    rt: &(impl AllocGlobal + Threads + Wait + Sync),
    files: &[File<'_>],
    words: &str,
    front: &str,
    lines: &str,
) -> Result<bool, AllocError> {
    let ended = answered(rt, &MemoryFiles(files), words)?;
    Ok(says_reasons(&ended, front, lines))
}

static FIRST: &[u8] = b"tx Org1:client:c0 n0 cc
ns cc
write k1 v1
policy k1 AND('Org1.peer','Org2.peer')
endorse Org1:peer:p0
tx Org1:client:c0 n1 cc
ns cc
write a v
endorse Org1:peer:p0
tx Org1:client:c0 n2 cc
ns cc
write c v
endorse Org1:peer:p0
";

static SECOND: &[u8] = b"raw 6e6f
tx Org1:client:c0 n1 cc
tx Org1:client:c0 n3 cc
ns cc
read a 0 1
write a w
write b v
endorse Org1:peer:p0
tx Org1:client:c0 n3 cc
tx Org1:client:c0 n4 cc
ns cc
read a 0 1
write d v
endorse Org1:peer:p0
tx Org1:client:c0 n5 cc
ns cc
range a d all
result a 0 1
result c 0 2
endorse Org1:peer:p0
tx Org1:client:c0 n6 cc
ns cc
range a d all
result a 1 2
result c 0 2
endorse Org1:peer:p0
tx Org1:client:c0 n7 cc
ns cc
write k1 x
endorse Org1:peer:p0
tx Org1:client:c0 n8 cc
ns cc
write d%20d v
tx Org1:client:c0 n9 cc
tx Org1:client:c0 n10 cc
ns cc
policy d AND('Org1.peer','Org2.peer')
endorse Org1:peer:p0
tx Org1:client:c0 n11 cc
ns cc
write d v
endorse Org1:peer:p0
tx Org1:client:c0 n12 cc
ns zz
write k v
endorse Org1:peer:p0
tx Org1:client:c0 n13 cc
ns cc
ns cc
tx Org1:client:c0 n14 cc
ns cc
read a absent
read b absent
read a absent
tx Org1:client:c0 n15 cc
ns cc
write a v
delete a
tx Org1:client:c0 n16 cc
ns cc
policy a 'Org1.peer'
nopolicy a
tx Org1:client:c0 n17 cc
ns cc
range a % part
result c 0 2
result a 0 1
tx Org1:client:c0 n18 cc
ns cc
range a d all
result d 0 0
tx Org1:client:c0 n19 cc
ns cc
policy a AND(
tx Org1:client:c0 n20 cc
ns cc
delete a
endorse Org2:peer:p0
tx Org1:client:c0 n21 cc
ns cc
read a 1 2
endorse Org2:peer:p0
tx Org1:client:c0 n22 cc
ns cc
read e 5 6
endorse Org2:peer:p0
";

const REASONS: &str = "0 2 BAD_PAYLOAD
1 9 DUPLICATE_TXID used 0 1 0 VALID
2 0 VALID
3 9 DUPLICATE_TXID used 1 2 0 VALID
4 11 MVCC_READ_CONFLICT read cc a was 0 1 is 1 2 by 2
5 12 PHANTOM_READ_CONFLICT range cc a d key a was 0 1 is 1 2 all by 2
6 12 PHANTOM_READ_CONFLICT range cc a d key b was absent is 1 2 all by 2
7 10 ENDORSEMENT_POLICY_FAILURE key cc k1 AND('Org1.peer','Org2.peer') Org1:peer:p0 missing Org2.peer
8 10 ENDORSEMENT_POLICY_FAILURE chaincode cc d%20d OR('Org1.peer','Org2.peer') missing Org1.peer
9 10 ENDORSEMENT_POLICY_FAILURE named cc OR('Org1.peer','Org2.peer') missing Org1.peer
10 0 VALID
11 10 ENDORSEMENT_POLICY_FAILURE touched cc d 10
12 25 INVALID_CHAINCODE undefined zz
13 22 BAD_RWSET repeated cc
14 22 BAD_RWSET repeated cc reads a
15 22 BAD_RWSET repeated cc writes a
16 22 BAD_RWSET repeated cc policies a
17 22 BAD_RWSET fallen cc a % key a range 0 result 1
18 22 BAD_RWSET outside cc a d key d range 0 result 0
19 22 BAD_RWSET policy cc a syntax
20 0 VALID
21 11 MVCC_READ_CONFLICT read cc a was 1 2 is absent by 20
22 11 MVCC_READ_CONFLICT read cc e was 5 6 is absent
";

// How many have each of these.
const COUNTED: &str = "\
flag 0 VALID 3
flag 2 BAD_PAYLOAD 1
flag 9 DUPLICATE_TXID 2
flag 10 ENDORSEMENT_POLICY_FAILURE 4
flag 11 MVCC_READ_CONFLICT 3
flag 12 PHANTOM_READ_CONFLICT 2
flag 22 BAD_RWSET 7
flag 25 INVALID_CHAINCODE 1
key cc a 3 stale 2 phantom 1 policy 0 touched 0 in-block 3
key cc b 1 stale 0 phantom 1 policy 0 touched 0 in-block 1
key cc d 1 stale 0 phantom 0 policy 0 touched 1 in-block 1
key cc e 1 stale 1 phantom 0 policy 0 touched 0 in-block 0
key cc k1 1 stale 0 phantom 0 policy 1 touched 0 in-block 0
chaincode cc 2 missing Org1.peer 2
";

// The files that a script is drafted from.
pub(crate) fn of_script<'a>(channel: &'a [u8], keys: &'a [u8], script: &'a [u8]) -> [File<'a>; 3] {
    [("c", channel), ("k", keys), ("s", script)]
}

// These files, and the block behind which the script is.
fn of_script_behind<'a>(keys: &'a [u8], script: &'a [u8], block: &'a [u8]) -> [File<'a>; 4] {
    [("c", CHANNEL), ("k", keys), ("s", script), ("b0", block)]
}

// The files of one block, and of two.
fn of_block<'a>(keys: &'a [u8], block: &'a [u8]) -> [File<'a>; 3] {
    [("c", CHANNEL), ("k", keys), ("b0", block)]
}

fn of_blocks<'a>(keys: &'a [u8], first: &'a [u8], second: &'a [u8]) -> [File<'a>; 4] {
    [("c", CHANNEL), ("k", keys), ("b0", first), ("b1", second)]
}

fn second_block(
    rt: &(impl AllocGlobal + Threads + Wait + Sync),
    first: &[u8],
) -> Result<Bytes, Failed> {
    let files = of_script_behind(keys(), SECOND, first);
    drafted(rt, &files, "draft --after b0 s out")
}

// All reasons, that of one transaction, and those of two with one id.
fn reasons() -> &'static [(&'static str, &'static str)] {
    &REASONS_ASKED
}

static REASONS_ASKED: [(&str, &str); 3] = [
    ("explain b0 b1", REASONS),
    (
        "explain --tx 4 b0 b1",
        "4 11 MVCC_READ_CONFLICT read cc a was 0 1 is 1 2 by 2\n",
    ),
    (
        "explain --id df9ae39a69c858c1a7bd54294d1c59f242892a6ba276255f2d18b918f5f6da6f b0 b1",
        "2 0 VALID\n3 9 DUPLICATE_TXID used 1 2 0 VALID\n",
    ),
];

// The second block once more.
const KNOWN: &str = "refused 3 C2 want 2 got 1
known 1 same 0872e4f9fd419121bb9f06dddb26f4868f2c63ec9b47837cbb53906d0da8b6a1 is 0872e4f9fd419121bb9f06dddb26f4868f2c63ec9b47837cbb53906d0da8b6a1
";

fn rows() -> &'static [Row<'static>] {
    &ROWS
}

static ROWS: [Row; 3] = [
    ("explain --tx 23 b0 b1", 2, "", "no transaction 23\n"),
    ("conflicts --from 1 b0 b1", 0, COUNTED, ""),
    ("explain b0 b1 b1", 1, KNOWN, ""),
];

fn are_explained(
    rt: &(impl AllocGlobal + Threads + Wait + Sync),
    files: &[File<'_>],
) -> Result<bool, AllocError> {
    for (words, lines) in reasons() {
        if !is_explained(rt, files, words, "block 1 ", lines)? {
            return Ok(false);
        }
    }
    Ok(unlike(rt, &MemoryFiles(files), rows())?.is_none())
}

fn are_explained_of<'a>(
    rt: &(impl AllocGlobal + Threads + Wait + Sync),
    first: &'a [u8],
    second: &'a [u8],
) -> Result<bool, AllocError> {
    let files = of_blocks(keys(), first, second);
    are_explained(rt, &files)
}

fn are_explained_behind(
    rt: &(impl AllocGlobal + Threads + Wait + Sync),
    first: &[u8],
) -> Result<bool, Failed> {
    let second = second_block(rt, first)?;
    Ok(are_explained_of(rt, first, second.as_slice())?)
}

fn are_all_explained(rt: &(impl AllocGlobal + Threads + Wait + Sync)) -> Result<bool, Failed> {
    let files = of_script(CHANNEL, keys(), FIRST);
    let first = drafted(rt, &files, "draft s out")?;
    are_explained_behind(rt, first.as_slice())
}

#[test]
fn each_kind_of_reason(rt: HostRuntime) -> Result<(), Failed> {
    assert!(rt; are_all_explained(&rt)?);
    Ok(())
}

// Whether explaining the first script, which is drafted for this channel and by these keys, says these lines.
fn is_explained_elsewhere<'a>(
    rt: &(impl AllocGlobal + Threads + Wait + Sync),
    channel: &'a [u8],
    signing: &'a [u8],
    words: &str,
    lines: &str,
) -> Result<bool, Failed> {
    let block = drafted(rt, &of_script(channel, signing, FIRST), "draft s out")?;
    Ok(is_block_explained(rt, block.as_slice(), words, lines)?)
}

pub(crate) fn is_block_explained<'a>(
    rt: &(impl AllocGlobal + Threads + Wait + Sync),
    block: &'a [u8],
    words: &str,
    lines: &str,
) -> Result<bool, AllocError> {
    let files = of_block(keys(), block);
    is_explained(rt, &files, words, "block 0 ", lines)
}

static OTHER_CHANNEL: &[u8] = b"channel other\nchaincode cc 'Org1.peer'\n";

static OTHERS: &str = "0 14 TARGET_CHAIN_NOT_FOUND channel other
1 14 TARGET_CHAIN_NOT_FOUND channel other
2 14 TARGET_CHAIN_NOT_FOUND channel other
";

static FORGING: &[u8] = b"Org1:client:c0 00\nOrg1:peer:p0 01\n";

// The channel that transactions name, and the keys that creators sign with, are none of the block's.
#[test]
fn reasons_of_the_origin(rt: HostRuntime) -> Result<(), Failed> {
    assert!(rt; is_explained_elsewhere(&rt, OTHER_CHANNEL, keys(), "explain b0", OTHERS)?);
    let forged = "1 4 BAD_CREATOR_SIGNATURE creator Org1:client:c0\n";
    assert!(rt; is_explained_elsewhere(&rt, CHANNEL, FORGING, "explain --tx 1 b0", forged)?);
    Ok(())
}

// The sample's blocks. The last of them shows every flag, and was made outside of the crates.
pub(crate) fn sample() -> [File<'static>; 9] {
    [
        ("c", CHANNEL),
        ("k", keys()),
        ("b0", block0()),
        ("b1", block1()),
        ("b2", block2()),
        ("b3", block3()),
        ("b4", block4()),
        ("b5", block5()),
        ("b6", every_flag()),
    ]
}

#[test]
fn a_reason_of_each_flag(rt: HostRuntime) -> Result<(), AllocError> {
    let rows = [
        ("explain b0 b1 b2 b3 b4 b5 b6", 0, lines(), ""),
        ("explain --json b0 b1 b2 b3 b4 b5 b6", 0, objects(), ""),
        ("explain b0 b1 b6", 1, "refused 3 C2 want 2 got 6\n", ""),
    ];
    let unlike = unlike(&rt, &MemoryFiles(&sample()), &rows)?;
    assert!(rt; unlike.is_none(), "{unlike:?}");
    Ok(())
}

const FIRST_DEFINITION: &str = "\ndefinition OR('Org1.peer','Org2.peer')\n";

const SECOND_DEFINITION: &str = "\ndefinition OR('Org1.peer','Org2.peer','Org1.admin')\n";

fn changes() -> &'static [(&'static str, &'static str)] {
    &CHANGES
}

// The policy of cc asks for a peer, until block 4 updates it. What is said of the blocks ends with this line.
static CHANGES: [(&str, &str); 5] = [
    (
        "explain b0 b1 b2 b3",
        "\n0 10 ENDORSEMENT_POLICY_FAILURE chaincode cc car4 \
        OR('Org1.peer','Org2.peer') Org1:admin:a0 missing Org1.peer\n",
    ),
    ("definition --ns cc b0 b1 b2 b3", FIRST_DEFINITION),
    ("definition --ns cc b0 b1 b2 b3 b4", SECOND_DEFINITION),
    ("definition --ns cc b0 b1 b2 b3 b4 b5", SECOND_DEFINITION),
    ("explain b0 b1 b2 b3 b4 b5", "\n0 0 VALID\n"),
];

fn ends_with_line(ended: &End, line: &str) -> bool {
    ended.status == 0 && ended.err.is_empty() && ended.out.ends_with(line.as_bytes())
}

fn is_last_line(
    rt: &(impl AllocGlobal + Threads + Wait + Sync),
    words: &str,
    line: &str,
) -> Result<bool, AllocError> {
    let ended = answered(rt, &MemoryFiles(&sample()), words)?;
    Ok(ends_with_line(&ended, line))
}

#[test]
fn a_definition_changes(rt: HostRuntime) -> Result<(), AllocError> {
    for (words, line) in changes() {
        assert!(rt; is_last_line(&rt, words, line)?, "{words:?}");
    }
    Ok(())
}
