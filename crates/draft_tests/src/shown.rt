//! Blocks that are shown as scripts, and drafted again from these.

mod why_raw;

use crate::fixture::{book, channel, drafted};
use block::{Block, BlockFault, BlockVersion, decode_block};
use block_scripts::{block_script, place_of_fault, raw_script};
use key_book::KeyBook;
use std::alloc::Global;
use test_support::{Failed, Random, check};
use text_lines::text_of;
use values::{Bytes, Slice};

/// The text of what a block is shown as on the channel, by these keys or by none.
pub fn shown(alloc: Global, keys: Option<&KeyBook>, bytes: &[u8]) -> Result<Bytes, Failed> {
    let block = decode_block(alloc, bytes)?;
    match keys {
        Some(keys) => Ok(block_script(alloc, &channel(alloc)?, keys, None, &block)?),
        None => Ok(raw_script(alloc, None, &block)?),
    }
}

// The block that the text drafts, of this version and as the first one.
fn drafted_text(
    alloc: Global,
    keys: &KeyBook,
    version: BlockVersion,
    text: &Bytes,
) -> Result<Bytes, Failed> {
    let Ok(text) = text_of(text.as_slice()) else {
        return Err(Failed::Missing("a text"));
    };
    match drafted(alloc, keys, version, None, text)? {
        Ok(block) => Ok(block),
        Err(_line) => Err(Failed::Unlike),
    }
}

fn have_same_txs(one: &[Slice<'_>], other: &[Slice<'_>]) -> bool {
    one.len() == other.len()
        && one
            .iter()
            .zip(other)
            .all(|(one, other)| one.as_slice() == other.as_slice())
}

fn is_drafted_again(
    alloc: Global,
    keys: &KeyBook,
    block: &Block<'_>,
    text: &Bytes,
) -> Result<(), Failed> {
    let bytes = drafted_text(alloc, keys, block.version, text)?;
    let again = decode_block(alloc, bytes.as_slice())?;
    check(have_same_txs(block.txs.as_slice(), again.txs.as_slice()))
}

/// Fails unless what the block is shown as gives its transactions again, with the keys and without.
pub fn shows(alloc: Global, keys: &KeyBook, bytes: &[u8]) -> Result<(), Failed> {
    let block = decode_block(alloc, bytes)?;
    is_drafted_again(alloc, keys, &block, &shown(alloc, Some(keys), bytes)?)?;
    is_drafted_again(alloc, keys, &block, &shown(alloc, None, bytes)?)
}

// Whether it drafts a block, and that one is shown so.
fn is_shown(
    alloc: Global,
    keys: &KeyBook,
    version: BlockVersion,
    script: &str,
    text: &str,
) -> Result<bool, Failed> {
    let Ok(block) = drafted(alloc, keys, version, None, script)? else {
        return Ok(false);
    };
    shows(alloc, keys, block.as_slice())?;
    let shown = shown(alloc, Some(keys), block.as_slice())?;
    Ok(shown.as_slice() == text.as_bytes())
}

// Each line that a script can have.
const SCRIPT: &str = "tx Org1:client:c0 % cc
ns cc
policy k%20 OR('Org1.peer', 'Org2.peer')
nopolicy l
write a %
delete b
range % z part
result a 18446744073709551615 4294967295
result b 0 1
range a % all
read a 7 8
read b absent
ns dd
endorse Org1:peer:p0
endorse Org1:client:c0
update Org1:client:c0 n%FF cc no  policy
endorse Org1:peer:p0
raw 00FF
raw
";

// As vectors/showing.py has it.
const SHOWN: &str = "# block 0 of version 2, transactions: 4
# header hash 3b514bc6ba422b72b44d576e5384b90f70664b98ce9d1927c126a619d5654cf1
# previous hash none
# data hash 56cabff33a48ec999586b37c99c16d449582d270b5f049af47898bc16a9140de, that of its transactions

# 0 transaction, id d86ced12760e424e0e8e72557ea71599f618d98e145b680dc8c08dd1deeeeeb7
tx Org1:client:c0 % cc
ns cc
read a 7 8
read b absent
range % z part
result a 18446744073709551615 4294967295
result b 0 1
range a % all
write a %
delete b
policy k%20 OR('Org1.peer', 'Org2.peer')
nopolicy l
ns dd
endorse Org1:peer:p0
endorse Org1:client:c0

# 1 update, id ddb66c121be7021867f8f926b8c25c4f078543b95e3b8ba2e171305ffa3e4bef
update Org1:client:c0 n%FF cc no  policy
endorse Org1:peer:p0

# 2 no transaction
raw 00ff

# 3 no transaction
raw
";

#[test]
fn each_line_of_a_script(rt: HostRuntime) -> Result<(), Failed> {
    let keys = book(rt.alloc())?;
    assert!(rt; is_shown(rt.alloc(), &keys, BlockVersion::V2, SCRIPT, SHOWN)?);
    Ok(())
}

// How far each front of a block is read, and how far it is with another byte: the place of what can't be.
static CUTS: [(usize, usize); 14] = [
    (0, 0),
    (3, 0),
    (4, 4),
    (11, 4),
    (12, 12),
    (13, 13),
    (44, 13),
    (45, 45),
    (48, 45),
    (49, 49),
    (52, 49),
    (53, 53),
    (55, 53),
    (56, 56),
];

static CHANGES: [(usize, u8, usize); 6] = [
    (3, b'3', 0),
    (12, 31, 12),
    (12, 32, 45),
    (45, 1, 45),
    (49, 1, 49),
    (52, 2, 55),
];

// Block 0 with one transaction of three bytes.
fn small_block(alloc: Global) -> Result<Bytes, Failed> {
    let keys = book(alloc)?;
    match drafted(alloc, &keys, BlockVersion::V1, None, "raw 010203")? {
        Ok(block) => Ok(block),
        Err(_line) => Err(Failed::Missing("a block")),
    }
}

fn are_cut_so(block: &[u8]) -> bool {
    CUTS.iter().all(|(len, place)| place_of_fault(block.get(..*len).unwrap_or_default()) == *place)
}

fn is_changed_so(alloc: Global, block: &[u8], change: &(usize, u8, usize)) -> Result<bool, Failed> {
    let (at, byte, place) = *change;
    let mut bytes = Vec::from_slice(alloc, block)?;
    if let Some(there) = bytes.get_mut(at) {
        *there = byte;
    }
    Ok(place_of_fault(bytes.as_slice()) == place)
}

fn are_changed_so(alloc: Global, block: &[u8]) -> Result<bool, Failed> {
    for change in &CHANGES {
        if !is_changed_so(alloc, block, change)? {
            return Ok(false);
        }
    }
    Ok(true)
}

#[test]
fn where_bytes_stop_being_a_block(rt: HostRuntime) -> Result<(), Failed> {
    let block = small_block(rt.alloc())?;
    assert!(rt; block.len() == 56);
    assert!(rt; are_cut_so(block.as_slice()));
    assert!(rt; are_changed_so(rt.alloc(), block.as_slice())?);
    Ok(())
}

// The header and the count stay.
fn change_some(random: &mut Random, bytes: &mut [u8]) {
    for byte in bytes.iter_mut().skip(49) {
        if random.one_of(200) {
            *byte ^= 1 << random.below(8);
        }
    }
}

// Bytes of a drafted transaction or update, some of them changed, are shown and drafted again.
fn are_shown_changed(
    alloc: Global,
    keys: &KeyBook,
    random: &mut Random,
    block: &[u8],
) -> Result<(), Failed> {
    let mut bytes = Vec::from_slice(alloc, block)?;
    change_some(random, bytes.as_mut_slice());
    match decode_block(alloc, bytes.as_slice()) {
        Ok(_) => shows(alloc, keys, bytes.as_slice()),
        Err(BlockFault::Memory) => Err(Failed::from(BlockFault::Memory)),
        // a length was changed
        Err(_) => Ok(()),
    }
}

fn are_shown_at_random(alloc: Global, keys: &KeyBook, times: u32) -> Result<(), Failed> {
    let mut random = Random::new(44);
    let Ok(block) = drafted(alloc, keys, BlockVersion::V2, None, SCRIPT)? else {
        return Err(Failed::Missing("a block"));
    };
    for _ in 0..times {
        are_shown_changed(alloc, keys, &mut random, block.as_slice())?;
    }
    Ok(())
}

#[test]
fn blocks_with_changed_bytes(rt: HostRuntime) -> Result<(), Failed> {
    let keys = book(rt.alloc())?;
    are_shown_at_random(rt.alloc(), &keys, 200)
}
