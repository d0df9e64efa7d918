//! Updates of definitions by the ledger and by committers: their flags, the reasons of these, and what counts behind them.

use crate::fixture::{
    definition_text, explained, have_flags, is_taken_by, ledger_with, numbered, read_keys,
};
use crate::scripted::next_block;
use crate::update_faults::have_faults;
use crate::update_rows::{FIRST_POLICY, UpdateBlock, UpdateChain, chains, refusals};
use crate::updates_by_workers::check_in_all;
use block::BlockVersion;
use key_book::KeyBook;
use ledger::Ledger;
use std::alloc::Global;
use std::sync::Wait;
use std::thread::Threads;
use test_support::{Failed, check};
use values::{Bytes, Shared};

pub const KEYS: &str = "\
Org1:client:c0 11
Org1:peer:p0 22
Org2:peer:q0 33
Org1:admin:a0 44
";

fn check_definition(alloc: Global, ledger: &Ledger, policy: &str) -> Result<(), Failed> {
    let text = definition_text(alloc, ledger.view().definitions(), b"cc")?;
    check(text.as_str() == policy)
}

fn check_explained(
    alloc: Global,
    ledger: &Ledger,
    keys: &KeyBook,
    bytes: &Bytes,
    block: &UpdateBlock<'_>,
) -> Result<(), Failed> {
    let reasons = explained(ledger, bytes.as_slice(), keys)?;
    check(have_flags(reasons.as_slice(), block.flags))?;
    check(have_faults(alloc, reasons.as_slice(), block.faults)?)
}

// Wants the block explained so, and then taken so.
fn check_taken(
    alloc: Global,
    ledger: &mut Ledger,
    keys: &KeyBook,
    bytes: &Bytes,
    block: &UpdateBlock<'_>,
) -> Result<(), Failed> {
    check_explained(alloc, ledger, keys, bytes, block)?;
    check(is_taken_by(ledger, bytes.as_slice(), keys, block.flags)?)?;
    check_definition(alloc, ledger, block.policy)
}

fn add_taken(
    alloc: Global,
    ledger: &mut Ledger,
    keys: &KeyBook,
    version: BlockVersion,
    block: &UpdateBlock<'_>,
    blocks: &mut Vec<Shared<Bytes>>,
) -> Result<(), Failed> {
    let bytes = next_block(alloc, keys, version, ledger.view(), block.script)?;
    check_taken(alloc, ledger, keys, &bytes, block)?;
    Ok(blocks.push(Shared::new(alloc, bytes)?)?)
}

fn add_all(
    alloc: Global,
    ledger: &mut Ledger,
    keys: &KeyBook,
    version: BlockVersion,
    chain: &UpdateChain<'_>,
    blocks: &mut Vec<Shared<Bytes>>,
) -> Result<(), Failed> {
    check_definition(alloc, ledger, FIRST_POLICY)?;
    for block in chain.blocks {
        add_taken(alloc, ledger, keys, version, block, blocks)?;
    }
    Ok(())
}

fn add_by_ledger(
    alloc: Global,
    keys: &KeyBook,
    version: BlockVersion,
    chain: &UpdateChain<'_>,
    blocks: &mut Vec<Shared<Bytes>>,
) -> Result<(), Failed> {
    let mut ledger = ledger_with(alloc, chain.line)?;
    add_all(alloc, &mut ledger, keys, version, chain, blocks)
}

// The bytes of the blocks, which a ledger has taken.
fn taken(
    alloc: Global,
    keys: &KeyBook,
    version: BlockVersion,
    chain: &UpdateChain<'_>,
) -> Result<Vec<Shared<Bytes>>, Failed> {
    let mut blocks = Vec::new(alloc);
    add_by_ledger(alloc, keys, version, chain, &mut blocks)?;
    Ok(blocks)
}

/// By a ledger, and by committers.
pub fn check_chain<R: Threads + Wait + Sync>(
    rt: &R,
    alloc: Global,
    keys: &KeyBook,
    version: BlockVersion,
    chain: &UpdateChain<'_>,
) -> Result<(), Failed> {
    let blocks = taken(alloc, keys, version, chain)?;
    check_in_all(rt, alloc, keys, &blocks, chain)
}

fn check_each<R: Threads + Wait + Sync>(
    rt: &R,
    alloc: Global,
    keys: &KeyBook,
    chains: &[UpdateChain<'_>],
) -> Result<(), Failed> {
    for (number, chain) in chains.iter().enumerate() {
        let checked = check_chain(rt, alloc, keys, BlockVersion::V2, chain);
        numbered(number as u64, checked)?;
    }
    Ok(())
}

// A chain that isn't so is told by its number.
fn check_chains<R: Threads + Wait + Sync>(
    rt: &R,
    alloc: Global,
    chains: &[UpdateChain<'_>],
) -> Result<(), Failed> {
    let keys = read_keys(alloc, KEYS)?;
    check_each(rt, alloc, &keys, chains)
}

#[test]
fn updates_count_from_the_next_block_on(rt: HostRuntime) -> Result<(), Failed> {
    check_chains(&rt, rt.alloc(), chains())
}

#[test]
fn updates_that_change_nothing(rt: HostRuntime) -> Result<(), Failed> {
    check_chains(&rt, rt.alloc(), refusals())
}
