//! Short chains that each show one thing. The flags were worked out by hand, and what is left comes from a committer in Python.

use crate::fixture::named;
use crate::scripted::ScriptedPeer;
use crate::shown::{are_used, check_rows};
use block::BlockVersion;
use chain_vectors::WorkedChain;
use chain_vectors::worked_endorsers::worked_endorsers;
use chain_vectors::worked_ranges::worked_ranges;
use chain_vectors::worked_reads::worked_reads;
use std::alloc::Global;
use test_support::{Failed, check};

/// All of them, in three parts.
pub fn worked(part: u8) -> &'static [WorkedChain] {
    match part {
        0 => worked_reads(),
        1 => worked_endorsers(),
        _ => worked_ranges(),
    }
}

// Wants the blocks taken with these flags, and what they are to leave behind.
fn check_by(alloc: Global, peer: &mut ScriptedPeer, chain: &WorkedChain) -> Result<(), Failed> {
    for block in chain.blocks {
        check(peer.is_taken(alloc, block.script, block.flags)?)?;
    }
    check_rows(alloc, peer.world(), chain.left)?;
    check(are_used(peer.world(), chain.uses.as_chunks().0))
}

fn check_chain(alloc: Global, version: BlockVersion, chain: &WorkedChain) -> Result<(), Failed> {
    let mut peer = ScriptedPeer::of(alloc, version)?;
    check_by(alloc, &mut peer, chain)
}

fn check_part(
    alloc: Global,
    version: BlockVersion,
    chains: &'static [WorkedChain],
) -> Result<(), Failed> {
    for chain in chains {
        named(chain.name, check_chain(alloc, version, chain))?;
    }
    Ok(())
}

// Wants all of them in blocks of this version.
fn check_all(alloc: Global, version: BlockVersion) -> Result<(), Failed> {
    for part in 0..3 {
        check_part(alloc, version, worked(part))?;
    }
    Ok(())
}

#[test]
fn flags_and_what_is_left(rt: HostRuntime) -> Result<(), Failed> {
    check_all(rt.alloc(), BlockVersion::V1)
}

#[test]
fn the_same_in_version_2(rt: HostRuntime) -> Result<(), Failed> {
    check_all(rt.alloc(), BlockVersion::V2)
}
