//! Prepared blocks that aren't taken: for another channel text, out of turn, twice; and blocks that can't be prepared.

use crate::fixture::ledger_with;
use crate::shown::shown;
use ahead::{NotPrepared, PreparedBlock, prepare_for, submit_prepared};
use block::BlockFault;
use chain_vectors::first_blocks::first_blocks;
use chain_vectors::{CHANNEL, SaysOk};
use channel::ChannelFault;
use ledger::Ledger;
use rules::Refused;
use std::alloc::Global;
use test_support::{Failed, check};

fn prepared<'b>(
    alloc: Global,
    text: &str,
    bytes: &'b [u8],
) -> Result<PreparedBlock<'b>, NotPrepared> {
    prepare_for(alloc, text, bytes, &SaysOk)
}

fn made<'b>(alloc: Global, text: &str, bytes: &'b [u8]) -> Result<PreparedBlock<'b>, Failed> {
    match prepared(alloc, text, bytes) {
        Ok(made) => Ok(made),
        Err(_) => Err(Failed::Missing("a prepared block")),
    }
}

fn first_bytes(number: usize) -> Result<&'static [u8], Failed> {
    match first_blocks().get(number) {
        Some(block) => Ok(block.bytes),
        None => Err(Failed::Missing("a block")),
    }
}

fn refusal(ledger: &mut Ledger, made: PreparedBlock<'_>) -> Option<Refused> {
    match submit_prepared(ledger, CHANNEL.as_bytes(), made) {
        Some(Err(refused)) => Some(refused),
        _ => None,
    }
}

fn is_taken(ledger: &mut Ledger, made: PreparedBlock<'_>) -> bool {
    matches!(
        submit_prepared(ledger, CHANNEL.as_bytes(), made),
        Some(Ok(_))
    )
}

// The ledger shows what it showed before.
fn check_same(alloc: Global, ledger: &Ledger, before: &[u8]) -> Result<(), Failed> {
    check(shown(alloc, ledger.view())?.as_slice() == before)
}

fn check_other_channel(alloc: Global) -> Result<(), Failed> {
    let mut ledger = ledger_with(alloc, "")?;
    let before = shown(alloc, ledger.view())?;
    let other = format!(in alloc; "{CHANNEL}chaincode more OutOf(1,'Org1.peer')\n")?;
    let made_for_other = made(alloc, other.as_str(), first_bytes(0)?)?;
    check(submit_prepared(&mut ledger, CHANNEL.as_bytes(), made_for_other).is_none())?;
    check_same(alloc, &ledger, &before)?;
    // the same block for this channel is taken afterwards
    check(is_taken(&mut ledger, made(alloc, CHANNEL, first_bytes(0)?)?))
}

#[test]
fn a_block_for_another_channel_text_changes_nothing(rt: HostRuntime) -> Result<(), Failed> {
    check_other_channel(rt.alloc())
}

fn check_turns(alloc: Global) -> Result<(), Failed> {
    let mut ledger = ledger_with(alloc, "")?;
    let second = made(alloc, CHANNEL, first_bytes(1)?)?;
    let again = made(alloc, CHANNEL, first_bytes(0)?)?;
    let first = made(alloc, CHANNEL, first_bytes(0)?)?;
    let early = made(alloc, CHANNEL, first_bytes(1)?)?;
    let early = refusal(&mut ledger, early);
    check(early == Some(Refused::WrongNumber { want: 0, got: 1 }))?;
    check(is_taken(&mut ledger, first))?;
    let twice = refusal(&mut ledger, again);
    check(twice == Some(Refused::WrongNumber { want: 1, got: 0 }))?;
    check(is_taken(&mut ledger, second))?;
    check(ledger.view().height() == 2)
}

#[test]
fn a_block_out_of_turn_changes_nothing(rt: HostRuntime) -> Result<(), Failed> {
    check_turns(rt.alloc())
}

fn check_not_prepared(alloc: Global) -> Result<(), Failed> {
    let bytes = first_bytes(0)?;
    match prepared(alloc, "chaincode cc OutOf(1,'Org1.peer')\n", bytes) {
        Err(NotPrepared::Channel(ChannelFault::NoChannel)) => {}
        _ => return Err(Failed::Unlike),
    }
    match prepared(alloc, CHANNEL, &bytes[1..]) {
        Err(NotPrepared::Block(Refused::Malformed(BlockFault::BadMagic))) => Ok(()),
        _ => Err(Failed::Unlike),
    }
}

#[test]
fn no_block_of_a_bad_text_or_bad_bytes(rt: HostRuntime) -> Result<(), Failed> {
    check_not_prepared(rt.alloc())
}
