//! What made the transactions of the chain of 32 blocks invalid, in the lines that a reader in Python prints for them.

use crate::vectors::{COUNTS, LATER_COUNTS};
use chain_vectors::first_blocks::first_blocks;
use chain_vectors::later_blocks::later_blocks;
use chain_vectors::{CHANNEL, Committed, SaysOk};
use channel::Channel;
use cli_lines::write_report;
use cli_values::Format;
use conflicts::Tally;
use ledger::Ledger;
use reasons::Reason;
use std::alloc::Global;
use test_support::{Failed, check};

// Counts each block in each of the tallies.
fn count(ledger: &mut Ledger, tallies: &mut [Tally], blocks: &[Committed]) -> Result<(), Failed> {
    for block in blocks {
        let reasons = ledger.explain(block.bytes, &SaysOk)?;
        ledger.submit_one(block.bytes, &SaysOk)?;
        add(tallies, reasons.as_slice())?;
    }
    Ok(())
}

fn add(tallies: &mut [Tally], reasons: &[Reason]) -> Result<(), Failed> {
    for tally in tallies {
        tally.add(reasons)?;
    }
    Ok(())
}

fn check_report(alloc: Global, tally: &Tally, top: usize, lines: &str) -> Result<(), Failed> {
    let keys = tally.worst_keys(alloc, top)?;
    let chaincodes = tally.chaincodes(alloc)?;
    let mut text = Vec::new(alloc);
    let (keys, chaincodes) = (keys.as_slice(), chaincodes.as_slice());
    write_report(&mut text, Format::Plain, tally, keys, chaincodes)?;
    check(text.as_slice() == lines.as_bytes())
}

// Of all blocks, and of the later half.
fn count_all(ledger: &mut Ledger, tallies: &mut [Tally; 2]) -> Result<(), Failed> {
    count(ledger, &mut tallies[..1], first_blocks())?;
    count(ledger, tallies, later_blocks())
}

#[test]
fn counts_of_the_chain(rt: HostRuntime) -> Result<(), Failed> {
    let alloc = rt.alloc();
    let mut ledger = Ledger::open(alloc, Channel::read(alloc, CHANNEL)?);
    let mut tallies = [Tally::new(alloc), Tally::new(alloc)];
    count_all(&mut ledger, &mut tallies)?;
    check_report(alloc, &tallies[0], 20, COUNTS)?;
    check_report(alloc, &tallies[1], 3, LATER_COUNTS)
}
