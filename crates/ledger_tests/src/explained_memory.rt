//! Want of memory while a block is explained.

use crate::explained_memory::vectors::{first_block, flags, keys, second_block};
use crate::fixture::{explained, have_flags, ledger_with, read_keys, submitted};
use crate::shown::shown;
use key_book::KeyBook;
use ledger::Ledger;
use rules::Refused;
use std::alloc::Global;
use test_support::{Failed, Outcome, begins, check};

mod vectors;

fn is_explained(ledger: &Ledger, keys: &KeyBook) -> Result<bool, Refused> {
    let reasons = explained(ledger, second_block(), keys)?;
    Ok(have_flags(reasons.as_slice(), flags()))
}

// Wants the ledger as it was shown, and the block explained next.
fn check_made_good(
    alloc: Global,
    ledger: &Ledger,
    keys: &KeyBook,
    before: &[u8],
) -> Result<(), Failed> {
    let shown = shown(alloc, ledger.view())?;
    check(shown.as_slice() == before)?;
    check(is_explained(ledger, keys)?)
}

fn outcome_of_explain(
    alloc: Global,
    ledger: &Ledger,
    keys: &KeyBook,
    before: &[u8],
) -> Result<Outcome, Failed> {
    begins(alloc)?;
    match is_explained(ledger, keys) {
        Ok(true) => Ok(Outcome::Done),
        Err(Refused::Memory) => {
            check_made_good(alloc, ledger, keys, before)?;
            Ok(Outcome::MadeGood)
        }
        _ => Ok(Outcome::Wrong),
    }
}

fn outcome_behind_first(alloc: Global, ledger: &Ledger, keys: &KeyBook) -> Result<Outcome, Failed> {
    let before = shown(alloc, ledger.view())?;
    outcome_of_explain(alloc, ledger, keys, &before)
}

fn take_first(ledger: &mut Ledger, keys: &KeyBook) -> Result<(), Refused> {
    submitted(ledger, first_block(), keys)?;
    Ok(())
}

fn outcome_by(alloc: Global, keys: &KeyBook) -> Result<Outcome, Failed> {
    let mut ledger = ledger_with(alloc, "")?;
    take_first(&mut ledger, keys)?;
    outcome_behind_first(alloc, &ledger, keys)
}

/// What comes of explaining a block.
pub fn outcome(alloc: Global) -> Result<Outcome, Failed> {
    let keys = read_keys(alloc, keys())?;
    outcome_by(alloc, &keys)
}

// To be tried with memory that is refused at any one allocation of the call, by `bench/refused_memory.py`. Where it is
// refused before or after, it ends by `?`.
#[test]
fn reasons(rt: HostRuntime) -> Result<(), Failed> {
    assert!(rt; outcome(rt.alloc())? == Outcome::Done);
    Ok(())
}
