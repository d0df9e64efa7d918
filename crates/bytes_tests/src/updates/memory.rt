//! An update that is read and written while allocations fail.

use super::{decode_update, example};
use std::alloc::Global;
use test_support::{Failed, Outcome, begins};
use transaction::{
    EncodeFault, Item, TxFault, Update, encode_update, encode_update_body, encode_update_signed,
};
use values::Bytes;

// What is written of an update.
#[derive(Clone, Copy)]
enum Part {
    Body,
    Signed,
    Whole,
}

// How many bytes each has in the example.
fn parts() -> &'static [(Part, usize)] {
    &PARTS
}

static PARTS: [(Part, usize); 3] = [(Part::Body, 100), (Part::Signed, 144), (Part::Whole, 178)];

fn written(alloc: Global, update: &Update<'_>, part: Part) -> Result<Bytes, EncodeFault> {
    match part {
        Part::Body => encode_update_body(alloc, update),
        Part::Signed => encode_update_signed(alloc, update),
        Part::Whole => encode_update(alloc, update),
    }
}

// Whether this many bytes of the example were written, or out of memory is returned.
fn is_written(written: Result<Bytes, EncodeFault>, len: usize) -> Result<bool, EncodeFault> {
    match written {
        Ok(bytes) => Ok(example().get(..len) == Some(bytes.as_slice())),
        Err(fault) => Err(fault),
    }
}

// It is written again if memory ran out.
fn outcome_of_part(alloc: Global, update: &Update<'_>, part: Part, len: usize) -> Outcome {
    match is_written(written(alloc, update, part), len) {
        Ok(true) => Outcome::Done,
        Err(EncodeFault::Memory) => match is_written(written(alloc, update, part), len) {
            Ok(true) => Outcome::MadeGood,
            _ => Outcome::Wrong,
        },
        _ => Outcome::Wrong,
    }
}

fn outcome_of_writing(alloc: Global, update: &Update<'_>) -> Outcome {
    let mut outcome = Outcome::Done;
    for &(part, len) in parts() {
        outcome = outcome.and(outcome_of_part(alloc, update, part, len));
    }
    outcome
}

// The outcome of reading it, and then of writing what was read.
fn outcome_of_reading(alloc: Global, read: Outcome) -> Result<Outcome, TxFault> {
    let spelled = decode_update(alloc, example())?;
    match spelled.item() {
        Item::Update(update) => Ok(read.and(outcome_of_writing(alloc, update))),
        Item::Tx(_) => Ok(Outcome::Wrong),
    }
}

/// The outcome of reading and writing the example.
pub fn outcome(alloc: Global) -> Result<Outcome, Failed> {
    begins(alloc)?;
    match outcome_of_reading(alloc, Outcome::Done) {
        Ok(outcome) => Ok(outcome),
        Err(TxFault::Memory) => Ok(outcome_of_reading(alloc, Outcome::MadeGood)?),
        Err(TxFault::Form) => Ok(Outcome::Wrong),
    }
}

// Run by `bench/refused_memory.py`, which lets any one allocation fail: then out of memory is returned, and the same
// call does as it should when it is called again.
#[test]
fn updates_with_refused_memory(rt: HostRuntime) -> Result<(), Failed> {
    assert!(rt; outcome(rt.alloc())? == Outcome::Done);
    Ok(())
}
