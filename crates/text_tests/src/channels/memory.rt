//! Channel texts that are read with memory that is refused: that is no fault of the text.

use super::fault_of;
use channel::ChannelFault;
use policy::PolicyFault;
use std::alloc::Global;
use test_support::{Failed, Outcome, begins};

// Texts, and the fault that each has.
fn texts() -> &'static [(&'static str, Option<ChannelFault>)] {
    &TEXTS
}

static TEXTS: [(&str, Option<ChannelFault>); 4] = [
    (
        "channel ch\nadmin AND('A.admin','B.admin')\nchaincode cc OR('A.peer','B.peer')\nchaincode dd 'A.peer'",
        None,
    ),
    (
        "channel ch\nchaincode cc OR('A.peer','B.peer')\nchaincode dd AND('A.peer',",
        Some(ChannelFault::Policy(3, PolicyFault::Syntax { at: 13 })),
    ),
    (
        "channel ch\nadmin AND('A.peer',",
        Some(ChannelFault::Policy(2, PolicyFault::Syntax { at: 13 })),
    ),
    (
        "admin OR('A.admin')\nadmin OR('A.admin')",
        Some(ChannelFault::Repeated(2)),
    ),
];

// A text that is read again where memory was wanting.
fn outcome_of_text(alloc: Global, text: &str, expected: &Option<ChannelFault>) -> Outcome {
    let first = fault_of(alloc, text);
    if first == *expected {
        Outcome::Done
    } else if first == Some(ChannelFault::Memory) && fault_of(alloc, text) == *expected {
        Outcome::MadeGood
    } else {
        Outcome::Wrong
    }
}

/// What comes of reading each text.
pub fn outcome(alloc: Global) -> Result<Outcome, Failed> {
    begins(alloc)?;
    let mut outcome = Outcome::Done;
    for (text, expected) in texts() {
        outcome = outcome.and(outcome_of_text(alloc, text, expected));
    }
    Ok(outcome)
}

// To be tried with memory that is refused at any one allocation, by `bench/refused_memory.py`: then one text answers
// want of memory, and the fault that it has when it is read again.
#[test]
fn refused_memory_is_no_fault_of_the_text(rt: HostRuntime) -> Result<(), Failed> {
    assert!(rt; outcome(rt.alloc())? == Outcome::Done);
    Ok(())
}
