use block::BlockFault;
use rules::Refused;
use std::alloc::{AllocError, Global};
use test_support::Failed;

fn told() -> &'static [(Refused, &'static str)] {
    &TOLD
}

static TOLD: [(Refused, &str); 6] = [
    (
        Refused::Malformed(BlockFault::TrailingBytes),
        "no block: bytes remain behind the last transaction",
    ),
    (
        Refused::WrongNumber { want: 2, got: 300 },
        "block 300 where block 2 is next",
    ),
    (
        Refused::WrongPrevious,
        "not the header hash of the block before",
    ),
    (
        Refused::WrongDataHash,
        "not the data hash of the transactions",
    ),
    (
        Refused::OldVersion,
        "a block of version 1 behind one of version 2",
    ),
    (Refused::Memory, "out of memory"),
];

fn is_told(alloc: Global, refused: Refused, text: &str) -> Result<bool, AllocError> {
    Ok(format!(in alloc; "{refused}")?.as_str() == text)
}

#[test]
fn each_refusal_is_told(rt: HostRuntime) -> Result<(), Failed> {
    for &(refused, text) in told() {
        assert!(rt; is_told(rt.alloc(), refused, text)?, "{text}");
    }
    Ok(())
}
