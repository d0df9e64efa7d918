use block::BlockFault;
use std::alloc::{AllocError, Global};
use std::fmt::Display;
use transaction::{EncodeFault, TxFault};

fn of_blocks() -> &'static [(BlockFault, &'static str)] {
    &OF_BLOCKS
}

static OF_BLOCKS: [(BlockFault, &str); 7] = [
    (BlockFault::BadMagic, "the bytes don't begin with the magic"),
    (
        BlockFault::Truncated,
        "fewer bytes remain than the next field has",
    ),
    (
        BlockFault::PreviousLength,
        "the previous hash has neither 0 nor 32 bytes",
    ),
    (BlockFault::TooManyTxs, "more than 4096 transactions"),
    (
        BlockFault::TxTooLong,
        "a transaction of more than 1048576 bytes",
    ),
    (
        BlockFault::TrailingBytes,
        "bytes remain behind the last transaction",
    ),
    (BlockFault::Memory, "out of memory"),
];

fn of_transactions() -> &'static [(TxFault, &'static str)] {
    &OF_TRANSACTIONS
}

static OF_TRANSACTIONS: [(TxFault, &str); 2] = [
    (TxFault::Form, "the bytes have another form"),
    (TxFault::Memory, "out of memory"),
];

fn of_values() -> &'static [(EncodeFault, &'static str)] {
    &OF_VALUES
}

static OF_VALUES: [(EncodeFault, &str); 2] = [
    (EncodeFault::TooLarge, "too large to be spelled"),
    (EncodeFault::Memory, "out of memory"),
];

fn is_told(alloc: Global, fault: &impl Display, text: &str) -> Result<bool, AllocError> {
    let told = format!(in alloc; "{fault}")?;
    Ok(told.as_str() == text)
}

fn are_told<F: Display>(alloc: Global, rows: &[(F, &str)]) -> Result<bool, AllocError> {
    for (fault, text) in rows {
        if !is_told(alloc, fault, text)? {
            return Ok(false);
        }
    }
    Ok(true)
}

#[test]
fn each_fault_is_told(rt: HostRuntime) -> Result<(), AllocError> {
    assert!(rt; are_told(rt.alloc(), of_blocks())?);
    assert!(rt; are_told(rt.alloc(), of_transactions())?);
    assert!(rt; are_told(rt.alloc(), of_values())?);
    Ok(())
}
