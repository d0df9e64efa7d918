//! Which items a block of either version has.

use super::{EXAMPLE, are_parts};
use crate::fields::with_field;
use crate::transactions;
use std::alloc::Global;
use transaction::{BlockVersion, Item, TxFault, decode_item};

// Whether the item that is read is an update.
fn is_update(alloc: Global, version: BlockVersion, bytes: &[u8]) -> Result<bool, TxFault> {
    match decode_item(alloc, version, bytes)?.item() {
        Item::Update(_) => Ok(true),
        Item::Tx(_) => Ok(false),
    }
}

// What is read in a block of version 1, and in one of version 2.
type InBoth = [Result<bool, TxFault>; 2];

fn in_both(alloc: Global, bytes: &[u8]) -> InBoth {
    [
        is_update(alloc, BlockVersion::V1, bytes),
        is_update(alloc, BlockVersion::V2, bytes),
    ]
}

const NONE: Result<bool, TxFault> = Err(TxFault::Form);

// Bytes, how many are left out in front, what replaces them, and what is read.
type Row = (&'static [u8], usize, &'static [u8], InBoth);

fn rows() -> &'static [Row] {
    &ROWS
}

static ROWS: [Row; 6] = [
    // The update, and the same without its mark.
    (EXAMPLE, 0, b"", [NONE, Ok(true)]),
    (EXAMPLE, 1, b"", [NONE, NONE]),
    // The transaction, and the same after a mark.
    (transactions::EXAMPLE, 0, b"", [Ok(false), Ok(false)]),
    (transactions::EXAMPLE, 0, b"\0", [NONE, NONE]),
    // No bytes, and only a mark.
    (b"", 0, b"", [NONE, NONE]),
    (b"", 0, b"\0", [NONE, NONE]),
];

fn is_as_said(alloc: Global, row: &Row) -> Result<bool, TxFault> {
    let &(bytes, left_out, front, wanted) = row;
    let bytes = with_field(alloc, bytes, 0, left_out, front)?;
    Ok(in_both(alloc, &bytes) == wanted)
}

// In a block of either version.
fn are_parts_of_transaction(alloc: Global, version: BlockVersion) -> Result<bool, TxFault> {
    let bytes = transactions::EXAMPLE.as_slice();
    let spelled = decode_item(alloc, version, bytes)?;
    let creator = b"\x04Org1\x01\x02c0";
    Ok(are_parts(&spelled, bytes.get(..122), bytes.get(..166), creator))
}

#[test]
fn items_of_both_versions(rt: HostRuntime) -> Result<(), TxFault> {
    for (number, row) in rows().iter().enumerate() {
        assert!(rt; is_as_said(rt.alloc(), row)?, "row {number}");
    }
    assert!(rt; are_parts_of_transaction(rt.alloc(), BlockVersion::V1)?);
    assert!(rt; are_parts_of_transaction(rt.alloc(), BlockVersion::V2)?);
    Ok(())
}
