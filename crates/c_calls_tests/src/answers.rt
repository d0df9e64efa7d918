//! What the ledger of a handle answers after the chain of 32 blocks.

use crate::caller::{NO_RECEIPT, NOWHERE, height, piece};
use c_calls::{
    FoundRow, FoundUse, HistorySizes, NONE, OK, PastWrite, ScanSizes, ScannedRow, fabcommit_block,
    fabcommit_definition, fabcommit_first_use, fabcommit_get, fabcommit_history,
    fabcommit_key_policy, fabcommit_scan,
};
use c_handle::Handle;
use chain_vectors::later_blocks::later_blocks;
use chain_vectors::rows::rows;
use chain_vectors::uses::uses;
use chain_vectors::{Left, LeftRow, Used, read_use};
use std::alloc::{AllocError, Global};
use test_support::{Failed, check};

const NO_WRITE: PastWrite = PastWrite {
    id: NOWHERE,
    value: NOWHERE,
    block: 0,
    tx: 0,
    deleted: false,
};

const NO_ROW: ScannedRow = ScannedRow {
    key: NOWHERE,
    value: NOWHERE,
    block: 0,
    tx: 0,
};

fn is_row(row: FoundRow, value: &[u8], wanted: LeftRow) -> bool {
    row.block == wanted.block
        && row.tx == wanted.tx
        && row.len == wanted.value.len()
        && value.get(..row.len) == Some(wanted.value)
}

fn check_row(alloc: Global, handle: &mut Handle, left: &Left) -> Result<(), Failed> {
    let mut row = FoundRow {
        block: 0,
        tx: 0,
        len: 0,
    };
    let mut value = [0; 256];
    let code = fabcommit_get(
        alloc,
        handle,
        left.namespace,
        left.key,
        &mut row,
        &mut value,
    );
    match left.row {
        Some(wanted) => check(code == OK && is_row(row, &value, wanted)),
        None => check(code == NONE),
    }
}

fn check_policy(alloc: Global, handle: &mut Handle, left: &Left) -> Result<(), Failed> {
    let (mut text, mut len) = ([0; 256], 0);
    let code = fabcommit_key_policy(alloc, handle, left.namespace, left.key, &mut text, &mut len);
    let wanted = match left.row {
        Some(row) => row.policy,
        None => "",
    };
    if wanted.is_empty() {
        return check(code == NONE);
    }
    check(code == OK && text.get(..len) == Some(wanted.as_bytes()))
}

/// A write as `Left` has it.
fn show_write(shown: &mut Vec<u8>, pool: &[u8], write: &PastWrite) -> Result<(), AllocError> {
    shown.extend_from_slice(&write.block.to_be_bytes())?;
    shown.extend_from_slice(&write.tx.to_be_bytes())?;
    shown.extend_from_slice(piece(pool, write.id))?;
    if write.deleted {
        return shown.extend_from_slice(b"-");
    }
    let value = piece(pool, write.value);
    shown.extend_from_slice(b"=")?;
    shown.extend_from_slice(&(value.len() as u64).to_be_bytes())?;
    shown.extend_from_slice(value)
}

fn show_writes(alloc: Global, pool: &[u8], writes: &[PastWrite]) -> Result<Vec<u8>, AllocError> {
    let mut shown = Vec::new(alloc);
    for write in writes {
        show_write(&mut shown, pool, write)?;
    }
    Ok(shown)
}

fn check_history(alloc: Global, handle: &mut Handle, left: &Left) -> Result<(), Failed> {
    let (mut pool, mut writes) = ([0; 8_192], [NO_WRITE; 32]);
    let mut sizes = HistorySizes { pool: 0, writes: 0 };
    let (namespace, key) = (left.namespace, left.key);
    let code = fabcommit_history(
        alloc,
        handle,
        namespace,
        key,
        &mut pool,
        &mut writes,
        &mut sizes,
    );
    check(code == OK)?;
    let shown = show_writes(alloc, &pool, writes.get(..sizes.writes).unwrap_or(&[]))?;
    check(shown.as_slice() == left.history)
}

fn check_use(alloc: Global, handle: &mut Handle, wanted: Used) -> Result<(), Failed> {
    let mut found = FoundUse {
        block: 0,
        tx: 0,
        flag: 0,
    };
    check(fabcommit_first_use(alloc, handle, &wanted.id, &mut found) == OK)?;
    check(found.block == wanted.block && found.tx == wanted.place && found.flag == wanted.flag)
}

/// Whether these are the rows that are left in a namespace.
fn are_rows(pool: &[u8], found: &[ScannedRow], namespace: &[u8]) -> bool {
    let mut left = rows()
        .iter()
        .filter(|left| left.namespace == namespace && left.row.is_some());
    for row in found {
        match left.next() {
            Some(wanted) if piece(pool, row.key) == wanted.key => {}
            _ => return false,
        }
    }
    left.next().is_none()
}

fn check_scan(alloc: Global, handle: &mut Handle, namespace: &[u8]) -> Result<(), Failed> {
    let (mut pool, mut found) = ([0; 8_192], [NO_ROW; 64]);
    let mut sizes = ScanSizes {
        pool: 0,
        rows: 0,
        more: false,
    };
    let code = fabcommit_scan(
        alloc, handle, namespace, b"", b"", &mut pool, &mut found, &mut sizes,
    );
    check(code == OK && !sizes.more)?;
    check(are_rows(&pool, found.get(..sizes.rows).unwrap_or(&[]), namespace))
}

fn check_definition(alloc: Global, handle: &mut Handle) -> Result<(), Failed> {
    let (mut text, mut len) = ([0; 64], 0);
    check(fabcommit_definition(alloc, handle, b"cc", &mut text, &mut len) == OK)?;
    check(text.get(..len) == Some(b"OR('Org1.peer','Org2.peer')".as_slice()))?;
    check(fabcommit_definition(alloc, handle, b"none", &mut text, &mut len) == NONE)
}

fn check_last_block(alloc: Global, handle: &mut Handle) -> Result<(), Failed> {
    let mut receipt = NO_RECEIPT;
    check(fabcommit_block(alloc, handle, 31, &mut receipt) == OK)?;
    let last = later_blocks().last();
    check(last.is_some_and(|last| receipt.header_hash == *last.header_hash))?;
    check(fabcommit_block(alloc, handle, 32, &mut receipt) == NONE)
}

/// Checks each query.
pub fn check_left(alloc: Global, handle: &mut Handle) -> Result<(), Failed> {
    check(height(alloc, handle)? == 32)?;
    for left in rows() {
        check_row(alloc, handle, left)?;
        check_policy(alloc, handle, left)?;
        check_history(alloc, handle, left)?;
    }
    for bytes in uses() {
        check_use(alloc, handle, read_use(bytes))?;
    }
    check_scan(alloc, handle, b"cc")?;
    check_definition(alloc, handle)?;
    check_last_block(alloc, handle)
}
