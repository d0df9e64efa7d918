//! Parts of a world as bytes, which tell one from another.

use crate::fixture::{definition_text, lent_key, lent_name, policy_text, row_at};
use chain_vectors::rows::rows;
use chain_vectors::uses::uses;
use chain_vectors::{Left, LeftRow, Used, read_use};
use rules::{FirstUse, HistoryEntry, Row};
use std::alloc::{AllocError, Global};
use test_support::{Failed, check};
use transaction::TxId;
use world::World;

// A version, or a place of a first use.
fn show_place(shown: &mut Vec<u8>, block: u64, place: u32) -> Result<(), AllocError> {
    shown.extend_from_slice(&block.to_be_bytes())?;
    shown.extend_from_slice(&place.to_be_bytes())
}

fn show_row(alloc: Global, shown: &mut Vec<u8>, row: Option<&Row>) -> Result<(), AllocError> {
    let Some(row) = row else {
        shown.push(0)?;
        return Ok(());
    };
    shown.push(1)?;
    shown.extend_from_slice(row.value.as_slice())?;
    show_place(shown, row.version.block, row.version.tx)?;
    show_policy(alloc, shown, row)
}

fn show_policy(alloc: Global, shown: &mut Vec<u8>, row: &Row) -> Result<(), AllocError> {
    let text = policy_text(alloc, row)?;
    shown.extend_from_slice(text.as_bytes())
}

// What `show_row` shows of the row that is wanted.
fn show_wanted(wanted: &mut Vec<u8>, row: &Option<LeftRow>) -> Result<(), AllocError> {
    let Some(row) = row else {
        wanted.push(0)?;
        return Ok(());
    };
    wanted.push(1)?;
    wanted.extend_from_slice(row.value)?;
    show_place(wanted, row.block, row.tx)?;
    wanted.extend_from_slice(row.policy.as_bytes())?;
    Ok(())
}

/// Whether the row that was found is the wanted one, or both are none.
pub fn is_wanted_row(
    alloc: Global,
    found: Option<&Row>,
    wanted: &Option<LeftRow>,
) -> Result<bool, AllocError> {
    let mut shown = Vec::new(alloc);
    show_row(alloc, &mut shown, found)?;
    is_shown(alloc, &shown, wanted)
}

fn is_shown(alloc: Global, shown: &[u8], wanted: &Option<LeftRow>) -> Result<bool, AllocError> {
    let mut shown_wanted = Vec::new(alloc);
    show_wanted(&mut shown_wanted, wanted)?;
    Ok(shown == shown_wanted.as_slice())
}

/// Whether the row is this one, or none.
pub fn is_row(
    alloc: Global,
    world: &World,
    namespace: &[u8],
    at: &[u8],
    row: &Option<LeftRow>,
) -> Result<bool, Failed> {
    let found = row_at(world, namespace, at)?;
    Ok(is_wanted_row(alloc, found, row)?)
}

// As `Left::history` has it.
fn show_entry(shown: &mut Vec<u8>, entry: &HistoryEntry) -> Result<(), AllocError> {
    show_place(shown, entry.version.block, entry.version.tx)?;
    shown.extend_from_slice(&entry.id)?;
    match &entry.value {
        None => {
            shown.push(b'-')?;
            Ok(())
        }
        Some(value) => show_value(shown, value.as_slice()),
    }
}

fn show_value(shown: &mut Vec<u8>, value: &[u8]) -> Result<(), AllocError> {
    shown.push(b'=')?;
    shown.extend_from_slice(&value.len().to_be_bytes())?;
    shown.extend_from_slice(value)
}

fn show_entries(shown: &mut Vec<u8>, entries: &[HistoryEntry]) -> Result<(), AllocError> {
    for entry in entries {
        show_entry(shown, entry)?;
    }
    Ok(())
}

/// Whether these entries are a history as `Left::history` has it.
pub fn is_wanted_history(
    alloc: Global,
    entries: &[HistoryEntry],
    wanted: &[u8],
) -> Result<bool, AllocError> {
    let mut shown = Vec::new(alloc);
    show_entries(&mut shown, entries)?;
    Ok(shown.as_slice() == wanted)
}

fn show_history(shown: &mut Vec<u8>, world: &World, left: &Left) -> Result<(), Failed> {
    let namespace = lent_name(left.namespace)?;
    let at = lent_key(left.key)?;
    for entry in world.history(&namespace, &at) {
        show_entry(shown, &entry.entry()?)?;
    }
    Ok(())
}

/// Whether the history is the wanted one.
pub fn is_history(alloc: Global, world: &World, left: &Left) -> Result<bool, Failed> {
    let mut shown = Vec::new(alloc);
    show_history(&mut shown, world, left)?;
    Ok(shown.as_slice() == left.history)
}

/// Whether the first use that was found is the wanted one.
pub fn is_wanted_use(found: Option<FirstUse>, wanted: Used) -> bool {
    match found {
        None => false,
        Some(used) => {
            (used.block, used.place, used.flag.number())
                == (wanted.block, wanted.place, wanted.flag)
        }
    }
}

/// Wants these rows and histories.
pub fn check_rows(alloc: Global, world: &World, rows: &[Left]) -> Result<(), Failed> {
    for left in rows {
        check(is_row(alloc, world, left.namespace, left.key, &left.row)?)?;
        check(is_history(alloc, world, left)?)?;
    }
    Ok(())
}

/// Whether these are the first uses.
pub fn are_used(world: &World, uses: &[[u8; 67]]) -> bool {
    for bytes in uses {
        let used = read_use(bytes);
        if !is_wanted_use(world.flag_of(&used.id), used) {
            return false;
        }
    }
    true
}

fn show_use(shown: &mut Vec<u8>, world: &World, id: &TxId) -> Result<(), AllocError> {
    if let Some(used) = world.flag_of(id) {
        show_place(shown, used.block, used.place)?;
        shown.push(used.flag.number())?;
    }
    shown.push(b';')?;
    Ok(())
}

fn show_uses(shown: &mut Vec<u8>, world: &World) -> Result<(), AllocError> {
    for bytes in uses() {
        show_use(shown, world, &read_use(bytes).id)?;
    }
    Ok(())
}

fn show_definition(
    alloc: Global,
    shown: &mut Vec<u8>,
    world: &World,
    chaincode: &[u8],
) -> Result<(), Failed> {
    let text = definition_text(alloc, world.definitions(), chaincode)?;
    Ok(shown.extend_from_slice(text.as_bytes())?)
}

fn show_definitions(alloc: Global, shown: &mut Vec<u8>, world: &World) -> Result<(), Failed> {
    show_definition(alloc, shown, world, b"cc")?;
    shown.push(b';')?;
    show_definition(alloc, shown, world, b"dd")?;
    shown.push(b';')?;
    show_definition(alloc, shown, world, b"both")?;
    Ok(shown.push(b';')?)
}

fn show_rows(alloc: Global, shown: &mut Vec<u8>, world: &World) -> Result<(), Failed> {
    for left in rows() {
        show_row(alloc, shown, row_at(world, left.namespace, left.key)?)?;
        show_history(shown, world, left)?;
    }
    Ok(())
}

fn show_world(alloc: Global, shown: &mut Vec<u8>, world: &World) -> Result<(), Failed> {
    shown.extend_from_slice(&world.height().to_be_bytes())?;
    if let Some(hash) = world.header_hash() {
        shown.extend_from_slice(&hash)?;
    }
    show_definitions(alloc, shown, world)?;
    show_rows(alloc, shown, world)?;
    Ok(show_uses(shown, world)?)
}

/// Height, last header hash, policies of chaincodes, and what is at each key and id that the chain writes, as bytes
/// that tell one world from another.
pub fn shown(alloc: Global, world: &World) -> Result<Vec<u8>, Failed> {
    let mut shown = Vec::new(alloc);
    show_world(alloc, &mut shown, world)?;
    Ok(shown)
}
