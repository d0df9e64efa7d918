//! Whether a world holds what was noted.

use crate::fixture::{bound, commit_hash_of, key, name, version_of};
use crate::noted::{
    CHAINCODES, KEYS, NAMESPACE, Noted, POLICIES, has_policy, id_of, key_of, use_at,
};
use history_index::Entries;
use policy::Policy;
use rules::Row;
use std::alloc::{AllocError, Global};
use test_support::Failed;
use world::{RangeAnswer, World};

/// The header hash that a block is given.
pub fn hash_of(block: u32) -> [u8; 32] {
    let mut hash = [0; 32];
    let [a, b, c, d] = block.to_be_bytes();
    hash[0] = a;
    hash[1] = b;
    hash[2] = c;
    hash[3] = d;
    hash
}

// Whether the row is the one that was put with this number, or none.
fn is_put(row: Option<&Row>, number: Option<u32>) -> bool {
    match (row, number) {
        (None, None) => true,
        (Some(row), Some(number)) => {
            row.version == version_of(number) && row.policy.is_some() == has_policy(number)
        }
        _ => false,
    }
}

// Whether the entries are those that were noted of a key, the newest first.
fn are_entries(mut entries: Entries<'_>, noted: &Noted, at: usize) -> Result<bool, AllocError> {
    for (key, number) in noted.entries.iter().rev() {
        if *key == at {
            match entries.next() {
                Some(entry) if entry.entry()?.version == version_of(*number) => {}
                _ => return Ok(false),
            }
        }
    }
    Ok(entries.next().is_none())
}

/// Whether the key has the row and the history that were noted.
pub fn key_is_noted(world: &World, noted: &Noted, at: usize) -> Result<bool, Failed> {
    let namespace = name(NAMESPACE)?;
    let key = key(key_of(at))?;
    Ok(
        is_put(world.row(&namespace, &key), noted.row(at))
            && are_entries(world.history(&namespace, &key), noted, at)?,
    )
}

// The number with which the row at a place was put.
fn number_at(answer: &RangeAnswer<'_>, place: usize) -> Option<u32> {
    match answer.rows.get(place) {
        None => None,
        Some(row) => Some(row.row().version.tx),
    }
}

// Whether the answer is of the rows that were noted from a key to before another.
fn is_answer(
    answer: &RangeAnswer<'_>,
    noted: &Noted,
    (start, end): (usize, usize),
    limit: usize,
) -> bool {
    let mut count: usize = 0;
    for at in start..end {
        if let Some(number) = noted.row(at) {
            if count < limit && number_at(answer, count) != Some(number) {
                return false;
            }
            count = count.saturating_add(1);
        }
    }
    answer.rows.len() == count.min(limit) && answer.more == (count > limit)
}

// Whether the range has the rows that were noted. Past all keys is no bound.
fn range_is_noted(
    alloc: Global,
    world: &World,
    noted: &Noted,
    (start, end): (usize, usize),
    limit: usize,
) -> Result<bool, Failed> {
    let from = bound(key_of(start))?;
    let to = bound(key_of(end))?;
    let first = if start < KEYS { start } else { 0 };
    let answer = world.range(alloc, &name(NAMESPACE)?, &from, &to, limit)?;
    Ok(is_answer(&answer, noted, (first, end), limit))
}

/// Whether ranges between two keys, in any order, up to no rows, to some, and to all, have the rows that are noted.
pub fn ranges_are_noted(
    alloc: Global,
    world: &World,
    noted: &Noted,
    between: (usize, usize),
) -> Result<bool, Failed> {
    for limit in [0, 1, 5, 100] {
        if !range_is_noted(alloc, world, noted, between, limit)? {
            return Ok(false);
        }
    }
    Ok(true)
}

/// Whether each id has the first use that is noted, or none.
pub fn ids_are_noted(world: &World, noted: &Noted) -> bool {
    for (number, used) in noted.uses.iter().enumerate() {
        let expected = match used {
            None => None,
            Some(place) => Some(use_at(*place)),
        };
        if world.flag_of(&id_of(number)) != expected {
            return false;
        }
    }
    true
}

fn has_text(alloc: Global, policy: &Policy, place: usize) -> Result<bool, Failed> {
    let text = policy.text(alloc)?;
    match POLICIES.get(place) {
        Some(noted) => Ok(*noted == text.as_str()),
        None => Ok(false),
    }
}

// Whether the chaincode has the policy of this place.
fn has_definition(
    alloc: Global,
    world: &World,
    chaincode: &[u8],
    place: Option<usize>,
) -> Result<bool, Failed> {
    match (place, world.definitions().of(&name(chaincode)?)) {
        (None, None) => Ok(true),
        (Some(place), Some(policy)) => has_text(alloc, policy, place),
        _ => Ok(false),
    }
}

/// Whether each chaincode has the policy that is noted, or none.
pub fn definitions_are_noted(alloc: Global, world: &World, noted: &Noted) -> Result<bool, Failed> {
    for (chaincode, place) in CHAINCODES.iter().zip(noted.definitions.iter()) {
        if !has_definition(alloc, world, chaincode, *place)? {
            return Ok(false);
        }
    }
    Ok(true)
}

/// Whether this is the last block.
pub fn is_behind(world: &World, block: u32) -> bool {
    world.height() == block as u64 + 1
        && world.header_hash() == Some(hash_of(block))
        && world.commit_hash() == Some(commit_hash_of(hash_of(block)))
}

/// Whether all is as noted, behind this block.
pub fn is_noted_behind(
    alloc: Global,
    world: &World,
    noted: &Noted,
    block: u32,
) -> Result<bool, Failed> {
    for at in 0..KEYS {
        if !key_is_noted(world, noted, at)? {
            return Ok(false);
        }
    }
    let are_definitions = definitions_are_noted(alloc, world, noted)?;
    Ok(are_definitions && ids_are_noted(world, noted) && is_behind(world, block))
}
