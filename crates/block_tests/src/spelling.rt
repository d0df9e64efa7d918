//! The bytes of a case's transactions and updates.

use crate::cases::{
    KEYS, LETTERS, NAMESPACES, NewValue, Query, Rule, SetCase, Signed, TxCase, UpdateCase,
};
use crate::room::Room;
use std::alloc::{AllocError, Global};
use transaction::Version;
use values::Bytes;

// Channel, id, creator, nonce and chaincode.
const BEGINNING: &[u8] = b"\x02ch\
    0123456789012345678901234567890123456789012345678901234567890123\
    \x04Org1\x01\x02c0\x01n\x02cc";

// An endorsement by the peer of each organization.
const FIRST: &[u8] = b"\x04Org1\x02\x02p0\0\x02ok";

const SECOND: &[u8] = b"\x04Org2\x02\x02q0\0\x02ok";

/// The rule's text.
pub fn text_of(rule: Rule) -> &'static [u8] {
    match rule {
        Rule::First => b"'Org1.peer'",
        Rule::Second => b"'Org2.peer'",
        Rule::Both => b"AND('Org1.peer','Org2.peer')",
        Rule::Either => b"OR('Org1.peer','Org2.peer')",
    }
}

fn put_key(room: &mut Room, letter: u8) {
    room.put(&[0, 1, letter]);
}

fn put_bound(room: &mut Room, bound: Option<u8>) {
    match bound {
        None => room.put(&[0, 0]),
        Some(letter) => put_key(room, letter),
    }
}

fn put_version(room: &mut Room, version: Version) {
    room.put(&version.block.to_be_bytes());
    room.put(&version.tx.to_be_bytes());
}

fn put_read(room: &mut Room, letter: u8, read: Option<Version>) {
    put_key(room, letter);
    match read {
        None => room.put(b"\0"),
        Some(version) => {
            room.put(b"\x01");
            put_version(room, version);
        }
    }
}

fn put_write(room: &mut Room, letter: u8, value: NewValue) {
    put_key(room, letter);
    match value {
        NewValue::Delete => room.put(b"\0"),
        NewValue::Put => room.put(b"\x01\0\0\0\x01v"),
    }
}

// No text has more than 255 bytes.
fn put_text(room: &mut Room, rule: Rule) {
    let text = text_of(rule);
    let [.., count] = text.len().to_be_bytes();
    room.put(&[0, count]);
    room.put(text);
}

fn put_policy(room: &mut Room, letter: u8, policy: Option<Rule>) {
    put_key(room, letter);
    match policy {
        None => room.put(b"\0"),
        Some(rule) => {
            room.put(b"\x01");
            put_text(room, rule);
        }
    }
}

fn put_reads(room: &mut Room, set: &SetCase) {
    let count = room.begin_list();
    for k in 0..KEYS {
        if let Some(read) = set.uses[k].read {
            room.count_one(count);
            put_read(room, LETTERS[k], read);
        }
    }
}

fn put_writes(room: &mut Room, set: &SetCase) {
    let count = room.begin_list();
    for k in 0..KEYS {
        if let Some(value) = set.uses[k].value {
            room.count_one(count);
            put_write(room, LETTERS[k], value);
        }
    }
}

fn put_policies(room: &mut Room, set: &SetCase) {
    let count = room.begin_list();
    for k in 0..KEYS {
        if let Some(policy) = set.uses[k].policy {
            room.count_one(count);
            put_policy(room, LETTERS[k], policy);
        }
    }
}

fn put_results(room: &mut Room, query: &Query) {
    let count = room.begin_list();
    for k in 0..KEYS {
        if let Some(version) = query.results[k] {
            room.count_one(count);
            put_key(room, LETTERS[k]);
            put_version(room, version);
        }
    }
}

fn put_query(room: &mut Room, query: &Query) {
    room.put(&[0, 1]);
    put_bound(room, query.start);
    put_bound(room, query.end);
    room.put(&[u8::from(query.exhausted)]);
    put_results(room, query);
}

fn put_set(room: &mut Room, name: &[u8], set: &SetCase) {
    room.put(&[2]);
    room.put(name);
    put_reads(room, set);
    match &set.query {
        None => room.put(&[0, 0]),
        Some(query) => put_query(room, query),
    }
    put_writes(room, set);
    put_policies(room, set);
}

// The endorsements, and the creator's signature.
fn put_signatures(room: &mut Room, signed: Signed) {
    room.put(&[u8::from(signed.first) + u8::from(signed.second)]);
    if signed.first {
        room.put(FIRST);
    }
    if signed.second {
        room.put(SECOND);
    }
    room.put(b"\0\x02ok");
}

fn put_tx(room: &mut Room, tx: &TxCase) {
    room.put(BEGINNING);
    room.put(&[0, NAMESPACES as u8]);
    put_set(room, b"cc", &tx.sets[0]);
    put_set(room, b"dd", &tx.sets[1]);
    put_set(room, b"ee", &tx.sets[2]);
    put_signatures(room, tx.signed);
}

/// The transaction's bytes.
pub fn spelled(alloc: Global, tx: &TxCase) -> Result<Bytes, AllocError> {
    let mut room = Room::new();
    put_tx(&mut room, tx);
    Bytes::from_slice(alloc, room.as_slice())
}

/// The update's bytes.
pub fn spelled_update(alloc: Global, update: &UpdateCase) -> Result<Bytes, AllocError> {
    let mut room = Room::new();
    room.put(b"\0");
    room.put(BEGINNING);
    put_text(&mut room, update.policy);
    put_signatures(&mut room, update.signed);
    Bytes::from_slice(alloc, room.as_slice())
}
