//! A world as plain lists, by the number of each key and id.

use rules::{FirstUse, Flag};
use std::alloc::Global;
use test_support::Failed;

pub const NAMESPACE: &[u8] = b"cc";

pub const KEYS: usize = 12;

pub const IDS: usize = 40;

/// Chaincodes whose policies change.
pub const CHAINCODES: [&[u8]; 3] = [b"cc", b"dd", b"ee"];

/// The policies that they are given.
pub const POLICIES: [&str; 3] = ["'A.peer'", "OR('A.peer','B.peer')", "'C.admin'"];

// Of 31 and 32 bytes.
static IN_ORDER: [&[u8]; KEYS] = [
    b"aaaaaaaaaaaaaaaaaaaaaaaaaaaaaa\x00",
    b"aaaaaaaaaaaaaaaaaaaaaaaaaaaaaa\x01\0",
    b"aaaaaaaaaaaaaaaaaaaaaaaaaaaaaa\x02",
    b"aaaaaaaaaaaaaaaaaaaaaaaaaaaaaa\x03\0",
    b"aaaaaaaaaaaaaaaaaaaaaaaaaaaaaa\x04",
    b"aaaaaaaaaaaaaaaaaaaaaaaaaaaaaa\x05\0",
    b"aaaaaaaaaaaaaaaaaaaaaaaaaaaaaa\x06",
    b"aaaaaaaaaaaaaaaaaaaaaaaaaaaaaa\x07\0",
    b"aaaaaaaaaaaaaaaaaaaaaaaaaaaaaa\x08",
    b"aaaaaaaaaaaaaaaaaaaaaaaaaaaaaa\x09\0",
    b"aaaaaaaaaaaaaaaaaaaaaaaaaaaaaa\x0a",
    b"aaaaaaaaaaaaaaaaaaaaaaaaaaaaaa\x0b\0",
];

/// The keys in their order; past all keys no bytes, which are no bound.
pub fn key_of(number: usize) -> &'static [u8] {
    IN_ORDER.get(number).copied().unwrap_or(b"")
}

/// The id of this number.
pub fn id_of(number: usize) -> [u8; 64] {
    let [.., low] = number.to_be_bytes();
    let mut id = [7; 64];
    id[63] = low;
    id
}

/// The first use that is noted at a place.
pub fn use_at(place: u32) -> FirstUse {
    FirstUse {
        block: 0,
        place,
        flag: Flag::Valid,
    }
}

/// Whether the row that is put with this number has a policy: every fourth.
pub fn has_policy(number: u32) -> bool {
    number % 4 == 0
}

/// What was done to each key and id. Each put, entry and use has a number of its own.
#[derive(Drop)]
pub struct Noted {
    pub rows: [Option<u32>; KEYS],
    // the key's number, and the entry's
    pub entries: Vec<(usize, u32)>,
    pub uses: [Option<u32>; IDS],
    // the place of each chaincode's policy
    pub definitions: [Option<usize>; 3],
}

impl Noted {
    /// Nothing is noted yet.
    pub fn new(alloc: Global) -> Noted {
        Noted {
            rows: [None; KEYS],
            entries: Vec::new(alloc),
            uses: [None; IDS],
            definitions: [None; 3],
        }
    }

    /// The same notes once more.
    pub fn copy(&self, alloc: Global) -> Result<Noted, Failed> {
        Ok(Noted {
            rows: self.rows,
            entries: Vec::from_slice(alloc, &self.entries)?,
            uses: self.uses,
            definitions: self.definitions,
        })
    }

    /// Notes the row of a key, or that it is deleted.
    pub fn set(&mut self, key: usize, row: Option<u32>) {
        if let Some(slot) = self.rows.get_mut(key) {
            *slot = row;
        }
    }

    /// Notes the first use of an id, if none is noted.
    pub fn add_use(&mut self, id: usize, number: u32) {
        if let Some(slot) = self.uses.get_mut(id) {
            if slot.is_none() {
                *slot = Some(number);
            }
        }
    }

    /// Notes the policy of a chaincode.
    pub fn define(&mut self, chaincode: usize, policy: usize) {
        if let Some(slot) = self.definitions.get_mut(chaincode) {
            *slot = Some(policy);
        }
    }

    /// The row that is noted of a key.
    pub fn row(&self, key: usize) -> Option<u32> {
        self.rows.get(key).copied().flatten()
    }
}
