//! Where in a transaction's bytes the keys that it writes stand, by the lengths of all that stands before them. No
//! clause speaks of these places: who goes to one compares the bytes that it finds there.

use crate::identity::Identity;
use crate::limits::ID_BYTES;
use crate::transaction::{NsSet, PolicyWrite, Range, Read, Tx, Write};
use values::{BoundRef, KeyRef, NameRef, Slice};

// how many bytes tell how long what follows is
const NAME_COUNT: usize = 1;

const LABEL_COUNT: usize = 1;

const NONCE_COUNT: usize = 1;

const KEY_COUNT: usize = 2;

const VALUE_COUNT: usize = 4;

const POLICY_COUNT: usize = 2;

const LIST_COUNT: usize = 2;
// whether an optional field follows
const IS_THERE: usize = 1;

const VERSION: usize = 12;

const ROLE: usize = 1;

fn name_len(name: &NameRef<'_>) -> usize {
    NAME_COUNT + name.len()
}

fn key_len(key: &KeyRef<'_>) -> usize {
    KEY_COUNT + key.as_slice().len()
}

fn bound_len(bound: &BoundRef<'_>) -> usize {
    KEY_COUNT + bound.as_slice().len()
}

fn identity_len(identity: &Identity<'_>) -> usize {
    name_len(&identity.org)
        .wrapping_add(ROLE + LABEL_COUNT)
        .wrapping_add(identity.label.len())
}

fn optional_len(count: usize, bytes: &Option<Slice<'_>>) -> usize {
    match bytes {
        None => IS_THERE,
        Some(bytes) => IS_THERE.wrapping_add(count).wrapping_add(bytes.len()),
    }
}

fn read_len(read: &Read<'_>) -> usize {
    let version = if read.version.is_some() { VERSION } else { 0 };
    key_len(&read.key).wrapping_add(IS_THERE + version)
}

fn range_len(range: &Range<'_>) -> usize {
    let bounds = bound_len(&range.start).wrapping_add(bound_len(&range.end));
    let mut len = bounds.wrapping_add(IS_THERE + LIST_COUNT);
    for found in range.results.as_slice() {
        len = len.wrapping_add(key_len(&found.key)).wrapping_add(VERSION);
    }
    len
}

fn policy_write_len(write: &PolicyWrite<'_>) -> usize {
    key_len(&write.key).wrapping_add(optional_len(POLICY_COUNT, &write.policy))
}

impl Write<'_> {
    /// How many bytes spell it.
    pub fn spelled_len(&self) -> usize {
        key_len(&self.key).wrapping_add(optional_len(VALUE_COUNT, &self.value))
    }

    /// How far its key stands behind its first byte.
    pub fn key_place(&self) -> usize {
        KEY_COUNT
    }

    /// How far its value, if it has one, stands behind its first byte.
    pub fn value_place(&self) -> usize {
        key_len(&self.key).wrapping_add(IS_THERE + VALUE_COUNT)
    }
}

impl NsSet<'_> {
    /// How far its name stands behind its first byte.
    pub fn name_place(&self) -> usize {
        NAME_COUNT
    }

    /// How far its first write stands behind its first byte. Linear in its reads and ranges.
    pub fn writes_place(&self) -> usize {
        let mut len = name_len(&self.name).wrapping_add(LIST_COUNT);
        for read in self.reads.as_slice() {
            len = len.wrapping_add(read_len(read));
        }
        len = len.wrapping_add(LIST_COUNT);
        for range in self.ranges.as_slice() {
            len = len.wrapping_add(range_len(range));
        }
        len.wrapping_add(LIST_COUNT)
    }

    /// How many bytes spell it. Linear in its lists.
    pub fn spelled_len(&self) -> usize {
        let mut len = self.writes_place();
        for write in self.writes.as_slice() {
            len = len.wrapping_add(write.spelled_len());
        }
        len = len.wrapping_add(LIST_COUNT);
        for write in self.policy_writes.as_slice() {
            len = len.wrapping_add(policy_write_len(write));
        }
        len
    }
}

impl Tx<'_> {
    /// Where its first namespace stands.
    pub fn namespaces_place(&self) -> usize {
        name_len(&self.channel)
            .wrapping_add(ID_BYTES)
            .wrapping_add(identity_len(&self.creator))
            .wrapping_add(NONCE_COUNT)
            .wrapping_add(self.nonce.len())
            .wrapping_add(name_len(&self.chaincode))
            .wrapping_add(LIST_COUNT)
    }
}
