//! An update whose bytes are others, or that stands in a block of version 1.

use crate::fixture::{numbered, read_keys};
use crate::spoiling::{drafted_tx, raw_line_of, sign_anew};
use crate::update_rows::{ADMIN, FIRST_POLICY, UPDATE, UpdateBlock, UpdateChain};
use crate::updates::{KEYS, check_chain};
use block::BlockVersion;
use key_book::KeyBook;
use std::alloc::{AllocError, Global};
use std::sync::Wait;
use std::thread::Threads;
use test_support::Failed;
use values::Bytes;

/// The update with other bytes in the place of so many, and what comes of it in a block of this version.
struct Changed {
    version: BlockVersion,
    place: usize,
    length: usize,
    new: &'static [u8],
    // whether the creator signs the changed bytes
    is_signed: bool,
    flags: &'static [u8],
    faults: &'static [&'static [u8]],
}

fn all_changed() -> &'static [Changed] {
    &CHANGED
}

static CHANGED: [Changed; 6] = [
    // another channel
    Changed {
        version: BlockVersion::V2,
        place: 2,
        length: 2,
        new: b"hc",
        is_signed: true,
        flags: &[14],
        faults: &[],
    },
    // another id
    Changed {
        version: BlockVersion::V2,
        place: 4,
        length: 1,
        new: b"x",
        is_signed: true,
        flags: &[8],
        faults: &[],
    },
    // another text, which the creator hasn't signed
    Changed {
        version: BlockVersion::V2,
        place: 83,
        length: 17,
        new: b"\0\x0fOR('Org1.peer')",
        is_signed: false,
        flags: &[4],
        faults: &[],
    },
    // no text
    Changed {
        version: BlockVersion::V2,
        place: 83,
        length: 17,
        new: b"\0\0",
        is_signed: true,
        flags: &[6],
        faults: &[b"no policy: Syntax"],
    },
    // a text that isn't UTF-8
    Changed {
        version: BlockVersion::V2,
        place: 83,
        length: 17,
        new: b"\0\x0fOR('\xd6rg2.peer')",
        is_signed: true,
        flags: &[6],
        faults: &[b"no policy: Role"],
    },
    // no updates in version 1, where the same bytes are nothing
    Changed {
        version: BlockVersion::V1,
        place: 0,
        length: 0,
        new: b"",
        is_signed: false,
        flags: &[2],
        faults: &[],
    },
];

fn replaced(alloc: Global, old: &[u8], changed: &Changed) -> Result<Vec<u8>, AllocError> {
    let front = old.get(..changed.place).unwrap_or(&[]);
    let back = old
        .get(changed.place.saturating_add(changed.length)..)
        .unwrap_or(&[]);
    let mut bytes = Vec::from_slice(alloc, front)?;
    bytes.extend_from_slice(changed.new)?;
    bytes.extend_from_slice(back)?;
    Ok(bytes)
}

fn changed_bytes(
    alloc: Global,
    keys: &KeyBook,
    update: &Bytes,
    changed: &Changed,
) -> Result<Vec<u8>, Failed> {
    let mut bytes = replaced(alloc, update.as_slice(), changed)?;
    if changed.is_signed {
        sign_anew(alloc, keys, update, &mut bytes)?;
    }
    Ok(bytes)
}

// The line of a script with the changed update.
fn changed_line(
    alloc: Global,
    keys: &KeyBook,
    update: &Bytes,
    changed: &Changed,
) -> Result<String, Failed> {
    let bytes = changed_bytes(alloc, keys, update, changed)?;
    Ok(raw_line_of(alloc, &bytes)?)
}

fn check_line<R: Threads + Wait + Sync>(
    rt: &R,
    alloc: Global,
    keys: &KeyBook,
    line: &str,
    changed: &Changed,
) -> Result<(), Failed> {
    let blocks = [UpdateBlock {
        script: line,
        flags: changed.flags,
        faults: changed.faults,
        policy: FIRST_POLICY,
    }];
    let chain = UpdateChain {
        line: ADMIN,
        blocks: &blocks,
    };
    check_chain(rt, alloc, keys, changed.version, &chain)
}

fn check_changed<R: Threads + Wait + Sync>(
    rt: &R,
    alloc: Global,
    keys: &KeyBook,
    update: &Bytes,
    changed: &Changed,
) -> Result<(), Failed> {
    let line = changed_line(alloc, keys, update, changed)?;
    check_line(rt, alloc, keys, line.as_str(), changed)
}

fn check_each<R: Threads + Wait + Sync>(
    rt: &R,
    alloc: Global,
    keys: &KeyBook,
    update: &Bytes,
) -> Result<(), Failed> {
    for (number, changed) in all_changed().iter().enumerate() {
        numbered(
            number as u64,
            check_changed(rt, alloc, keys, update, changed),
        )?;
    }
    Ok(())
}

fn check_by<R: Threads + Wait + Sync>(rt: &R, alloc: Global, keys: &KeyBook) -> Result<(), Failed> {
    let update = drafted_tx(alloc, keys, UPDATE)?;
    check_each(rt, alloc, keys, &update)
}

// A change that isn't so is told by its number.
fn check_all<R: Threads + Wait + Sync>(rt: &R, alloc: Global) -> Result<(), Failed> {
    let keys = read_keys(alloc, KEYS)?;
    check_by(rt, alloc, &keys)
}

#[test]
fn changed_updates(rt: HostRuntime) -> Result<(), Failed> {
    check_all(&rt, rt.alloc())
}
