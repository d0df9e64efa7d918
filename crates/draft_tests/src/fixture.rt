//! A channel and a key book, and what a script drafts there.

use block::{BlockVersion, Header};
use drafts::{DraftFault, draft};
use key_book::{KeyBook, KeyBookFault};
use std::alloc::Global;
use test_support::Failed;
use values::{Bytes, Name, is_name};

const KEYS: &str = "Org1:client:c0 11\nOrg1:peer:p0 22\n";

/// The channel's name.
pub fn channel(alloc: Global) -> Result<Name, Failed> {
    let name = b"ch";
    if !is_name(name) {
        return Err(Failed::Missing("a name"));
    }
    Ok(Name::from_slice(alloc, name)?)
}

/// A book of two, `Org1:client:c0` and `Org1:peer:p0`.
pub fn book(alloc: Global) -> Result<KeyBook, KeyBookFault> {
    KeyBook::read(alloc, KEYS)
}

/// The bytes of a script's block of this version after a header, or its first faulty line.
pub fn drafted(
    alloc: Global,
    keys: &KeyBook,
    version: BlockVersion,
    after: Option<Header>,
    script: &str,
) -> Result<Result<Bytes, u64>, Failed> {
    if let Some(header) = &after {
        if header.number == u64::MAX {
            return Err(Failed::Missing("a number"));
        }
    }
    let channel = channel(alloc)?;
    match draft(alloc, &channel, keys, version, after, script) {
        Ok(block) => Ok(Ok(block)),
        Err(DraftFault::Line(line)) => Ok(Err(line)),
        Err(DraftFault::Memory) => Err(Failed::from(DraftFault::Memory)),
    }
}

/// The first faulty line, none if the script makes block 0 in this version.
pub fn faulty_line(
    alloc: Global,
    keys: &KeyBook,
    version: BlockVersion,
    script: &str,
) -> Result<Option<u64>, Failed> {
    Ok(drafted(alloc, keys, version, None, script)?.err())
}
