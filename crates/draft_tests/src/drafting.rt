//! The bytes of blocks that scripts draft.

mod updates;
mod vectors;

use crate::fixture::drafted;
use block::{BlockVersion, Header, Previous};
use key_book::KeyBook;
use std::alloc::Global;
use test_support::Failed;
use updates::updates;
use vectors::{drafts, keys};

/// A script with the number of the header that it follows, and its first faulty line or otherwise the bytes of its
/// block.
#[derive(Clone, Copy)]
pub struct DraftCase {
    script: &'static str,
    after: Option<u64>,
    line: Option<u64>,
    block: &'static [u8],
}

fn header(number: u64) -> Header {
    Header {
        number,
        previous: if number == 0 {
            Previous::Empty
        } else {
            Previous::Hash([7; 32])
        },
        data_hash: [9; 32],
    }
}

fn is_drafted(
    alloc: Global,
    keys: &KeyBook,
    version: BlockVersion,
    case: &DraftCase,
) -> Result<bool, Failed> {
    match drafted(alloc, keys, version, case.after.map(header), case.script)? {
        Ok(block) => Ok(case.line.is_none() && block.as_slice() == case.block),
        Err(line) => Ok(case.line == Some(line)),
    }
}

// How many cases are drafted so in this version, up to the first that isn't.
fn drafted_so(alloc: Global, version: BlockVersion, cases: &[DraftCase]) -> Result<usize, Failed> {
    let keys = KeyBook::read(alloc, keys())?;
    for (count, case) in cases.iter().enumerate() {
        if !is_drafted(alloc, &keys, version, case)? {
            return Ok(count);
        }
    }
    Ok(cases.len())
}

#[test]
fn blocks_of_scripts(rt: HostRuntime) -> Result<(), Failed> {
    assert!(rt; drafted_so(rt.alloc(), BlockVersion::V1, drafts())? == drafts().len());
    Ok(())
}

#[test]
fn blocks_with_updates(rt: HostRuntime) -> Result<(), Failed> {
    assert!(rt; drafted_so(rt.alloc(), BlockVersion::V2, updates())? == updates().len());
    Ok(())
}
