//! What made transactions invalid, over the sample's blocks.

use crate::explained::sample;
use crate::explained::vectors::{counts, later_counts};
use crate::files::MemoryFiles;
use crate::fixture::unlike;
use crate::full::{FAULT, Full, ends_into};
use std::alloc::AllocError;
use std::sync::Wait;
use std::thread::Threads;

// Of block 0 alone.
const FIRST: &str = "\
flag 0 VALID 2
flag 2 BAD_PAYLOAD 1
flag 9 DUPLICATE_TXID 1
flag 10 ENDORSEMENT_POLICY_FAILURE 1
chaincode cc 1 missing Org1.peer 1
";

// All blocks, those from a number on, and no block; what is refused counts nothing, and has no number.
#[test]
fn what_the_sample_counts(rt: HostRuntime) -> Result<(), AllocError> {
    let rows = [
        ("conflicts b0 b1 b2 b3 b4 b5 b6", 0, counts(), ""),
        (
            "conflicts --top 1 --from 3 b0 b1 b2 b3 b4 b5 b6",
            0,
            later_counts(),
            "",
        ),
        ("conflicts b0 --from=1", 0, "", ""),
        ("conflicts --from 18446744073709551615 b0 b1 b2", 0, "", ""),
        ("conflicts b6 b0 k", 1, FIRST, ""),
        ("conflicts --quiet b0 b0 --from 00 --top 0", 1, FIRST, ""),
        ("conflicts b0 b0 --from 1", 1, "", ""),
    ];
    let unlike = unlike(&rt, &MemoryFiles(&sample()), &rows)?;
    assert!(rt; unlike.is_none(), "{unlike:?}");
    Ok(())
}

const WORDS: [&str; 13] = [
    "fabcommit",
    "conflicts",
    "--channel",
    "c",
    "--keys",
    "k",
    "b0",
    "b1",
    "b2",
    "b3",
    "b4",
    "b5",
    "b6",
];

// Whether a writer that takes so many bytes has the front of the lines.
fn is_cut(rt: &(impl AllocGlobal + Threads + Wait + Sync), room: usize) -> bool {
    let mut out = Full::after(rt.alloc(), room);
    ends_into(rt, &MemoryFiles(&sample()), &WORDS, &mut out, 3, FAULT)
        && Some(out.taken.as_slice()) == counts().as_bytes().get(..room)
}

#[test]
fn lines_that_cannot_be_written(rt: HostRuntime) {
    for room in [0, 7, 400] {
        assert!(rt; is_cut(&rt, room), "{room}");
    }
}
