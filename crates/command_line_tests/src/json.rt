//! Objects in place of lines.

use crate::files::{File, MemoryFiles};
use crate::fixture::{CHANNEL, unlike};
use crate::full::{FAULT, Full, ends_into};
use crate::json::vectors::{answers, first_block, keys, second_block};
use std::alloc::AllocError;
use std::sync::Wait;
use std::thread::Threads;

pub(crate) mod vectors;

pub(crate) fn odd_files() -> [File<'static>; 4] {
    [
        ("c", CHANNEL),
        ("k", keys()),
        ("b0", first_block()),
        ("b1", second_block()),
    ]
}

#[test]
fn odd_bytes_in_objects(rt: HostRuntime) -> Result<(), AllocError> {
    let unlike = unlike(&rt, &MemoryFiles(&odd_files()), answers())?;
    assert!(rt; unlike.is_none(), "{unlike:?}");
    Ok(())
}

const WORDS: [&str; 10] = [
    "fabcommit",
    "scan",
    "--json",
    "--channel",
    "c",
    "--keys",
    "k",
    "--ns",
    "cc",
    "b0",
];

const FRONT: &str = "{\"kind\":\"height\",\"height\":1}\n{\"kind\":\"row\",\"key\":\"\\\"a";

// Whether a writer that takes so many bytes has the front of the lines.
fn is_cut(rt: &(impl AllocGlobal + Threads + Wait + Sync), room: usize) -> bool {
    let mut out = Full::after(rt.alloc(), room);
    ends_into(rt, &MemoryFiles(&odd_files()), &WORDS, &mut out, 3, FAULT)
        && Some(out.taken.as_slice()) == FRONT.as_bytes().get(..room)
}

#[test]
fn objects_that_cannot_be_written(rt: HostRuntime) {
    for room in [0, 8, 29, FRONT.len()] {
        assert!(rt; is_cut(&rt, room), "{room}");
    }
}
