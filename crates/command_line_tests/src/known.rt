//! Blocks whose numbers were accepted already, and what `explain` prints of them.

use crate::files::MemoryFiles;
use crate::fixture::unlike;
use crate::full::{FAULT, Full, ends_into};
use crate::known::vectors::{answers, files};
use std::alloc::AllocError;
use std::sync::Wait;
use std::thread::Threads;

mod vectors;

#[test]
fn known_blocks(rt: HostRuntime) -> Result<(), AllocError> {
    let unlike = unlike(&rt, &MemoryFiles(files()), answers())?;
    assert!(rt; unlike.is_none(), "{unlike:?}");
    Ok(())
}

const WORDS: [&str; 9] = [
    "fabcommit",
    "explain",
    "--json",
    "--channel",
    "c",
    "--keys",
    "k",
    "b0",
    "v0",
];

const FRONT: &str = "{\"kind\":\"refused\",\"place\":2,\"fault\":\"C2\",\"want\":1,\"got\":0}
{\"kind\":\"known\",\"number\":0,\"as\":\"twin\",\"accepted\":\"c29e7dbdaa38d80ecbd5bc5402e78f07be4dce8cfbe6\
38a1a4243578a26dfb31\",\"own\":\"c29e7d";

// Whether a writer that takes so many bytes has the front of the lines.
fn is_cut(rt: &(impl AllocGlobal + Threads + Wait + Sync), room: usize) -> bool {
    let mut out = Full::after(rt.alloc(), room);
    ends_into(rt, &MemoryFiles(files()), &WORDS, &mut out, 3, FAULT)
        && Some(out.taken.as_slice()) == FRONT.as_bytes().get(..room)
}

#[test]
fn known_blocks_that_cannot_be_written(rt: HostRuntime) {
    for room in [0, 58, 59, 70, FRONT.len()] {
        assert!(rt; is_cut(&rt, room), "{room}");
    }
}
