//! A block that was cut off while it was written is none when it is handed in.

use crate::drafted::first_script_files;
use crate::drafted::vectors::first_block;
use crate::files::{MemoryFiles, OneOut};
use crate::fixture::{Row, is_answered};
use std::alloc::AllocError;
use std::sync::Wait;
use std::sync::atomic::AtomicU32;
use std::thread::Threads;

static DRAFT: Row = ("draft s out", 3, "", "cannot write out\n");

// What is said of what is there then.
fn row_of(room: usize) -> Row<'static> {
    if room < 4 {
        ("run out", 1, "refused 1 C1 B1\n", "")
    } else {
        ("run out", 1, "refused 1 C1 B2\n", "")
    }
}

// Whether a block that is drafted where there is room for so many bytes is refused when it is handed in.
fn is_cut_off(
    rt: &(impl AllocGlobal + Threads + Wait + Sync),
    room: usize,
) -> Result<bool, AllocError> {
    let written = AtomicU32::new(0);
    let files = first_script_files();
    let disk = OneOut {
        files: MemoryFiles(&files),
        out: ("out", first_block()),
        room,
        written: &written,
    };
    let is_told = is_answered(rt, &disk, &DRAFT)?;
    let is_refused = is_answered(rt, &disk, &row_of(room))?;
    Ok(is_told && is_refused)
}

#[test]
fn a_block_that_was_cut_off(rt: HostRuntime) -> Result<(), AllocError> {
    for room in 0..first_block().len() {
        assert!(rt; is_cut_off(&rt, room)?, "{room}");
    }
    Ok(())
}
