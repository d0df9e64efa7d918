//! Writers that fail.

use crate::files::{File, MemoryFiles};
use crate::fixture::{CHANNEL, FIRST_BLOCK, KEYS};
use crate::full::{FAULT, Full, ends_into};
use crate::large::block_of_empty;
use command_line::{Silent, program};
use std::alloc::{AllocError, Global};
use std::io;
use std::io::ErrorKind;
use std::sync::Wait;
use std::thread::Threads;

/// A writer, a run into it, what is taken of it, and how it ends.
struct Case {
    files: &'static [File<'static>],
    words: &'static [&'static str],
    room: usize,
    kind: ErrorKind,
    flushes: bool,
    taken: Option<&'static str>,
    status: u8,
    err: &'static str,
}

const FILES: &[File<'static>] = &[("c", CHANNEL), ("k", KEYS), ("b0", FIRST_BLOCK)];

// The block 0 twice, and then a reader.
const WORDS: &[&str] = &[
    "fabcommit",
    "run",
    "--workers=2",
    "--channel",
    "c",
    "--keys",
    "k",
    "b0",
    "b0",
    "--readers=1",
];

const HELP: &[&str] = &["fabcommit", "--help"];

const ALL: &str = "\
accepted 0 9cae6f5c10756febc407bba95fc23853774c1f65f10354895bfdab6443d66ed3
refused 2 C2 want 1 got 0
reader 1 height 1
";

fn cases() -> &'static [Case] {
    &CASES
}

static CASES: [Case; 8] = [
    // before the first line, and in the middle of each other
    Case {
        files: FILES,
        words: WORDS,
        room: 0,
        kind: ErrorKind::StorageFull,
        flushes: true,
        taken: Some(""),
        status: 3,
        err: FAULT,
    },
    Case {
        files: FILES,
        words: WORDS,
        room: 83,
        kind: ErrorKind::StorageFull,
        flushes: true,
        taken: Some(
            "accepted 0 9cae6f5c10756febc407bba95fc23853774c1f65f10354895bfdab6443d66ed3\nrefused",
        ),
        status: 3,
        err: FAULT,
    },
    Case {
        files: FILES,
        words: WORDS,
        room: 110,
        kind: ErrorKind::StorageFull,
        flushes: true,
        taken: Some(
            "accepted 0 9cae6f5c10756febc407bba95fc23853774c1f65f10354895bfdab6443d66ed3\n\
            refused 2 C2 want 1 got 0\nreader 1",
        ),
        status: 3,
        err: FAULT,
    },
    // when the first block's line is written
    Case {
        files: FILES,
        words: WORDS,
        room: 1000,
        kind: ErrorKind::StorageFull,
        flushes: false,
        taken: Some(
            "accepted 0 9cae6f5c10756febc407bba95fc23853774c1f65f10354895bfdab6443d66ed3\n",
        ),
        status: 3,
        err: FAULT,
    },
    // for want of memory
    Case {
        files: FILES,
        words: WORDS,
        room: 0,
        kind: ErrorKind::OutOfMemory,
        flushes: true,
        taken: Some(""),
        status: 4,
        err: "out of memory\n",
    },
    Case {
        files: FILES,
        words: WORDS,
        room: 1000,
        kind: ErrorKind::StorageFull,
        flushes: true,
        taken: Some(ALL),
        status: 1,
        err: "",
    },
    // help that cannot be written
    Case {
        files: &[],
        words: HELP,
        room: 10,
        kind: ErrorKind::StorageFull,
        flushes: true,
        taken: None,
        status: 3,
        err: FAULT,
    },
    Case {
        files: &[],
        words: HELP,
        room: 10_000,
        kind: ErrorKind::StorageFull,
        flushes: false,
        taken: None,
        status: 3,
        err: FAULT,
    },
];

fn is_taken(out: &Full, wanted: Option<&str>) -> bool {
    match wanted {
        Some(text) => out.taken.as_slice() == text.as_bytes(),
        None => true,
    }
}

fn is_so(rt: &(impl AllocGlobal + Threads + Wait + Sync), case: &Case) -> bool {
    let mut out = Full {
        kind: case.kind,
        flushes: case.flushes,
        ..Full::after(rt.alloc(), case.room)
    };
    let files = MemoryFiles(case.files);
    ends_into(rt, &files, case.words, &mut out, case.status, case.err) && is_taken(&out, case.taken)
}

#[test]
fn standard_output_that_fails(rt: HostRuntime) {
    for (number, case) in cases().iter().enumerate() {
        assert!(rt; is_so(&rt, case), "case {number}");
    }
}

// Whether nothing is written to a writer that takes nothing at first and all later.
fn is_nothing_behind(
    rt: &(impl AllocGlobal + Threads + Wait + Sync),
    block: &[u8],
    words: &[&str],
) -> bool {
    let mut out = Full::after(rt.alloc(), 0);
    out.failures = 1;
    let files = [("c", CHANNEL), ("k", KEYS), ("b", block)];
    ends_into(rt, &MemoryFiles(&files), words, &mut out, 3, FAULT) && out.taken.is_empty()
}

static RUN: [&str; 8] = [
    "fabcommit",
    "run",
    "--workers=2",
    "--channel",
    "c",
    "--keys",
    "k",
    "b",
];

fn words_of_many(alloc: Global, blocks: usize) -> Result<Vec<&'static str>, AllocError> {
    let mut words = Vec::from_slice(alloc, &RUN[..7])?;
    for _ in 0..blocks {
        words.push("b")?;
    }
    Ok(words)
}

// More lines than a buffer holds.
fn is_nothing_behind_lines(
    rt: &(impl AllocGlobal + Threads + Wait + Sync),
) -> Result<bool, AllocError> {
    let words = words_of_many(rt.alloc(), 5000)?;
    Ok(is_nothing_behind(rt, b"", &words))
}

// One line that is longer than a buffer, of an accepted block.
fn is_nothing_behind_line(
    rt: &(impl AllocGlobal + Threads + Wait + Sync),
) -> Result<bool, AllocError> {
    let block = block_of_empty(rt.alloc(), 4096)?;
    Ok(is_nothing_behind(rt, &block, &RUN))
}

#[test]
fn nothing_is_written_behind_a_failure(rt: HostRuntime) -> Result<(), AllocError> {
    assert!(rt; is_nothing_behind_lines(&rt)?);
    assert!(rt; is_nothing_behind_line(&rt)?);
    Ok(())
}

// Whether the program whose standard error takes three bytes ends so, and writes nothing to standard output.
fn is_silent(rt: &(impl AllocGlobal + Threads + Wait + Sync), words: &[&str], status: u8) -> bool {
    let mut out = Full::after(rt.alloc(), 1000);
    let got = status_without_error(rt, words, &mut out);
    got == status && out.taken.is_empty()
}

fn status_without_error<R: AllocGlobal + Threads + Wait + Sync>(
    rt: &R,
    words: &[&str],
    out: &mut Full,
) -> u8 {
    let mut err = Full::after(rt.alloc(), 3);
    let files = MemoryFiles(&[]);
    program(
        rt,
        words,
        &files,
        &mut io::empty(),
        out,
        &mut err,
        &mut Silent,
    )
}

#[test]
fn standard_error_that_fails(rt: HostRuntime) {
    assert!(rt; is_silent(&rt, WORDS, 3));
    assert!(rt; is_silent(&rt, &["fabcommit", "run"], 2));
}
