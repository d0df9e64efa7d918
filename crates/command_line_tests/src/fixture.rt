//! Runs of the program, and what they end with.

use crate::files::{File, MemoryFiles};
use command_line::{Files, Silent, program};
use std::alloc::{AllocError, Global};
use std::io;
use std::io::Read;
use std::sync::Wait;
use std::thread::Threads;

pub(crate) const CHANNEL: &[u8] =
    b"channel ch\nchaincode cc OR('Org1.peer','Org2.peer')\nadmin 'Org1.admin'\n";

pub(crate) const KEYS: &[u8] = b"Org1:peer:p0 0b0b0b0b0b0b0b0b\n";

/// The empty block 0.
pub(crate) const FIRST_BLOCK: &[u8] = b"FBK1\0\0\0\0\0\0\0\0\0\
    \xe3\xb0\xc4\x42\x98\xfc\x1c\x14\x9a\xfb\xf4\xc8\x99\x6f\xb9\x24\
    \x27\xae\x41\xe4\x64\x9b\x93\x4c\xa4\x95\x99\x1b\x78\x52\xb8\x55\
    \0\0\0\0";

/// The line of that block, with its header hash.
pub(crate) const ACCEPTED_0: &str =
    "accepted 0 9cae6f5c10756febc407bba95fc23853774c1f65f10354895bfdab6443d66ed3\n";

/// How a run ends, and what it writes.
#[derive(Drop)]
pub(crate) struct End {
    pub(crate) status: u8,
    pub(crate) out: Vec<u8>,
    pub(crate) err: Vec<u8>,
}

/// Runs the program on these words, the first of which is its name.
pub(crate) fn ended<R: AllocGlobal + Threads + Wait + Sync, F: Files + Sync>(
    rt: &R,
    files: &F,
    words: &[&str],
) -> End {
    ended_reading(rt, files, words, &mut io::empty())
}

/// Runs the program on these words, the first of which is its name, and this input.
pub(crate) fn ended_reading<R: AllocGlobal + Threads + Wait + Sync, F: Files + Sync, I: Read>(
    rt: &R,
    files: &F,
    words: &[&str],
    input: &mut I,
) -> End {
    let (mut out, mut err) = (Vec::new(rt.alloc()), Vec::new(rt.alloc()));
    let status = program(rt, words, files, input, &mut out, &mut err, &mut Silent);
    End { status, out, err }
}

/// A run: its words but for the program's name, apart by spaces, what it has to end with, and to write to standard
/// output and standard error. Where they don't name the channel and the keys, these are `c` and `k`.
pub(crate) type Row<'a> = (&'a str, u8, &'a str, &'a str);

/// Files, and runs over them.
pub(crate) type Scene<'a> = (&'a [File<'a>], &'a [Row<'a>]);

pub(crate) fn words_of<'a>(alloc: Global, text: &'a str) -> Result<Vec<&'a str>, AllocError> {
    let mut words = vec![in alloc; "fabcommit"]?;
    for word in text.split(' ') {
        words.push(word)?;
    }
    if !text.contains("--channel") {
        words.extend_from_slice(&["--channel", "c", "--keys", "k"])?;
    }
    Ok(words)
}

/// How a run on the words of a row ends.
pub(crate) fn answered<F: Files + Sync>(
    rt: &(impl AllocGlobal + Threads + Wait + Sync),
    files: &F,
    words: &str,
) -> Result<End, AllocError> {
    let words = words_of(rt.alloc(), words)?;
    Ok(ended(rt, files, &words))
}

pub(crate) fn is_said(ended: &End, row: &Row<'_>) -> bool {
    let (_, status, out, err) = *row;
    ended.status == status
        && ended.out.as_slice() == out.as_bytes()
        && ended.err.as_slice() == err.as_bytes()
}

/// Whether a run as the row says ends as it says.
pub(crate) fn is_answered<F: Files + Sync>(
    rt: &(impl AllocGlobal + Threads + Wait + Sync),
    files: &F,
    row: &Row<'_>,
) -> Result<bool, AllocError> {
    let ended = answered(rt, files, row.0)?;
    Ok(is_said(&ended, row))
}

/// The words of the first of these rows whose run ends otherwise.
pub(crate) fn unlike<'a, F: Files + Sync>(
    rt: &(impl AllocGlobal + Threads + Wait + Sync),
    files: &F,
    rows: &'a [Row<'a>],
) -> Result<Option<&'a str>, AllocError> {
    for row in rows {
        if !is_answered(rt, files, row)? {
            return Ok(Some(row.0));
        }
    }
    Ok(None)
}

/// The words of the first row of these scenes whose run ends otherwise.
pub(crate) fn unlike_of(
    rt: &(impl AllocGlobal + Threads + Wait + Sync),
    scenes: &'static [Scene<'static>],
) -> Result<Option<&'static str>, AllocError> {
    for (files, rows) in scenes {
        let unlike = unlike(rt, &MemoryFiles(files), rows)?;
        if unlike.is_some() {
            return Ok(unlike);
        }
    }
    Ok(None)
}

/// A text with a unit so many times in its middle.
pub(crate) fn long_text(
    alloc: Global,
    front: &str,
    unit: &str,
    times: usize,
    back: &str,
) -> Result<String, AllocError> {
    let middle = unit.repeat(alloc, times)?;
    format!(in alloc; "{front}{middle}{back}")
}
