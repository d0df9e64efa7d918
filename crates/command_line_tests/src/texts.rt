//! Faults of the files, each of which ends the program before any block is handed in.

use crate::files::{File, MemoryFiles, ScarceFiles};
use crate::fixture::{
    CHANNEL, FIRST_BLOCK, KEYS, Row, Scene, ended, is_answered, is_said, unlike_of,
};
use std::alloc::{AllocError, Global};
use std::sync::Wait;
use std::thread::Threads;

const RUN: &str = "run --channel c.txt --keys k.txt b0";

const C: File = ("c.txt", CHANNEL);

const K: File = ("k.txt", KEYS);

const B0: File = ("b0", FIRST_BLOCK);

// Keys that have a fault of their own.
const NO_KEYS: File = ("k.txt", b"\xff");

fn scenes() -> &'static [Scene<'static>] {
    &SCENES
}

static SCENES: [Scene; 17] = [
    // Faults of the channel's text. A line that isn't UTF-8 goes before the fault of an earlier one.
    (
        &[("c.txt", b"nonsense\n\xffchannel ch\n"), NO_KEYS, B0],
        &[(RUN, 3, "", "c.txt line 2\n")],
    ),
    (
        &[("c.txt", b"nonsense\nchannel ch\n"), NO_KEYS, B0],
        &[(RUN, 3, "", "c.txt line 1\n")],
    ),
    (
        &[("c.txt", b"# \n\nchannel ch\nchannel ch\n"), NO_KEYS, B0],
        &[(RUN, 3, "", "c.txt line 4\n")],
    ),
    (
        &[
            (
                "c.txt",
                b"channel ch\nchaincode cc 'A.peer'\nchaincode cc 'A.peer'\n",
            ),
            NO_KEYS,
            B0,
        ],
        &[(RUN, 3, "", "c.txt line 3\n")],
    ),
    (
        &[("c.txt", b"channel ch\nchaincode cc\n"), NO_KEYS, B0],
        &[(RUN, 3, "", "c.txt line 2\n")],
    ),
    // A line whose policy has a fault, which isn't told.
    (
        &[("c.txt", b"channel ch\nchaincode cc AND(\n"), NO_KEYS, B0],
        &[(RUN, 3, "", "c.txt line 2\n")],
    ),
    (
        &[
            ("c.txt", b"channel ch\nchaincode cc 'A.boss'\n"),
            NO_KEYS,
            B0,
        ],
        &[(RUN, 3, "", "c.txt line 2\n")],
    ),
    (
        &[("c.txt", b"chaincode cc 'A.peer'\n"), NO_KEYS, B0],
        &[(RUN, 3, "", "c.txt no channel\n")],
    ),
    (
        &[("c.txt", b""), NO_KEYS, B0],
        &[(RUN, 3, "", "c.txt no channel\n")],
    ),
    (
        &[("c.txt", b"\xff"), NO_KEYS, B0],
        &[(RUN, 3, "", "c.txt line 1\n")],
    ),
    // Faults of the key book, where no block can be read.
    (
        &[C, ("k.txt", b"# keys\nOrg1:peer:p0 0b0\n")],
        &[(RUN, 3, "", "k.txt line 2\n")],
    ),
    (
        &[
            C,
            (
                "k.txt",
                b"Org1:peer:p0 0b\nOrg2:peer:p0 0b\nOrg1:peer:p0 0c\n",
            ),
        ],
        &[(RUN, 3, "", "k.txt line 3\n")],
    ),
    (
        &[C, ("k.txt", b"nonsense\n\n\xff")],
        &[(RUN, 3, "", "k.txt line 3\n")],
    ),
    (
        &[C, ("k.txt", b"Org1:king:p0 0b\n")],
        &[(RUN, 3, "", "k.txt line 1\n")],
    ),
    // Files that cannot be read.
    (&[], &[(RUN, 3, "", "cannot read c.txt\n")]),
    (&[C], &[(RUN, 3, "", "cannot read k.txt\n")]),
    (&[C, K], &[(RUN, 3, "", "cannot read b0\n")]),
];

static LAST_UNREAD: [&str; 11] = [
    "fabcommit",
    "run",
    "--workers=2",
    "--readers=2",
    "--channel",
    "c.txt",
    "--keys",
    "k.txt",
    "b0",
    "b0",
    "no such/b 1",
];

// Whether nothing is said of two blocks before a third one that cannot be read.
fn is_last_unread(rt: &(impl AllocGlobal + Threads + Wait + Sync)) -> bool {
    let ended = ended(rt, &MemoryFiles(&[C, K, B0]), &LAST_UNREAD);
    is_said(&ended, &("", 3, "", "cannot read no such/b 1\n"))
}

#[test]
fn faults_of_the_files(rt: HostRuntime) -> Result<(), AllocError> {
    let unlike = unlike_of(&rt, scenes())?;
    assert!(rt; unlike.is_none(), "{unlike:?}");
    assert!(rt; is_last_unread(&rt));
    Ok(())
}

// A channel text of so many chaincodes.
fn channel_of(alloc: Global, chaincodes: u16) -> Result<String, AllocError> {
    let mut channel = String::from_str(alloc, "channel ch\n")?;
    for i in 0..chaincodes {
        let line = format!(in alloc; "chaincode c{i} 'A.peer'\n")?;
        channel.push_str(line.as_str())?;
    }
    Ok(channel)
}

fn are_too_many(
    rt: &(impl AllocGlobal + Threads + Wait + Sync),
    chaincodes: u16,
) -> Result<bool, AllocError> {
    let channel = channel_of(rt.alloc(), chaincodes)?;
    let files = [("c.txt", channel.as_bytes())];
    is_answered(rt, &MemoryFiles(&files), &(RUN, 3, "", "c.txt line 258\n"))
}

#[test]
fn too_many_chaincodes(rt: HostRuntime) -> Result<(), AllocError> {
    assert!(rt; are_too_many(&rt, 257)?);
    Ok(())
}

const WANT: &str = "out of memory\n";

fn scarce() -> &'static [(&'static str, Row<'static>)] {
    &SCARCE
}

// Where memory runs out, which is at a file that is read or at the one that is written.
static SCARCE: [(&str, Row); 4] = [
    ("c.txt", (RUN, 4, "", WANT)),
    ("k.txt", (RUN, 4, "", WANT)),
    ("b0", (RUN, 4, "", WANT)),
    ("out", ("draft s out", 4, "", WANT)),
];

static FILES: [File; 6] = [C, K, B0, ("c", CHANNEL), ("k", KEYS), ("s", b"")];

fn is_scarce(
    rt: &(impl AllocGlobal + Threads + Wait + Sync),
    path: &'static str,
    row: &Row<'_>,
) -> Result<bool, AllocError> {
    let files = ScarceFiles {
        files: MemoryFiles(&FILES),
        path,
    };
    is_answered(rt, &files, row)
}

#[test]
fn a_file_for_which_memory_is_missing(rt: HostRuntime) -> Result<(), AllocError> {
    for (path, row) in scarce() {
        assert!(rt; is_scarce(&rt, path, row)?, "{path:?}");
    }
    Ok(())
}
