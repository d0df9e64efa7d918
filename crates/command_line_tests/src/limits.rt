//! Blocks and transactions at their limits and one beyond, from files on disk. None of the transactions is one.

use crate::disk::place;
use crate::fixture::{CHANNEL, End, KEYS, ended, is_said, long_text};
use crate::large::{block_of_empty, block_of_one};
use command_line::{DiskFiles, FileFault, Files};
use std::alloc::{AllocError, Global};
use std::fs;
use std::sync::Wait;
use std::thread::Threads;
use test_support::Failed;

enum Large {
    /// One transaction of so many bytes.
    One(u32),
    /// So many transactions without bytes.
    Empty(u32),
}

impl Large {
    fn block(&self, alloc: Global) -> Result<Vec<u8>, AllocError> {
        match *self {
            Large::One(length) => block_of_one(alloc, length),
            Large::Empty(count) => block_of_empty(alloc, count),
        }
    }
}

/// A block, the status, and the line but for its flags, of which there are so many.
struct Case {
    block: Large,
    status: u8,
    front: &'static str,
    flags: usize,
}

fn cases() -> &'static [Case] {
    &CASES
}

static CASES: [Case; 4] = [
    Case {
        block: Large::One(1 << 20),
        status: 0,
        front: "accepted 0 60327d0f9550cab73a295aa419ac4f53a7222334903460d74e764ab0a063a75f",
        flags: 1,
    },
    Case {
        block: Large::One((1 << 20) + 1),
        status: 1,
        front: "refused 1 C1 B5",
        flags: 0,
    },
    // The header, and so its hash, is the empty block's.
    Case {
        block: Large::Empty(4096),
        status: 0,
        front: "accepted 0 9cae6f5c10756febc407bba95fc23853774c1f65f10354895bfdab6443d66ed3",
        flags: 4096,
    },
    Case {
        block: Large::Empty(4097),
        status: 1,
        front: "refused 1 C1 B4",
        flags: 0,
    },
];

// How the program ends that is handed in a block from a file of the host.
fn ended_at<R: AllocGlobal + Threads + Wait + Sync>(
    rt: &R,
    host: &HostRuntime,
    paths: [&str; 3],
    block: &[u8],
) -> Result<End, FileFault> {
    let files = DiskFiles::new(host);
    for (path, bytes) in paths.iter().zip([CHANNEL, KEYS, block]) {
        files.write(path, bytes)?;
    }
    let [channel, keys, path] = paths;
    let words = [
        "fabcommit",
        "run",
        "--channel",
        channel,
        "--keys",
        keys,
        path,
    ];
    Ok(ended(rt, &files, &words))
}

fn is_said_at(
    rt: &(impl AllocGlobal + Threads + Wait + Sync),
    host: &HostRuntime,
    paths: [&str; 3],
    block: &[u8],
    case: &Case,
) -> Result<bool, Failed> {
    let got = ended_at(rt, host, paths, block);
    for path in paths {
        let _ = fs::remove_file(host, path);
    }
    match got {
        Ok(ended) => is_line(rt.alloc(), &ended, case),
        Err(_) => Ok(false),
    }
}

// Whether it ends as the case says.
fn is_line(alloc: Global, ended: &End, case: &Case) -> Result<bool, Failed> {
    let line = long_text(alloc, case.front, " 2", case.flags, "\n")?;
    Ok(is_said(ended, &("run", case.status, line.as_str(), "")))
}

// Whether what is said of this block is what the case says.
fn is_said_of(
    rt: &(impl AllocGlobal + Threads + Wait + Sync),
    host: &HostRuntime,
    block: &[u8],
    case: &Case,
) -> Result<bool, Failed> {
    let channel = place(host, "channel")?;
    let keys = place(host, "keys")?;
    let path = place(host, "block")?;
    let paths = [channel.as_str(), keys.as_str(), path.as_str()];
    is_said_at(rt, host, paths, block, case)
}

fn is_so(
    rt: &(impl AllocGlobal + Threads + Wait + Sync),
    host: &HostRuntime,
    case: &Case,
) -> Result<bool, Failed> {
    let block = case.block.block(rt.alloc())?;
    is_said_of(rt, host, &block, case)
}

#[test]
fn blocks_at_their_limits(rt: HostRuntime) -> Result<(), Failed> {
    for case in cases() {
        assert!(rt; is_so(&rt, &rt, case)?, "{}", case.front);
    }
    Ok(())
}
