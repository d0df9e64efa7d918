//! Parts and lists of scripts at their limits, and one beyond.

use crate::fixture::{book, faulty_line};
use block::BlockVersion;
use key_book::KeyBook;
use std::alloc::{AllocError, Global};
use test_support::Failed;

/// A text with a part between two others, how often the part may be repeated, and the first faulty line if it is
/// repeated once more.
#[derive(Clone, Copy)]
struct Limit {
    front: &'static str,
    part: &'static str,
    most: u32,
    back: &'static str,
    line: u64,
}

fn repeated(
    alloc: Global,
    front: &str,
    part: &str,
    count: u32,
    back: &str,
) -> Result<String, AllocError> {
    let mut text = String::from_str(alloc, front)?;
    for _ in 0..count {
        text.push_str(part)?;
    }
    text.push_str(back)?;
    Ok(text)
}

// The first faulty line if the part is repeated `count` times.
fn line_of(
    alloc: Global,
    keys: &KeyBook,
    version: BlockVersion,
    limit: &Limit,
    count: u32,
) -> Result<Option<u64>, Failed> {
    let text = repeated(alloc, limit.front, limit.part, count, limit.back)?;
    faulty_line(alloc, keys, version, text.as_str())
}

fn is_so(
    alloc: Global,
    keys: &KeyBook,
    version: BlockVersion,
    limit: &Limit,
) -> Result<bool, Failed> {
    let line_at_most = line_of(alloc, keys, version, limit, limit.most)?;
    let line_beyond = line_of(alloc, keys, version, limit, limit.most.wrapping_add(1))?;
    Ok(line_at_most.is_none() && line_beyond == Some(limit.line))
}

// How many of the limits are so in this version, up to the first that isn't.
fn so(alloc: Global, version: BlockVersion, limits: &[Limit]) -> Result<usize, Failed> {
    let keys = book(alloc)?;
    for (count, limit) in limits.iter().enumerate() {
        if !is_so(alloc, &keys, version, limit)? {
            return Ok(count);
        }
    }
    Ok(limits.len())
}

// The most of each part and of each list.
fn limits() -> &'static [Limit] {
    &LIMITS
}

static LIMITS: [Limit; 22] = [
    Limit {
        front: "tx Org1:client:c0 n ",
        part: "c",
        most: 64,
        back: "\n",
        line: 1,
    },
    Limit {
        front: "tx Org1:client:c0 n cc\nns ",
        part: "c",
        most: 64,
        back: "\n",
        line: 2,
    },
    Limit {
        front: "tx Org1:client:c0 ",
        part: "%6E",
        most: 255,
        back: " cc\n",
        line: 1,
    },
    Limit {
        front: "tx Org1:client:c0 n cc\nns cc\nread ",
        part: "%00",
        most: 1024,
        back: " absent\n",
        line: 3,
    },
    Limit {
        front: "tx Org1:client:c0 n cc\nns cc\nrange ",
        part: "k",
        most: 1024,
        back: " % all\n",
        line: 3,
    },
    Limit {
        front: "tx Org1:client:c0 n cc\nns cc\nrange % ",
        part: "k",
        most: 1024,
        back: " all\n",
        line: 3,
    },
    Limit {
        front: "tx Org1:client:c0 n cc\nns cc\nrange % % all\nresult ",
        part: "k",
        most: 1024,
        back: " 0 0\n",
        line: 4,
    },
    Limit {
        front: "tx Org1:client:c0 n cc\nns cc\nwrite ",
        part: "k",
        most: 1024,
        back: " v\n",
        line: 3,
    },
    Limit {
        front: "tx Org1:client:c0 n cc\nns cc\ndelete ",
        part: "k",
        most: 1024,
        back: "\n",
        line: 3,
    },
    Limit {
        front: "tx Org1:client:c0 n cc\nns cc\npolicy ",
        part: "k",
        most: 1024,
        back: " v\n",
        line: 3,
    },
    Limit {
        front: "tx Org1:client:c0 n cc\nns cc\nnopolicy ",
        part: "k",
        most: 1024,
        back: "\n",
        line: 3,
    },
    Limit {
        front: "tx Org1:client:c0 n cc\nns cc\npolicy k ",
        part: "p",
        most: 65_535,
        back: "\n",
        line: 3,
    },
    Limit {
        front: "raw ",
        part: "00",
        most: 1_048_576,
        back: "\n",
        line: 1,
    },
    Limit {
        front: "tx Org1:client:c0 n cc\n",
        part: "endorse Org1:peer:p0\n",
        most: 64,
        back: "",
        line: 66,
    },
    Limit {
        front: "tx Org1:client:c0 n cc\n",
        part: "ns c\n",
        most: 65_535,
        back: "",
        line: 65_537,
    },
    Limit {
        front: "tx Org1:client:c0 n cc\nns cc\n",
        part: "read k absent\n",
        most: 65_535,
        back: "",
        line: 65_538,
    },
    Limit {
        front: "tx Org1:client:c0 n cc\nns cc\n",
        part: "range % % all\n",
        most: 65_535,
        back: "",
        line: 65_538,
    },
    Limit {
        front: "tx Org1:client:c0 n cc\nns cc\nrange % % all\n",
        part: "result k 0 0\n",
        most: 65_535,
        back: "",
        line: 65_539,
    },
    Limit {
        front: "tx Org1:client:c0 n cc\nns cc\n",
        part: "delete k\n",
        most: 65_535,
        back: "",
        line: 65_538,
    },
    Limit {
        front: "tx Org1:client:c0 n cc\nns cc\n",
        part: "nopolicy k\n",
        most: 65_535,
        back: "",
        line: 65_538,
    },
    Limit {
        front: "",
        part: "raw\n",
        most: 4096,
        back: "",
        line: 4097,
    },
    Limit {
        front: "",
        part: "tx Org1:client:c0 n cc\n",
        most: 4096,
        back: "",
        line: 4097,
    },
];

#[test]
fn limits_of_parts_and_lists(rt: HostRuntime) -> Result<(), Failed> {
    assert!(rt; so(rt.alloc(), BlockVersion::V1, limits())? == limits().len());
    Ok(())
}

// The bytes of a value, what follows it, and the first faulty line. A transaction has 137 bytes besides this value, by
// Python, and at most 1,048,576 in all. That it is too long is known once it has ended.
fn values() -> &'static [(u32, &'static str, Option<u64>)] {
    &VALUES
}

static VALUES: [(u32, &str, Option<u64>); 8] = [
    (1_048_439, "", None),
    (1_048_440, "", Some(2)),
    (1_048_440, "\n# the end\n", Some(2)),
    (1_048_440, "\nendorse Org1:peer:p0\nno line\n", Some(6)),
    (1_048_440, "\nraw 0\n", Some(2)),
    (1_048_440, "\ntx\n", Some(2)),
    (1_048_440, "\nraw\nno line\n", Some(2)),
    (1_048_439, "\nraw\nno line\n", Some(6)),
];

fn line_of_value(
    alloc: Global,
    keys: &KeyBook,
    length: u32,
    back: &str,
) -> Result<Option<u64>, Failed> {
    let front = "#\ntx Org1:client:c0 n cc\nns cc\nwrite k ";
    let text = repeated(alloc, front, "v", length, back)?;
    faulty_line(alloc, keys, BlockVersion::V1, text.as_str())
}

// How many of the values are so, up to the first that isn't.
fn values_so(alloc: Global) -> Result<usize, Failed> {
    let keys = book(alloc)?;
    for (count, &(length, back, line)) in values().iter().enumerate() {
        if line_of_value(alloc, &keys, length, back)? != line {
            return Ok(count);
        }
    }
    Ok(values().len())
}

#[test]
fn transactions_that_are_too_long(rt: HostRuntime) -> Result<(), Failed> {
    assert!(rt; values_so(rt.alloc())? == values().len());
    Ok(())
}

fn limits_of_updates() -> &'static [Limit] {
    &UPDATES
}

// By part: name, nonce, text; then endorsers, and places of the block.
static UPDATES: [Limit; 5] = [
    Limit {
        front: "update Org1:client:c0 n ",
        part: "c",
        most: 64,
        back: " x\n",
        line: 1,
    },
    Limit {
        front: "update Org1:client:c0 ",
        part: "n",
        most: 255,
        back: " cc x\n",
        line: 1,
    },
    Limit {
        front: "update Org1:client:c0 n cc ",
        part: "x",
        most: 65_535,
        back: "\n",
        line: 1,
    },
    Limit {
        front: "update Org1:client:c0 n cc x\n",
        part: "endorse Org1:peer:p0\n",
        most: 64,
        back: "",
        line: 66,
    },
    Limit {
        front: "",
        part: "raw\n",
        most: 4_095,
        back: "update Org1:client:c0 n cc x\n",
        line: 4097,
    },
];

#[test]
fn limits_of_updates_parts(rt: HostRuntime) -> Result<(), Failed> {
    let limits = limits_of_updates();
    assert!(rt; so(rt.alloc(), BlockVersion::V2, limits)? == limits.len());
    Ok(())
}
