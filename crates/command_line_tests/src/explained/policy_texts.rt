//! Policies that are written and can't be read, each with one that can just be.

use crate::explained::{drafted, is_block_explained, of_script};
use crate::fixture::{CHANNEL, long_text};
use crate::signatures::keys;
use std::alloc::{AllocError, Global};
use std::sync::Wait;
use std::thread::Threads;
use test_support::Failed;

fn policies() -> &'static [(&'static str, &'static str, usize, &'static str)] {
    &POLICIES
}

// A front, a unit so many times, and a back.
static POLICIES: [(&str, &str, usize, &str); 10] = [
    ("AND('Org1.boss'", "", 0, ""),
    ("OutOf(0,'A.peer'", "", 0, ""),
    ("OutOf(0,'A.peer')", "", 0, ""),
    ("OutOf(3,'A.peer','B.peer')", "", 0, ""),
    // A gate inside 32 others, and inside 31.
    ("", "OR(", 33, "'A.peer')))))))))))))))))))))))))))))))))"),
    ("", "OR(", 32, "'A.peer'))))))))))))))))))))))))))))))))"),
    // 4,097 bytes, and 4,096.
    ("OR('A.peer'", " ", 4085, ")"),
    ("OR('A.peer'", " ", 4084, ")"),
    // 257 principals, and 256.
    ("OR(", "'A.peer',", 256, "'A.peer')"),
    ("OR(", "'A.peer',", 255, "'A.peer')"),
];

// A transaction that writes this policy, of a key of its own.
fn add(alloc: Global, script: &mut String, place: usize, text: &str) -> Result<(), AllocError> {
    let tx = format!(in alloc;
        "tx Org1:client:c0 n{place} cc\nns cc\npolicy k{place} {text}\nendorse Org1:peer:p0\n"
    )?;
    script.push_str(tx.as_str())
}

fn add_policies(alloc: Global, script: &mut String) -> Result<(), AllocError> {
    for (place, &(front, unit, times, back)) in policies().iter().enumerate() {
        let text = long_text(alloc, front, unit, times, back)?;
        add(alloc, script, place, text.as_str())?;
    }
    Ok(())
}

fn script(alloc: Global) -> Result<String, AllocError> {
    let mut script = String::new(alloc);
    add_policies(alloc, &mut script)?;
    Ok(script)
}

static LINES: &str = "0 22 BAD_RWSET policy cc k0 role
1 22 BAD_RWSET policy cc k1 syntax
2 22 BAD_RWSET policy cc k2 threshold
3 22 BAD_RWSET policy cc k3 threshold
4 22 BAD_RWSET policy cc k4 too-deep
5 0 VALID
6 22 BAD_RWSET policy cc k6 too-large
7 0 VALID
8 22 BAD_RWSET policy cc k8 too-large
9 0 VALID
";

fn are_explained(
    rt: &(impl AllocGlobal + Threads + Wait + Sync),
    script: &[u8],
) -> Result<bool, Failed> {
    let files = of_script(CHANNEL, keys(), script);
    let block = drafted(rt, &files, "draft s out")?;
    Ok(is_block_explained(rt, block.as_slice(), "explain b0", LINES)?)
}

fn are_policies_explained(rt: &(impl AllocGlobal + Threads + Wait + Sync)) -> Result<bool, Failed> {
    let script = script(rt.alloc())?;
    are_explained(rt, script.as_bytes())
}

#[test]
fn policies_that_cannot_be_read(rt: HostRuntime) -> Result<(), Failed> {
    assert!(rt; are_policies_explained(&rt)?);
    Ok(())
}
