//! Scripts of each form of line and of each fault, with the first faulty line.

use crate::fixture::{book, faulty_line};
use block::BlockVersion;
use key_book::KeyBook;
use std::alloc::Global;
use test_support::Failed;

// How many of the scripts have this first faulty line in version 1, up to the first that doesn't.
fn faulty_so(alloc: Global, scripts: &[(&str, u64)]) -> Result<usize, Failed> {
    let keys = book(alloc)?;
    for (count, (script, line)) in scripts.iter().enumerate() {
        if faulty_line(alloc, &keys, BlockVersion::V1, script)? != Some(*line) {
            return Ok(count);
        }
    }
    Ok(scripts.len())
}

fn faulty_line_behind(
    alloc: Global,
    keys: &KeyBook,
    front: &str,
    line: &str,
) -> Result<Option<u64>, Failed> {
    let script = format!(in alloc; "{front}{line}\nendorse Org1:peer:p0\nno line\n")?;
    faulty_line(alloc, keys, BlockVersion::V1, script.as_str())
}

// The first of the lines after which another one is the first faulty line; none is such a line.
fn first_other<'a>(
    alloc: Global,
    front: &str,
    lines: &'a str,
    wanted: u64,
) -> Result<Option<&'a str>, Failed> {
    let keys = book(alloc)?;
    for line in lines.split('\n') {
        if faulty_line_behind(alloc, &keys, front, line)? != Some(wanted) {
            return Ok(Some(line));
        }
    }
    Ok(None)
}

const FOUR_LINES: &str =
    "tx Org1:client:c0 n cc\nns cc\n# the range of the results\nrange a z all\n";

fn fine_lines() -> &'static str {
    FINE_LINES
}

// After each of them a transaction is open.
static FINE_LINES: &str = "
\x20\x20\x20
#
  # a comment
tx Org1:client:c0 n cc
  tx   Org1:client:c0   %   cc\x20\x20
ns dd
ns cc
ns A-._9
endorse Org1:peer:p0
endorse Org1:peer:%70%30
endorse Org1:client:c0
read k absent
read k 0 0
read absent absent
read k 18446744073709551615 4294967295
read k 00000000000000000001 00000000000000000001
range % % all
range z a part
result k 0 0
write k %
write k #v
write %00 %fF
delete k
policy k AND(
policy k  two  words
policy k \u{e9}
nopolicy k";

#[test]
fn lines_that_are_fine(rt: HostRuntime) -> Result<(), Failed> {
    assert!(rt; first_other(rt.alloc(), FOUR_LINES, fine_lines(), 7)?.is_none());
    Ok(())
}

fn faulty_lines() -> &'static str {
    FAULTY_LINES
}

// By word: unknown ones, `tx`, `raw`, `ns`, `read`, `range`, `result`, `write`, `delete`, `policy`, `nopolicy`,
// `endorse`.
static FAULTY_LINES: &str = "x
TX Org1:client:c0 n cc
ns\tcc
\r\r
\u{feff}ns cc
readk absent
tx
tx Org1:client:c0
tx Org1:client:c0 n
tx Org1:client:c0 n cc cc
tx Org1:client:c0 n c/c
tx Org1:client:c0 %n cc
tx Org1:client:c0 n% cc
tx Org1:client:c1 n cc
tx Org1:peer:c0 n cc
tx Org2:client:c0 n cc
tx Org1:boss:c0 n cc
tx Org1:client n cc
tx Org1:client: n cc
tx :client:c0 n cc
raw 0
raw 0g
raw 00 00
raw %00
ns
ns c c
ns c%63
ns c\u{e9}
read
read k
read % absent
read k Absent
read k absent absent
read k 0
read k 0 0 0
read k 0 absent
read k -1 0
read k +1 0
read k 0x1 0
read k 1_0 0
read k 18446744073709551616 0
read k 0 4294967296
read k 000000000000000000001 0
read k 0 000000000000000000001
range
range a
range a b
range a b All
range a b all all
range a b 1
range a %% all
result k
result k absent
result k 0
result % 0 0
result k 0 0 0
write
write k
write % v
write k v v
write k %0
write k %0g
write k \u{e9}
write k\tv v
delete
delete %
delete k v
policy
policy k
policy % AND(
policy k%1 AND(
nopolicy
nopolicy k k
nopolicy %
endorse
endorse Org2:peer:p0
endorse Org1:peer:p1
endorse Org1:peer:p0 n
endorse Org1:peer:";

#[test]
fn lines_that_are_faulty(rt: HostRuntime) -> Result<(), Failed> {
    assert!(rt; first_other(rt.alloc(), FOUR_LINES, faulty_lines(), 5)?.is_none());
    Ok(())
}

fn scripts() -> &'static [(&'static str, u64)] {
    &SCRIPTS
}

// Nothing is open for a line, or one line takes precedence over another.
static SCRIPTS: [(&str, u64); 19] = [
    ("raw\nns cc\n", 2),
    ("raw 00fF\nraw\n\r\n  # one\nendorse Org1:peer:p0", 5),
    ("ns cc\n", 1),
    ("\n \n# ns\nread k absent\n", 4),
    ("endorse Org1:peer:p0\n", 1),
    ("tx Org1:client:c0 n cc\nread k absent", 2),
    ("tx Org1:client:c0 n cc\nrange a z all\n", 2),
    ("tx Org1:client:c0 n cc\nresult k 0 0\n", 2),
    ("tx Org1:client:c0 n cc\nwrite k v\n", 2),
    ("tx Org1:client:c0 n cc\ndelete k\n", 2),
    ("tx Org1:client:c0 n cc\npolicy k AND(\n", 2),
    ("tx Org1:client:c0 n cc\nnopolicy k\n", 2),
    ("tx Org1:client:c0 n cc\nns cc\nresult k 0 0\n", 3),
    (
        "tx Org1:client:c0 n cc\nns cc\ntx Org1:client:c0 m cc\ndelete k\n",
        4,
    ),
    (
        "tx Org1:client:c0 n cc\nns cc\nrange a z all\nns dd\nresult k 0 0\n",
        5,
    ),
    ("tx Org1:client:c0 n cc\nraw 00\nendorse Org1:peer:p0\n", 3),
    ("tx Org1:client:c0 n cc\nns cc\nraw\nns cc\n", 4),
    // a carriage return stays if no line feed follows it
    ("tx Org1:client:c0 n cc\r\nns cc\r", 2),
    ("# one\n\nraw 0\nraw 0\n", 3),
];

#[test]
fn lines_where_nothing_is_open(rt: HostRuntime) -> Result<(), Failed> {
    let scripts = scripts();
    assert!(rt; faulty_so(rt.alloc(), scripts)? == scripts.len());
    Ok(())
}
