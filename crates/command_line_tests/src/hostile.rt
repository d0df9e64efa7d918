//! What is wrong with words, files and scripts, for each subcommand but `run`.

use crate::files::{File, MemoryFiles};
use crate::fixture::{
    CHANNEL, FIRST_BLOCK, KEYS, Scene, ended, is_answered, is_said, long_text, unlike_of, words_of,
};
use crate::full::{FAULT, Full, ends_into};
use std::alloc::AllocError;
use std::sync::Wait;
use std::thread::Threads;

// What is said of the empty block 0, as it is explained.
const KNOWN_0: &str = "refused 2 C2 want 1 got 0
known 0 same 9cae6f5c10756febc407bba95fc23853774c1f65f10354895bfdab6443d66ed3 is 9cae6f5c10756febc407bba95fc23853774c1f65f10354895bfdab6443d66ed3
";

const BLOCK_0: &str = "block 0 9cae6f5c10756febc407bba95fc23853774c1f65f10354895bfdab6443d66ed3\n";

// What it is shown as.
const SHOWN_0: &str = "\
# block 0 of version 1, transactions: 0
# header hash 9cae6f5c10756febc407bba95fc23853774c1f65f10354895bfdab6443d66ed3
# previous hash none
# data hash e3b0c44298fc1c149afbf4c8996fb92427ae41e4649b934ca495991b7852b855, that of its transactions
";

// The empty block of the greatest number.
const LAST_BLOCK: &[u8] = b"FBK1\xff\xff\xff\xff\xff\xff\xff\xff\0\
    \xe3\xb0\xc4\x42\x98\xfc\x1c\x14\x9a\xfb\xf4\xc8\x99\x6f\xb9\x24\
    \x27\xae\x41\xe4\x64\x9b\x93\x4c\xa4\x95\x99\x1b\x78\x52\xb8\x55\
    \0\0\0\0";

fn scenes() -> &'static [Scene<'static>] {
    &SCENES
}

// Of the files the first two can be read, `s` is a script, and `b0` and `last` are blocks.
static SCENES: [Scene; 1] = [(
    &[
        ("c", CHANNEL),
        ("k", KEYS),
        ("s", b"# nothing\n"),
        ("bad", b"read k absent\n"),
        ("b0", FIRST_BLOCK),
        ("last", LAST_BLOCK),
    ],
    &[
        // Words are looked at before any file.
        ("get --ns cc --key % no", 2, "", "bad word\n"),
        ("get --ns cc --key %4 no", 2, "", "bad word\n"),
        ("get --ns cc --key= no", 2, "", "bad word\n"),
        ("get --ns c/c --key k no", 2, "", "bad word\n"),
        ("get --ns= --key k no", 2, "", "bad word\n"),
        ("history --ns cc --key % no", 2, "", "bad word\n"),
        ("history --ns cc --key a%zz no", 2, "", "bad word\n"),
        ("history --ns :cc --key k no", 2, "", "bad word\n"),
        ("definition --ns c/c no", 2, "", "bad word\n"),
        ("definition --ns= no", 2, "", "bad word\n"),
        ("scan --ns c/c no", 2, "", "bad word\n"),
        ("scan --ns cc --start= no", 2, "", "bad word\n"),
        ("scan --ns cc --start a% no", 2, "", "bad word\n"),
        ("scan --ns cc --end= no", 2, "", "bad word\n"),
        ("scan --ns cc --end é no", 2, "", "bad word\n"),
        ("explain --id % no", 2, "", "bad word\n"),
        ("explain --id %4 no", 2, "", "bad word\n"),
        ("explain --id= --ids no", 2, "", "bad word\n"),
        // Then files in their order.
        ("get --ns cc --key k no s", 3, "", "cannot read no\n"),
        ("scan --ns cc b0 no", 3, "", "cannot read no\n"),
        ("history --ns cc --key k no", 3, "", "cannot read no\n"),
        ("definition --ns cc b0 no", 3, "", "cannot read no\n"),
        ("explain no", 3, "", "cannot read no\n"),
        ("explain b0 no s", 3, "", "cannot read no\n"),
        ("explain --tx 9 b0 no", 3, "", "cannot read no\n"),
        ("explain --ids no", 3, "", "cannot read no\n"),
        ("conflicts b0 no s", 3, "", "cannot read no\n"),
        ("show no", 3, "", "cannot read no\n"),
        ("show b0 no s", 3, "", "cannot read no\n"),
        ("draft no out", 3, "", "cannot read no\n"),
        ("draft --after no no2 out", 3, "", "cannot read no\n"),
        ("draft --after s no out", 3, "", "s not a block\n"),
        ("draft --after last no out", 3, "", "last not a block\n"),
        ("draft --after b0 no out", 3, "", "cannot read no\n"),
        ("draft bad out", 3, "", "bad line 1\n"),
        ("draft --after b0 b0 out", 3, "", "b0 line 1\n"),
        // Nothing can be written here.
        ("draft s out", 3, "", "cannot write out\n"),
        ("draft s s", 3, "", "cannot write s\n"),
        // What isn't a block is refused, and the status alone says so.
        ("get --ns cc --key k s", 1, "height 0\nabsent\n", ""),
        ("scan --ns cc s b0", 1, "height 1\n", ""),
        ("history --ns cc --key k s c k", 1, "height 0\n", ""),
        ("definition --ns zz s k", 1, "height 0\nabsent\n", ""),
        ("conflicts s b0 c", 1, "", ""),
        ("conflicts b0", 0, "", ""),
        ("explain s b0", 1, BLOCK_0, ""),
        ("explain b0", 0, BLOCK_0, ""),
        ("explain --ids b0", 0, BLOCK_0, ""),
        // But of the last block, at whose place no transaction stands.
        ("explain s", 1, "refused 1 C1 B1\n", ""),
        ("explain b0 b0", 1, KNOWN_0, ""),
        ("explain --tx 0 b0 s", 1, "refused 2 C1 B1\n", ""),
        ("explain --tx 0 b0", 2, "", "no transaction 0\n"),
        ("explain --tx 4095 s b0", 2, "", "no transaction 4095\n"),
        ("show b0", 0, SHOWN_0, ""),
        ("show s", 1, "# refused 1 C1 B1 at byte 0\n", ""),
        ("history --ns cc --key k", 0, "height 0\n", ""),
        (
            "definition --ns cc",
            0,
            "height 0\ndefinition OR('Org1.peer','Org2.peer')\n",
            "",
        ),
        ("scan --ns cc --limit 65535", 0, "height 0\n", ""),
        ("scan --ns cc --limit 0001", 0, "height 0\n", ""),
    ],
)];

#[test]
fn words_and_files(rt: HostRuntime) -> Result<(), AllocError> {
    let unlike = unlike_of(&rt, scenes())?;
    assert!(rt; unlike.is_none(), "{unlike:?}");
    Ok(())
}

// Words but for their last letters, which letter these are and how many, and what is answered.
type Lengths = (
    &'static str,
    &'static str,
    usize,
    u8,
    &'static str,
    &'static str,
);

fn lengths() -> &'static [Lengths] {
    &LENGTHS
}

// A name has at most 64 bytes, a key at most 1,024, and an id 64. Those of an id name a block that can't be read.
static LENGTHS: [Lengths; 12] = [
    (
        "get --ns nnnnnnnnnnnnnnnnnnnnnnnnnnnnnnnnnnnnnnnnnnnnnnnnnnnnnnnnnnnnnnnn --key ",
        "k",
        1024,
        0,
        "height 0\nabsent\n",
        "",
    ),
    (
        "get --ns nnnnnnnnnnnnnnnnnnnnnnnnnnnnnnnnnnnnnnnnnnnnnnnnnnnnnnnnnnnnnnnn --key ",
        "k",
        1025,
        2,
        "",
        "bad word\n",
    ),
    (
        "get --ns nnnnnnnnnnnnnnnnnnnnnnnnnnnnnnnnnnnnnnnnnnnnnnnnnnnnnnnnnnnnnnnnn --key ",
        "k",
        1024,
        2,
        "",
        "bad word\n",
    ),
    (
        "history --ns nnnnnnnnnnnnnnnnnnnnnnnnnnnnnnnnnnnnnnnnnnnnnnnnnnnnnnnnnnnnnnnn --key ",
        "k",
        1024,
        0,
        "height 0\n",
        "",
    ),
    (
        "history --ns nnnnnnnnnnnnnnnnnnnnnnnnnnnnnnnnnnnnnnnnnnnnnnnnnnnnnnnnnnnnnnnn --key ",
        "k",
        1025,
        2,
        "",
        "bad word\n",
    ),
    (
        "history --ns nnnnnnnnnnnnnnnnnnnnnnnnnnnnnnnnnnnnnnnnnnnnnnnnnnnnnnnnnnnnnnnnn --key ",
        "k",
        1024,
        2,
        "",
        "bad word\n",
    ),
    ("scan --ns ", "n", 64, 0, "height 0\n", ""),
    ("scan --ns ", "n", 65, 2, "", "bad word\n"),
    ("explain no --id ", "f", 63, 2, "", "bad word\n"),
    ("explain no --id ", "f", 64, 3, "", "cannot read no\n"),
    ("explain no --id ", "%00", 64, 3, "", "cannot read no\n"),
    ("explain no --id ", "f", 65, 2, "", "bad word\n"),
];

fn is_of_lengths(
    rt: &(impl AllocGlobal + Threads + Wait + Sync),
    row: &Lengths,
) -> Result<bool, AllocError> {
    let (front, letter, times, status, out, err) = *row;
    let words = long_text(rt.alloc(), front, letter, times, "")?;
    let files = [("c", CHANNEL), ("k", KEYS)];
    is_answered(
        rt,
        &MemoryFiles(&files),
        &(words.as_str(), status, out, err),
    )
}

#[test]
fn lengths_of_names_keys_and_ids(rt: HostRuntime) -> Result<(), AllocError> {
    for (number, row) in lengths().iter().enumerate() {
        assert!(rt; is_of_lengths(&rt, row)?, "row {number}");
    }
    Ok(())
}

fn scripts() -> &'static [(&'static str, &'static str)] {
    &SCRIPTS
}

// Scripts, and the line that is at fault.
static SCRIPTS: [(&str, &str); 30] = [
    ("walk", "s line 1\n"),
    ("# 1\n\ntx Org1:peer:p0 n", "s line 3\n"),
    ("tx Org1:peer:p0 n c c", "s line 1\n"),
    ("tx Org2:peer:p0 n c", "s line 1\n"),
    ("tx Org1:king:p0 n c", "s line 1\n"),
    ("tx Org1:peer:p0 n% c", "s line 1\n"),
    ("raw abc", "s line 1\n"),
    ("raw\nns cc", "s line 2\n"),
    ("ns cc", "s line 1\n"),
    ("tx Org1:peer:p0 % c\nns c/c", "s line 2\n"),
    ("tx Org1:peer:p0 % c\nread k absent", "s line 2\n"),
    ("tx Org1:peer:p0 % c\nns c\nread % absent", "s line 3\n"),
    ("tx Org1:peer:p0 % c\nns c\nread k", "s line 3\n"),
    ("tx Org1:peer:p0 % c\nns c\nread k 1", "s line 3\n"),
    ("tx Org1:peer:p0 % c\nns c\nread k +1 0", "s line 3\n"),
    (
        "tx Org1:peer:p0 % c\nns c\nread k 18446744073709551616 0",
        "s line 3\n",
    ),
    (
        "tx Org1:peer:p0 % c\nns c\nread k 0 4294967296",
        "s line 3\n",
    ),
    ("tx Org1:peer:p0 % c\nns c\nrange a b", "s line 3\n"),
    ("tx Org1:peer:p0 % c\nns c\nrange a b most", "s line 3\n"),
    ("tx Org1:peer:p0 % c\nns c\nresult k 0 0", "s line 3\n"),
    (
        "tx Org1:peer:p0 % c\nns c\nrange a b all\nns d\nresult a 0 0",
        "s line 5\n",
    ),
    ("tx Org1:peer:p0 % c\nns c\nwrite k", "s line 3\n"),
    ("tx Org1:peer:p0 % c\nns c\nwrite k %4", "s line 3\n"),
    ("tx Org1:peer:p0 % c\nns c\ndelete k v", "s line 3\n"),
    ("tx Org1:peer:p0 % c\nns c\npolicy k", "s line 3\n"),
    (
        "tx Org1:peer:p0 % c\nns c\nnopolicy k 'A.peer'",
        "s line 3\n",
    ),
    ("endorse Org1:peer:p0", "s line 1\n"),
    ("tx Org1:peer:p0 % c\nendorse Org1:peer:p1", "s line 2\n"),
    ("tx Org1:peer:p0 % c\nns\tc", "s line 2\n"),
    ("tx Org1:peer:p0 % c\nns c\r", "s line 2\n"),
];

// Whether drafting a script ends with this line on standard error.
fn is_fault(
    rt: &(impl AllocGlobal + Threads + Wait + Sync),
    script: &str,
    err: &str,
) -> Result<bool, AllocError> {
    let files = [("c", CHANNEL), ("k", KEYS), ("s", script.as_bytes())];
    is_answered(rt, &MemoryFiles(&files), &("draft s out", 3, "", err))
}

#[test]
fn faulty_lines(rt: HostRuntime) -> Result<(), AllocError> {
    for (script, err) in scripts() {
        assert!(rt; is_fault(&rt, script, err)?, "{script:?}");
    }
    Ok(())
}

// The bytes of a value, the lines behind it, and what is said.
static LONG: [(usize, &str, &str); 4] = [
    // A transaction of 1,048,576 bytes is drafted, and then can't be written.
    (1_048_439, "\n", "cannot write out\n"),
    (1_048_440, "\n", "s line 1\n"),
    // It is known where it ends, before what that line says, and behind faults of its own lines.
    (1 << 20, "\ntx", "s line 1\n"),
    (1 << 20, "\nendorse", "s line 4\n"),
];

fn is_long_fault(
    rt: &(impl AllocGlobal + Threads + Wait + Sync),
    bytes: usize,
    back: &str,
    err: &str,
) -> Result<bool, AllocError> {
    let front = "tx Org1:peer:p0 n cc\nns cc\nwrite k ";
    let script = long_text(rt.alloc(), front, "v", bytes, back)?;
    is_fault(rt, script.as_str(), err)
}

#[test]
fn a_transaction_one_byte_too_long(rt: HostRuntime) -> Result<(), AllocError> {
    for (bytes, back, err) in &LONG {
        assert!(rt; is_long_fault(&rt, *bytes, back, err)?, "{err:?}");
    }
    Ok(())
}

static FILES: [File; 3] = [("c", CHANNEL), ("k", KEYS), ("b0", FIRST_BLOCK)];

// Whether a writer that takes so many bytes has the front of the lines.
fn is_cut(
    rt: &(impl AllocGlobal + Threads + Wait + Sync),
    words: &[&str],
    lines: &str,
    room: usize,
) -> bool {
    let mut out = Full::after(rt.alloc(), room);
    ends_into(rt, &MemoryFiles(&FILES), words, &mut out, 3, FAULT)
        && Some(out.taken.as_slice()) == lines.as_bytes().get(..room)
}

// Whether a run is cut off so at each room of less than eight bytes.
fn are_cut(rt: &(impl AllocGlobal + Threads + Wait + Sync), words: &[&str], lines: &str) -> bool {
    for room in 0..8 {
        if !is_cut(rt, words, lines, room) {
            return false;
        }
    }
    true
}

fn is_cut_off(
    rt: &(impl AllocGlobal + Threads + Wait + Sync),
    words: &str,
    lines: &str,
) -> Result<bool, AllocError> {
    let words = words_of(rt.alloc(), words)?;
    Ok(are_cut(rt, &words, lines))
}

static CUT_OFF: [(&str, &str); 5] = [
    ("get --ns cc --key k b0", "height 1\nabsent\n"),
    ("scan --ns cc b0", "height 1\n"),
    ("explain b0", BLOCK_0),
    ("show b0", SHOWN_0),
    ("history --ns cc --key k b0", "height 1\n"),
];

#[test]
fn standard_output_that_fails(rt: HostRuntime) -> Result<(), AllocError> {
    for (words, lines) in &CUT_OFF {
        assert!(rt; is_cut_off(&rt, words, lines)?, "{words:?}");
    }
    Ok(())
}

#[test]
fn blocks_without_a_channel_and_keys(rt: HostRuntime) {
    for words in [
        ["--quiet", "b0"],
        ["--channel=no", "b0"],
        ["--keys=no", "b0"],
    ] {
        let ended = ended(
            &rt,
            &MemoryFiles(&FILES),
            &["fabcommit", "show", words[0], words[1]],
        );
        assert!(rt; is_said(&ended, &("", 0, SHOWN_0, "")));
    }
}
