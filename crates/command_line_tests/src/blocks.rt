//! What is printed for each block.

use crate::fixture::{ACCEPTED_0, CHANNEL, FIRST_BLOCK, KEYS, Scene, unlike_of};
use std::alloc::AllocError;

// Blocks without transactions behind the first, each of the last two as it is and not linked.
const SECOND: &[u8] = b"FBK1\0\0\0\0\0\0\0\x01\x20\
    \x9c\xae\x6f\x5c\x10\x75\x6f\xeb\xc4\x07\xbb\xa9\x5f\xc2\x38\x53\
    \x77\x4c\x1f\x65\xf1\x03\x54\x89\x5b\xfd\xab\x64\x43\xd6\x6e\xd3\
    \xe3\xb0\xc4\x42\x98\xfc\x1c\x14\x9a\xfb\xf4\xc8\x99\x6f\xb9\x24\
    \x27\xae\x41\xe4\x64\x9b\x93\x4c\xa4\x95\x99\x1b\x78\x52\xb8\x55\
    \0\0\0\0";

const THIRD: &[u8] = b"FBK1\0\0\0\0\0\0\0\x02\x20\
    \x91\x83\x2d\x32\x53\x1b\xdf\xd1\xa2\x85\xdd\x11\x74\x22\xf8\xd7\
    \x7e\xea\x07\xca\x7f\x93\x7b\x91\xb5\x5d\xed\xa9\xe6\x3d\x72\x6e\
    \xe3\xb0\xc4\x42\x98\xfc\x1c\x14\x9a\xfb\xf4\xc8\x99\x6f\xb9\x24\
    \x27\xae\x41\xe4\x64\x9b\x93\x4c\xa4\x95\x99\x1b\x78\x52\xb8\x55\
    \0\0\0\0";

const THIRD_UNLINKED: &[u8] = b"FBK1\0\0\0\0\0\0\0\x02\x20\
    \x90\x83\x2d\x32\x53\x1b\xdf\xd1\xa2\x85\xdd\x11\x74\x22\xf8\xd7\
    \x7e\xea\x07\xca\x7f\x93\x7b\x91\xb5\x5d\xed\xa9\xe6\x3d\x72\x6e\
    \xe3\xb0\xc4\x42\x98\xfc\x1c\x14\x9a\xfb\xf4\xc8\x99\x6f\xb9\x24\
    \x27\xae\x41\xe4\x64\x9b\x93\x4c\xa4\x95\x99\x1b\x78\x52\xb8\x55\
    \0\0\0\0";

const FOURTH: &[u8] = b"FBK1\0\0\0\0\0\0\0\x03\x20\
    \x91\x83\x2d\x32\x53\x1b\xdf\xd1\xa2\x85\xdd\x11\x74\x22\xf8\xd7\
    \x7e\xea\x07\xca\x7f\x93\x7b\x91\xb5\x5d\xed\xa9\xe6\x3d\x72\x6e\
    \xe3\xb0\xc4\x42\x98\xfc\x1c\x14\x9a\xfb\xf4\xc8\x99\x6f\xb9\x24\
    \x27\xae\x41\xe4\x64\x9b\x93\x4c\xa4\x95\x99\x1b\x78\x52\xb8\x55\
    \0\0\0\0";

const FOURTH_UNLINKED: &[u8] = b"FBK1\0\0\0\0\0\0\0\x03\x20\
    \x07\x07\x07\x07\x07\x07\x07\x07\x07\x07\x07\x07\x07\x07\x07\x07\
    \x07\x07\x07\x07\x07\x07\x07\x07\x07\x07\x07\x07\x07\x07\x07\x07\
    \xe3\xb0\xc4\x42\x98\xfc\x1c\x14\x9a\xfb\xf4\xc8\x99\x6f\xb9\x24\
    \x27\xae\x41\xe4\x64\x9b\x93\x4c\xa4\x95\x99\x1b\x78\x52\xb8\x55\
    \0\0\0\0";

// Blocks 0 with a previous hash, with another data hash, and with both.
const LINKED: &[u8] = b"FBK1\0\0\0\0\0\0\0\0\x20\
    \xe3\xb0\xc4\x42\x98\xfc\x1c\x14\x9a\xfb\xf4\xc8\x99\x6f\xb9\x24\
    \x27\xae\x41\xe4\x64\x9b\x93\x4c\xa4\x95\x99\x1b\x78\x52\xb8\x55\
    \xe3\xb0\xc4\x42\x98\xfc\x1c\x14\x9a\xfb\xf4\xc8\x99\x6f\xb9\x24\
    \x27\xae\x41\xe4\x64\x9b\x93\x4c\xa4\x95\x99\x1b\x78\x52\xb8\x55\
    \0\0\0\0";

const WRONG_DATA: &[u8] = b"FBK1\0\0\0\0\0\0\0\0\0\
    \x07\x07\x07\x07\x07\x07\x07\x07\x07\x07\x07\x07\x07\x07\x07\x07\
    \x07\x07\x07\x07\x07\x07\x07\x07\x07\x07\x07\x07\x07\x07\x07\x07\
    \0\0\0\0";

const WRONG_BOTH: &[u8] = b"FBK1\0\0\0\0\0\0\0\0\x20\
    \xe3\xb0\xc4\x42\x98\xfc\x1c\x14\x9a\xfb\xf4\xc8\x99\x6f\xb9\x24\
    \x27\xae\x41\xe4\x64\x9b\x93\x4c\xa4\x95\x99\x1b\x78\x52\xb8\x55\
    \x07\x07\x07\x07\x07\x07\x07\x07\x07\x07\x07\x07\x07\x07\x07\x07\
    \x07\x07\x07\x07\x07\x07\x07\x07\x07\x07\x07\x07\x07\x07\x07\x07\
    \0\0\0\0";

// A block 0 without its last byte, with 4,097 transactions, with one of 1,048,577 bytes, and with a byte behind it.
const CUT: &[u8] = b"FBK1\0\0\0\0\0\0\0\0\0\
    \xe3\xb0\xc4\x42\x98\xfc\x1c\x14\x9a\xfb\xf4\xc8\x99\x6f\xb9\x24\
    \x27\xae\x41\xe4\x64\x9b\x93\x4c\xa4\x95\x99\x1b\x78\x52\xb8\x55\
    \0\0\0";

const MANY: &[u8] = b"FBK1\0\0\0\0\0\0\0\0\0\
    \xe3\xb0\xc4\x42\x98\xfc\x1c\x14\x9a\xfb\xf4\xc8\x99\x6f\xb9\x24\
    \x27\xae\x41\xe4\x64\x9b\x93\x4c\xa4\x95\x99\x1b\x78\x52\xb8\x55\
    \0\0\x10\x01";

const LONG: &[u8] = b"FBK1\0\0\0\0\0\0\0\0\0\
    \xe3\xb0\xc4\x42\x98\xfc\x1c\x14\x9a\xfb\xf4\xc8\x99\x6f\xb9\x24\
    \x27\xae\x41\xe4\x64\x9b\x93\x4c\xa4\x95\x99\x1b\x78\x52\xb8\x55\
    \0\0\0\x01\0\x10\0\x01";

const TRAILING: &[u8] = b"FBK1\0\0\0\0\0\0\0\0\0\
    \xe3\xb0\xc4\x42\x98\xfc\x1c\x14\x9a\xfb\xf4\xc8\x99\x6f\xb9\x24\
    \x27\xae\x41\xe4\x64\x9b\x93\x4c\xa4\x95\x99\x1b\x78\x52\xb8\x55\
    \0\0\0\0\0";

// Two transactions, the second without bytes. The data hash is SHA-256 of `ab`, and the header's hash in its line is of that.
const TWO: &[u8] = b"FBK1\0\0\0\0\0\0\0\0\0\
    \xfb\x8e\x20\xfc\x2e\x4c\x3f\x24\x8c\x60\xc3\x9b\xd6\x52\xf3\xc1\
    \x34\x72\x98\xbb\x97\x7b\x8b\x4d\x59\x03\xb8\x50\x55\x62\x06\x03\
    \0\0\0\x02\0\0\0\x02ab\0\0\0\0";

fn scenes() -> &'static [Scene<'static>] {
    &SCENES
}

static SCENES: [Scene; 5] = [
    // one block and the same again, with commit hashes
    (
        &[("c", CHANNEL), ("k", KEYS), ("b0", FIRST_BLOCK)],
        &[(
            "run --channel c --keys k --hashes b0 b0",
            1,
            "accepted 0 9cae6f5c10756febc407bba95fc23853774c1f65f10354895bfdab6443d66ed3
commit 0 3b4cddf9527680763e1b6c8d248d0adf0f71c02b769a5ef7baebcedf887237ae
refused 2 C2 want 1 got 0
",
            "",
        )],
    ),
    // a chain and what does not continue it
    (
        &[
            ("c", CHANNEL),
            ("k", KEYS),
            ("0", FIRST_BLOCK),
            ("1", SECOND),
            ("2", THIRD),
            ("2x", THIRD_UNLINKED),
            ("3", FOURTH),
            ("3x", FOURTH_UNLINKED),
        ],
        &[(
            "run --channel c --keys k 0 1 1 3 3x 2x 2",
            1,
            "accepted 0 9cae6f5c10756febc407bba95fc23853774c1f65f10354895bfdab6443d66ed3
accepted 1 91832d32531bdfd1a285dd117422f8d77eea07ca7f937b91b55deda9e63d726e
refused 3 C2 want 2 got 1
refused 4 C2 want 2 got 3
refused 5 C2 want 2 got 3
refused 6 C3
accepted 2 c999c319890c8582d934c4fd3ea3e2846eb4987165f638401a5a33be2177b295
",
            "",
        )],
    ),
    // wrong hashes
    (
        &[
            ("c", CHANNEL),
            ("k", KEYS),
            ("0", FIRST_BLOCK),
            ("linked", LINKED),
            ("data", WRONG_DATA),
            ("both", WRONG_BOTH),
        ],
        &[(
            "run --channel c --keys k linked data both 0",
            1,
            "refused 1 C3
refused 2 C4
refused 3 C3
accepted 0 9cae6f5c10756febc407bba95fc23853774c1f65f10354895bfdab6443d66ed3
",
            "",
        )],
    ),
    // bytes that are no block
    (
        &[
            ("c", CHANNEL),
            ("k", KEYS),
            ("1", b"FBK3"),
            ("2", CUT),
            ("3", b"FBK1\0\0\0\0\0\0\0\0\x01"),
            ("4", MANY),
            ("5", LONG),
            ("6", TRAILING),
            ("none", b""),
            ("0", FIRST_BLOCK),
        ],
        &[(
            "run --channel c --keys k 1 2 3 4 5 6 none 0",
            1,
            "refused 1 C1 B1
refused 2 C1 B2
refused 3 C1 B3
refused 4 C1 B4
refused 5 C1 B5
refused 6 C1 B6
refused 7 C1 B1
accepted 0 9cae6f5c10756febc407bba95fc23853774c1f65f10354895bfdab6443d66ed3
",
            "",
        )],
    ),
    // a flag for each transaction
    (
        &[("c", CHANNEL), ("k", KEYS), ("b", TWO)],
        &[
            (
                "run --channel c --keys k b",
                0,
                "accepted 0 a852b3f80de4474b202ef7be14c3aa53fdddcca389bbca2f6c702447fbab6e4a 2 2\n",
                "",
            ),
            (
                "run --channel c --keys k --hashes b",
                0,
                "accepted 0 a852b3f80de4474b202ef7be14c3aa53fdddcca389bbca2f6c702447fbab6e4a 2 2
commit 0 cf5d05deea35f321ab2fd782421335dbf32fdd901039176ac2944050998f9fd7
",
                "",
            ),
        ],
    ),
];

#[test]
fn lines_of_blocks(rt: HostRuntime) -> Result<(), AllocError> {
    let unlike = unlike_of(&rt, scenes())?;
    assert!(rt; unlike.is_none(), "{unlike:?}");
    Ok(())
}

// The empty block 0 once, and twice.
fn first_runs() -> &'static [Scene<'static>] {
    &FIRST_RUNS
}

static FIRST_RUNS: [Scene; 1] = [(
    &[("c", CHANNEL), ("k", KEYS), ("b0", FIRST_BLOCK)],
    &[
        ("run --channel c --keys k b0", 0, ACCEPTED_0, ""),
        (
            "run --channel c --keys k b0 b0",
            1,
            "accepted 0 9cae6f5c10756febc407bba95fc23853774c1f65f10354895bfdab6443d66ed3
refused 2 C2 want 1 got 0
",
            "",
        ),
    ],
)];

#[test]
fn first_run(rt: HostRuntime) -> Result<(), AllocError> {
    let unlike = unlike_of(&rt, first_runs())?;
    assert!(rt; unlike.is_none(), "{unlike:?}");
    Ok(())
}
