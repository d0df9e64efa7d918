//! What the bytes of a transaction can't be.

use super::example;
use crate::changes::{Change, Kind, first_unlike_cut, is_as_said};
use crate::fields::Field::{Is, Long};
use std::alloc::AllocError;

fn changes() -> &'static [Change] {
    &CHANGES
}

static CHANGES: [Change; 45] = [
    // A byte after the end.
    (200, 200, Is(b"\0"), false),
    // The creator's role, a key's length, the flags of a version and a value, a value's length.
    (72, 73, Is(b"\x04"), false),
    (90, 91, Is(b"\0"), false),
    (93, 94, Is(b"\x02"), false),
    (114, 115, Is(b"\x02"), false),
    (115, 116, Is(b"\xff"), false),
    (122, 123, Is(b"\x41"), false),
    // The length of the value, the greatest there is.
    (115, 119, Is(b"\xff\xff\xff\xff"), false),
    // A value with which there are 1,048,576 bytes, and one with which there is a byte more.
    (
        115,
        120,
        Long(b"\0\x0f\xff\x39", b"v", 1_048_377, b""),
        true,
    ),
    (
        115,
        120,
        Long(b"\0\x0f\xff\x3a", b"v", 1_048_378, b""),
        false,
    ),
    // 65,535 namespaces, all of them missing.
    (82, 200, Is(b"\xff\xff"), false),
    // The key of the read.
    (89, 93, Long(b"\0\0", b"k", 0, b""), false),
    (89, 93, Long(b"\0\x01", b"k", 1, b""), true),
    (89, 93, Long(b"\x04\0", b"k", 1_024, b""), true),
    (89, 93, Long(b"\x04\x01", b"k", 1_025, b""), false),
    // The key of the write.
    (110, 114, Long(b"\0\0", b"k", 0, b""), false),
    (110, 114, Long(b"\0\x01", b"k", 1, b""), true),
    (110, 114, Long(b"\x04\0", b"k", 1_024, b""), true),
    (110, 114, Long(b"\x04\x01", b"k", 1_025, b""), false),
    // One range instead of none: its first bound, then the other one.
    (106, 108, Is(b"\0\x01\0\0\0\0\x01\0\0"), true),
    (
        106,
        108,
        Long(b"\0\x01\x04\0", b"k", 1_024, b"\0\0\x01\0\0"),
        true,
    ),
    (
        106,
        108,
        Long(b"\0\x01\x04\x01", b"k", 1_025, b"\0\0\x01\0\0"),
        false,
    ),
    (
        106,
        108,
        Long(b"\0\x01\0\0\x04\0", b"k", 1_024, b"\x01\0\0"),
        true,
    ),
    (
        106,
        108,
        Long(b"\0\x01\0\0\x04\x01", b"k", 1_025, b"\x01\0\0"),
        false,
    ),
    // The channel.
    (0, 3, Is(b"\0"), false),
    (0, 3, Is(b"\x01a"), true),
    (0, 3, Long(b"\x40", b"a", 64, b""), true),
    (0, 3, Long(b"\x41", b"a", 65, b""), false),
    (0, 3, Is(b"\x03a b"), false),
    // The chaincode.
    (79, 82, Is(b"\0"), false),
    (79, 82, Is(b"\x01a"), true),
    (79, 82, Long(b"\x40", b"a", 64, b""), true),
    (79, 82, Long(b"\x41", b"a", 65, b""), false),
    (79, 82, Is(b"\x03a b"), false),
    // The namespace.
    (84, 87, Is(b"\0"), false),
    (84, 87, Is(b"\x01a"), true),
    (84, 87, Long(b"\x40", b"a", 64, b""), true),
    (84, 87, Long(b"\x41", b"a", 65, b""), false),
    (84, 87, Is(b"\x03a b"), false),
    // A policy write of the most bytes that a policy may have, and of more, which the decoder accepts and intake flags.
    (
        120,
        122,
        Long(b"\0\x01\0\x01k\x01\x10\0", b" ", 4_096, b""),
        true,
    ),
    (
        120,
        122,
        Long(b"\0\x01\0\x01k\x01\x10\x01", b" ", 4_097, b""),
        true,
    ),
    (
        120,
        122,
        Long(b"\0\x01\0\x01k\x01\xff\xff", b" ", 65_535, b""),
        true,
    ),
    (
        120,
        122,
        Long(b"\0\x01\0\x01k\x01\xff\xff", b" ", 65_536, b""),
        false,
    ),
    // Endorsements without signatures, none missing.
    (122, 166, Long(b"\x40", b"\x01O\x02\0\0\0", 64, b""), true),
    (122, 166, Long(b"\x41", b"\x01O\x02\0\0\0", 65, b""), false),
];

#[test]
fn cut_lengthened_and_changed(rt: HostRuntime) -> Result<(), AllocError> {
    assert!(rt; first_unlike_cut(rt.alloc(), Kind::Tx, example()) == None);
    for (number, change) in changes().iter().enumerate() {
        assert!(rt;
            is_as_said(rt.alloc(), Kind::Tx, example(), change)?,
            "row {number}"
        );
    }
    Ok(())
}
