//! What the bytes of an update can't be.

use super::example;
use crate::changes::{Change, Kind, first_unlike_cut, is_as_said};
use crate::fields::Field::{Is, Long};
use std::alloc::AllocError;

fn changes() -> &'static [Change] {
    &CHANGES
}

static CHANGES: [Change; 53] = [
    // The mark.
    (0, 1, Is(b"\0"), true),
    (0, 1, Is(b"\x01"), false),
    (0, 1, Is(b""), false),
    // The creator's role.
    (73, 74, Is(b"\x03"), true),
    (73, 74, Is(b"\x04"), false),
    // The nonce, with no bytes, and with more than exist.
    (77, 80, Is(b"\0"), true),
    (77, 78, Is(b"\xff"), false),
    // The namespace is a name.
    (80, 83, Is(b"\x01a"), true),
    (80, 83, Is(b"\x03a b"), false),
    (80, 83, Is(b"\0"), false),
    // The policy's text, with no bytes, and with more than exist; it may be no policy.
    (83, 100, Is(b"\0\0"), true),
    (83, 100, Is(b"\0\x04AND("), true),
    (83, 85, Is(b"\xff\xff"), false),
    // No endorsements, and a signature of no bytes.
    (100, 144, Is(b"\0"), true),
    (144, 178, Is(b"\0\0"), true),
    // A byte after the end.
    (178, 178, Is(b"\0"), false),
    // The channel.
    (1, 4, Long(b"\0", b"a", 0, b""), false),
    (1, 4, Long(b"\x01", b"a", 1, b""), true),
    (1, 4, Long(b"\x40", b"a", 64, b""), true),
    (1, 4, Long(b"\x41", b"a", 65, b""), false),
    // The creator's organization.
    (68, 73, Long(b"\0", b"a", 0, b""), false),
    (68, 73, Long(b"\x01", b"a", 1, b""), true),
    (68, 73, Long(b"\x40", b"a", 64, b""), true),
    (68, 73, Long(b"\x41", b"a", 65, b""), false),
    // The namespace.
    (80, 83, Long(b"\0", b"a", 0, b""), false),
    (80, 83, Long(b"\x01", b"a", 1, b""), true),
    (80, 83, Long(b"\x40", b"a", 64, b""), true),
    (80, 83, Long(b"\x41", b"a", 65, b""), false),
    // The endorser's organization.
    (101, 106, Long(b"\0", b"a", 0, b""), false),
    (101, 106, Long(b"\x01", b"a", 1, b""), true),
    (101, 106, Long(b"\x40", b"a", 64, b""), true),
    (101, 106, Long(b"\x41", b"a", 65, b""), false),
    // The creator's label, the longest that its number can state.
    (74, 77, Long(b"\xff", b"a", 254, b""), false),
    (74, 77, Long(b"\xff", b"a", 255, b""), true),
    (74, 77, Long(b"\xff", b"a", 256, b""), false),
    // The nonce.
    (77, 80, Long(b"\xff", b"a", 254, b""), false),
    (77, 80, Long(b"\xff", b"a", 255, b""), true),
    (77, 80, Long(b"\xff", b"a", 256, b""), false),
    // The endorser's label.
    (107, 110, Long(b"\xff", b"a", 254, b""), false),
    (107, 110, Long(b"\xff", b"a", 255, b""), true),
    (107, 110, Long(b"\xff", b"a", 256, b""), false),
    // The policy's text.
    (83, 100, Long(b"\xff\xff", b"a", 65_534, b""), false),
    (83, 100, Long(b"\xff\xff", b"a", 65_535, b""), true),
    (83, 100, Long(b"\xff\xff", b"a", 65_536, b""), false),
    // The endorser's signature.
    (110, 144, Long(b"\xff\xff", b"a", 65_534, b""), false),
    (110, 144, Long(b"\xff\xff", b"a", 65_535, b""), true),
    (110, 144, Long(b"\xff\xff", b"a", 65_536, b""), false),
    // The creator's signature.
    (144, 178, Long(b"\xff\xff", b"a", 65_534, b""), false),
    (144, 178, Long(b"\xff\xff", b"a", 65_535, b""), true),
    (144, 178, Long(b"\xff\xff", b"a", 65_536, b""), false),
    // Endorsements without signatures, none missing.
    (100, 144, Long(b"\0", b"\x01O\x02\0\0\0", 0, b""), true),
    (100, 144, Long(b"\x40", b"\x01O\x02\0\0\0", 64, b""), true),
    (100, 144, Long(b"\x41", b"\x01O\x02\0\0\0", 65, b""), false),
];

#[test]
fn cut_and_changed(rt: HostRuntime) -> Result<(), AllocError> {
    assert!(rt; first_unlike_cut(rt.alloc(), Kind::Update, example()) == None);
    for (number, change) in changes().iter().enumerate() {
        assert!(rt;
            is_as_said(rt.alloc(), Kind::Update, example(), change)?,
            "row {number}"
        );
    }
    Ok(())
}
