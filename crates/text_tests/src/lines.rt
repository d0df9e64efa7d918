//! The expected values were worked out by hand from the rules of lines and words.

use std::alloc::{AllocError, Global};
use text_lines::{Statements, first_part, read_word, text_of, trimmed};

fn are_statements(text: &str, wanted: &[(u64, &[u8])]) -> bool {
    let mut found = Statements::new(text);
    for (line, bytes) in wanted {
        match found.next() {
            Some(statement) if statement.line == *line && statement.bytes == *bytes => {}
            _ => return false,
        }
    }
    found.next().is_none()
}

fn in_lines() -> &'static [(&'static str, &'static [(u64, &'static [u8])])] {
    &LINES
}

static LINES: [(&str, &[(u64, &[u8])]); 9] = [
    ("", &[]),
    ("\n", &[]),
    (" \n  # a comment\n#\n\r\n", &[]),
    ("a", &[(1, b"a")]),
    ("a\n", &[(1, b"a")]),
    ("a\nb", &[(1, b"a"), (2, b"b")]),
    ("\n\n  a  b \n# c\n d", &[(3, b"a  b"), (5, b"d")]),
    // The first `\r` of two stays, and so does one at the very end.
    ("a\r\nb\r\r\nc\r", &[(1, b"a"), (2, b"b\r"), (3, b"c\r")]),
    // A tab, a byte-order mark and a space that is no 0x20 are no spaces.
    (
        "\ta\n\u{feff}b\n\u{a0}\n",
        &[(1, b"\ta"), (2, b"\xef\xbb\xbfb"), (3, b"\xc2\xa0")],
    ),
];

#[test]
fn lines_that_say_something(rt: HostRuntime) {
    for &(text, wanted) in in_lines() {
        assert!(rt; are_statements(text, wanted), "{text:?}");
    }
}

fn in_parts() -> &'static [(&'static [u8], &'static [u8], &'static [u8])] {
    &PARTS
}

static PARTS: [(&[u8], &[u8], &[u8]); 6] = [
    (b"", b"", b""),
    (b"one", b"one", b""),
    (b"one two", b"one", b"two"),
    (b"one   two  three ", b"one", b"two  three "),
    (b" one", b"", b"one"),
    (b"a\tb c", b"a\tb", b"c"),
];

fn is_in_parts(line: &[u8], first: &[u8], after: &[u8]) -> bool {
    let found = first_part(line);
    found.0 == first && found.1 == after
}

#[test]
fn parts(rt: HostRuntime) {
    for &(line, first, after) in in_parts() {
        assert!(rt; is_in_parts(line, first, after), "{line:?}");
    }
    assert!(rt; trimmed(b"  a b\t ") == b"a b\t".as_slice());
    assert!(rt; trimmed(b"   ") == b"".as_slice());
}

// Texts, and the bytes that each spells where it is a word.
fn spelled() -> &'static [(&'static [u8], Option<&'static [u8]>)] {
    &SPELLED
}

static SPELLED: [(&[u8], Option<&[u8]>); 15] = [
    (b"%", Some(b"")),
    (b"a%20%25", Some(b"\x61\x20\x25")),
    (b"%00%fF%Aa", Some(b"\x00\xff\xaa")),
    (b"!~\"#", Some(b"!~\"#")),
    (b"%25", Some(b"%")),
    (b"k", Some(b"k")),
    (b"", None),
    (b"a%", None),
    (b"%%", None),
    (b"%4", None),
    (b"%g0", None),
    (b"%0g", None),
    (b"a b", None),
    (b"\x7f", None),
    (b"\xc3\xa4", None),
];

fn is_spelled(alloc: Global, text: &[u8], wanted: Option<&[u8]>) -> Result<bool, AllocError> {
    match read_word(alloc, text)? {
        Some(word) => Ok(Some(word.as_slice()) == wanted),
        None => Ok(wanted.is_none()),
    }
}

#[test]
fn words(rt: HostRuntime) -> Result<(), AllocError> {
    for &(text, wanted) in spelled() {
        assert!(rt; is_spelled(rt.alloc(), text, wanted)?, "{text:?}");
    }
    Ok(())
}

// The text, or the line of the first bytes that are none.
fn in_utf_8() -> &'static [(&'static [u8], Result<&'static str, u64>)] {
    &TEXTS
}

static TEXTS: [(&[u8], Result<&str, u64>); 8] = [
    (b"", Ok("")),
    (b"a\n\xc3\xa4", Ok("a\n\u{e4}")),
    (b"\xff", Err(1)),
    (b"a\nb\n\xffc\n\xff", Err(3)),
    // a sequence that a line feed or the end cuts short
    (b"\n\xe2\x82\n", Err(2)),
    (b"\n\xe2\x82", Err(2)),
    // a surrogate, and a spelling that is too long
    (b"a\n\xed\xa0\x80", Err(2)),
    (b"\n\n\xc0\x80\n", Err(3)),
];

#[test]
fn texts(rt: HostRuntime) {
    for &(bytes, wanted) in in_utf_8() {
        assert!(rt; text_of(bytes) == wanted, "{bytes:?}");
    }
}
