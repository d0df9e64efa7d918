//! Lists of as many entries as their count can state, and of one fewer and one more than it states.

use super::example;
use crate::changes::{Kind, is_as_said};
use crate::fields::Field::Long;
use std::alloc::{AllocError, Global};

// Where a list is in the example, with what precedes it, and an entry: namespaces, reads, ranges, results of a range,
// deletes and policies that are removed.
type List = (usize, usize, &'static [u8], &'static [u8]);

fn lists() -> &'static [List] {
    &LISTS
}

static LISTS: [List; 6] = [
    (82, 122, b"\xff\xff", b"\x01c\0\0\0\0\0\0\0\0"),
    (87, 106, b"\xff\xff", b"\0\x01k\0"),
    (106, 108, b"\xff\xff", b"\0\0\0\0\x01\0\0"),
    (
        106,
        108,
        b"\0\x01\0\0\0\0\x01\xff\xff",
        b"\0\x01k\0\0\0\0\0\0\0\0\0\0\0\0",
    ),
    (108, 120, b"\xff\xff", b"\0\x01k\0"),
    (120, 122, b"\xff\xff", b"\0\x01k\0"),
];

// How many entries the list has, while its count is 65,535, and whether they are read.
fn counts() -> &'static [(usize, bool)] {
    &COUNTS
}

static COUNTS: [(usize, bool); 3] = [(65_534, false), (65_535, true), (65_536, false)];

fn is_read_as_said(
    alloc: Global,
    list: &List,
    count: usize,
    is_good: bool,
) -> Result<bool, AllocError> {
    let &(from, to, front, entry) = list;
    let field = Long(front, entry, count, b"");
    is_as_said(alloc, Kind::Tx, example(), &(from, to, field, is_good))
}

fn is_of_most(alloc: Global, list: &List) -> Result<bool, AllocError> {
    for &(count, is_good) in counts() {
        if !is_read_as_said(alloc, list, count, is_good)? {
            return Ok(false);
        }
    }
    Ok(true)
}

#[test]
fn lists_of_the_most_entries(rt: HostRuntime) -> Result<(), AllocError> {
    for (number, list) in lists().iter().enumerate() {
        assert!(rt; is_of_most(rt.alloc(), list)?, "list {number}");
    }
    Ok(())
}
