//! Which bytes a creator and an endorser have to sign.

use crate::files::MemoryFiles;
use crate::fixture::{CHANNEL, Row, unlike};
use crate::signatures::vectors::{LINE, block};
use std::alloc::AllocError;

mod vectors;

pub(crate) use vectors::keys;

fn rows() -> &'static [Row<'static>] {
    &ROWS
}

static ROWS: [Row; 2] = [
    ("run --workers 1 --channel c --keys k b", 0, LINE, ""),
    ("run --workers 5 --channel c --keys k b", 0, LINE, ""),
];

#[test]
fn signatures_over_this_and_that(rt: HostRuntime) -> Result<(), AllocError> {
    let files = [("c", CHANNEL), ("k", keys()), ("b", block())];
    let unlike = unlike(&rt, &MemoryFiles(&files), rows())?;
    assert!(rt; unlike.is_none(), "{unlike:?}");
    Ok(())
}
