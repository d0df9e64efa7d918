//! A chain whose last two blocks have each word of a reason, and ids that are asked for.

use crate::explained::each_word::objects::objects;
use crate::explained::each_word::vectors::{
    answers, channel, first_block, keys, second_block, third_block,
};
use crate::files::{File, MemoryFiles};
use crate::fixture::unlike;
use std::alloc::AllocError;

mod objects;
mod vectors;

fn files() -> [File<'static>; 5] {
    [
        ("c", channel()),
        ("k", keys()),
        ("b0", first_block()),
        ("b1", second_block()),
        ("b2", third_block()),
    ]
}

#[test]
fn each_word_of_a_reason(rt: HostRuntime) -> Result<(), AllocError> {
    let files = files();
    let unlike = unlike(&rt, &MemoryFiles(&files), answers())?;
    assert!(rt; unlike.is_none(), "{unlike:?}");
    Ok(())
}

#[test]
fn each_word_in_an_object(rt: HostRuntime) -> Result<(), AllocError> {
    let files = files();
    let unlike = unlike(&rt, &MemoryFiles(&files), objects())?;
    assert!(rt; unlike.is_none(), "{unlike:?}");
    Ok(())
}
