//! Scripts, from their texts to what their blocks leave behind.

use crate::drafted::vectors::{
    answers, first_block, first_script, second_block, second_script, third_block, third_script,
};
use crate::files::{File, MemoryFiles, OneOut};
use crate::fixture::{CHANNEL, is_answered, unlike};
use crate::signatures::keys;
use std::alloc::{AllocError, Global};
use std::sync::Wait;
use std::sync::atomic::{AtomicU32, Ordering};
use std::thread::Threads;

pub(crate) mod vectors;

pub(crate) fn first_script_files() -> [File<'static>; 3] {
    [("c", CHANNEL), ("k", keys()), ("s", first_script())]
}

fn second_script_files() -> [File<'static>; 4] {
    [
        ("c", CHANNEL),
        ("k", keys()),
        ("s", second_script()),
        ("b0", first_block()),
    ]
}

fn third_script_files() -> [File<'static>; 4] {
    [
        ("c", CHANNEL),
        ("k", keys()),
        ("s", third_script()),
        ("b1", second_block()),
    ]
}

// Whether the script of these files is drafted, and this block written once.
fn is_drafted<'a>(
    rt: &(impl AllocGlobal + Threads + Wait + Sync),
    files: &'a [File<'a>],
    words: &str,
    block: &'a [u8],
) -> Result<bool, AllocError> {
    let written = AtomicU32::new(0);
    let files = OneOut {
        files: MemoryFiles(files),
        out: ("out", block),
        room: usize::MAX,
        written: &written,
    };
    let is_said = is_answered(rt, &files, &(words, 0, "", ""))?;
    Ok(is_said && written.load(Ordering::SeqCst) == 1)
}

#[test]
fn scripts_become_blocks(rt: HostRuntime) -> Result<(), AllocError> {
    let (first, second, third) = (
        first_script_files(),
        second_script_files(),
        third_script_files(),
    );
    assert!(rt; is_drafted(&rt, &first, "draft s out", first_block())?);
    let behind = "draft s out --channel c --keys k --after b0";
    assert!(rt; is_drafted(&rt, &second, behind, second_block())?);
    assert!(rt; is_first_of_version_2(&rt)?);
    let behind = "draft --format 2 s out --channel c --keys k --after b1";
    assert!(rt; is_drafted(&rt, &third, behind, third_block())?);
    // An update is of version 2.
    let row = ("draft s out", 3, "", "s line 1\n");
    assert!(rt; is_answered(&rt, &MemoryFiles(&third[..3]), &row)?);
    Ok(())
}

// The block with the magic of version 2.
fn of_version_2(alloc: Global, block: &[u8]) -> Result<Vec<u8>, AllocError> {
    let mut bytes = Vec::from_slice(alloc, block)?;
    if let Some(byte) = bytes.get_mut(3) {
        *byte = b'2';
    }
    Ok(bytes)
}

fn is_first_of_version_2(
    rt: &(impl AllocGlobal + Threads + Wait + Sync),
) -> Result<bool, AllocError> {
    let block = of_version_2(rt.alloc(), first_block())?;
    is_drafted_in_version_2(rt, &block)
}

fn is_drafted_in_version_2<'a>(
    rt: &(impl AllocGlobal + Threads + Wait + Sync),
    block: &'a [u8],
) -> Result<bool, AllocError> {
    let files = first_script_files();
    is_drafted(rt, &files, "draft --format 2 s out", block)
}

// The first answer that the blocks of all scripts, and the first two in version 2, don't give.
fn unlike_over<'a>(
    rt: &(impl AllocGlobal + Threads + Wait + Sync),
    first: &'a [u8],
    second: &'a [u8],
) -> Result<Option<&'static str>, AllocError> {
    let files = [
        ("c", CHANNEL),
        ("k", keys()),
        ("b0", first_block()),
        ("b1", second_block()),
        ("b2", third_block()),
        ("c0", first),
        ("c1", second),
    ];
    unlike(rt, &MemoryFiles(&files), answers())
}

fn unlike_answer(
    rt: &(impl AllocGlobal + Threads + Wait + Sync),
) -> Result<Option<&'static str>, AllocError> {
    let first = of_version_2(rt.alloc(), first_block())?;
    let second = of_version_2(rt.alloc(), second_block())?;
    unlike_over(rt, &first, &second)
}

#[test]
fn what_the_blocks_leave_behind(rt: HostRuntime) -> Result<(), AllocError> {
    let unlike = unlike_answer(&rt)?;
    assert!(rt; unlike.is_none(), "{unlike:?}");
    Ok(())
}
