//! Readers: threads that query while blocks are handed in.
ghost use Rattle.std.specs.Prelude.{◌≡◌, ◌<◌, ◌≤◌, ◌^◌, All, IfOk, IfSome, OnOk, length};
ghost use Rattle.command_line.specs.Handing.{ReadersTold, known_list};

use crate::lines::Style;
use cli_lines::{LineFault, write_reader};
use commit::{Committer, QueryFault, QueryHandle, Receipt};
use std::alloc::{AllocError, Global};
use std::io::Write;
use std::snapshot::Snapshot;
use std::thread::{Promise, PromisedHandle, Scope, Threads};

/// How often each reader asks.
const QUESTIONS: u32 = 1_000;

/// That a reader's thread gives back a handle of the committer whose handle it was given.
#[derive(Drop)]
pub(crate) struct SameCommitter(Snapshot<QueryHandle>);

impl Promise<Result<QueryHandle, QueryFault>> for SameCommitter {
    ghost kept_by = { λ promise back. IfOk back (λ handle. handle.book ≡ promise.0.value.book) };
}

/// A reader's thread, which gives the handle back that it asked by.
pub(crate) type Reader = PromisedHandle<Result<QueryHandle, QueryFault>, SameCommitter>;

// Asks for the height, again and again.
fn ask(mut handle: QueryHandle) -> Result<QueryHandle, QueryFault>
    ensures { IfOk result (λ back. back.book ≡ handle.book) }
{
    for _ in 0..QUESTIONS {
        handle.height()?;
    }
    Ok(handle)
}

// Starts a thread for a handle of the committer, which is here for the clauses alone.
fn start_one<'s, E>(
    scope: &Scope<'s, E>,
    committer: &Committer,
    handle: QueryHandle,
) -> Result<Reader, AllocError>
    requires { handle.book ≡ committer.now.book }
    ensures { IfOk result (λ reader. reader.promise.0.value.book ≡ committer.now.book) }
{
    let _committer = committer;
    let promise = SameCommitter(Snapshot::of(&handle));
    Ok(scope.spawn_with(promise, move || ask(handle))?)
}

/// Starts a thread for each handle of the committer.
pub(crate) fn start<'s, E>(
    alloc: Global,
    scope: &Scope<'s, E>,
    committer: &Committer,
    handles: Vec<QueryHandle>,
) -> Result<Vec<Reader>, AllocError>
    requires { All (λ handle. handle.book ≡ committer.now.book) handles.items }
    ensures readers { IfOk result (λ readers. All (λ reader. reader.promise.0.value.book ≡ committer.now.book) readers.items) }
    ensures count { IfOk result (λ readers. length readers.items ≡ length handles.items) }
{
    let mut readers = Vec::with_capacity(alloc, handles.len())?;
    for handle in handles {
        readers.push(start_one(scope, committer, handle)?)?;
    }
    Ok(readers)
}

// What a handle answers that was told of the last block.
fn height_behind(mut handle: QueryHandle, last: &Option<Receipt>) -> Result<u64, QueryFault>
    requires { IfSome last.now (λ receipt. handle.book ≡ receipt.front.book) }
    ensures { IfOk result (λ height. length (known_list last.now) ≤ height) }
{
    if let Some(receipt) = last {
        handle.learn(receipt);
    }
    Ok(handle.height()?.answer)
}

// What a reader, whose thread has ended, then finds. A query of a committer that isn't closed wants nothing but memory.
fn height_of<R: Threads>(rt: &R, reader: Reader, last: &Option<Receipt>) -> Result<u64, QueryFault>
    requires { IfSome last.now (λ receipt. reader.promise.0.value.book ≡ receipt.front.book) }
    ensures { IfOk result (λ height. length (known_list last.now) ≤ height) }
{
    height_behind(reader.join(rt)?, last)
}

/// Tells the readers, whose threads have ended, of the last block, and writes for each a line with the
/// height that it then finds: `reader J height H`, J from 1. Takes no memory.
pub(crate) fn write_heights<R: Threads, W: Write>(
    rt: &R,
    readers: Vec<Reader>,
    last: &Option<Receipt>,
    style: Style,
    out: &mut W,
) -> Result<(), LineFault>
    requires few { length readers.items < 2 ^ 63 }
    requires books { All (λ reader. IfSome last.now (λ receipt. reader.promise.0.value.book ≡ receipt.front.book)) readers.items }
    ensures { OnOk result (ReadersTold style (length readers.items) last.now (W.contents out.old) (W.contents out.new)) }
{
    let mut place = 0u64;
    for reader in readers {
        place = place.wrapping_add(1);
        let Ok(height) = height_of(rt, reader, last) else {
            return Err(LineFault::Memory);
        };
        write_reader(out, style.format, place, height)?;
    }
    Ok(())
}
