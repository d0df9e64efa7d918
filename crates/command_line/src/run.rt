ghost use Rattle.std.specs.Prelude.{◌≡◌, ◌<◌, ◌≤◌, ◌^◌, [], All, IfOk, IfErr, IfSome, length};
ghost use Rattle.key_book.specs.Book.{accepts};
ghost use Rattle.command_files.specs.Failing.{EndsBefore, InputsFail};
ghost use Rattle.command_line.specs.Handing.{AreHandedIn, IsAllTold};
ghost use Rattle.command_line.specs.Printed.{Prints};

use crate::committing::{Committed, Handing, commit_each};
use crate::lines::Style;
use crate::readers::{Reader, start, write_heights};
use crate::reading::read_blocks;
use channel::Channel;
use cli_lines::LineFault;
use cli_words::{Parallelism, Run};
use command_files::{Configuration, Fault, Files};
use commit::{Committer, OpenFault, QueryHandle};
use ledger_commands::Progress;
use std::alloc::AllocError;
use std::io::Write;
use std::sync::Wait;
use std::thread;
use std::thread::{Scope, Threads};

/// A new committer. In these bounds nothing but memory can be wanted.
pub(crate) fn opened<R: AllocGlobal + Wait>(
    rt: &R,
    channel: Channel,
    parallelism: &Parallelism,
) -> Result<(Committer, Vec<QueryHandle>), AllocError>
    ensures books { IfOk result (λ opened. All (λ handle. handle.book ≡ opened.0.book) opened.1.items) }
    ensures count { IfOk result (λ opened. length opened.1.items ≡ parallelism.now.readers) }
    ensures channel { IfOk result (λ opened. opened.0.channel ≡ channel) }
    ensures empty { IfOk result (λ opened. opened.0.list ≡ []) }
{
    let (workers, readers) = (parallelism.workers, parallelism.readers);
    match Committer::open(rt.alloc(), rt, channel, workers, readers) {
        Ok(opened) => Ok(opened),
        Err(OpenFault::Workers) | Err(OpenFault::Readers) => unreachable!(),
        Err(OpenFault::NoPlace) | Err(OpenFault::Memory) => Err(AllocError),
    }
}

// What came of blocks that were handed in while readers asked.
#[derive(Drop)]
struct Done {
    readers: Vec<Reader>,
    committed: Committed,
}

// What the calling thread has, while readers ask, and what came of it.
#[derive(Drop)]
struct Sides<'c, 'w, 'p, 'd, W, P> {
    committer: &'c mut Committer,
    out: &'w mut W,
    progress: &'p mut P,
    done: &'d mut Result<Done, LineFault>,
}

// Starts the readers, and commits while they ask.
fn commit_while_asked<'s, E, R: AllocGlobal + Threads + Wait + Sync, W: Write, P: Progress>(
    scope: &Scope<'s, E>,
    committer: &mut Committer,
    handles: Vec<QueryHandle>,
    handing: &Handing<'_, R>,
    out: &mut W,
    progress: &mut P,
) -> Result<Done, LineFault>
    requires { All (λ handle. handle.book ≡ committer.old.book) handles.items }
    ensures handed { IfOk result (λ done. AreHandedIn (accepts handing.now.keys.now) handing.now.style committer.old (W.contents out.old) handing.now.blocks.now done.committed committer.new (W.contents out.new)) }
    ensures readers { IfOk result (λ done. All (λ reader. reader.promise.0.value.book ≡ committer.old.book) done.readers.items) }
    ensures count { IfOk result (λ done. length done.readers.items ≡ length handles.items) }
    ensures last { IfOk result (λ done. IfSome done.committed.last (λ receipt. receipt.front.book ≡ committer.old.book)) }
{
    let readers = start(handing.rt.alloc(), scope, committer, handles)?;
    let committed = commit_each(committer, handing, out, progress)?;
    Ok(Done { readers, committed })
}

// The same, by what the thread has.
fn commit_by<'s, 'c, 'w, 'p, 'd, E, R: AllocGlobal + Threads + Wait + Sync, W: Write, P: Progress>(
    scope: &Scope<'s, E>,
    sides: Sides<'c, 'w, 'p, 'd, W, P>,
    handles: Vec<QueryHandle>,
    handing: &Handing<'_, R>,
) -> Sides<'c, 'w, 'p, 'd, W, P>
    requires { All (λ handle. handle.book ≡ sides.committer.now.book) handles.items }
    ensures handed { IfOk result.done.now (λ done. AreHandedIn (accepts handing.now.keys.now) handing.now.style sides.entry.committer.now (W.contents sides.entry.out.now) handing.now.blocks.now done.committed result.committer.now (W.contents result.out.now)) }
    ensures readers { IfOk result.done.now (λ done. All (λ reader. reader.promise.0.value.book ≡ sides.entry.committer.now.book) done.readers.items) }
    ensures count { IfOk result.done.now (λ done. length done.readers.items ≡ length handles.items) }
    ensures last { IfOk result.done.now (λ done. IfSome done.committed.last (λ receipt. receipt.front.book ≡ sides.entry.committer.now.book)) }
    ensures committer { result.committer.ghost_name ≡ sides.entry.committer.ghost_name }
    ensures out { result.out.ghost_name ≡ sides.entry.out.ghost_name }
    ensures done { result.done.ghost_name ≡ sides.entry.done.ghost_name }
{
    let Sides {
        committer,
        out,
        progress,
        done,
    } = sides;
    *done = commit_while_asked(scope, committer, handles, handing, out, progress);
    Sides {
        committer,
        out,
        progress,
        done,
    }
}

// Starts the readers, commits while they ask, and waits until their threads have ended.
fn commit_in_scope<'c, 'w, 'p, 'd, R: AllocGlobal + Threads + Wait + Sync, W: Write, P: Progress>(
    sides: Sides<'c, 'w, 'p, 'd, W, P>,
    handles: Vec<QueryHandle>,
    handing: &Handing<'_, R>,
) -> Sides<'c, 'w, 'p, 'd, W, P>
    requires { All (λ handle. handle.book ≡ sides.committer.now.book) handles.items }
    ensures handed { IfOk result.done.now (λ done. AreHandedIn (accepts handing.now.keys.now) handing.now.style sides.entry.committer.now (W.contents sides.entry.out.now) handing.now.blocks.now done.committed result.committer.now (W.contents result.out.now)) }
    ensures readers { IfOk result.done.now (λ done. All (λ reader. reader.promise.0.value.book ≡ sides.entry.committer.now.book) done.readers.items) }
    ensures count { IfOk result.done.now (λ done. length done.readers.items ≡ length handles.items) }
    ensures last { IfOk result.done.now (λ done. IfSome done.committed.last (λ receipt. receipt.front.book ≡ sides.entry.committer.now.book)) }
    ensures committer { result.committer.ghost_name ≡ sides.entry.committer.ghost_name }
    ensures out { result.out.ghost_name ≡ sides.entry.out.ghost_name }
    ensures done { result.done.ghost_name ≡ sides.entry.done.ghost_name }
{
    thread::scope(
        thread::scope_env(),
        handing.rt,
        move |scope| -> Sides<W, P>
            requires { All (λ handle. handle.book ≡ sides.committer.now.book) handles.items }
            ensures handed { IfOk result.done.now (λ done. AreHandedIn (accepts handing.entry.now.keys.now) handing.entry.now.style sides.entry.committer.now (W.contents sides.entry.out.now) handing.entry.now.blocks.now done.committed result.committer.now (W.contents result.out.now)) }
            ensures readers { IfOk result.done.now (λ done. All (λ reader. reader.promise.0.value.book ≡ sides.entry.committer.now.book) done.readers.items) }
            ensures count { IfOk result.done.now (λ done. length done.readers.items ≡ length handles.items) }
            ensures last { IfOk result.done.now (λ done. IfSome done.committed.last (λ receipt. receipt.front.book ≡ sides.entry.committer.now.book)) }
            ensures committer { result.committer.ghost_name ≡ sides.entry.committer.ghost_name }
            ensures out { result.out.ghost_name ≡ sides.entry.out.ghost_name }
            ensures done { result.done.ghost_name ≡ sides.entry.done.ghost_name }
        { commit_by(scope, sides, handles, handing) },
    )
}

// The readers and what was committed, once the readers' threads have ended.
fn commit_beside_readers<R: AllocGlobal + Threads + Wait + Sync, W: Write, P: Progress>(
    committer: &mut Committer,
    handles: Vec<QueryHandle>,
    handing: &Handing<'_, R>,
    out: &mut W,
    progress: &mut P,
) -> Result<Done, LineFault>
    requires { All (λ handle. handle.book ≡ committer.old.book) handles.items }
    ensures handed { IfOk result (λ done. AreHandedIn (accepts handing.now.keys.now) handing.now.style committer.old (W.contents out.old) handing.now.blocks.now done.committed committer.new (W.contents out.new)) }
    ensures readers { IfOk result (λ done. All (λ reader. reader.promise.0.value.book ≡ committer.old.book) done.readers.items) }
    ensures count { IfOk result (λ done. length done.readers.items ≡ length handles.items) }
    ensures last { IfOk result (λ done. IfSome done.committed.last (λ receipt. receipt.front.book ≡ committer.old.book)) }
{
    let mut done = Err(LineFault::Memory);
    let sides = Sides {
        committer,
        out,
        progress,
        done: &mut done,
    };
    let _sides = commit_in_scope(sides, handles, handing);
    done
}

// All lines, those of the readers after those of the blocks.
fn write_lines<R: AllocGlobal + Threads + Wait + Sync, W: Write, P: Progress>(
    committer: &mut Committer,
    handles: Vec<QueryHandle>,
    handing: &Handing<'_, R>,
    out: &mut W,
    progress: &mut P,
) -> Result<u8, LineFault>
    requires books { All (λ handle. handle.book ≡ committer.old.book) handles.items }
    requires few { length handles.items < 2 ^ 63 }
    ensures { IfOk result (λ status. IsAllTold (accepts handing.now.keys.now) handing.now.style (length handles.items) committer.old (W.contents out.old) handing.now.blocks.now status committer.new (W.contents out.new)) }
{
    let Done { readers, committed } = commit_beside_readers(
        committer, handles, handing, out, progress,
    )?;
    let mut lines = Vec::new(handing.rt.alloc());
    write_heights(
        handing.rt,
        readers,
        &committed.last,
        handing.style,
        &mut lines,
    )?;
    out.write_all(lines.as_slice())?;
    out.flush()?;
    Ok(committed.status)
}

/// Reads the files, hands the blocks in to a new committer, and writes a line for each, and then one for
/// each reader. The memory is the files' bytes, which the committer shares, what else it keeps, what the blocks take that it takes
/// in ahead, the lines for one block, and what threads take.
pub(crate) fn run_blocks<
    'a,
    R: AllocGlobal + Threads + Wait + Sync,
    F: Files + Sync,
    W: Write,
    P: Progress,
>(rt: &R, files: &F, words: &Run<'a>, out: &mut W, progress: &mut P) -> Result<u8, Fault<'a>>
    ensures ok { IfOk result (λ status. Prints (F.holds files.now) words.now (W.contents out.old) status (W.contents out.new)) }
    ensures err { IfErr result (EndsBefore (InputsFail (F.holds files.now) (F.unreadable files.now) words.now.paths) (W.contents out.old) (W.contents out.new)) }
{
    let (paths, parallelism) = (&words.paths, &words.parallelism);
    let Configuration { channel, keys } = Configuration::read(
        rt.alloc(),
        files,
        &paths.configuration,
    )?;
    let blocks = read_blocks(rt, files, &paths.blocks, parallelism.workers)?;
    let (mut committer, handles) = opened(rt, channel, parallelism)?;
    let handing = Handing {
        rt,
        blocks: &blocks,
        keys: &keys,
        style: Style {
            format: paths.format,
            hashes: words.hashes,
        },
    };
    let ended = write_lines(&mut committer, handles, &handing, out, progress);
    // the process ends behind this
    committer.leak(rt);
    // Where want of memory ended it, the line is still there.
    progress.clear();
    Ok(ended?)
}
