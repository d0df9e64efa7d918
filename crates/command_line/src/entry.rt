ghost use Rattle.std.specs.Prelude.{◌≡◌, ◌<◌, ◌⊎◌, IfOk, IfErr};
ghost use Rattle.command_files.specs.Status.{status_of};
ghost use Rattle.command_line.specs.Ending.{EndsWith};
ghost use Rattle.command_line.specs.Printed.{Does};

use crate::performing::perform;
use clap::error::ErrorKind;
use cli_words::{Asked, not_text};
use command_files::{ACCEPTED, Fault, Files, USAGE};
use ledger_commands::Progress;
use std::alloc::Global;
use std::convert::AsStr;
use std::io;
use std::io::{Read, Write};
use std::sync::Wait;
use std::thread::Threads;

// Help goes to standard output, and what is wrong with the words to standard error.
fn tell<'a, O: Write, E: Write>(
    error: &clap::Error,
    out: &mut O,
    err: &mut E,
) -> Result<u8, Fault<'a>> {
    if error.kind() == ErrorKind::OutOfMemory {
        return Err(Fault::Memory);
    }
    if error.use_stderr() {
        let _ = write!(err, "{error}");
        return Ok(USAGE);
    }
    write!(out, "{error}")?;
    out.flush()?;
    Ok(ACCEPTED)
}

// A fault gets its line. Nothing is left to tell a failed write of that to.
fn status_of<E: Write>(ended: Result<u8, Fault<'_>>, err: &mut E) -> u8
    ensures ok { IfOk ended.entry (λ status. result ≡ status) }
    ensures fault { IfErr ended.entry (λ fault. result ≡ status_of fault) }
{
    match ended {
        Ok(status) => status,
        Err(fault) => {
            let _ = writeln!(err, "{fault}");
            fault.status()
        }
    }
}

/// The program once its words are read: does what they ask for, and says why if that ends before. Returns what the
/// process is to end with, as [`program`] does.
///
/// If it is 0 or 1, `out` was given exactly a text that the clause describes by the bytes of the files: the only one, but
/// for heights of readers, and for comments and bytes of faults of `show`. If it is 2 or 3, a word or a file is at fault,
/// as the clause says, and nothing was printed, unless `out` failed. Of `explain` and `session` the clauses say nothing.
/// `session` alone reads `input`.
pub fn run_subcommand<R, F, I, O, E, P>(
    asked: &Asked<'_>,
    rt: &R,
    files: &F,
    input: &mut I,
    out: &mut O,
    err: &mut E,
    progress: &mut P,
) -> u8
where
    R: AllocGlobal + Threads + Wait + Sync,
    F: Files + Sync,
    I: Read,
    O: Write,
    E: Write,
    P: Progress,
    ensures done { result < 2 → Does (F.holds files.now) (F.written files.now) asked.now (O.contents out.old) result (O.contents out.new) }
    ensures ended { Does (F.holds files.now) (F.written files.now) asked.now (O.contents out.old) result (O.contents out.new) ⊎ EndsWith (F.holds files.now) (F.unreadable files.now) (F.unwritable files.now) asked.now (O.contents out.old) result (O.contents out.new) }
{
    status_of(perform(asked, rt, files, input, out, progress), err)
}

/// The program `fabcommit` on these words, of which the first is its own name. Returns what the process is to end with:
/// 0 where every block was accepted or shown, or one was drafted, and for help; 1 where a block was refused, or a file
/// that is to be shown is no block; 2 where the words are no command, one is a bad word, or the transaction to explain
/// isn't there; 3 where a file, `input` or `out` is at fault; 4 where memory ran out. A session ends with 0, 3 or 4 once
/// its first blocks are in.
///
/// The words are read first, then all files, those of blocks by all workers of `run` and `session`. Then the blocks are
/// handed in, all at once by these and else one by one; or they are shown, or one is drafted. A session then answers each
/// line of `input`, to its end. Lines and help go to `out`, and a fault's line to `err`, where a write that fails changes
/// nothing. `progress` is told how many blocks are in, unless the words ask for silence.
///
/// The memory is the files' bytes, what the ledger or the committer keeps, what one block takes (with `run` and `session`
/// those that [`commit::Committer::run`] takes in ahead), the lines that are kept, and a session's longest line. `run` and
/// `session` have threads, which have ended when this returns.
pub fn program<R, S, F, I, O, E, P>(
    rt: &R,
    words: &[S],
    files: &F,
    input: &mut I,
    out: &mut O,
    err: &mut E,
    progress: &mut P,
) -> u8
where
    R: AllocGlobal + Threads + Wait + Sync,
    S: AsStr,
    F: Files + Sync,
    I: Read,
    O: Write,
    E: Write,
    P: Progress,
{
    match Asked::from_words(rt.alloc(), words) {
        Ok(asked) => run_subcommand(&asked, rt, files, input, out, err, progress),
        Err(error) => status_of(tell(&error, out, err), err),
    }
}

fn tell_not_text<'a, O: Write, E: Write>(
    alloc: Global,
    error: &io::Error,
    out: &mut O,
    err: &mut E,
) -> Result<u8, Fault<'a>> {
    if error.kind() == io::ErrorKind::OutOfMemory {
        return Err(Fault::Memory);
    }
    tell(&not_text(alloc)?, out, err)
}

/// The program where the process's words can't be had. Writes to `err` that they aren't all UTF-8, or that memory ran
/// out, and returns 2 or 4.
pub fn without_words<R: AllocGlobal, O: Write, E: Write>(
    rt: &R,
    error: &io::Error,
    out: &mut O,
    err: &mut E,
) -> u8 {
    status_of(tell_not_text(rt.alloc(), error, out, err), err)
}
