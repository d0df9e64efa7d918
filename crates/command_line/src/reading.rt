//! The files of blocks, which all workers read.
ghost use Rattle.std.specs.Prelude.{◌≡◌, IfOk, IfErr, MatchResult, Ok, map};
ghost use Rattle.command_files.specs.Failing.{Because, FilesFail, IsUnread};
ghost use Rattle.command_files.specs.Reading.{AreHeld};
ghost use Rattle.command_line.specs.Ending.{IsFirst};

use command_files::{Fault, Files, read_file};
use pieces::{Crew, Work, in_pieces};
use std::alloc::{AllocError, Global};
use std::thread::Threads;
use values::{Bytes, Shared};

/// What a file holds, or why it isn't read.
type Found<'a> = Result<Shared<Bytes>, Fault<'a>>;

/// That a path becomes what its file holds.
#[derive(Clone, Copy)]
struct Reading<'f, F> {
    files: &'f F,
}

impl<'a, 'f, F: Files> Work<&'a str, Found<'a>> for Reading<'f, F> {
    ghost gives = { λ reading path found. MatchResult found (λ bytes. F.holds reading.files.now path.now bytes) (Because (IsUnread (F.unreadable reading.files.now path.now) path.now)) };

    fn make(&self, alloc: Global, path: &&'a str) -> Result<Found<'a>, AllocError> {
        Ok(read_shared(alloc, self.files, path))
    }
}

fn read_shared<'a, F: Files>(alloc: Global, files: &F, path: &'a str) -> Found<'a>
    ensures { MatchResult result (λ bytes. F.holds files.now path.now bytes) (Because (IsUnread (F.unreadable files.now path.now) path.now)) }
{
    let bytes = read_file(alloc, files, path)?;
    Ok(Shared::new(alloc, bytes)?)
}

// All that was found, or the first fault.
fn all_found<'a>(alloc: Global, found: Vec<Found<'a>>) -> Result<Vec<Shared<Bytes>>, Fault<'a>>
    ensures ok { IfOk result (λ all. map Ok all.items ≡ found.entry.items) }
    ensures err { IfErr result (λ fault. Because (λ what. IsFirst fault found.entry.items) fault) }
{
    let mut all = Vec::with_capacity(alloc, found.len())?;
    for one in found {
        all.push(one?)?;
    }
    Ok(all)
}

/// What the files of these paths hold, in their order, read by so many workers, of whom the calling thread is one; or the first of
/// the files' faults. A thread that can't be started is done without. The memory is linear in the files' bytes.
pub(crate) fn read_blocks<'a, R: AllocGlobal + Threads + Sync, F: Files + Sync>(
    rt: &R,
    files: &F,
    paths: &Vec<&'a str>,
    workers: usize,
) -> Result<Vec<Shared<Bytes>>, Fault<'a>>
    ensures ok { IfOk result (λ blocks. AreHeld (λ path. F.holds files.now path.now) paths.now.items blocks.items) }
    ensures err { IfErr result (Because (FilesFail (λ path. F.holds files.now path.now) (λ path. IsUnread (F.unreadable files.now path.now) path.now) paths.now.items)) }
{
    let crew = Crew {
        rt,
        alloc: rt.alloc(),
        workers: workers.min(paths.len()),
    };
    let reading = Reading { files };
    let found = in_pieces(&crew, paths.as_slice(), &reading)?;
    all_found(crew.alloc, found)
}
