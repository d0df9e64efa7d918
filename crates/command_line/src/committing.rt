//! Blocks handed in to a committer, and lines for each as soon as it is done.
ghost use Rattle.std.specs.Prelude.{◌≡◌, ◌^◌, ◌<◌, None, true, length, IfOk, IfSome, OnOk};
ghost use Rattle.key_book.specs.Book.{accepts};
ghost use Rattle.command_line.specs.Handing.{AreHandedIn, IsTold};

use crate::lines::{Style, write_answer};
use cli_lines::LineFault;
use command_files::ACCEPTED;
use commit::{Answer, Committer, Receipt};
use gates::Open;
use key_book::KeyBook;
use ledger_commands::Progress;
use std::alloc::Global;
use std::io::Write;
use std::sync::Wait;
use std::thread::Threads;
use values::{Bytes, Shared};

/// Blocks that are handed in, the runtime and the keys by which they are, and how what is told of them is written.
#[derive(Drop)]
pub(crate) struct Handing<'h, R> {
    pub(crate) rt: &'h R,
    pub(crate) blocks: &'h [Shared<Bytes>],
    pub(crate) keys: &'h KeyBook,
    pub(crate) style: Style,
}

/// What came of the blocks.
#[derive(Drop)]
pub(crate) struct Committed {
    /// What the process ends with, where nothing else befalls it.
    pub(crate) status: u8,
    /// Of the last block that was accepted.
    pub(crate) last: Option<Receipt>,
}

/// What was told of the blocks so far.
#[derive(Drop)]
struct Told {
    style: Style,
    /// How many blocks are done, and of how many.
    done: usize,
    all: usize,
    committed: Committed,
    /// Why no more is told.
    fault: Option<LineFault>,
    /// The lines for one answer, before they are written.
    lines: Vec<u8>,
}

impl Told {
    // Nothing yet of so many blocks.
    fn nothing(alloc: Global, all: usize, style: Style) -> Told
        ensures style { result.style ≡ style }
        ensures done { result.done ≡ 0 }
        ensures last { result.committed.last ≡ None }
        ensures status { result.committed.status ≡ 0 }
    {
        Told {
            style,
            done: 0,
            all,
            committed: Committed {
                status: ACCEPTED,
                last: None,
            },
            fault: None,
            lines: Vec::new(alloc),
        }
    }

    // Shows how many are in, where others follow.
    fn show<P: Progress>(&self, progress: &mut P) {
        if self.done < self.all {
            progress.blocks_in(self.done, self.all);
        }
    }

    // Writes the lines for the answer to the next block, now, and shows how many are in.
    fn write<W: Write, P: Progress>(
        &mut self,
        out: &mut W,
        progress: &mut P,
        answer: Answer,
    ) -> Result<(), LineFault>
        ensures { OnOk result (IsTold self.old (W.contents out.old) answer self.new (W.contents out.new)) }
    {
        progress.clear();
        self.done = self.done.wrapping_add(1);
        self.lines.clear();
        let status = write_answer(&mut self.lines, self.done, &answer, self.style)?;
        out.write_all(self.lines.as_slice())?;
        out.flush()?;
        self.committed.status = self.committed.status.max(status);
        if let Ok(receipt) = answer {
            self.committed.last = Some(receipt);
        }
        self.show(progress);
        Ok(())
    }

    // Says whether the next answer can be told too.
    fn tell<W: Write, P: Progress>(&mut self, out: &mut W, progress: &mut P, answer: Answer) -> bool
        ensures { result ≡ true → IsTold self.old (W.contents out.old) answer self.new (W.contents out.new) }
    {
        match self.write(out, progress, answer) {
            Ok(()) => true,
            Err(fault) => {
                self.fault = Some(fault);
                false
            }
        }
    }
}

// Hands the blocks in, and tells of each when it is done. Ends at the first fault.
fn commit_told<R: Threads + Wait + Sync, W: Write, P: Progress>(
    committer: &mut Committer,
    handing: &Handing<'_, R>,
    told: &mut Told,
    out: &mut W,
    progress: &mut P,
) -> Result<(), LineFault>
    requires fits { length handing.now.blocks.now < 2 ^ 64 }
    requires done { told.old.done ≡ 0 }
    requires last { told.old.committed.last ≡ None }
    requires status { told.old.committed.status ≡ 0 }
    ensures { OnOk result (AreHandedIn (accepts handing.now.keys.now) told.old.style committer.old (W.contents out.old) handing.now.blocks.now told.new.committed committer.new (W.contents out.new)) }
{
    let all = committer.run_telling(
        handing.rt,
        handing.blocks,
        handing.keys,
        &Open,
        &mut |answer| { told.tell(out, progress, answer) },
    )?;
    if all {
        return Ok(());
    }
    Err(told.fault.take().unwrap_or(LineFault::Output))
}

/// Hands the blocks in, and writes lines for each as soon as it is done. Ends at the first fault.
pub(crate) fn commit_each<R: AllocGlobal + Threads + Wait + Sync, W: Write, P: Progress>(
    committer: &mut Committer,
    handing: &Handing<'_, R>,
    out: &mut W,
    progress: &mut P,
) -> Result<Committed, LineFault>
    ensures handed { IfOk result (λ committed. AreHandedIn (accepts handing.now.keys.now) handing.now.style committer.old (W.contents out.old) handing.now.blocks.now committed committer.new (W.contents out.new)) }
    ensures last { IfOk result (λ committed. IfSome committed.last (λ receipt. receipt.front.book ≡ committer.old.book)) }
{
    let mut told = Told::nothing(handing.rt.alloc(), handing.blocks.len(), handing.style);
    told.show(progress);
    commit_told(committer, handing, &mut told, out, progress)?;
    progress.clear();
    Ok(told.committed)
}
