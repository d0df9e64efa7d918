//! How a session answers a line.
ghost use Rattle.std.specs.Prelude.{◌≡◌, ◌⊎◌, ℕ, List, [], IfOk, IfErr, OnOk};
ghost use Rattle.std.specs.Io.KnownBytes.{Keeps};
ghost use Rattle.key_book.specs.Book.{accepts};
ghost use Rattle.commit.specs.Committing.{world_of};
ghost use Rattle.ledger_commands.specs.Kept.{Adds};
ghost use Rattle.ledger_commands.specs.Querying.{HasStatus, IfTold, Tells};
ghost use Rattle.command_line.specs.Handing.{AreHandedIn};
ghost use Rattle.command_line.specs.declared.committing.Committed.{Committed};
ghost use Rattle.command_line.specs.Session.{AreCommitted, IfAtFault, IsAnswered, IsFaulty, IsRun};

use crate::answer_ends::{end_answer, tell_ended, tell_error, tell_fault, tell_memory};
use crate::committing::{Handing, commit_each};
use crate::line_reading::NextLine;
use crate::lines::Style;
use crate::reading::read_blocks;
use crate::word_files::WordFiles;
use cli_lines::LineFault;
use cli_values::Format;
use cli_words::{Line, Query, RunWords};
use command_files::{ACCEPTED, ChannelFile, Fault, Files, USAGE};
use commit::Committer;
use key_book::KeyBook;
use ledger_commands::{Progress, Silent, Standing, add_answer};
use std::alloc::{AllocError, Global};
use std::io::Write;
use std::str::from_utf8;
use std::sync::Wait;
use std::thread::Threads;
use values::{Bytes, Shared};

/// By what lines are answered.
#[derive(Drop)]
pub(crate) struct Desk<'s, R, F> {
    pub(crate) rt: &'s R,
    pub(crate) files: WordFiles<'s, F>,
    /// The channel's, once more for `conflicts`.
    pub(crate) channel: &'s ChannelFile<'s>,
    pub(crate) keys: &'s KeyBook,
    pub(crate) format: Format,
    pub(crate) workers: usize,
}

/// What follows an answer.
#[derive(Clone, Copy, Debug, PartialEq, Eq)]
pub(crate) enum Then {
    NextLine,
    End,
}

/// Commits blocks, and writes the lines of `run` for each as soon as it is done. Returns what that call would end with.
pub(crate) fn commit_blocks<R: AllocGlobal + Threads + Wait + Sync, F, W: Write, P: Progress>(
    desk: &Desk<'_, R, F>,
    committer: &mut Committer,
    blocks: &[Shared<Bytes>],
    hashes: bool,
    out: &mut W,
    progress: &mut P,
) -> Result<u8, LineFault>
    ensures { IfOk result (λ status. (committed : Committed) × AreHandedIn (accepts desk.now.keys.now) (record { format = desk.now.format; hashes = hashes }) committer.old (W.contents out.old) blocks.now committed committer.new (W.contents out.new) × (status ≡ committed.status)) }
{
    let handing = Handing {
        rt: desk.rt,
        blocks,
        keys: desk.keys,
        style: Style {
            format: desk.format,
            hashes,
        },
    };
    Ok(commit_each(committer, &handing, out, progress)?.status)
}

// Reads all files of the line, and commits their blocks.
fn run<'l, R: AllocGlobal + Threads + Wait + Sync, F: Files + Sync, W: Write>(
    desk: &Desk<'_, R, F>,
    committer: &mut Committer,
    words: &RunWords<'l>,
    out: &mut W,
) -> Result<u8, Fault<'l>>
    ensures ok { IfOk result (λ status. AreCommitted (accepts desk.now.keys.now) (F.holds desk.now.files.files.now) desk.now.format words.now committer.old (W.contents out.old) status committer.new (W.contents out.new)) }
    ensures err { IfErr result (IfAtFault ((committer.new ≡ committer.old) × Keeps (W.contents out.old) (W.contents out.new))) }
{
    let blocks = read_blocks(desk.rt, &desk.files, &words.blocks, desk.workers)?;
    let blocks = blocks.as_slice();
    Ok(commit_blocks(desk, committer, blocks, words.hashes, out, &mut Silent)?)
}

// Adds the lines of a query's answer to those that are kept.
fn ask<'l, R: AllocGlobal, F: Files, W: Write>(
    desk: &Desk<'_, R, F>,
    committer: &Committer,
    query: &Query<'l>,
    kept: &mut Vec<u8>,
    out: &mut W,
) -> Result<u8, Fault<'l>>
    ensures ok { OnOk result (IfTold query.now ((text : List ℕ) × Tells query.now desk.now.format (world_of committer.now) text × Adds (W.contents out.old) kept.old.items (W.contents out.new) kept.new.items text)) }
    ensures status { IfOk result (HasStatus query.now) }
    ensures err { IfErr result (IfAtFault (Keeps (W.contents out.old) (W.contents out.new))) }
{
    let standing = Standing {
        channel: committer.channel(),
        world: committer.view(),
        keys: desk.keys,
    };
    add_answer(
        desk.rt.alloc(),
        &desk.files,
        desk.channel,
        &standing,
        desk.format,
        query,
        kept,
        out,
    )
}

// Answers a query by the lines of its call, or by a fault. The committer stays as it is.
fn answer_query<R: AllocGlobal, F: Files, W: Write>(
    desk: &Desk<'_, R, F>,
    committer: &Committer,
    query: &Query<'_>,
    kept: &mut Vec<u8>,
    out: &mut W,
) -> Result<(), LineFault>
    requires { kept.old.items ≡ [] }
    ensures { OnOk result (IfTold query.now (IsAnswered desk.now.format (world_of committer.now) query.now (W.contents out.old) (W.contents out.new)) ⊎ IsFaulty desk.now.format (W.contents out.old) (W.contents out.new)) }
{
    let ended = ask(desk, committer, query, kept, out);
    tell_ended(desk.rt.alloc(), desk.format, ended, kept, out)
}

// Commits blocks, and answers by the lines of `run`; or by a fault, after which nothing has changed.
fn answer_run<R: AllocGlobal + Threads + Wait + Sync, F: Files + Sync, W: Write>(
    desk: &Desk<'_, R, F>,
    committer: &mut Committer,
    words: &RunWords<'_>,
    kept: &mut Vec<u8>,
    out: &mut W,
) -> Result<(), LineFault>
    requires { kept.old.items ≡ [] }
    ensures { OnOk result (IsRun (accepts desk.now.keys.now) (F.holds desk.now.files.files.now) desk.now.format words.now committer.old (W.contents out.old) committer.new (W.contents out.new) ⊎ ((committer.new ≡ committer.old) × IsFaulty desk.now.format (W.contents out.old) (W.contents out.new))) }
{
    let ended = run(desk, committer, words, out);
    tell_ended(desk.rt.alloc(), desk.format, ended, kept, out)
}

// Answers what the words of a line ask for.
fn tell_words<R: AllocGlobal + Threads + Wait + Sync, F: Files + Sync, W: Write>(
    desk: &Desk<'_, R, F>,
    committer: &mut Committer,
    words: &[&str],
    kept: &mut Vec<u8>,
    out: &mut W,
) -> Result<Then, LineFault>
    requires { kept.old.items ≡ [] }
{
    let (alloc, format) = (desk.rt.alloc(), desk.format);
    match Line::from_words(alloc, words, format) {
        Ok(Line::Run(words)) => answer_run(desk, committer, &words, kept, out)?,
        Ok(Line::Ask(query)) => answer_query(desk, committer, &query, kept, out)?,
        Ok(Line::Quit) => {
            end_answer(format, ACCEPTED, kept, out)?;
            return Ok(Then::End);
        }
        Err(error) => tell_error(alloc, format, &error, kept, out)?,
    }
    Ok(Then::NextLine)
}

// The words of a line, with spaces between them.
fn words_in<'l>(alloc: Global, text: &'l str) -> Result<Vec<&'l str>, AllocError> {
    let line = text.lines().next().unwrap_or("");
    let mut words = Vec::new(alloc);
    for word in line.split(' ') {
        if !word.is_empty() {
            words.push(word)?;
        }
    }
    Ok(words)
}

// Whether words say nothing: there is none, or they are a comment.
fn say_nothing(words: &[&str]) -> bool {
    match words.first() {
        Some(first) => first.starts_with('#'),
        None => true,
    }
}

fn tell_text<R: AllocGlobal + Threads + Wait + Sync, F: Files + Sync, W: Write>(
    desk: &Desk<'_, R, F>,
    committer: &mut Committer,
    text: &str,
    kept: &mut Vec<u8>,
    out: &mut W,
) -> Result<Then, LineFault>
    requires { kept.old.items ≡ [] }
{
    let words = words_in(desk.rt.alloc(), text)?;
    if say_nothing(words.as_slice()) {
        return Ok(Then::NextLine);
    }
    tell_words(desk, committer, words.as_slice(), kept, out)
}

// Answers what the input has next. Want of memory is an `Err`.
fn tell<R: AllocGlobal + Threads + Wait + Sync, F: Files + Sync, W: Write>(
    desk: &Desk<'_, R, F>,
    committer: &mut Committer,
    next: NextLine,
    line: &[u8],
    kept: &mut Vec<u8>,
    out: &mut W,
) -> Result<Then, LineFault>
    requires { kept.old.items ≡ [] }
{
    match (next, from_utf8(line)) {
        (NextLine::End, _) => return Ok(Then::End),
        (NextLine::NoMemory, _) => return Err(LineFault::Memory),
        (NextLine::TooLong, _) => tell_fault(desk.format, "line too long", USAGE, kept, out)?,
        (NextLine::Whole, Ok(text)) => return tell_text(desk, committer, text, kept, out),
        (NextLine::Whole, Err(_)) => tell_fault(desk.format, "line not UTF-8", USAGE, kept, out)?,
    }
    Ok(Then::NextLine)
}

/// Answers what the input has next: a line by the lines of its call and their end, or by a fault; the input's end by
/// nothing. Lines of an answer are kept in a list before they are written. If memory runs out, that is an answer, too;
/// an `Err` means that it couldn't be written.
pub(crate) fn answer<R: AllocGlobal + Threads + Wait + Sync, F: Files + Sync, W: Write>(
    desk: &Desk<'_, R, F>,
    committer: &mut Committer,
    next: NextLine,
    line: &[u8],
    kept: &mut Vec<u8>,
    out: &mut W,
) -> Result<Then, LineFault> {
    kept.clear();
    match tell(desk, committer, next, line, kept, out) {
        Err(LineFault::Memory) => {
            tell_memory(desk.format, committer.has_stopped(), out)?;
            Ok(Then::NextLine)
        }
        told => told,
    }
}
