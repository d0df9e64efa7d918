//! A session: blocks are committed, and then the lines of the input are answered, one by one.

use crate::answer_ends::end_answer;
use crate::answering::{Desk, Then, answer, commit_blocks};
use crate::line_reading::next_line;
use crate::reading::read_blocks;
use crate::run::opened;
use crate::word_files::WordFiles;
use cli_words::Session;
use command_files::{ACCEPTED, ChannelFile, Fault, Files, read_keys};
use commit::Committer;
use ledger_commands::Progress;
use std::io::{BufRead, BufReader, Read, Write};
use std::sync::Wait;
use std::thread::Threads;
use values::{Bytes, Shared};

// Answers the lines of the input until it ends, or one ends the session.
fn answer_lines<'a, R: AllocGlobal + Threads + Wait + Sync, F: Files + Sync, I: BufRead, W: Write>(
    desk: &Desk<'_, R, F>,
    committer: &mut Committer,
    kept: &mut Vec<u8>,
    input: &mut I,
    out: &mut W,
) -> Result<(), Fault<'a>> {
    let mut line = Vec::new(desk.rt.alloc());
    for _ in 0..u64::MAX {
        let Ok(next) = next_line(input, &mut line) else {
            return Err(Fault::Unreadable("standard input"));
        };
        let then = answer(desk, committer, next, line.as_slice(), kept, out)?;
        if then == Then::End {
            break;
        }
    }
    Ok(())
}

// Commits the blocks of the command line, which is the first answer, and then answers lines.
fn hold<
    'a,
    R: AllocGlobal + Threads + Wait + Sync,
    F: Files + Sync,
    I: BufRead,
    W: Write,
    P: Progress,
>(
    desk: &Desk<'_, R, F>,
    committer: &mut Committer,
    blocks: Vec<Shared<Bytes>>,
    input: &mut I,
    out: &mut W,
    progress: &mut P,
) -> Result<u8, Fault<'a>> {
    let status = commit_blocks(desk, committer, blocks.as_slice(), false, out, progress)?;
    drop(blocks);
    let mut kept = Vec::new(desk.rt.alloc());
    end_answer(desk.format, status, &mut kept, out)?;
    answer_lines(desk, committer, &mut kept, input, out)?;
    if committer.has_stopped() {
        return Err(Fault::Memory);
    }
    Ok(ACCEPTED)
}

/// Reads the files, commits the blocks to a new committer, and answers the lines of the input until it ends. The memory
/// is what the committer keeps, what the blocks of one line take, the longest line so far, and the lines of one answer.
pub(crate) fn hold_session<
    'a,
    R: AllocGlobal + Threads + Wait + Sync,
    F: Files + Sync,
    I: Read,
    W: Write,
    P: Progress,
>(
    rt: &R,
    files: &F,
    words: &Session<'a>,
    input: &mut I,
    out: &mut W,
    progress: &mut P,
) -> Result<u8, Fault<'a>> {
    let (alloc, workers) = (rt.alloc(), words.parallelism.workers);
    let configuration = &words.paths.configuration;
    let channel_file = ChannelFile::read(alloc, files, configuration.channel)?;
    let channel = channel_file.channel(alloc)?;
    let keys = read_keys(alloc, files, configuration.keys)?;
    let blocks = read_blocks(rt, files, &words.paths.blocks, workers)?;
    let mut input = BufReader::new(alloc, input)?;
    let (mut committer, _handles) = opened(rt, channel, &words.parallelism)?;
    let desk = Desk {
        rt,
        files: WordFiles { files },
        channel: &channel_file,
        keys: &keys,
        format: words.paths.format,
        workers,
    };
    let ended = hold(&desk, &mut committer, blocks, &mut input, out, progress);
    // the process ends behind this
    committer.leak(rt);
    progress.clear();
    ended
}
