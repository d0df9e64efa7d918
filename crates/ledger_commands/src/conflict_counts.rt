ghost use Rattle.std.specs.Prelude.{◌≡◌, ◌<◌, ◌≤◌, ℕ, List, Ok, IfOk, IfErr, OnOk};
ghost use Rattle.std.specs.Io.KnownBytes.{Appends};
ghost use Rattle.key_book.specs.Book.{accepts};
ghost use Rattle.rules.specs.World.{empty_world, height_of};
ghost use Rattle.reasons.specs.declared.reason.Reason.{Reason};
ghost use Rattle.conflicts.specs.Chaincodes.{AreChaincodes};
ghost use Rattle.conflicts.specs.Conflict.{conflicts_of};
ghost use Rattle.conflicts.specs.Lack.{lacks_of};
ghost use Rattle.conflicts.specs.Ranking.{AreFirst};
ghost use Rattle.conflicts.specs.Tally.{Counts};
ghost use Rattle.cli_lines.specs.ConflictLines.{IsReport, report_text};
ghost use Rattle.ledger.specs.NextReasons.{AreNextReasons};
ghost use Rattle.command_files.specs.Failing.{EndsBefore, InputsFail};
ghost use Rattle.ledger_commands.specs.Counting.{CountedTakes, IsTold, Reports};

use crate::progress::Progress;
use crate::question::{Taker, hand_in, status_of_refused};
use crate::standing::Standing;
use channel::Channel;
use cli_lines::{LineFault, write_report};
use cli_values::Format;
use cli_words::{ConflictCounts, CountWords};
use command_files::{ACCEPTED, ChannelFile, Configuration, Fault, Files, Inputs};
use conflicts::{ChaincodeLine, Line, Tally};
use key_book::KeyBook;
use ledger::Ledger;
use reasons::Reason;
use std::alloc::{AllocError, Global};
use std::io::Write;
use values::Items;

// A ledger, and what made transactions invalid in its blocks from one on.
#[derive(Drop)]
struct CountedLedger {
    ledger: Ledger,
    tally: Tally,
    /// The number of the first block that is counted.
    from: u64,
}

impl CountedLedger {
    // Takes a block that isn't counted.
    fn take_early(&mut self, bytes: &[u8], keys: &KeyBook) -> Result<u8, AllocError>
        requires { height_of self.old.ledger.world < self.old.from }
        ensures { IfOk result (λ status. CountedTakes (accepts keys.now) self.old bytes.now status self.new) }
    {
        match self.ledger.submit_one(bytes, keys) {
            Ok(_) => Ok(ACCEPTED),
            Err(refused) => status_of_refused(refused),
        }
    }

    // Takes the block that has these reasons, and counts them.
    fn take_explained(
        &mut self,
        bytes: &[u8],
        keys: &KeyBook,
        reasons: &[Reason],
    ) -> Result<u8, AllocError>
        requires late { self.old.from ≤ height_of self.old.ledger.world }
        requires reasons { AreNextReasons self.old.ledger.channel (accepts keys.now) self.old.ledger.world bytes.now reasons.now }
        ensures { IfOk result (λ status. CountedTakes (accepts keys.now) self.old bytes.now status self.new) }
    {
        match self.ledger.submit_one(bytes, keys) {
            Ok(_) => {
                self.tally.add(reasons)?;
                Ok(ACCEPTED)
            }
            Err(refused) => status_of_refused(refused),
        }
    }
}

impl Taker for CountedLedger {
    ghost takes = { CountedTakes };

    fn take(&mut self, bytes: &[u8], keys: &KeyBook) -> Result<u8, AllocError> {
        if self.ledger.view().height() < self.from {
            return self.take_early(bytes, keys);
        }
        match self.ledger.explain(bytes, keys) {
            Ok(reasons) => self.take_explained(bytes, keys, reasons.as_slice()),
            Err(refused) => status_of_refused(refused),
        }
    }
}

// What a report is made of.
#[derive(Drop)]
struct Report {
    keys: Items<Line>,
    chaincodes: Items<ChaincodeLine>,
}

impl Report {
    fn of(alloc: Global, tally: &Tally, top: u16) -> Result<Report, AllocError>
        ensures keys { IfOk result (λ report. (reasons : List Reason) → Counts reasons tally.now → AreFirst (conflicts_of reasons) top report.keys) }
        ensures chaincodes { IfOk result (λ report. (reasons : List Reason) → Counts reasons tally.now → AreChaincodes (lacks_of reasons) report.chaincodes) }
    {
        let keys = tally.worst_keys(alloc, usize::from(top))?;
        let chaincodes = tally.chaincodes(alloc)?;
        Ok(Report { keys, chaincodes })
    }

    fn write<W: Write>(&self, out: &mut W, format: Format, tally: &Tally) -> Result<(), LineFault>
        ensures { OnOk result ((reasons : List Reason) → Counts reasons tally.now → Appends (W.contents out.old) (W.contents out.new) (report_text format reasons self.now.keys self.now.chaincodes)) }
    {
        let (keys, chaincodes) = (self.keys.as_slice(), self.chaincodes.as_slice());
        write_report(out, format, tally, keys, chaincodes)?;
        Ok(())
    }
}

// Writes what was counted, unless the blocks couldn't be handed in. Returns what the process ends with.
fn write_counted<W: Write>(
    alloc: Global,
    handed: Result<u8, AllocError>,
    format: Format,
    tally: &Tally,
    top: u16,
    out: &mut W,
) -> Result<u8, LineFault>
    ensures handed { IfOk result (λ status. handed ≡ Ok status) }
    ensures report { OnOk result ((reasons : List Reason) → Counts reasons tally.now → (text : List ℕ) × IsReport format reasons top text × Appends (W.contents out.old) (W.contents out.new) text) }
{
    let status = handed?;
    let report = Report::of(alloc, tally, top)?;
    report.write(out, format, tally)?;
    Ok(status)
}

// Owns the ledger, and has one way out.
fn count_in<W: Write, P: Progress>(
    alloc: Global,
    inputs: Inputs,
    words: &ConflictCounts<'_>,
    out: &mut W,
    progress: &mut P,
) -> Result<u8, LineFault>
    ensures { IfOk result (λ status. IsTold words.now.paths.format inputs.configuration.channel (accepts inputs.configuration.keys) words.now.from (empty_world inputs.configuration.channel.definitions) inputs.blocks.items words.now.top (W.contents out.old) status (W.contents out.new)) }
{
    let Inputs {
        configuration,
        blocks,
    } = inputs;
    let Configuration { channel, keys } = configuration;
    let mut counted = CountedLedger {
        ledger: Ledger::open(alloc, channel),
        tally: Tally::new(alloc),
        from: words.from,
    };
    let handed = hand_in(&mut counted, blocks, &keys, progress);
    let format = words.paths.format;
    write_counted(alloc, handed, format, &counted.tally, words.top, out)
}

// Takes the blocks that a ledger kept, once more.
fn take_kept(counted: &mut CountedLedger, standing: &Standing<'_>) -> Result<u8, AllocError> {
    let mut status = ACCEPTED;
    for number in 0..standing.world.height() {
        if let Some(block) = standing.world.block(number) {
            let bytes = block.bytes.get().as_slice();
            status = status.max(counted.take(bytes, standing.keys)?);
        }
    }
    Ok(status)
}

// What was counted of them, from an empty ledger of the channel. Owns the ledger, and has one way out.
fn count_again(
    alloc: Global,
    channel: Channel,
    format: Format,
    standing: &Standing<'_>,
    words: &CountWords,
    kept: &mut Vec<u8>,
) -> Result<u8, LineFault> {
    let mut counted = CountedLedger {
        ledger: Ledger::open(alloc, channel),
        tally: Tally::new(alloc),
        from: words.from,
    };
    let handed = take_kept(&mut counted, standing);
    write_counted(alloc, handed, format, &counted.tally, words.top, kept)
}

/// Adds what made transactions invalid in the blocks of the ledger that is there to the lines that are kept. The blocks
/// are taken once more, from an empty ledger of the channel that this file configures, which is let go then.
pub(crate) fn add_conflicts<'a>(
    alloc: Global,
    format: Format,
    file: &ChannelFile<'_>,
    standing: &Standing<'_>,
    words: &CountWords,
    kept: &mut Vec<u8>,
) -> Result<u8, Fault<'a>> {
    // it was one before
    let Ok(channel) = file.channel(alloc) else {
        return Err(Fault::Memory);
    };
    Ok(count_again(alloc, channel, format, standing, words, kept)?)
}

/// Reads the files, hands the blocks in, one by one, and writes what made transactions invalid in those from a number
/// on. The memory is that of `get`, with the reasons of one block, and what the tally keeps. Each block that is counted
/// is explained besides, which costs a step's time again at most.
pub fn print_conflicts<'a, F: Files, W: Write, P: Progress>(
    alloc: Global,
    files: &F,
    words: &ConflictCounts<'a>,
    out: &mut W,
    progress: &mut P,
) -> Result<u8, Fault<'a>>
    ensures ok { IfOk result (λ status. Reports (F.holds files.now) words.now (W.contents out.old) status (W.contents out.new)) }
    ensures err { IfErr result (EndsBefore (InputsFail (F.holds files.now) (F.unreadable files.now) words.now.paths) (W.contents out.old) (W.contents out.new)) }
{
    let inputs = Inputs::read(alloc, files, &words.paths)?;
    let mut lines = Vec::new(alloc);
    let status = count_in(alloc, inputs, words, &mut lines, progress)?;
    out.write_all(lines.as_slice())?;
    out.flush()?;
    Ok(status)
}
