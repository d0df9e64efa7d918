ghost use Rattle.std.specs.Prelude.{◌≡◌, ◌++◌, ℕ, List, Ok, Err, IfOk, IfErr, OnOk};
ghost use Rattle.std.specs.Io.KnownBytes.{Appends};
ghost use Rattle.key_book.specs.Book.{accepts};
ghost use Rattle.rules.specs.World.{empty_world, height_of};
ghost use Rattle.cli_lines.specs.RowLines.{height_line};
ghost use Rattle.command_files.specs.Failing.{EndsBefore, InputsFail};
ghost use Rattle.ledger_commands.specs.Asking.{Answers, AnswersFrom};
ghost use Rattle.ledger_commands.specs.Handing.{AreTaken, EndsWith, LedgerTakes};
ghost use Rattle.ledger_commands.specs.Kept.{Adds};
ghost use Rattle.ledger_commands.specs.Querying.{IsOfHeight};

use crate::kept_lines::write_kept;
use crate::progress::Progress;
use cli_lines::{LineFault, Refusal, write_height};
use cli_values::Format;
use cli_words::LedgerPaths;
use command_files::{ACCEPTED, Configuration, Fault, Files, Inputs, REFUSED};
use key_book::KeyBook;
use ledger::Ledger;
use rules::Refused;
use std::alloc::{AllocError, Global};
use std::io::Write;
use values::Bytes;
use world::World;

/// What is asked of a ledger behind its blocks.
pub(crate) trait Question {
    ghost use Rattle.std.specs.Prelude.{⊤, ℕ, List};
    ghost use Rattle.rules.specs.World as rules;
    ghost use Rattle.cli_values.specs.declared.format.Format as format;
    ghost use Rattle.ledger_commands.specs.Kept.{Adds};

    /// What is printed of a ledger.
    ghost tells: { Self → format.Format → rules.World → List ℕ → Type 0 } = { λ _ _ _ _. ⊤ };

    /// Adds what the world answers to the lines that are kept, and may write these.
    fn tell<W: Write>(
        &self,
        alloc: Global,
        format: Format,
        world: &World,
        kept: &mut Vec<u8>,
        out: &mut W,
    ) -> Result<(), LineFault>
        ensures { OnOk result ((text : List ℕ) × tells self.now format world.now text × Adds (W.contents out.old) kept.old.items (W.contents out.new) kept.new.items text) };
}

/// What blocks are handed in to.
pub(crate) trait Taker {
    ghost use Rattle.std.specs.Prelude.{ℕ, List};
    ghost use Rattle.policy_eval.specs.Accepts.{Accepts};

    /// What a string of bytes makes of it, and what the process ends with for it.
    ghost takes: { Accepts → Self → List ℕ → ℕ → Self → Type 0 };

    /// Takes the bytes of the next block, or refuses them. Returns what the process ends with for them. An `Err` is want
    /// of memory.
    fn take(&mut self, bytes: &[u8], keys: &KeyBook) -> Result<u8, AllocError>
        ensures { IfOk result (λ status. takes (accepts keys.now) self.old bytes.now status self.new) };
}

/// What the process ends with for a refused block, unless it was want of memory.
pub(crate) fn status_of_refused(refused: Refused) -> Result<u8, AllocError>
    ensures { IfOk result (EndsWith (Err refused)) }
{
    Refusal::of(refused)?;
    Ok(REFUSED)
}

impl Taker for Ledger {
    ghost takes = { LedgerTakes };

    fn take(&mut self, bytes: &[u8], keys: &KeyBook) -> Result<u8, AllocError> {
        match self.submit_one(bytes, keys) {
            Ok(_) => Ok(ACCEPTED),
            Err(refused) => status_of_refused(refused),
        }
    }
}

fn hand_in_each<T: Taker, P: Progress>(
    taker: &mut T,
    blocks: Vec<Bytes>,
    keys: &KeyBook,
    progress: &mut P,
) -> Result<u8, AllocError>
    ensures { IfOk result (λ status. AreTaken (T.takes (accepts keys.now)) taker.old 0 blocks.items status taker.new) }
{
    let mut status = ACCEPTED;
    let mut place = 0;
    let all = blocks.len();
    for bytes in blocks {
        progress.blocks_in(place, all);
        status = status.max(taker.take(bytes.as_slice(), keys)?);
        place += 1;
    }
    Ok(status)
}

/// Hands blocks in, each let go when it is done. Returns what the process ends with, where nothing else befalls it.
pub(crate) fn hand_in<T: Taker, P: Progress>(
    taker: &mut T,
    blocks: Vec<Bytes>,
    keys: &KeyBook,
    progress: &mut P,
) -> Result<u8, AllocError>
    ensures { IfOk result (λ status. AreTaken (T.takes (accepts keys.now)) taker.old 0 blocks.items status taker.new) }
{
    let ended = hand_in_each(taker, blocks, keys, progress);
    progress.clear();
    ended
}

/// Adds the height, and then what the world answers, to the lines that are kept, and may write these.
pub(crate) fn add_lines<Q: Question, W: Write>(
    alloc: Global,
    format: Format,
    world: &World,
    question: &Q,
    kept: &mut Vec<u8>,
    out: &mut W,
) -> Result<(), LineFault>
    ensures { OnOk result ((text : List ℕ) × IsOfHeight (Q.tells question.now) format world.now text × Adds (W.contents out.old) kept.old.items (W.contents out.new) kept.new.items text) }
{
    write_height(kept, format, world.height())?;
    question.tell(alloc, format, world, kept, out)
}

// The height, and then what the world answers.
fn write_lines<Q: Question, W: Write>(
    alloc: Global,
    out: &mut W,
    format: Format,
    world: &World,
    question: &Q,
) -> Result<(), LineFault>
    ensures { OnOk result ((text : List ℕ) × Q.tells question.now format world.now text × Appends (W.contents out.old) (W.contents out.new) (height_line format (height_of world.now) ++ text)) }
{
    let mut kept = Vec::new(alloc);
    add_lines(alloc, format, world, question, &mut kept, out)?;
    write_kept(&mut kept, out)?;
    out.flush()?;
    Ok(())
}

// Writes what the world answers, unless the blocks couldn't be handed in. Returns what the process ends with.
fn write_answer<Q: Question, W: Write>(
    alloc: Global,
    handed: Result<u8, AllocError>,
    format: Format,
    world: &World,
    question: &Q,
    out: &mut W,
) -> Result<u8, LineFault>
    ensures same { IfOk result (λ status. handed ≡ Ok status) }
    ensures text { OnOk result ((text : List ℕ) × Q.tells question.now format world.now text × Appends (W.contents out.old) (W.contents out.new) (height_line format (height_of world.now) ++ text)) }
{
    let status = handed?;
    write_lines(alloc, out, format, world, question)?;
    Ok(status)
}

// Owns the ledger, and has one way out.
fn answer_from<Q: Question, W: Write, P: Progress>(
    alloc: Global,
    inputs: Inputs,
    format: Format,
    question: &Q,
    out: &mut W,
    progress: &mut P,
) -> Result<u8, LineFault>
    ensures { IfOk result (λ status. AnswersFrom inputs.configuration.channel inputs.configuration.keys inputs.blocks.items (Q.tells question.now) format (W.contents out.old) status (W.contents out.new)) }
{
    let Inputs {
        configuration,
        blocks,
    } = inputs;
    let Configuration { channel, keys } = configuration;
    let mut ledger = Ledger::open(alloc, channel);
    let handed = hand_in(&mut ledger, blocks, &keys, progress);
    write_answer(alloc, handed, format, ledger.view(), question, out)
}

/// Reads the files, hands the blocks in, one by one, and writes what the ledger behind them answers. Returns what the
/// process ends with. The memory is the files' bytes, what the ledger keeps, what one block takes, and
/// the lines that are kept.
pub(crate) fn answer<'a, F: Files, Q: Question, W: Write, P: Progress>(
    alloc: Global,
    files: &F,
    paths: &LedgerPaths<'a>,
    question: &Q,
    out: &mut W,
    progress: &mut P,
) -> Result<u8, Fault<'a>>
    ensures ok { IfOk result (λ status. Answers (F.holds files.now) paths.now (Q.tells question.now) (W.contents out.old) status (W.contents out.new)) }
    ensures err { IfErr result (EndsBefore (InputsFail (F.holds files.now) (F.unreadable files.now) paths.now) (W.contents out.old) (W.contents out.new)) }
{
    let inputs = Inputs::read(alloc, files, paths)?;
    Ok(answer_from(alloc, inputs, paths.format, question, out, progress)?)
}
