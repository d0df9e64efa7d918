ghost use Rattle.std.specs.Prelude.{ℕ, List, IfOk, IfErr, IfSome, OnOk};
ghost use Rattle.std.specs.Io.KnownBytes.{Keeps};
ghost use Rattle.command_files.specs.Failing.{EndsBefore, at_fault};
ghost use Rattle.ledger_commands.specs.Asking.{AnswersKey, IsHistory};
ghost use Rattle.ledger_commands.specs.Failing.{KeyedFails};
ghost use Rattle.ledger_commands.specs.Kept.{Adds};
ghost use Rattle.ledger_commands.specs.Querying.{IsOfKey};

use crate::kept_lines::write_many;
use crate::progress::Progress;
use crate::question::{Question, add_lines, answer};
use cli_lines::{LineFault, write_entry};
use cli_values::Format;
use cli_words::{KeyWords, KeyedQuery, NamespacedKey};
use command_files::{Fault, Files};
use std::alloc::Global;
use std::io::Write;
use world::World;

// What was written to a key, newest first.
#[derive(Drop)]
struct HistoryOf(NamespacedKey);

impl Question for HistoryOf {
    ghost tells = { λ asked. IsHistory asked.0.namespace asked.0.key };

    fn tell<W: Write>(
        &self,
        _alloc: Global,
        format: Format,
        world: &World,
        kept: &mut Vec<u8>,
        out: &mut W,
    ) -> Result<(), LineFault> {
        for entry in world.history(&self.0.namespace.lend(), &self.0.key.lend()) {
            write_entry(kept, format, &entry.entry()?)?;
            write_many(kept, out)?;
        }
        Ok(())
    }
}

/// Reads the key and the files, hands the blocks in, and writes the entries as they are met.
/// Beside what the blocks take, the memory is the key, 32 KiB of lines and one more line.
pub fn print_history<'a, F: Files, W: Write, P: Progress>(
    alloc: Global,
    files: &F,
    words: &KeyedQuery<'a>,
    out: &mut W,
    progress: &mut P,
) -> Result<u8, Fault<'a>>
    ensures ok { IfOk result (λ status. AnswersKey (F.holds files.now) words.now IsHistory (W.contents out.old) status (W.contents out.new)) }
    ensures err { IfErr result (EndsBefore (KeyedFails (F.holds files.now) (F.unreadable files.now) words.now) (W.contents out.old) (W.contents out.new)) }
{
    let question = HistoryOf(words.asked_key(alloc)?);
    answer(alloc, files, &words.paths, &question, out, progress)
}

/// Adds the height and those entries to the lines that are kept, of the ledger that is there.
pub(crate) fn add_history<'a, W: Write>(
    alloc: Global,
    format: Format,
    world: &World,
    words: &KeyWords<'a>,
    kept: &mut Vec<u8>,
    out: &mut W,
) -> Result<(), Fault<'a>>
    ensures ok { OnOk result ((text : List ℕ) × IsOfKey IsHistory words.now format world.now text × Adds (W.contents out.old) kept.old.items (W.contents out.new) kept.new.items text) }
    ensures err { IfErr result (λ fault. IfSome (at_fault fault) (λ what. Keeps (W.contents out.old) (W.contents out.new))) }
{
    let asked = HistoryOf(words.asked_key(alloc)?);
    Ok(add_lines(alloc, format, world, &asked, kept, out)?)
}
