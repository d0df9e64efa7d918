ghost use Rattle.std.specs.Prelude.{◌≡◌, ◌++◌, ℕ, List, IfOk, IfErr, IfSome, OnOk};
ghost use Rattle.rules.specs.Answers.{row_answer};
ghost use Rattle.std.specs.Io.KnownBytes.{Keeps};
ghost use Rattle.command_files.specs.Failing.{EndsBefore, at_fault};
ghost use Rattle.ledger_commands.specs.Asking.{AnswersKey, IsRow, row_or_absent};
ghost use Rattle.ledger_commands.specs.Failing.{KeyedFails};
ghost use Rattle.ledger_commands.specs.Kept.{Adds};
ghost use Rattle.ledger_commands.specs.Querying.{IsOfKey};

use crate::progress::Progress;
use crate::question::{Question, add_lines, answer};
use cli_lines::{LineFault, write_absent, write_row};
use cli_values::Format;
use cli_words::{KeyWords, KeyedQuery, NamespacedKey};
use command_files::{Fault, Files};
use std::alloc::Global;
use std::io::Write;
use world::World;

// The row of a key.
#[derive(Drop)]
struct RowOf(NamespacedKey);

impl RowOf {
    fn write(
        &self,
        alloc: Global,
        format: Format,
        world: &World,
        out: &mut Vec<u8>,
    ) -> Result<(), LineFault>
        ensures { OnOk result (out.new.items ≡ out.old.items ++ row_or_absent self.now.0.key format (row_answer world.now (self.now.0.namespace, self.now.0.key))) }
    {
        let key = self.0.key.lend();
        match world.row(&self.0.namespace.lend(), &key) {
            Some(row) => write_row(alloc, out, format, key.as_slice(), row)?,
            None => write_absent(out, format)?,
        }
        Ok(())
    }
}

impl Question for RowOf {
    ghost tells = { λ asked. IsRow asked.0.namespace asked.0.key };

    fn tell<W: Write>(
        &self,
        alloc: Global,
        format: Format,
        world: &World,
        kept: &mut Vec<u8>,
        _out: &mut W,
    ) -> Result<(), LineFault> {
        self.write(alloc, format, world, kept)
    }
}

/// Reads the key and the files, hands the blocks in, and writes the row. Beside what the blocks
/// take, the memory is the key, its policy's text and the line.
pub fn print_row<'a, F: Files, W: Write, P: Progress>(
    alloc: Global,
    files: &F,
    words: &KeyedQuery<'a>,
    out: &mut W,
    progress: &mut P,
) -> Result<u8, Fault<'a>>
    ensures ok { IfOk result (λ status. AnswersKey (F.holds files.now) words.now IsRow (W.contents out.old) status (W.contents out.new)) }
    ensures err { IfErr result (EndsBefore (KeyedFails (F.holds files.now) (F.unreadable files.now) words.now) (W.contents out.old) (W.contents out.new)) }
{
    let question = RowOf(words.asked_key(alloc)?);
    answer(alloc, files, &words.paths, &question, out, progress)
}

/// Adds the height and that row to the lines that are kept, of the ledger that is there.
pub(crate) fn add_row<'a, W: Write>(
    alloc: Global,
    format: Format,
    world: &World,
    words: &KeyWords<'a>,
    kept: &mut Vec<u8>,
    out: &mut W,
) -> Result<(), Fault<'a>>
    ensures ok { OnOk result ((text : List ℕ) × IsOfKey IsRow words.now format world.now text × Adds (W.contents out.old) kept.old.items (W.contents out.new) kept.new.items text) }
    ensures err { IfErr result (λ fault. IfSome (at_fault fault) (λ what. Keeps (W.contents out.old) (W.contents out.new))) }
{
    let asked = RowOf(words.asked_key(alloc)?);
    Ok(add_lines(alloc, format, world, &asked, kept, out)?)
}
