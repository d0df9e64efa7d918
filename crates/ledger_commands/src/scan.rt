ghost use Rattle.std.specs.Prelude.{◌≡◌, ◌⊎◌, ℕ, List, [], take, Some, IfOk, IfErr, IfSome, OnOk};
ghost use Rattle.std.specs.Io.KnownBytes.{Keeps};
ghost use Rattle.text_lines.specs.Words.{word_bytes};
ghost use Rattle.std.specs.Ordering.{is_le};
ghost use Rattle.values.specs.Order.{bytes_cmp};
ghost use Rattle.rules.specs.Ranges.{is_below, is_within};
ghost use Rattle.command_files.specs.Failing.{Because, EndsBefore, at_fault};
ghost use Rattle.ledger_commands.specs.Asking.{AnswersScan, AreRows};
ghost use Rattle.ledger_commands.specs.Failing.{AreNoBounds, ScanFails};
ghost use Rattle.ledger_commands.specs.Kept.{Adds};
ghost use Rattle.ledger_commands.specs.Querying.{AreRowsFor};

use crate::kept_lines::write_many;
use crate::progress::Progress;
use crate::question::{Question, add_lines, answer};
use cli_lines::{LineFault, write_more, write_row};
use cli_values::{Format, bytes_of, name_of};
use cli_words::{RangeWords, Scan};
use command_files::{Fault, Files};
use std::alloc::Global;
use std::io::Write;
use values::{BoundRef, Bytes, MAX_KEY, Name};
use world::World;

fn is_from(start: &[u8], key: &[u8]) -> bool
    ensures { result ≡ is_le (bytes_cmp start.now key.now) }
{
    start.cmp(&key).is_le()
}

// Whether the key is before the end, which is no bound if it is empty.
fn is_below(key: &[u8], end: &[u8]) -> bool
    ensures { result ≡ is_below key.now end.now }
{
    end.is_empty() || key.cmp(&end).is_lt()
}

// Which keys are asked for: from the start to before the end, an empty end being no bound. Either may be
// longer than a key.
#[derive(Drop)]
struct Bounds {
    start: Bytes,
    end: Bytes,
}

impl Bounds {
    // The start, or its longest front that a key can have. No key below it is in the bounds.
    fn first(&self) -> BoundRef<'_>
        ensures { (result ≡ self.now.start) ⊎ (result ≡ take 1024 self.now.start) }
    {
        let start = self.start.as_slice();
        if start.len() > MAX_KEY {
            return BoundRef::new(&start[..MAX_KEY]);
        }
        BoundRef::new(start)
    }

    // The end, or none if it is longer than a key.
    fn last(&self) -> BoundRef<'_>
        ensures { (result ≡ self.now.end) ⊎ (result ≡ []) }
    {
        let end = self.end.as_slice();
        if end.len() > MAX_KEY {
            return BoundRef::new(b"");
        }
        BoundRef::new(end)
    }

    fn has(&self, key: &[u8]) -> bool
        ensures { result ≡ is_within self.now.start self.now.end key.now }
    {
        is_from(self.start.as_slice(), key) && is_below(key, self.end.as_slice())
    }
}

// The rows between bounds, up to a limit.
#[derive(Drop)]
struct RowsOf {
    namespace: Name,
    bounds: Bounds,
    limit: u16,
}

impl Question for RowsOf {
    ghost tells = { λ asked. AreRows asked.namespace asked.bounds.start asked.bounds.end asked.limit };

    fn tell<W: Write>(
        &self,
        alloc: Global,
        format: Format,
        world: &World,
        kept: &mut Vec<u8>,
        out: &mut W,
    ) -> Result<(), LineFault> {
        let mut left = self.limit;
        for keyed in world.state().range(
            &self.namespace.lend(),
            &self.bounds.first(),
            &self.bounds.last(),
        ) {
            let key = keyed.key();
            if !self.bounds.has(key.as_slice()) {
                continue;
            }
            if left == 0 {
                write_more(kept, format)?;
                return Ok(());
            }
            write_row(alloc, kept, format, key.as_slice(), keyed.row())?;
            write_many(kept, out)?;
            left -= 1;
        }
        Ok(())
    }
}

// What the words ask for, looked at in this order.
fn rows_of<'a>(alloc: Global, words: &RangeWords<'a>) -> Result<RowsOf, Fault<'a>>
    ensures start { IfOk result (λ asked. word_bytes words.now.start.now ≡ Some asked.bounds.start) }
    ensures end { IfOk result (λ asked. word_bytes words.now.end.now ≡ Some asked.bounds.end) }
    ensures others { IfOk result (λ asked. (asked.namespace ≡ words.now.namespace.now) × (asked.limit ≡ words.now.limit)) }
    ensures err { IfErr result (Because (AreNoBounds words.now)) }
{
    let namespace = name_of(alloc, words.namespace)?;
    let start = bytes_of(alloc, words.start)?;
    let end = bytes_of(alloc, words.end)?;
    Ok(RowsOf {
        namespace,
        bounds: Bounds { start, end },
        limit: words.limit,
    })
}

/// Reads the bounds and the files, hands the blocks in, and writes the rows as they are met. Beside
/// what the blocks take, the memory is the bounds, a policy's text, 32 KiB of lines and one more line.
pub fn print_rows<'a, F: Files, W: Write, P: Progress>(
    alloc: Global,
    files: &F,
    words: &Scan<'a>,
    out: &mut W,
    progress: &mut P,
) -> Result<u8, Fault<'a>>
    ensures ok { IfOk result (λ status. AnswersScan (F.holds files.now) words.now (W.contents out.old) status (W.contents out.new)) }
    ensures err { IfErr result (EndsBefore (ScanFails (F.holds files.now) (F.unreadable files.now) words.now) (W.contents out.old) (W.contents out.new)) }
{
    let asked = RangeWords {
        namespace: words.namespace,
        start: words.start,
        end: words.end,
        limit: words.limit,
    };
    let question = rows_of(alloc, &asked)?;
    answer(alloc, files, &words.paths, &question, out, progress)
}

/// Adds the height and those rows to the lines that are kept, of the ledger that is there.
pub(crate) fn add_rows<'a, W: Write>(
    alloc: Global,
    format: Format,
    world: &World,
    words: &RangeWords<'a>,
    kept: &mut Vec<u8>,
    out: &mut W,
) -> Result<(), Fault<'a>>
    ensures ok { OnOk result ((text : List ℕ) × AreRowsFor words.now format world.now text × Adds (W.contents out.old) kept.old.items (W.contents out.new) kept.new.items text) }
    ensures err { IfErr result (λ fault. IfSome (at_fault fault) (λ what. Keeps (W.contents out.old) (W.contents out.new))) }
{
    let asked = rows_of(alloc, words)?;
    Ok(add_lines(alloc, format, world, &asked, kept, out)?)
}
