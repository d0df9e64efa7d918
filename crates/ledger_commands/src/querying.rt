//! Queries of the ledger that is there, each answered by the lines of its call.
ghost use Rattle.std.specs.Prelude.{◌≡◌, ℕ, List, Ok, Err, IfErr, IfOk, IfSome, OnOk};
ghost use Rattle.rules.specs.World.{height_of};
ghost use Rattle.cli_lines.specs.RowLines.{height_line};
ghost use Rattle.std.specs.Io.KnownBytes.{Keeps};
ghost use Rattle.command_files.specs.Failing.{at_fault};
ghost use Rattle.ledger_commands.specs.Kept.{Adds};
ghost use Rattle.ledger_commands.specs.Querying.{HasStatus, IfTold, Tells};

use crate::conflict_counts::add_conflicts;
use crate::definition::add_definition;
use crate::explain::add_reasons;
use crate::get::add_row;
use crate::history::add_history;
use crate::scan::add_rows;
use crate::standing::Standing;
use cli_lines::write_height;
use cli_values::Format;
use cli_words::Query;
use command_files::{ACCEPTED, ChannelFile, Fault, Files};
use std::alloc::Global;
use std::io::Write;
use world::World;

fn accepted<'a>(added: Result<(), Fault<'a>>) -> Result<u8, Fault<'a>>
    ensures status { IfOk result (λ status. (status ≡ 0) × (added.entry ≡ Ok tt)) }
    ensures err { IfErr result (λ fault. added.entry ≡ Err fault) }
{
    match added {
        Ok(()) => Ok(ACCEPTED),
        Err(fault) => Err(fault),
    }
}

fn add_height<'a, W: Write>(
    format: Format,
    world: &World,
    kept: &mut Vec<u8>,
    _out: &mut W,
) -> Result<u8, Fault<'a>>
    ensures ok { OnOk result ((text : List ℕ) × (text ≡ height_line format (height_of world.now)) × Adds (W.contents _out.old) kept.old.items (W.contents _out.new) kept.new.items text) }
    ensures status { IfOk result (λ status. status ≡ 0) }
    ensures err { Keeps (W.contents _out.old) (W.contents _out.new) }
{
    write_height(kept, format, world.height())?;
    Ok(ACCEPTED)
}

/// Adds the lines of a query's answer to those that are kept, and writes these to `out` if they become many. Returns
/// what the call would end with if its blocks were accepted: for `explain` 1 if the block would be refused, else 0.
/// After an `Err` the lines may be cut off anywhere, but `out` has whole lines alone, unless a write failed.
///
/// `explain` reads its block from `files`, and `conflicts` takes the ledger's blocks once more, from an empty ledger of
/// the channel in `file`, whose memory is let go then. The memory of the others is that of their lines, of which `scan`
/// and `history` keep 32 KiB and one more.
pub fn add_answer<'a, F: Files, W: Write>(
    alloc: Global,
    files: &F,
    file: &ChannelFile<'_>,
    standing: &Standing<'_>,
    format: Format,
    query: &Query<'a>,
    kept: &mut Vec<u8>,
    out: &mut W,
) -> Result<u8, Fault<'a>>
    ensures ok { OnOk result (IfTold query.now ((text : List ℕ) × Tells query.now format standing.now.world.now text × Adds (W.contents out.old) kept.old.items (W.contents out.new) kept.new.items text)) }
    ensures status { IfOk result (HasStatus query.now) }
    ensures err { IfErr result (λ fault. IfSome (at_fault fault) (λ what. Keeps (W.contents out.old) (W.contents out.new))) }
{
    let world = standing.world;
    match query {
        Query::Height => add_height(format, world, kept, out),
        Query::Get(words) => accepted(add_row(alloc, format, world, words, kept, out)),
        Query::Scan(words) => accepted(add_rows(alloc, format, world, words, kept, out)),
        Query::History(words) => accepted(add_history(alloc, format, world, words, kept, out)),
        Query::Definition(name) => accepted(add_definition(alloc, format, world, name, kept, out)),
        Query::Explain(words) => add_reasons(alloc, files, format, standing, words, kept),
        Query::Conflicts(words) => add_conflicts(alloc, format, file, standing, words, kept),
    }
}
