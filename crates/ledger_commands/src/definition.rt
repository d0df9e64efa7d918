ghost use Rattle.std.specs.Prelude.{◌≡◌, ◌++◌, ℕ, List, IfOk, IfErr, IfSome, OnOk};
ghost use Rattle.std.specs.FinMap.{get};
ghost use Rattle.cli_lines.specs.RowLines.{definition_line};
ghost use Rattle.std.specs.Io.KnownBytes.{Keeps};
ghost use Rattle.command_files.specs.Failing.{EndsBefore, at_fault};
ghost use Rattle.ledger_commands.specs.Asking.{Answers, IsDefinition};
ghost use Rattle.ledger_commands.specs.Failing.{DefinitionFails};
ghost use Rattle.ledger_commands.specs.Kept.{Adds};
ghost use Rattle.ledger_commands.specs.Querying.{IsOfHeight};

use crate::progress::Progress;
use crate::question::{Question, add_lines, answer};
use cli_lines::{LineFault, write_definition};
use cli_values::{Format, name_of};
use cli_words::DefinitionQuery;
use command_files::{Fault, Files};
use std::alloc::Global;
use std::io::Write;
use values::Name;
use world::World;

// The policy of a chaincode.
#[derive(Drop)]
struct DefinitionOf(Name);

impl DefinitionOf {
    fn write(
        &self,
        alloc: Global,
        format: Format,
        world: &World,
        out: &mut Vec<u8>,
    ) -> Result<(), LineFault>
        ensures { OnOk result (out.new.items ≡ out.old.items ++ definition_line format (get world.now.definitions self.now.0)) }
    {
        let policy = world.definitions().of(&self.0.lend());
        write_definition(alloc, out, format, policy)?;
        Ok(())
    }
}

impl Question for DefinitionOf {
    ghost tells = { λ asked. IsDefinition asked.0 };

    fn tell<W: Write>(
        &self,
        alloc: Global,
        format: Format,
        world: &World,
        kept: &mut Vec<u8>,
        _out: &mut W,
    ) -> Result<(), LineFault> {
        self.write(alloc, format, world, kept)
    }
}

/// Reads the name and the files, hands the blocks in, and writes the chaincode's policy. Beside what the blocks take,
/// the memory is the name, the policy's text and the line.
pub fn print_definition<'a, F: Files, W: Write, P: Progress>(
    alloc: Global,
    files: &F,
    words: &DefinitionQuery<'a>,
    out: &mut W,
    progress: &mut P,
) -> Result<u8, Fault<'a>>
    ensures ok { IfOk result (λ status. Answers (F.holds files.now) words.now.paths (IsDefinition words.now.namespace.now) (W.contents out.old) status (W.contents out.new)) }
    ensures err { IfErr result (EndsBefore (DefinitionFails (F.holds files.now) (F.unreadable files.now) words.now) (W.contents out.old) (W.contents out.new)) }
{
    let question = DefinitionOf(words.chaincode(alloc)?);
    answer(alloc, files, &words.paths, &question, out, progress)
}

/// Adds the height and that policy to the lines that are kept, of the ledger that is there.
pub(crate) fn add_definition<'a, W: Write>(
    alloc: Global,
    format: Format,
    world: &World,
    chaincode: &'a str,
    kept: &mut Vec<u8>,
    out: &mut W,
) -> Result<(), Fault<'a>>
    ensures ok { OnOk result ((text : List ℕ) × IsOfHeight (IsDefinition chaincode.now) format world.now text × Adds (W.contents out.old) kept.old.items (W.contents out.new) kept.new.items text) }
    ensures err { IfErr result (λ fault. IfSome (at_fault fault) (λ what. Keeps (W.contents out.old) (W.contents out.new))) }
{
    let asked = DefinitionOf(name_of(alloc, chaincode)?);
    Ok(add_lines(alloc, format, world, &asked, kept, out)?)
}
