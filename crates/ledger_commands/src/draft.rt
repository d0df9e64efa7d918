ghost use Rattle.std.specs.Prelude.{◌≡◌, ◌↔◌, ◌+◌, ◌<◌, ◌≤◌, ◌^◌, ℕ, Some, IfOk, IfErr, IfSome};
ghost use Rattle.std.specs.Str.{IsUtf8};
ghost use Rattle.command_files.specs.declared.fault.Fault.TheVariants.{Memory};
ghost use Rattle.command_files.specs.Failing.{Because, IsUnread, at_fault, line, not_a_block};
ghost use Rattle.drafts.specs.declared.fault.DraftFault.TheVariants as draft_fault;
ghost use Rattle.drafts.specs.Drafted.{IsDrafted};
ghost use Rattle.ledger_commands.specs.Drafting.{Drafts, IsDraftOf, IsHeaderOf, IsPrevious};
ghost use Rattle.ledger_commands.specs.Failing.{DraftFails, HasNoNext, NoDraft, PreviousFails, ScriptFails};

use block::{BlockFault, Header, decode_block};
use cli_words::Draft;
use command_files::{ACCEPTED, Configuration, Fault, Files, read_file, text_in};
use drafts::DraftFault;
use std::alloc::Global;
use values::Bytes;

// This header, where another block can follow it.
fn before_another<'a>(path: &'a str, header: Header) -> Result<Header, Fault<'a>>
    ensures same { IfOk result (λ it. it ≡ header) }
    ensures before { IfOk result (λ it. it.number + 1 < 2 ^ 64) }
    ensures last { IfErr result (λ fault. (at_fault fault ≡ Some (not_a_block path.now)) × (2 ^ 64 ≤ header.number + 1)) }
{
    if header.number < u64::MAX {
        Ok(header)
    } else {
        Err(Fault::NotABlock(path))
    }
}

// The header in a block's bytes, where another block can follow it.
fn header_in<'a>(alloc: Global, path: &'a str, bytes: &Bytes) -> Result<Header, Fault<'a>>
    ensures header { IfOk result (IsHeaderOf bytes.now) }
    ensures before { IfOk result (λ header. header.number + 1 < 2 ^ 64) }
    ensures no_next { IfErr result (Because (λ what. (what ≡ not_a_block path.now) × HasNoNext bytes.now)) }
{
    match decode_block(alloc, bytes.as_slice()) {
        Ok(block) => before_another(path, block.header),
        Err(BlockFault::Memory) => Err(Fault::Memory),
        Err(_) => Err(Fault::NotABlock(path)),
    }
}

fn read_header<'a, F: Files>(
    alloc: Global,
    files: &F,
    after: Option<&'a str>,
) -> Result<Option<Header>, Fault<'a>>
    ensures previous { IfOk result (IsPrevious (λ path. F.holds files.now path.now) after.entry) }
    ensures before { IfOk result (λ header. IfSome header (λ h. h.number + 1 < 2 ^ 64)) }
    ensures err { IfErr result (Because (PreviousFails (λ path. F.holds files.now path.now) (λ path. IsUnread (F.unreadable files.now path.now) path.now) (λ path. path.now) after.entry)) }
{
    let Some(path) = after else {
        return Ok(None);
    };
    let bytes = read_file(alloc, files, path)?;
    Ok(Some(header_in(alloc, path, &bytes)?))
}

// The fault of the script in the file of this path.
fn fault_of<'a>(path: &'a str, fault: DraftFault) -> Fault<'a>
    ensures memory { result ≡ Memory ↔ fault ≡ draft_fault.Memory }
    ensures why { (n : ℕ) → fault ≡ draft_fault.Line n → at_fault result ≡ Some (line path.now n) }
{
    match fault {
        DraftFault::Line(line) => Fault::Line(path, line),
        DraftFault::Memory => Fault::Memory,
    }
}

// The block that the script drafts behind this header.
fn drafted<'a>(
    alloc: Global,
    configuration: &Configuration,
    words: &Draft<'a>,
    previous: Option<Header>,
    script: &Bytes,
) -> Result<Bytes, Fault<'a>>
    requires { IfSome previous (λ h. h.number + 1 < 2 ^ 64) }
    ensures utf8 { IfOk result (λ block. IsUtf8 script.now) }
    ensures drafted { IfOk result (IsDrafted configuration.now.keys configuration.now.channel.name words.now.version previous script.now) }
    ensures err { IfErr result (Because (ScriptFails words.now configuration.now.keys configuration.now.channel.name previous script.now)) }
{
    let text = text_in(words.script, script)?;
    drafts::draft(
        alloc,
        configuration.channel.name(),
        &configuration.keys,
        words.version,
        previous,
        text,
    )
    .map_err(|fault| fault_of(words.script, fault))
}

// The block that the files draft, which the words name.
fn block<'a, F: Files>(alloc: Global, files: &F, words: &Draft<'a>) -> Result<Bytes, Fault<'a>>
    ensures ok { IfOk result (IsDraftOf (F.holds files.now) words.now) }
    ensures err { IfErr result (Because (NoDraft (F.holds files.now) (F.unreadable files.now) words.now)) }
{
    let configuration = Configuration::read(alloc, files, &words.configuration)?;
    let previous = read_header(alloc, files, words.after)?;
    let script = read_file(alloc, files, words.script)?;
    drafted(alloc, &configuration, words, previous, &script)
}

/// Reads the files, and writes the block that the script drafts. Nothing is written where there is
/// a fault before. The memory is linear in the files' bytes and the block.
pub fn draft_block<'a, F: Files>(
    alloc: Global,
    files: &F,
    words: &Draft<'a>,
) -> Result<u8, Fault<'a>>
    ensures ok { IfOk result (Drafts (F.holds files.now) (F.written files.now) words.now) }
    ensures err { IfErr result (Because (DraftFails (F.holds files.now) (F.unreadable files.now) (F.unwritable files.now) words.now)) }
{
    let block = block(alloc, files, words)?;
    files
        .write(words.out, block.as_slice())
        .map_err(|fault| Fault::of_write(words.out, fault))?;
    Ok(ACCEPTED)
}
