ghost use Rattle.std.specs.Prelude.{◌≡◌, ◌<◌, ◌≤◌, ◌⊎◌, ◌+◌, ◌^◌, ◌++◌, ℕ, suc, Bool, List, length, if◌then◌else◌, is_some, IfOk, IfErr, OnOk};
ghost use Rattle.std.specs.Io.KnownBytes.{Appends};
ghost use Rattle.std.specs.List.{AllByRecursion};
ghost use Rattle.std.specs.Option.{option_copied};
ghost use Rattle.block.specs.Faults.{HasFault};
ghost use Rattle.block.specs.Grammar.{IsTx};
ghost use Rattle.block.specs.Limits.{max_txs};
ghost use Rattle.block.specs.declared.fault.BlockFault.TheVariants.{Memory};
ghost use Rattle.command_files.specs.Failing.{EndsBefore, FilesFail, IsUnread};
ghost use Rattle.command_files.specs.Reading.{AreHeld};
ghost use Rattle.ledger_commands.specs.Failing.{ShowFails};
ghost use Rattle.ledger_commands.specs.Showing.{IsFaultLine, IsScriptOf, IsShownAs, Prints, ShowsBy, ShowsFiles, separator};

use crate::progress::Progress;
use block::{Block, BlockFault, Header, decode_block};
use block_scripts::{block_script, place_of_fault, raw_script};
use cli_lines::{LineFault, Refusal};
use cli_words::Show;
use command_files::{ACCEPTED, Configuration, Fault, Files, REFUSED, read_files};
use rules::Refused;
use std::alloc::{AllocError, Global};
use std::io::Write;
use values::Bytes;

// The script of a block, and its header.
#[derive(Drop)]
struct Script {
    text: Bytes,
    header: Header,
}

// What is known of the channel, its name and keys, makes the script; without it all is raw.
fn text_of_script(
    alloc: Global,
    configuration: Option<&Configuration>,
    before: Option<&Header>,
    block: &Block<'_>,
) -> Result<Bytes, AllocError>
    requires count { length block.now.txs ≤ max_txs }
    requires each { AllByRecursion IsTx block.now.txs }
    ensures { IfOk result (ShowsBy (option_copied configuration.entry) block.now) }
{
    match configuration {
        Some(known) => block_script(alloc, known.channel.name(), &known.keys, before, block),
        None => raw_script(alloc, before, block),
    }
}

// The script of the block in these bytes, or why they have none.
fn script_in(
    alloc: Global,
    configuration: Option<&Configuration>,
    before: Option<&Header>,
    bytes: &[u8],
) -> Result<Script, BlockFault>
    ensures ok { IfOk result (λ script. IsScriptOf (option_copied configuration.entry) bytes.now script.text) }
    ensures err { IfErr result (λ fault. (fault ≡ Memory) ⊎ HasFault bytes.now fault) }
{
    let block = decode_block(alloc, bytes)?;
    match text_of_script(alloc, configuration, before, &block) {
        Ok(text) => Ok(Script {
            text,
            header: block.header,
        }),
        Err(_) => Err(BlockFault::Memory),
    }
}

// Why bytes are no block, and where they stop being one. Want of memory isn't written.
fn write_fault<W: Write>(
    out: &mut W,
    place: usize,
    bytes: &[u8],
    fault: BlockFault,
) -> Result<(), LineFault>
    ensures { OnOk result ((text : List ℕ) × IsFaultLine place fault text × Appends (W.contents out.old) (W.contents out.new) text) }
{
    let refusal = Refusal::of(Refused::Malformed(fault))?;
    let byte = place_of_fault(bytes);
    Ok(writeln!(out, "# refused {place} {refusal} at byte {byte}")?)
}

// A string of bytes, and how many are before it.
#[derive(Clone, Copy)]
struct Placed<'b> {
    before: usize,
    bytes: &'b [u8],
}

// Writes the script of a block, or why its bytes have none, after an empty line if others are before it. Returns the block's header.
fn write_script<W: Write, P: Progress>(
    alloc: Global,
    out: &mut W,
    progress: &mut P,
    configuration: Option<&Configuration>,
    previous: Option<&Header>,
    at: Placed<'_>,
) -> Result<Option<Header>, LineFault>
    requires { at.before + 1 < 2 ^ 64 }
    ensures { IfOk result (λ header. (text : List ℕ) × IsShownAs (option_copied configuration.entry) (suc at.entry.before) at.entry.bytes.now text (is_some header)
        × Appends (W.contents out.old) (W.contents out.new) (separator at.entry.before ++ text)) }
{
    let script = script_in(alloc, configuration, previous, at.bytes);
    progress.clear();
    if at.before > 0 {
        writeln!(out)?;
    }
    match script {
        Ok(script) => {
            out.write_all(script.text.as_slice())?;
            Ok(Some(script.header))
        }
        Err(fault) => {
            write_fault(out, at.before + 1, at.bytes, fault)?;
            Ok(None)
        }
    }
}

// What the process ends with, by whether all strings spell blocks.
fn status_of(are_blocks: bool) -> u8
    ensures { result ≡ (if are_blocks then 0 else 1) }
{
    if are_blocks { ACCEPTED } else { REFUSED }
}

// Writes all scripts, an empty line between two. Returns whether all strings spell blocks.
fn write_blocks<W: Write, P: Progress>(
    alloc: Global,
    out: &mut W,
    progress: &mut P,
    configuration: Option<&Configuration>,
    blocks: &[Bytes],
) -> Result<bool, LineFault>
    ensures { IfOk result (λ are_blocks. Prints (option_copied configuration.entry) blocks.now (W.contents out.old) are_blocks (W.contents out.new)) }
{
    let mut previous = None;
    let mut are_blocks = true;
    let mut before = 0;
    let all = blocks.len();
    for bytes in blocks {
        progress.blocks_in(before, all);
        let at = Placed {
            before,
            bytes: bytes.as_slice(),
        };
        previous = write_script(alloc, out, progress, configuration, previous.as_ref(), at)?;
        are_blocks &= previous.is_some();
        before += 1;
    }
    out.flush()?;
    Ok(are_blocks)
}

// Reads the blocks, and writes their scripts.
fn print_blocks<'a, F: Files, W: Write, P: Progress>(
    alloc: Global,
    files: &F,
    words: &Show<'a>,
    configuration: Option<&Configuration>,
    out: &mut W,
    progress: &mut P,
) -> Result<u8, Fault<'a>>
    ensures ok { IfOk result (λ status. (blocks : List (List ℕ)) × AreHeld (λ path. F.holds files.now path.now) words.now.blocks.items blocks × ((are_blocks : Bool) × Prints (option_copied configuration.entry) blocks (W.contents out.old) are_blocks (W.contents out.new) × (status ≡ (if are_blocks then 0 else 1)))) }
    ensures err { IfErr result (EndsBefore (FilesFail (λ path. F.holds files.now path.now) (λ path. IsUnread (F.unreadable files.now path.now) path.now) words.now.blocks.items) (W.contents out.old) (W.contents out.new)) }
{
    let blocks = read_files(alloc, files, &words.blocks)?;
    let ended = write_blocks(alloc, out, progress, configuration, blocks.as_slice());
    progress.clear();
    Ok(status_of(ended?))
}

/// Reads the files, and writes the script of each block, or why and where its bytes stop being one. The memory is
/// linear in the files' bytes, with the script of one block.
pub fn print_scripts<'a, F: Files, W: Write, P: Progress>(
    alloc: Global,
    files: &F,
    words: &Show<'a>,
    out: &mut W,
    progress: &mut P,
) -> Result<u8, Fault<'a>>
    ensures ok { IfOk result (λ status. ShowsFiles (F.holds files.now) words.now (W.contents out.old) status (W.contents out.new)) }
    ensures err { IfErr result (EndsBefore (ShowFails (F.holds files.now) (F.unreadable files.now) words.now) (W.contents out.old) (W.contents out.new)) }
{
    let Some(paths) = &words.configuration else {
        return print_blocks(alloc, files, words, None, out, progress);
    };
    let configuration = Configuration::read(alloc, files, paths)?;
    print_blocks(alloc, files, words, Some(&configuration), out, progress)
}
