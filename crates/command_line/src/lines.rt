//! The lines for blocks.

ghost use Rattle.std.specs.Prelude.{◌≡◌, ◌↔◌, ◌⊎◌, Some, IsErr, IfOk, OnOk};
ghost use Rattle.std.specs.Io.KnownBytes.{Appends};
ghost use Rattle.block.specs.declared.fault.BlockFault.TheVariants as block_fault;
ghost use Rattle.commit.specs.declared.not_committed.NotCommitted.TheVariants as not_committed;
ghost use Rattle.rules.specs.declared.answer.Refused.TheVariants as refused_as;
ghost use Rattle.command_line.specs.Lines as spec;

use cli_lines::{LineFault, Refusal, write_accepted, write_commit, write_refused};
use cli_values::Format;
use command_files::{ACCEPTED, REFUSED};
use commit::{NotCommitted, Receipt};
use std::alloc::{AllocError, Global};
use std::io::Write;

/// How the lines for blocks are written.
#[derive(Clone, Copy)]
pub struct Style {
    pub format: Format,
    /// Whether commit hashes are printed.
    pub hashes: bool,
}

/// The refusal, unless it is want of memory, for which alone a committer stops.
fn refusal_of(why: NotCommitted) -> Result<Refusal, AllocError>
    ensures refusal { IfOk result (λ refusal. spec.refusal_in why ≡ Some refusal) }
    ensures memory { IsErr result ↔ (why ≡ not_committed.Refused refused_as.Memory ⊎ why ≡ not_committed.Refused (refused_as.Malformed block_fault.Memory) ⊎ why ≡ not_committed.MemoryInCommit ⊎ why ≡ not_committed.Stopped) }
{
    match why {
        NotCommitted::Refused(refused) => Refusal::of(refused),
        NotCommitted::MemoryInCommit | NotCommitted::Stopped => Err(AllocError),
    }
}

fn write_receipt<W: Write>(out: &mut W, receipt: &Receipt, style: Style) -> Result<(), LineFault>
    ensures { OnOk result (Appends (W.contents out.old) (W.contents out.new) (spec.receipt_lines style receipt.now)) }
{
    let flags = receipt.flags.as_slice();
    write_accepted(
        out,
        style.format,
        receipt.number,
        &receipt.header_hash,
        flags,
    )?;
    if style.hashes {
        write_commit(out, style.format, receipt.number, &receipt.commit_hash)?;
    }
    Ok(())
}

/// Writes the lines for the answer to the block at this place, from 1: `accepted NUMBER HASH` and the flags, with
/// `commit NUMBER HASH` behind it where hashes are asked for; or `refused PLACE FAULT`; or objects of these. Returns what
/// the process ends with where the other blocks are accepted. Want of memory is a fault and has no line. Takes no memory.
pub fn write_answer<W: Write>(
    out: &mut W,
    place: usize,
    answer: &Result<Receipt, NotCommitted>,
    style: Style,
) -> Result<u8, LineFault>
    ensures lines { OnOk result (Appends (W.contents out.old) (W.contents out.new) (spec.answer_lines style place answer.now)) }
    ensures status { IfOk result (λ status. spec.status_of answer.now ≡ Some status) }
{
    match answer {
        Ok(receipt) => {
            write_receipt(out, receipt, style)?;
            Ok(ACCEPTED)
        }
        Err(why) => {
            write_refused(out, style.format, place, refusal_of(*why)?)?;
            Ok(REFUSED)
        }
    }
}
