//! How the answers of a session end: with the status of what was done, or with a fault.
ghost use Rattle.std.specs.Prelude.{◌≡◌, ◌++◌, OnOk};
ghost use Rattle.std.specs.Io.KnownBytes.{Appends};
ghost use Rattle.cli_lines.specs.SessionLines.{end_line};
ghost use Rattle.command_line.specs.Session.{IsEnded, IsFaulty};

use clap::error::ErrorKind;
use cli_lines::{LineFault, write_answer_end, write_fault, write_help};
use cli_values::Format;
use command_files::{ACCEPTED, Fault, USAGE};
use std::alloc::{AllocError, Global};
use std::io::Write;

/// Writes the lines that are kept, and behind them the one that ends the answer. All has gone out then.
pub(crate) fn end_answer<W: Write>(
    format: Format,
    status: u8,
    kept: &mut Vec<u8>,
    out: &mut W,
) -> Result<(), LineFault>
    ensures { OnOk result (Appends (W.contents out.old) (W.contents out.new) (kept.old.items ++ end_line format status)) }
{
    write_answer_end(kept, format, status)?;
    out.write_all(kept.as_slice())?;
    out.flush()?;
    Ok(())
}

/// Answers by a fault in place of lines that are kept.
pub(crate) fn tell_fault<W: Write>(
    format: Format,
    text: &str,
    status: u8,
    kept: &mut Vec<u8>,
    out: &mut W,
) -> Result<(), LineFault>
    ensures { OnOk result (IsFaulty format (W.contents out.old) (W.contents out.new)) }
{
    kept.clear();
    write_fault(kept, format, text)?;
    end_answer(format, status, kept, out)
}

/// Ends an answer behind the lines that are kept, or by the fault that it met. If memory runs out, that is an `Err`.
pub(crate) fn tell_ended<W: Write>(
    alloc: Global,
    format: Format,
    ended: Result<u8, Fault<'_>>,
    kept: &mut Vec<u8>,
    out: &mut W,
) -> Result<(), LineFault>
    ensures { OnOk result (IsEnded format ended.entry kept.old.items (W.contents out.old) (W.contents out.new)) }
{
    match ended {
        Ok(status) => end_answer(format, status, kept, out),
        Err(Fault::Memory) => Err(LineFault::Memory),
        Err(Fault::Output) => Err(LineFault::Output),
        Err(fault) => {
            let text = format!(in alloc; "{fault}")?;
            tell_fault(format, text.as_str(), fault.status(), kept, out)
        }
    }
}

fn memory_text(has_stopped: bool) -> &'static str {
    if has_stopped {
        "out of memory, and no block is taken any more"
    } else {
        "out of memory"
    }
}

/// Answers that memory ran out, behind what was written of the answer. Takes none, so that it can always be said.
pub(crate) fn tell_memory<W: Write>(
    format: Format,
    has_stopped: bool,
    out: &mut W,
) -> Result<(), LineFault>
    ensures { OnOk result (IsFaulty format (W.contents out.old) (W.contents out.new)) }
{
    write_fault(out, format, memory_text(has_stopped))?;
    write_answer_end(out, format, Fault::Memory.status())?;
    out.flush()?;
    Ok(())
}

// What a message says before its first empty line, as one line.
fn first_part(alloc: Global, message: &str) -> Result<String, AllocError> {
    let mut part = String::new(alloc);
    for line in message.lines() {
        let line = line.trim_start();
        if line.is_empty() {
            break;
        }
        if !part.is_empty() {
            part.push_str(" ")?;
        }
        part.push_str(line)?;
    }
    Ok(part)
}

fn tell_mistake<W: Write>(
    alloc: Global,
    format: Format,
    message: &str,
    kept: &mut Vec<u8>,
    out: &mut W,
) -> Result<(), LineFault>
    ensures { OnOk result (IsFaulty format (W.contents out.old) (W.contents out.new)) }
{
    let part = first_part(alloc, message)?;
    let text = part.as_str();
    let text = text.strip_prefix("error: ").unwrap_or(text);
    tell_fault(format, text, USAGE, kept, out)
}

fn tell_help<W: Write>(
    format: Format,
    help: &str,
    kept: &mut Vec<u8>,
    out: &mut W,
) -> Result<(), LineFault> {
    for line in help.lines() {
        write_help(kept, format, line)?;
    }
    end_answer(format, ACCEPTED, kept, out)
}

/// Answers a line whose words ask for nothing: by what is wrong with them, or by the help that they ask for. If memory
/// runs out, that is an `Err`.
pub(crate) fn tell_error<W: Write>(
    alloc: Global,
    format: Format,
    error: &clap::Error,
    kept: &mut Vec<u8>,
    out: &mut W,
) -> Result<(), LineFault> {
    if error.kind() == ErrorKind::OutOfMemory {
        return Err(LineFault::Memory);
    }
    let text = format!(in alloc; "{error}")?;
    if error.use_stderr() {
        tell_mistake(alloc, format, text.as_str(), kept, out)
    } else {
        tell_help(format, text.as_str(), kept, out)
    }
}
