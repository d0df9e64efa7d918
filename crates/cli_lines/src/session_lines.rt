//! The lines that a session has besides those of calls.
ghost use Rattle.std.specs.Prelude.{OnOk};
ghost use Rattle.std.specs.Io.KnownBytes.{Appends};
ghost use Rattle.cli_lines.specs.SessionLines as spec;

use crate::members::{write_end, write_kind, write_number, write_text};
use cli_values::Format;
use std::io;
use std::io::Write;

/// Writes `end STATUS`, the last line of an answer. Takes no memory.
pub fn write_answer_end<W: Write>(out: &mut W, format: Format, status: u8) -> io::Result<()>
    ensures { OnOk result (Appends (W.contents out.old) (W.contents out.new) (spec.end_line format status)) }
{
    write_kind(out, format, "end")?;
    write_number(out, format, "status", u64::from(status))?;
    write_end(out, format)
}

// A line of a kind, with a text.
fn write_text_line<W: Write>(out: &mut W, format: Format, kind: &str, text: &str) -> io::Result<()>
    ensures { OnOk result (Appends (W.contents out.old) (W.contents out.new) (spec.text_line format kind.now text.now)) }
{
    write_kind(out, format, kind)?;
    write_text(out, format, "text", text)?;
    write_end(out, format)
}

/// Writes `fault TEXT`. Takes no memory.
pub fn write_fault<W: Write>(out: &mut W, format: Format, text: &str) -> io::Result<()>
    ensures { OnOk result (Appends (W.contents out.old) (W.contents out.new) (spec.fault_line format text.now)) }
{
    write_text_line(out, format, "fault", text)
}

/// Writes a line of help, which plain lines have as it is. Takes no memory.
pub fn write_help<W: Write>(out: &mut W, format: Format, text: &str) -> io::Result<()>
    ensures { OnOk result (Appends (W.contents out.old) (W.contents out.new) (spec.help_line format text.now)) }
{
    match format {
        Format::Plain => writeln!(out, "{text}"),
        Format::Json => write_text_line(out, format, "help", text),
    }
}
