//! The lines that report the ledger's contents.
ghost use Rattle.std.specs.Prelude.{◌++◌, OnOk, codes};
ghost use Rattle.std.specs.Option.{option_copied};
ghost use Rattle.std.specs.Io.KnownBytes.{Appends};
ghost use Rattle.cli_lines.specs.RowLines as spec;

use crate::line_fault::LineFault;
use crate::members::{
    write_bytes, write_end, write_kind, write_label, write_name, write_none, write_number,
    write_place, write_text,
};
use cli_values::{Format, ValueWord};
use json_lines::write_value;
use policy::Policy;
use rules::{HistoryEntry, Row};
use std::alloc::Global;
use std::io;
use std::io::Write;

/// Writes `height H`. Takes no memory.
pub fn write_height<W: Write>(out: &mut W, format: Format, height: u64) -> io::Result<()>
    ensures { OnOk result (Appends (W.contents out.old) (W.contents out.new) (spec.height_line format height)) }
{
    write_kind(out, format, "height")?;
    write_number(out, format, "height", height)?;
    write_end(out, format)
}

/// Writes `reader J height H`. Takes no memory.
pub fn write_reader<W: Write>(
    out: &mut W,
    format: Format,
    place: u64,
    height: u64,
) -> io::Result<()>
    ensures { OnOk result (Appends (W.contents out.old) (W.contents out.new) (spec.reader_line format place height)) }
{
    write_kind(out, format, "reader")?;
    write_number(out, format, "reader", place)?;
    write_label(out, format, "height")?;
    write_number(out, format, "height", height)?;
    write_end(out, format)
}

/// Writes `absent`. Takes no memory.
pub fn write_absent<W: Write>(out: &mut W, format: Format) -> io::Result<()>
    ensures { OnOk result (Appends (W.contents out.old) (W.contents out.new) (spec.absent_line format)) }
{
    write_kind(out, format, "absent")?;
    write_end(out, format)
}

/// Writes `more`. Takes no memory.
pub fn write_more<W: Write>(out: &mut W, format: Format) -> io::Result<()>
    ensures { OnOk result (Appends (W.contents out.old) (W.contents out.new) (spec.more_line format)) }
{
    write_kind(out, format, "more")?;
    write_end(out, format)
}

// All of a row but the policy.
fn write_contents<W: Write>(out: &mut W, format: Format, key: &[u8], row: &Row) -> io::Result<()>
    ensures { OnOk result (Appends (W.contents out.old) (W.contents out.new) (spec.row_contents format key.now row.now)) }
{
    write_kind(out, format, "row")?;
    write_bytes(out, format, "key", key)?;
    write_place(out, format, row.version.block, row.version.tx)?;
    write_bytes(out, format, "value", row.value.as_slice())
}

/// Writes `row KEY BLOCK TX VALUE POLICY`: words, numbers, and the canonical text of the key's own
/// policy or `-`. The memory is that text, which is made before any of the line is written.
pub fn write_row<W: Write>(
    alloc: Global,
    out: &mut W,
    format: Format,
    key: &[u8],
    row: &Row,
) -> Result<(), LineFault>
    ensures { OnOk result (Appends (W.contents out.old) (W.contents out.new) (spec.row_line format key.now row.now)) }
{
    match &row.policy {
        Some(policy) => {
            let policy = policy.get().text(alloc)?;
            write_contents(out, format, key, row)?;
            write_text(out, format, "policy", policy.as_str())?;
        }
        None => {
            write_contents(out, format, key, row)?;
            write_none(out, format, "policy", "-")?;
        }
    }
    Ok(write_end(out, format)?)
}

fn write_policy<W: Write>(out: &mut W, format: Format, text: &str) -> io::Result<()>
    ensures { OnOk result (Appends (W.contents out.old) (W.contents out.new) (spec.kind_of format (codes "definition") ++ ((spec.name_of format (codes "policy") ++ spec.text_in format text.now) ++ spec.end_of format))) }
{
    write_kind(out, format, "definition")?;
    write_text(out, format, "policy", text)?;
    write_end(out, format)
}

/// Writes `definition TEXT`, the canonical text of a chaincode's policy, or `absent` if there is none. The memory is
/// that text, which is made before any of the line is written.
pub fn write_definition<W: Write>(
    alloc: Global,
    out: &mut W,
    format: Format,
    policy: Option<&Policy>,
) -> Result<(), LineFault>
    ensures { OnOk result (Appends (W.contents out.old) (W.contents out.new) (spec.definition_line format (option_copied policy.entry))) }
{
    match policy {
        Some(policy) => {
            let text = policy.text(alloc)?;
            write_policy(out, format, text.as_str())?;
        }
        None => write_absent(out, format)?,
    }
    Ok(())
}

// A value, which can't be mistaken for a deletion.
fn write_written<W: Write>(out: &mut W, format: Format, value: &[u8]) -> io::Result<()>
    ensures { OnOk result (Appends (W.contents out.old) (W.contents out.new) (spec.name_of format (codes "value") ++ spec.written_in format value.now)) }
{
    write_name(out, format, "value")?;
    match format {
        Format::Plain => {
            let value = ValueWord(value);
            write!(out, "{value}")
        }
        Format::Json => write_value(out, value),
    }
}

/// Writes `entry BLOCK TX ID VALUE`, or `deleted` instead of the value. Takes no memory.
pub fn write_entry<W: Write>(out: &mut W, format: Format, entry: &HistoryEntry) -> io::Result<()>
    ensures { OnOk result (Appends (W.contents out.old) (W.contents out.new) (spec.entry_line format entry.now)) }
{
    write_kind(out, format, "entry")?;
    write_place(out, format, entry.version.block, entry.version.tx)?;
    write_bytes(out, format, "id", &entry.id)?;
    match &entry.value {
        Some(value) => write_written(out, format, value.as_slice())?,
        None => write_none(out, format, "value", "deleted")?,
    }
    write_end(out, format)
}
