//! What lines consist of. A plain line is words with spaces between them, some of them labels; of JSON it is an object,
//! in which what follows a label, or replaces it, is a member with a name.
ghost use Rattle.std.specs.Prelude.{◌++◌, OnOk};
ghost use Rattle.std.specs.Io.KnownBytes.{Appends};
ghost use Rattle.cli_lines.specs.RowLines as spec;

use cli_values::Format;
use json_lines::{write_string, write_value};
use std::io;
use std::io::Write;
use text_lines::Word;
use transaction::Version;

/// The line's first word, or its first member.
pub(crate) fn write_kind<W: Write>(out: &mut W, format: Format, kind: &str) -> io::Result<()>
    ensures { OnOk result (Appends (W.contents out.old) (W.contents out.new) (spec.kind_of format kind.now)) }
{
    match format {
        Format::Plain => write!(out, "{kind}"),
        Format::Json => write!(out, "{{\"kind\":\"{kind}\""),
    }
}

pub(crate) fn write_end<W: Write>(out: &mut W, format: Format) -> io::Result<()>
    ensures { OnOk result (Appends (W.contents out.old) (W.contents out.new) (spec.end_of format)) }
{
    match format {
        Format::Plain => writeln!(out),
        Format::Json => writeln!(out, "}}"),
    }
}

/// What precedes a value: a space, or the member's name.
pub(crate) fn write_name<W: Write>(out: &mut W, format: Format, name: &str) -> io::Result<()>
    ensures { OnOk result (Appends (W.contents out.old) (W.contents out.new) (spec.name_of format name.now)) }
{
    match format {
        Format::Plain => write!(out, " "),
        Format::Json => write!(out, ",\"{name}\":"),
    }
}

/// A word that plain lines have before a value of this name. JSON only has the name.
pub(crate) fn write_label<W: Write>(out: &mut W, format: Format, label: &str) -> io::Result<()>
    ensures { OnOk result (Appends (W.contents out.old) (W.contents out.new) (spec.label_of format label.now)) }
{
    match format {
        Format::Plain => write!(out, " {label}"),
        Format::Json => Ok(()),
    }
}

pub(crate) fn write_number<W: Write>(
    out: &mut W,
    format: Format,
    name: &str,
    number: u64,
) -> io::Result<()>
    ensures { OnOk result (Appends (W.contents out.old) (W.contents out.new) (spec.number_of format name.now number)) }
{
    write_name(out, format, name)?;
    write!(out, "{number}")
}

/// Text that plain lines have as it is.
pub(crate) fn write_text<W: Write>(
    out: &mut W,
    format: Format,
    name: &str,
    text: &str,
) -> io::Result<()>
    ensures { OnOk result (Appends (W.contents out.old) (W.contents out.new) (spec.name_of format name.now ++ spec.text_in format text.now)) }
{
    write_name(out, format, name)?;
    match format {
        Format::Plain => write!(out, "{text}"),
        Format::Json => write_string(out, text.as_bytes()),
    }
}

/// Any bytes: a word, or a value.
pub(crate) fn write_bytes<W: Write>(
    out: &mut W,
    format: Format,
    name: &str,
    bytes: &[u8],
) -> io::Result<()>
    ensures { OnOk result (Appends (W.contents out.old) (W.contents out.new) (spec.name_of format name.now ++ spec.bytes_in format bytes.now)) }
{
    write_name(out, format, name)?;
    match format {
        Format::Plain => {
            let word = Word(bytes);
            write!(out, "{word}")
        }
        Format::Json => write_value(out, bytes),
    }
}

/// If there is no value: a word, or `null`.
pub(crate) fn write_none<W: Write>(
    out: &mut W,
    format: Format,
    name: &str,
    word: &str,
) -> io::Result<()>
    ensures { OnOk result (Appends (W.contents out.old) (W.contents out.new) (spec.name_of format name.now ++ spec.none_in format word.now)) }
{
    write_name(out, format, name)?;
    match format {
        Format::Plain => write!(out, "{word}"),
        Format::Json => write!(out, "null"),
    }
}

/// `BLOCK TX`, or two members.
pub(crate) fn write_place<W: Write>(
    out: &mut W,
    format: Format,
    block: u64,
    tx: u32,
) -> io::Result<()>
    ensures { OnOk result (Appends (W.contents out.old) (W.contents out.new) (spec.place_of format block tx)) }
{
    write_number(out, format, "block", block)?;
    write_number(out, format, "tx", u64::from(tx))
}

fn write_there<W: Write>(out: &mut W, format: Format, version: &Version) -> io::Result<()> {
    let (block, tx) = (version.block, version.tx);
    match format {
        Format::Plain => write!(out, "{block} {tx}"),
        Format::Json => write!(out, "{{\"block\":{block},\"tx\":{tx}}}"),
    }
}

/// `LABEL VERSION`, which may be `absent`.
pub(crate) fn write_version<W: Write>(
    out: &mut W,
    format: Format,
    label: &str,
    version: &Option<Version>,
) -> io::Result<()> {
    write_label(out, format, label)?;
    match version {
        Some(version) => {
            write_name(out, format, label)?;
            write_there(out, format, version)
        }
        None => write_none(out, format, label, "absent"),
    }
}
