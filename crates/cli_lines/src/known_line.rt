//! The line of a block whose number was accepted already.
ghost use Rattle.std.specs.Prelude.{◌≡◌, ◌++◌, OnOk, codes};
ghost use Rattle.std.specs.Io.KnownBytes.{Appends};
ghost use Rattle.cli_lines.specs.KnownLine as spec;
ghost use Rattle.cli_lines.specs.RowLines as rows;

use crate::block_lines::write_hash;
use crate::members::{write_end, write_kind, write_label, write_name, write_number};
use cli_values::Format;
use known_blocks::{Known, KnownAs};
use std::io;
use std::io::Write;
use values::Hash;

fn word_of(how: KnownAs) -> &'static str
    ensures { result.now ≡ spec.known_word how }
{
    match how {
        KnownAs::Same => "same",
        KnownAs::Twin => "twin",
        KnownAs::Fork => "fork",
        KnownAs::Other => "other",
    }
}

fn write_quoted<W: Write>(out: &mut W, format: Format, hash: &Hash) -> io::Result<()>
    ensures { OnOk result (Appends (W.contents out.old) (W.contents out.new) (spec.hash_in format hash.now)) }
{
    match format {
        Format::Plain => write_hash(out, hash),
        Format::Json => {
            write!(out, "\"")?;
            write_hash(out, hash)?;
            write!(out, "\"")
        }
    }
}

fn write_named_hash<W: Write>(
    out: &mut W,
    format: Format,
    name: &str,
    hash: &Hash,
) -> io::Result<()>
    ensures { OnOk result (Appends (W.contents out.old) (W.contents out.new) (rows.name_of format name.now ++ spec.hash_in format hash.now)) }
{
    write_name(out, format, name)?;
    write_quoted(out, format, hash)
}

fn write_how<W: Write>(out: &mut W, format: Format, how: KnownAs) -> io::Result<()>
    ensures { OnOk result (Appends (W.contents out.old) (W.contents out.new) (rows.name_of format (codes "as") ++ spec.plain_word_in format (spec.known_word how))) }
{
    let word = word_of(how);
    write_name(out, format, "as")?;
    match format {
        Format::Plain => write!(out, "{word}"),
        Format::Json => write!(out, "\"{word}\""),
    }
}

fn write_hashes<W: Write>(
    out: &mut W,
    format: Format,
    accepted: &Hash,
    own: &Hash,
) -> io::Result<()>
    ensures { OnOk result (Appends (W.contents out.old) (W.contents out.new) (spec.known_hashes format accepted.now own.now)) }
{
    write_named_hash(out, format, "accepted", accepted)?;
    write_label(out, format, "is")?;
    write_named_hash(out, format, "own", own)?;
    write_end(out, format)
}

/// Writes `known NUMBER same|twin|fork|other HASH is HASH`: the header hash of the accepted block, then the other one's;
/// or an object of these. Takes no memory.
pub fn write_known<W: Write>(out: &mut W, format: Format, known: &Known) -> io::Result<()>
    ensures { OnOk result (Appends (W.contents out.old) (W.contents out.new) (spec.known_line format known.now)) }
{
    write_kind(out, format, "known")?;
    write_number(out, format, "number", known.number)?;
    write_how(out, format, known.how)?;
    write_hashes(out, format, &known.accepted, &known.own)
}
