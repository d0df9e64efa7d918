//! The lines for blocks.
ghost use Rattle.std.specs.Prelude.{OnOk};
ghost use Rattle.std.specs.List.{flat_map};
ghost use Rattle.std.specs.Io.KnownBytes.{Appends};
ghost use Rattle.hex.specs.Hex.{encode_lower};
ghost use Rattle.cli_values.specs.declared.format.Format.TheVariants.{Plain, Json};
ghost use Rattle.cli_lines.specs.BlockLines as spec;

use crate::refusal::Refusal;
use cli_values::Format;
use hex::encode_to_slice;
use rules::Flag;
use std::io;
use std::io::Write;
use values::Hash;

/// Writes the hash in lower case hexadecimal. Takes no memory.
pub fn write_hash<W: Write>(out: &mut W, hash: &Hash) -> io::Result<()>
    ensures { OnOk result (Appends (W.contents out.old) (W.contents out.new) (encode_lower hash.now)) }
{
    let mut digits = [0; 64];
    // Two digits a byte fill it, so this can't fail.
    encode_to_slice(*hash, &mut digits).unwrap();
    out.write_all(&digits)
}

// `NUMBER HASH`, HASH in lower case hexadecimal.
fn write_number_and_hash<W: Write>(out: &mut W, number: u64, hash: &Hash) -> io::Result<()>
    ensures { OnOk result (Appends (W.contents out.old) (W.contents out.new) (spec.number_and_hash number hash.now)) }
{
    write!(out, "{number} ")?;
    write_hash(out, hash)
}

// `{"kind":"KIND","number":NUMBER,"hash":"HASH"`
fn write_opened<W: Write>(out: &mut W, kind: &str, number: u64, hash: &Hash) -> io::Result<()>
    ensures { OnOk result (Appends (W.contents out.old) (W.contents out.new) (spec.opened kind.now number hash.now)) }
{
    write!(out, "{{\"kind\":\"{kind}\",\"number\":{number},\"hash\":\"")?;
    write_hash(out, hash)?;
    write!(out, "\"")?;
    Ok(())
}

fn write_flags<W: Write>(out: &mut W, flags: &[Flag]) -> io::Result<()>
    ensures { OnOk result (Appends (W.contents out.old) (W.contents out.new) (flat_map spec.flag_word flags.now)) }
{
    for flag in flags {
        let flag = flag.number();
        write!(out, " {flag}")?;
    }
    Ok(())
}

// Those after the first one of a list.
fn write_more_flags<W: Write>(out: &mut W, flags: &[Flag]) -> io::Result<()>
    ensures { OnOk result (Appends (W.contents out.old) (W.contents out.new) (flat_map spec.further_flag flags.now)) }
{
    for flag in flags {
        let flag = flag.number();
        write!(out, ",{flag}")?;
    }
    Ok(())
}

fn write_flag_list<W: Write>(out: &mut W, flags: &[Flag]) -> io::Result<()>
    ensures { OnOk result (Appends (W.contents out.old) (W.contents out.new) (spec.flag_list flags.now)) }
{
    match flags {
        [] => Ok(()),
        [first, more @ ..] => {
            let first = first.number();
            write!(out, "{first}")?;
            write_more_flags(out, more)
        }
    }
}

fn write_accepted_words<W: Write>(
    out: &mut W,
    number: u64,
    header_hash: &Hash,
    flags: &[Flag],
) -> io::Result<()>
    ensures { OnOk result (Appends (W.contents out.old) (W.contents out.new) (spec.accepted_words number header_hash.now flags.now)) }
{
    write!(out, "accepted ")?;
    write_number_and_hash(out, number, header_hash)?;
    write_flags(out, flags)?;
    writeln!(out)
}

fn write_accepted_object<W: Write>(
    out: &mut W,
    number: u64,
    header_hash: &Hash,
    flags: &[Flag],
) -> io::Result<()>
    ensures { OnOk result (Appends (W.contents out.old) (W.contents out.new) (spec.accepted_object number header_hash.now flags.now)) }
{
    write_opened(out, "accepted", number, header_hash)?;
    write!(out, ",\"flags\":[")?;
    write_flag_list(out, flags)?;
    writeln!(out, "]}}")?;
    Ok(())
}

/// Writes `accepted NUMBER HASH` and a space and a flag for each transaction, HASH in lower case hexadecimal; or an
/// object of these. Takes no memory.
pub fn write_accepted<W: Write>(
    out: &mut W,
    format: Format,
    number: u64,
    header_hash: &Hash,
    flags: &[Flag],
) -> io::Result<()>
    ensures { OnOk result (Appends (W.contents out.old) (W.contents out.new) (spec.accepted_line format number header_hash.now flags.now)) }
{
    match format {
        Format::Plain => write_accepted_words(out, number, header_hash, flags),
        Format::Json => write_accepted_object(out, number, header_hash, flags),
    }
}

fn write_numbered_words<W: Write>(
    out: &mut W,
    kind: &str,
    number: u64,
    hash: &Hash,
) -> io::Result<()>
    ensures { OnOk result (Appends (W.contents out.old) (W.contents out.new) (spec.numbered_line Plain kind.now number hash.now)) }
{
    write!(out, "{kind} ")?;
    write_number_and_hash(out, number, hash)?;
    writeln!(out)
}

fn write_numbered_object<W: Write>(
    out: &mut W,
    kind: &str,
    number: u64,
    hash: &Hash,
) -> io::Result<()>
    ensures { OnOk result (Appends (W.contents out.old) (W.contents out.new) (spec.numbered_line Json kind.now number hash.now)) }
{
    write_opened(out, kind, number, hash)?;
    writeln!(out, "}}")
}

fn write_numbered<W: Write>(
    out: &mut W,
    format: Format,
    kind: &str,
    number: u64,
    hash: &Hash,
) -> io::Result<()>
    ensures { OnOk result (Appends (W.contents out.old) (W.contents out.new) (spec.numbered_line format kind.now number hash.now)) }
{
    match format {
        Format::Plain => write_numbered_words(out, kind, number, hash),
        Format::Json => write_numbered_object(out, kind, number, hash),
    }
}

/// Writes `block NUMBER HASH`, HASH in lower case hexadecimal, or an object of these. Takes no memory.
pub fn write_block<W: Write>(
    out: &mut W,
    format: Format,
    number: u64,
    header_hash: &Hash,
) -> io::Result<()>
    ensures { OnOk result (Appends (W.contents out.old) (W.contents out.new) (spec.block_line format number header_hash.now)) }
{
    write_numbered(out, format, "block", number, header_hash)
}

/// Writes `commit NUMBER HASH`, HASH in lower case hexadecimal, or an object of these. Takes no memory.
pub fn write_commit<W: Write>(
    out: &mut W,
    format: Format,
    number: u64,
    commit_hash: &Hash,
) -> io::Result<()>
    ensures { OnOk result (Appends (W.contents out.old) (W.contents out.new) (spec.commit_line format number commit_hash.now)) }
{
    write_numbered(out, format, "commit", number, commit_hash)
}

// What follows the quotation mark of the fault.
fn write_refusal_members<W: Write>(out: &mut W, refusal: Refusal) -> io::Result<()>
    ensures { OnOk result (Appends (W.contents out.old) (W.contents out.new) (spec.refusal_members refusal)) }
{
    let code = refusal.code();
    match refusal {
        Refusal::WrongNumber { want, got } => {
            write!(out, "{code}\",\"want\":{want},\"got\":{got}")
        }
        _ => write!(out, "{code}\""),
    }
}

fn write_refused_object<W: Write>(out: &mut W, place: usize, refusal: Refusal) -> io::Result<()>
    ensures { OnOk result (Appends (W.contents out.old) (W.contents out.new) (spec.refused_object place refusal)) }
{
    write!(out, "{{\"kind\":\"refused\",\"place\":{place},\"fault\":\"")?;
    write_refusal_members(out, refusal)?;
    writeln!(out, "}}")?;
    Ok(())
}

/// Writes `refused PLACE REFUSAL` of the block at this place, from 1, or an object of these. Takes no memory.
pub fn write_refused<W: Write>(
    out: &mut W,
    format: Format,
    place: usize,
    refusal: Refusal,
) -> io::Result<()>
    ensures { OnOk result (Appends (W.contents out.old) (W.contents out.new) (spec.refused_line format place refusal)) }
{
    match format {
        Format::Plain => writeln!(out, "refused {place} {refusal}"),
        Format::Json => write_refused_object(out, place, refusal),
    }
}
