//! The lines by which a script states a transaction or an update.
use cli_lines::write_identity;
use std::io;
use std::io::Write;
use text_lines::Word;
use transaction::{
    Endorsement, Identity, Item, KeyVersion, NsSet, PolicyWrite, Range, Read, Tx, Update, Version,
    Write as KeyWrite,
};
use values::{NameRef, Slice};

fn write_found<W: Write>(out: &mut W, found: &KeyVersion<'_>) -> io::Result<()> {
    let key = Word(found.key.as_slice());
    let Version { block, tx } = found.version;
    writeln!(out, "result {key} {block} {tx}")
}

fn write_range<W: Write>(out: &mut W, range: &Range<'_>) -> io::Result<()> {
    let (start, end) = (Word(range.start.as_slice()), Word(range.end.as_slice()));
    let exhausted = if range.exhausted { "all" } else { "part" };
    writeln!(out, "range {start} {end} {exhausted}")?;
    for found in range.results.as_slice() {
        write_found(out, found)?;
    }
    Ok(())
}

fn write_read<W: Write>(out: &mut W, read: &Read<'_>) -> io::Result<()> {
    let key = Word(read.key.as_slice());
    match read.version {
        Some(Version { block, tx }) => writeln!(out, "read {key} {block} {tx}"),
        None => writeln!(out, "read {key} absent"),
    }
}

fn write_key_write<W: Write>(out: &mut W, write: &KeyWrite<'_>) -> io::Result<()> {
    let key = Word(write.key.as_slice());
    match &write.value {
        Some(value) => {
            let value = Word(value.as_slice());
            writeln!(out, "write {key} {value}")
        }
        None => writeln!(out, "delete {key}"),
    }
}

fn is_printed(byte: u8) -> bool {
    byte.is_ascii_graphic() || byte == b' '
}

// Whether a line can end with the text as it is: the spaces at its ends would be dropped.
pub(crate) fn ends_a_line(text: &[u8]) -> bool {
    let (Some(first), Some(last)) = (text.first(), text.last()) else {
        return false;
    };
    *first != b' ' && *last != b' ' && text.iter().all(|byte| is_printed(*byte))
}

// A text that no line can end with is written as its word.
fn write_policy_text<W: Write>(out: &mut W, text: &[u8]) -> io::Result<()> {
    if ends_a_line(text) {
        out.write_all(text)?;
        return writeln!(out);
    }
    let word = Word(text);
    writeln!(out, "{word}")
}

fn write_policy_write<W: Write>(out: &mut W, write: &PolicyWrite<'_>) -> io::Result<()> {
    let key = Word(write.key.as_slice());
    match &write.policy {
        Some(text) => {
            write!(out, "policy {key} ")?;
            write_policy_text(out, text.as_slice())
        }
        None => writeln!(out, "nopolicy {key}"),
    }
}

fn write_reads<W: Write>(out: &mut W, namespace: &NsSet<'_>) -> io::Result<()> {
    for read in namespace.reads.as_slice() {
        write_read(out, read)?;
    }
    for range in namespace.ranges.as_slice() {
        write_range(out, range)?;
    }
    Ok(())
}

fn write_namespace<W: Write>(out: &mut W, namespace: &NsSet<'_>) -> io::Result<()> {
    let name = Word(namespace.name.as_slice());
    writeln!(out, "ns {name}")?;
    write_reads(out, namespace)?;
    for write in namespace.writes.as_slice() {
        write_key_write(out, write)?;
    }
    for write in namespace.policy_writes.as_slice() {
        write_policy_write(out, write)?;
    }
    Ok(())
}

// `IDENTITY NONCE NAME`, and a space before.
fn write_opening<W: Write>(
    out: &mut W,
    creator: &Identity<'_>,
    nonce: &Slice<'_>,
    name: &NameRef<'_>,
) -> io::Result<()> {
    let (nonce, name) = (Word(nonce.as_slice()), Word(name.as_slice()));
    write!(out, " ")?;
    write_identity(out, creator)?;
    write!(out, " {nonce} {name}")
}

fn write_endorsers<W: Write>(out: &mut W, endorsements: &[Endorsement<'_>]) -> io::Result<()> {
    for endorsement in endorsements {
        write!(out, "endorse ")?;
        write_identity(out, &endorsement.endorser)?;
        writeln!(out)?;
    }
    Ok(())
}

fn write_tx<W: Write>(out: &mut W, tx: &Tx<'_>) -> io::Result<()> {
    write!(out, "tx")?;
    write_opening(out, &tx.creator, &tx.nonce, &tx.chaincode)?;
    writeln!(out)?;
    for namespace in tx.namespaces.as_slice() {
        write_namespace(out, namespace)?;
    }
    write_endorsers(out, tx.endorsements.as_slice())
}

fn write_update<W: Write>(out: &mut W, update: &Update<'_>) -> io::Result<()> {
    write!(out, "update")?;
    write_opening(out, &update.creator, &update.nonce, &update.namespace)?;
    write!(out, " ")?;
    write_policy_text(out, update.policy.as_slice())?;
    write_endorsers(out, update.endorsements.as_slice())
}

/// Writes the lines that state all of it but its channel, its id and its signatures.
pub(crate) fn write_item<W: Write>(out: &mut W, item: &Item<'_>) -> io::Result<()> {
    match item {
        Item::Tx(tx) => write_tx(out, tx),
        Item::Update(update) => write_update(out, update),
    }
}
