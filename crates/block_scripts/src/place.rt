//! What one place of a block is shown as.
use crate::item_lines::write_item;
use crate::raw_lines::write_raw;
use crate::raw_reasons::write_raw_reasons;
use crate::saying::says;
use crate::signing::Signing;
use cli_lines::LineFault;
use std::alloc::Global;
use std::io;
use std::io::Write;
use text_lines::Word;
use transaction::{BlockVersion, Item, SpelledItem, TxFault, decode_item};
use values::Slice;

fn write_kind<W: Write>(out: &mut W, place: usize, item: &Item<'_>) -> io::Result<()> {
    let (kind, id) = match item {
        Item::Tx(tx) => ("transaction", &tx.id),
        Item::Update(update) => ("update", &update.id),
    };
    let id = Word(id);
    writeln!(out, "\n# {place} {kind}, id {id}")
}

// Each line as a comment.
fn write_commented<W: Write>(out: &mut W, lines: &[u8]) -> io::Result<()> {
    for line in lines.split(|byte| *byte == b'\n') {
        if !line.is_empty() {
            write!(out, "#   ")?;
            out.write_all(line)?;
            writeln!(out)?;
        }
    }
    Ok(())
}

// Whether something is signed, and drafting the lines then gives these bytes.
fn is_said(
    alloc: Global,
    signing: Option<&Signing<'_>>,
    version: BlockVersion,
    lines: &[u8],
    bytes: &[u8],
) -> Result<bool, LineFault> {
    match signing {
        Some(signing) => Ok(says(alloc, signing, version, lines, &[Slice::new(bytes)])?),
        None => Ok(false),
    }
}

// What can be read of a transaction or an update that no lines state, and its bytes.
fn write_unsaid(
    alloc: Global,
    out: &mut Vec<u8>,
    signing: Option<&Signing<'_>>,
    spelled: &SpelledItem<'_>,
    lines: &[u8],
    bytes: &[u8],
) -> Result<(), LineFault> {
    write_commented(out, lines)?;
    if let Some(signing) = signing {
        write_raw_reasons(alloc, out, signing, spelled)?;
    }
    Ok(write_raw(alloc, out, bytes)?)
}

fn write_spelled(
    alloc: Global,
    out: &mut Vec<u8>,
    signing: Option<&Signing<'_>>,
    version: BlockVersion,
    spelled: &SpelledItem<'_>,
    bytes: &[u8],
) -> Result<(), LineFault> {
    let mut lines = Vec::new(alloc);
    write_item(&mut lines, spelled.item())?;
    let lines = lines.as_slice();
    if is_said(alloc, signing, version, lines, bytes)? {
        return Ok(out.write_all(lines)?);
    }
    write_unsaid(alloc, out, signing, spelled, lines, bytes)
}

/// Writes what is in this place of a block of this version: lines that state it if drafting them gives these bytes,
/// otherwise the bytes, and in comments what can be read of them.
pub(crate) fn write_place(
    alloc: Global,
    out: &mut Vec<u8>,
    signing: Option<&Signing<'_>>,
    version: BlockVersion,
    place: usize,
    bytes: &[u8],
) -> Result<(), LineFault> {
    match decode_item(alloc, version, bytes) {
        Ok(spelled) => {
            write_kind(out, place, spelled.item())?;
            write_spelled(alloc, out, signing, version, &spelled, bytes)
        }
        Err(TxFault::Form) => {
            writeln!(out, "\n# {place} no transaction")?;
            Ok(write_raw(alloc, out, bytes)?)
        }
        Err(TxFault::Memory) => Err(LineFault::Memory),
    }
}
