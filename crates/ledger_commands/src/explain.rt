ghost use Rattle.block.specs.Grammar.{Spells};

use crate::buffered::finish;
use crate::known::write_relation;
use crate::progress::Progress;
use crate::question::hand_in;
use crate::standing::Standing;
use block::{Block, decode_block};
use cli_lines::{ReasonLine, Refusal, write_block, write_earlier, write_reason, write_refused};
use cli_values::{Format, WordFault, id_of};
use cli_words::{Explain, ExplainWords, Explained, Told};
use command_files::{ACCEPTED, Configuration, Fault, Files, Inputs, REFUSED, read_file};
use dot_lines::write_graph;
use header_hash::header_hash;
use key_book::KeyBook;
use ledger::{Ledger, next_reasons};
use linking::{decoded_item, origin_of};
use reasons::Reason;
use rules::Refused;
use std::alloc::{AllocError, Global};
use std::io::{BufWriter, Write};
use transaction::{BlockVersion, TxId};
use values::Bytes;
use world::World;

// Which transactions of the last block are explained, and how.
#[derive(Clone, Copy)]
struct Selection<'a> {
    explained: Explained<'a>,
    /// What its word spells, where an id is asked for.
    id: Option<TxId>,
    told: Told,
    format: Format,
}

impl<'a> Selection<'a> {
    // Looks at the word of the id.
    fn of(
        alloc: Global,
        format: Format,
        explained: Explained<'a>,
        told: Told,
    ) -> Result<Selection<'a>, WordFault> {
        let id = match explained {
            Explained::Id(word) => Some(id_of(alloc, word)?),
            Explained::All | Explained::Place(_) => None,
        };
        Ok(Selection {
            explained,
            id,
            told,
            format,
        })
    }

    // Whether lines end with the id.
    fn shows_ids(&self) -> bool {
        self.told == Told::Lines { ids: true }
    }

    // Whether it asks for the transaction at this place, which has this id.
    fn asks_for(&self, place: usize, id: &Option<TxId>) -> bool {
        match self.explained {
            Explained::All => true,
            Explained::Place(asked) => place == usize::from(asked),
            Explained::Id(_) => id.is_some() && *id == self.id,
        }
    }
}

// The id at a place, none where its bytes spell no item.
fn id_in(alloc: Global, version: BlockVersion, bytes: &[u8]) -> Result<Option<TxId>, AllocError> {
    match decoded_item(alloc, version, bytes)? {
        Some(item) => Ok(Some(*origin_of(item.item()).id)),
        None => Ok(None),
    }
}

// The ids of all places, or nothing where the selection needs none.
fn ids_of(
    alloc: Global,
    block: &Block<'_>,
    selection: &Selection<'_>,
) -> Result<Vec<Option<TxId>>, AllocError> {
    let mut ids = Vec::new(alloc);
    if selection.shows_ids() || selection.id.is_some() {
        for bytes in block.txs.as_slice() {
            ids.push(id_in(alloc, block.version, bytes.as_slice())?)?;
        }
    }
    Ok(ids)
}

fn id_at(ids: &[Option<TxId>], place: usize) -> Option<TxId> {
    *ids.get(place)?
}

// The lines of the places that are asked for.
fn write_places<'a, W: Write>(
    alloc: Global,
    out: &mut W,
    number: u64,
    reasons: &[Reason],
    ids: &[Option<TxId>],
    selection: &Selection<'_>,
) -> Result<(), Fault<'a>> {
    for (place, reason) in reasons.iter().enumerate() {
        let id = id_at(ids, place);
        if selection.asks_for(place, &id) {
            let shown = if selection.shows_ids() {
                id.as_ref()
            } else {
                None
            };
            let line = ReasonLine::new(number, place, reason, shown);
            write_reason(alloc, out, selection.format, &line)?;
        }
    }
    Ok(())
}

fn has_place(reasons: &[Reason], ids: &[Option<TxId>], selection: &Selection<'_>) -> bool {
    for place in 0..reasons.len() {
        if selection.asks_for(place, &id_at(ids, place)) {
            return true;
        }
    }
    false
}

// Where no place is asked for that the block has: the block before it that has the id.
fn write_other<'a, W: Write>(
    out: &mut W,
    world: &World,
    block: &Block<'_>,
    selection: &Selection<'a>,
) -> Result<(), Fault<'a>> {
    let first = match &selection.id {
        Some(id) => world.flag_of(id),
        None => None,
    };
    match (selection.explained, first) {
        (Explained::Place(place), _) => Err(Fault::NoTransaction(place)),
        (Explained::Id(word), None) => Err(Fault::UnknownId(word)),
        (_, first) => {
            let header = &block.header;
            write_block(out, selection.format, header.number, &header_hash(header))?;
            if let Some(first) = first {
                write_earlier(out, selection.format, &first)?;
            }
            Ok(())
        }
    }
}

// The lines of a block with these reasons.
fn write_reasons<'a, W: Write>(
    alloc: Global,
    out: &mut W,
    world: &World,
    block: &Block<'_>,
    reasons: &[Reason],
    selection: &Selection<'a>,
) -> Result<(), Fault<'a>> {
    let ids = ids_of(alloc, block, selection)?;
    if !has_place(reasons, ids.as_slice(), selection) {
        return write_other(out, world, block, selection);
    }
    let header = &block.header;
    write_block(out, selection.format, header.number, &header_hash(header))?;
    write_places(
        alloc,
        out,
        header.number,
        reasons,
        ids.as_slice(),
        selection,
    )
}

// The lines or the graph of a block with these reasons.
fn write_told<'a, W: Write>(
    alloc: Global,
    out: &mut W,
    world: &World,
    block: &Block<'_>,
    reasons: &[Reason],
    selection: &Selection<'a>,
) -> Result<(), Fault<'a>> {
    match selection.told {
        Told::Lines { .. } => write_reasons(alloc, out, world, block, reasons, selection),
        Told::Graph { all } => Ok(write_graph(alloc, out, block.header.number, reasons, all)?),
    }
}

fn write_no_reasons<'a, W: Write>(
    out: &mut W,
    format: Format,
    place: usize,
    refused: Refused,
) -> Result<u8, Fault<'a>> {
    write_refused(out, format, place, Refusal::of(refused)?)?;
    Ok(REFUSED)
}

// All lines of the block that these bytes spell, which is the next one, at this place among all blocks, from 1.
fn write_decoded<'a, W: Write>(
    alloc: Global,
    out: &mut W,
    standing: &Standing<'_>,
    place: usize,
    bytes: &[u8],
    block: &Block<'_>,
    selection: &Selection<'a>,
) -> Result<u8, Fault<'a>>
    requires { Spells bytes.now block.now }
{
    let (channel, world, keys) = (standing.channel, standing.world, standing.keys);
    match next_reasons(alloc, channel, world, bytes, keys) {
        Ok(reasons) => {
            write_told(alloc, out, world, block, reasons.as_slice(), selection)?;
            Ok(ACCEPTED)
        }
        Err(refused) => {
            write_no_reasons(out, selection.format, place, refused)?;
            write_relation(out, selection.format, world, bytes, block)?;
            Ok(REFUSED)
        }
    }
}

// All lines of the block in these bytes, which is the next one, at this place among all blocks, from 1.
fn write_lines<'a, W: Write>(
    alloc: Global,
    out: &mut W,
    standing: &Standing<'_>,
    place: usize,
    bytes: &[u8],
    selection: &Selection<'a>,
) -> Result<u8, Fault<'a>> {
    match decode_block(alloc, bytes) {
        Ok(block) => write_decoded(alloc, out, standing, place, bytes, &block, selection),
        Err(fault) => {
            let refused = Refused::Malformed(fault);
            write_no_reasons(out, selection.format, place, refused)
        }
    }
}

// The block that is explained, and what it is explained by: the ledger after the others, and the keys.
#[derive(Clone, Copy)]
struct LastBlock<'b> {
    ledger: &'b Ledger,
    keys: &'b KeyBook,
    /// None where there is no block; clap asks for one.
    bytes: Option<&'b Bytes>,
    /// Among all blocks, from 1.
    place: usize,
}

// Writes the lines of the last block, unless the others couldn't be handed in. Returns what the process ends with.
fn write_last<'a, W: Write>(
    alloc: Global,
    handed: Result<u8, AllocError>,
    last: &LastBlock<'_>,
    selection: &Selection<'a>,
    out: &mut W,
) -> Result<u8, Fault<'a>> {
    let status = handed?;
    let Some(bytes) = last.bytes else {
        return Err(Fault::Word);
    };
    let standing = Standing {
        channel: last.ledger.channel(),
        world: last.ledger.view(),
        keys: last.keys,
    };
    let bytes = bytes.as_slice();
    let explained = write_lines(alloc, out, &standing, last.place, bytes, selection)?;
    Ok(status.max(explained))
}

// Hands all blocks but the last in, and writes the last one's lines. Owns the ledger, and has one way out.
fn explain_last<'a, W: Write, P: Progress>(
    alloc: Global,
    inputs: Inputs,
    selection: &Selection<'a>,
    out: &mut W,
    progress: &mut P,
) -> Result<u8, Fault<'a>> {
    let Inputs {
        configuration,
        mut blocks,
    } = inputs;
    let Configuration { channel, keys } = configuration;
    let place = blocks.len();
    let last = blocks.pop();
    let mut ledger = Ledger::open(alloc, channel);
    let handed = hand_in(&mut ledger, blocks, &keys, progress);
    let bytes = last.as_ref();
    let last = LastBlock {
        ledger: &ledger,
        keys: &keys,
        bytes,
        place,
    };
    write_last(alloc, handed, &last, selection, out)
}

/// Reads the files, hands all blocks but the last in, and writes the last one's lines. The memory is that of `get`,
/// with the reasons. Where an id is asked for or shown, the last block's items are
/// decoded once more, and 65 bytes kept for each.
pub fn print_reasons<'a, F: Files, W: Write, P: Progress>(
    alloc: Global,
    files: &F,
    words: &Explain<'a>,
    out: &mut W,
    progress: &mut P,
) -> Result<u8, Fault<'a>> {
    let selection = Selection::of(alloc, words.paths.format, words.explained, words.told)?;
    let inputs = Inputs::read(alloc, files, &words.paths)?;
    let mut lines = BufWriter::new(alloc, out)?;
    let ended = explain_last(alloc, inputs, &selection, &mut lines, progress);
    finish(lines, ended)
}

/// Reads the file of a block, which isn't taken, and adds its lines to those that are kept, by the ledger that is
/// there. Returns what the process would end with.
pub(crate) fn add_reasons<'a, F: Files>(
    alloc: Global,
    files: &F,
    format: Format,
    standing: &Standing<'_>,
    words: &ExplainWords<'a>,
    kept: &mut Vec<u8>,
) -> Result<u8, Fault<'a>> {
    let selection = Selection::of(alloc, format, words.explained, words.told)?;
    let bytes = read_file(alloc, files, words.block)?;
    write_lines(alloc, kept, standing, 1, bytes.as_slice(), &selection)
}
