//! The history of a key.
ghost use Rattle.std.specs.Prelude.{◌≡◌, ◌≤◌, ◌++◌, ◌&&◌, length, IfOk, OnOk, MatchResult};
ghost use Rattle.std.specs.Bool.{MatchBool};
ghost use Rattle.values.specs.Name as name;
ghost use Rattle.values.specs.Key as key;
ghost use Rattle.rules.specs.Answers.{history_answer};
ghost use Rattle.c_calls.specs.Buffers.{with_front};
ghost use Rattle.c_calls.specs.Past.{pooled_write, write_at, past_pool, past_writes, IsPast, TheseWrites, NoWrites, PastGiven, PastTold};

use crate::buffers::put_bytes;
use crate::codes::{CLOSED, MEMORY, NO_NAME, OK, SMALL};
use crate::pooling::put;
use c_handle::{Handle, Kept};
use history_index::Entries;
use rules::HistoryEntry;
use std::alloc::{AllocError, Global};
use values::{KeyRef, NameRef, is_key, is_name};
use verdicts::Piece;

/// A value write or a delete of a key: the transaction's id and the value as pieces of a pool, and the transaction's place.
#[repr(C)]
#[derive(Clone, Copy)]
pub struct PastWrite {
    pub id: Piece,
    pub value: Piece,
    pub block: u64,
    pub tx: u32,
    pub deleted: bool,
}

/// How many bytes a pool has, and how many writes there are on them.
#[repr(C)]
#[derive(Clone, Copy)]
pub struct HistorySizes {
    pub pool: usize,
    pub writes: usize,
}

#[derive(Drop)]
struct Past {
    pool: Vec<u8>,
    writes: Vec<PastWrite>,
}

fn list_write(pool: &mut Vec<u8>, entry: &HistoryEntry) -> Result<PastWrite, AllocError>
    ensures write { IfOk result (λ w. w ≡ write_at (length pool.old.items) entry.now) }
    ensures pool { OnOk result (pool.new.items ≡ pool.old.items ++ pooled_write entry.now) }
{
    let id = put(pool, entry.id.as_slice())?;
    let value = match &entry.value {
        Some(value) => value.as_slice(),
        None => &[],
    };
    let value = put(pool, value)?;
    Ok(PastWrite {
        id,
        value,
        block: entry.version.block,
        tx: entry.version.tx,
        deleted: entry.value.is_none(),
    })
}

fn list_writes(alloc: Global, entries: Entries<'_>) -> Result<Past, AllocError>
    ensures { IfOk result (IsPast entries.entry) }
{
    let mut pool = Vec::new(alloc);
    let mut writes = Vec::new(alloc);
    for entry in entries {
        let write = list_write(&mut pool, &entry.entry()?)?;
        writes.push(write)?;
    }
    Ok(Past { pool, writes })
}

fn put_writes(out: &mut [PastWrite], writes: &[PastWrite])
    requires { length writes.now ≤ length out.old }
    ensures { out.new ≡ with_front writes.now out.old }
{
    out[..writes.len()].copy_from_slice(writes);
}

fn tell(
    past: Result<Past, AllocError>,
    pool: &mut [u8],
    writes: &mut [PastWrite],
    sizes: &mut HistorySizes,
) -> u32
    ensures { MatchResult past
        (λ past. TheseWrites past.pool.items past.writes.items pool.old pool.new writes.old writes.new sizes.new result)
        (λ _. NoWrites MEMORY pool.old pool.new writes.old writes.new sizes.old sizes.new result) }
{
    let Ok(past) = past else {
        return MEMORY;
    };
    sizes.pool = past.pool.len();
    sizes.writes = past.writes.len();
    if past.pool.len() > pool.len() || past.writes.len() > writes.len() {
        return SMALL;
    }
    put_bytes(pool, past.pool.as_slice());
    put_writes(writes, past.writes.as_slice());
    OK
}

/// The key that is asked for.
#[derive(Drop)]
struct Asked<'a> {
    namespace: &'a [u8],
    row_key: &'a [u8],
}

fn past_of(
    alloc: Global,
    kept: &Kept,
    asked: &Asked<'_>,
    pool: &mut [u8],
    writes: &mut [PastWrite],
    sizes: &mut HistorySizes,
) -> u32
    ensures { MatchBool (name.is_name asked.now.namespace.now && key.is_key asked.now.row_key.now)
        (PastGiven (history_answer kept.now.ledger.world (asked.now.namespace.now, asked.now.row_key.now)) pool.old pool.new writes.old writes.new sizes.old sizes.new result)
        (NoWrites NO_NAME pool.old pool.new writes.old writes.new sizes.old sizes.new result) }
{
    if !is_name(asked.namespace) || !is_key(asked.row_key) {
        return NO_NAME;
    }
    let (namespace, row_key) = (NameRef::new(asked.namespace), KeyRef::new(asked.row_key));
    let entries = kept.ledger.get().view().history(&namespace, &row_key);
    let past = list_writes(alloc, entries);
    tell(past, pool, writes, sizes)
}

/// Tells the value writes and deletes of a key, the newest first.
pub fn fabcommit_history(
    alloc: Global,
    handle: &mut Handle,
    namespace: &[u8],
    row_key: &[u8],
    pool: &mut [u8],
    writes: &mut [PastWrite],
    sizes: &mut HistorySizes,
) -> u32
    ensures same { handle.new.held.value ≡ handle.old.held.value }
    ensures told { PastTold handle.old.held.value namespace.now row_key.now pool.old pool.new writes.old writes.new sizes.old sizes.new result }
{
    let Some(kept) = handle.take(alloc) else {
        return CLOSED;
    };
    let asked = Asked { namespace, row_key };
    let code = past_of(alloc, &kept, &asked, pool, writes, sizes);
    handle.put(kept);
    code
}
