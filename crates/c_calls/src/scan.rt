//! The rows of a namespace, in the order of their keys.
ghost use Rattle.std.specs.Prelude.{◌≡◌, ◌≤◌, ◌++◌, ◌&&◌, length, map, IfOk, OnOk, MatchResult};
ghost use Rattle.std.specs.Bool.{MatchBool};
ghost use Rattle.values.specs.Name as name;
ghost use Rattle.values.specs.Key as key;
ghost use Rattle.rules.specs.Answers.{range_answer};
ghost use Rattle.c_calls.specs.Buffers.{with_front};
ghost use Rattle.c_calls.specs.Scanned.{pooled_row, row_at, scan_pool, scan_rows, IsScan, TheseRows, NoRows, RowsGiven, ScanTold};

use crate::buffers::put_bytes;
use crate::codes::{CLOSED, MEMORY, NO_NAME, OK, SMALL};
use crate::pooling::put;
use c_handle::{Handle, Kept};
use rules::KeyedRow;
use std::alloc::{AllocError, Global};
use values::{BoundRef, NameRef, is_bound, is_name};
use verdicts::Piece;
use world::RangeAnswer;

/// A row, whose key and value are pieces of a pool, and where it was written last.
#[repr(C)]
#[derive(Clone, Copy)]
pub struct ScannedRow {
    pub key: Piece,
    pub value: Piece,
    pub block: u64,
    pub tx: u32,
}

/// How many bytes a pool has, how many rows there are on them, and whether some are left behind these.
#[repr(C)]
#[derive(Clone, Copy)]
pub struct ScanSizes {
    pub pool: usize,
    pub rows: usize,
    pub more: bool,
}

#[derive(Drop)]
struct Listed {
    pool: Vec<u8>,
    rows: Vec<ScannedRow>,
    more: bool,
}

fn scan_one(pool: &mut Vec<u8>, keyed: &KeyedRow) -> Result<ScannedRow, AllocError>
    ensures row { IfOk result (λ r. r ≡ row_at (length pool.old.items) keyed.now) }
    ensures pool { OnOk result (pool.new.items ≡ pool.old.items ++ pooled_row keyed.now) }
{
    let row = keyed.row();
    let key = put(pool, keyed.key().as_slice())?;
    let value = put(pool, row.value.as_slice())?;
    Ok(ScannedRow {
        key,
        value,
        block: row.version.block,
        tx: row.version.tx,
    })
}

fn scan_all(alloc: Global, answer: &RangeAnswer<'_>) -> Result<Listed, AllocError>
    ensures pool { IfOk result (λ scan. scan.pool.items ≡ scan_pool (map (λ row. row.now) answer.now.rows.items)) }
    ensures rows { IfOk result (λ scan. scan.rows.items ≡ scan_rows 0 (map (λ row. row.now) answer.now.rows.items)) }
    ensures more { IfOk result (λ scan. scan.more ≡ answer.now.more) }
{
    let mut pool = Vec::new(alloc);
    let mut rows = Vec::with_capacity(alloc, answer.rows.len())?;
    for keyed in answer.rows.as_slice() {
        let row = scan_one(&mut pool, keyed)?;
        rows.push(row)?;
    }
    Ok(Listed {
        pool,
        rows,
        more: answer.more,
    })
}

fn found(
    alloc: Global,
    kept: &Kept,
    namespace: &NameRef<'_>,
    start: &BoundRef<'_>,
    end: &BoundRef<'_>,
    limit: usize,
) -> Result<Listed, AllocError>
    ensures { IfOk result (IsScan (range_answer kept.now.ledger.world namespace.now start.now end.now limit)) }
{
    let view = kept.ledger.get().view();
    let answer = view.range(alloc, namespace, start, end, limit)?;
    scan_all(alloc, &answer)
}

fn put_rows(out: &mut [ScannedRow], rows: &[ScannedRow])
    requires { length rows.now ≤ length out.old }
    ensures { out.new ≡ with_front rows.now out.old }
{
    out[..rows.len()].copy_from_slice(rows);
}

fn tell(
    scan: Result<Listed, AllocError>,
    pool: &mut [u8],
    rows: &mut [ScannedRow],
    sizes: &mut ScanSizes,
) -> u32
    ensures { MatchResult scan
        (λ scan. TheseRows scan.pool.items scan.rows.items scan.more pool.old pool.new rows.old rows.new sizes.new result)
        (λ _. NoRows MEMORY pool.old pool.new rows.old rows.new sizes.old sizes.new result) }
{
    let Ok(scan) = scan else {
        return MEMORY;
    };
    sizes.pool = scan.pool.len();
    sizes.rows = scan.rows.len();
    sizes.more = scan.more;
    if scan.pool.len() > pool.len() || scan.rows.len() > rows.len() {
        return SMALL;
    }
    put_bytes(pool, scan.pool.as_slice());
    put_rows(rows, scan.rows.as_slice());
    OK
}

/// The rows that are asked for: of a namespace, from a start to before an end.
#[derive(Drop)]
struct Range<'a> {
    namespace: &'a [u8],
    start: &'a [u8],
    end: &'a [u8],
}

fn scan(
    alloc: Global,
    kept: &Kept,
    range: &Range<'_>,
    pool: &mut [u8],
    rows: &mut [ScannedRow],
    sizes: &mut ScanSizes,
) -> u32
    ensures { MatchBool (name.is_name range.now.namespace.now && key.is_bound range.now.start.now && key.is_bound range.now.end.now)
        (RowsGiven (range_answer kept.now.ledger.world range.now.namespace.now range.now.start.now range.now.end.now (length rows.old)) pool.old pool.new rows.old rows.new sizes.old sizes.new result)
        (NoRows NO_NAME pool.old pool.new rows.old rows.new sizes.old sizes.new result) }
{
    if !is_name(range.namespace) || !is_bound(range.start) || !is_bound(range.end) {
        return NO_NAME;
    }
    let (start, end) = (BoundRef::new(range.start), BoundRef::new(range.end));
    let namespace = NameRef::new(range.namespace);
    let scan = found(alloc, kept, &namespace, &start, &end, rows.len());
    tell(scan, pool, rows, sizes)
}

/// Tells the rows of a namespace from a start to before an end, which is no bound if it is empty: as many as their buffer has room for.
pub fn fabcommit_scan(
    alloc: Global,
    handle: &mut Handle,
    namespace: &[u8],
    start: &[u8],
    end: &[u8],
    pool: &mut [u8],
    rows: &mut [ScannedRow],
    sizes: &mut ScanSizes,
) -> u32
    ensures same { handle.new.held.value ≡ handle.old.held.value }
    ensures told { ScanTold handle.old.held.value namespace.now start.now end.now pool.old pool.new rows.old rows.new sizes.old sizes.new result }
{
    let Some(kept) = handle.take(alloc) else {
        return CLOSED;
    };
    let range = Range {
        namespace,
        start,
        end,
    };
    let code = scan(alloc, &kept, &range, pool, rows, sizes);
    handle.put(kept);
    code
}
