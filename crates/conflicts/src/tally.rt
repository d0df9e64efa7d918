ghost use Rattle.std.specs.Prelude.{◌≡◌, ◌<◌, ◌+◌, ◌++◌, ◌^◌, [], List, OnOk, OnErr, IfOk};
ghost use Rattle.reasons.specs.declared.reason.Reason.{Reason};
ghost use Rattle.conflicts.specs.Chaincodes.{AreChaincodes};
ghost use Rattle.conflicts.specs.Conflict.{conflicts_of};
ghost use Rattle.conflicts.specs.Lack.{lacks_of};
ghost use Rattle.conflicts.specs.FlagCounts.{with_flag};
ghost use Rattle.conflicts.specs.Ranking.{AreFirst};
ghost use Rattle.conflicts.specs.Tally.{Counts};

use crate::chaincode_line::{ChaincodeLine, chaincode_lines};
use crate::conflict_key::ConflictKey;
use crate::flag_counts::{NUMBERS, count_flags, with_flag};
use crate::key_counts::KeyCounts;
use crate::line::Line;
use crate::ranking::{first_lines, ranked_lines};
use crate::tables::count_tables;
use reasons::Reason;
use rules::Flag;
use std::alloc::{AllocError, Global};
use std::collections::BTreeMap;
use std::marker::Model;
use values::Items;

/// What conflicts cost over a chain: how many transactions have each flag, and how many were made invalid by each key,
/// and by whose missing endorsement. Keeps a line for each key that is to blame, and for each chaincode with a
/// principal that is missing, and nothing else of a block.
#[derive(Drop)]
pub struct Tally {
    alloc: Global,
    total: u64,
    flags: [u64; NUMBERS],
    keys: BTreeMap<ConflictKey, KeyCounts>,
    lacks: BTreeMap<ConflictKey, KeyCounts>,
}

impl Model for Tally {
    ghost use Rattle.conflicts.specs.Tally as tally;
    ghost use Rattle.conflicts.specs.Code.{tally_code};

    ghost Value = { tally.Tally };

    ghost coded = { tally_code };

    ghost use Rattle.conflicts.specs.Tally.{IsWithin, AreWithin};

    ghost view = { λ t. record { total = t.total; flags = t.flags; keys = t.keys.entries; lacks = t.lacks.entries } };

    ghost invariant = { λ t. IsWithin t.total t.keys.entries × IsWithin t.total t.lacks.entries × AreWithin t.total t.flags };
}

// The sum, if it fits.
fn increased(total: u64, by: usize) -> Result<u64, AllocError>
    ensures sum { IfOk result (λ n. n ≡ total + by) }
    ensures fits { OnOk result (total + by < 2 ^ 64) }
{
    match total.checked_add(by as u64) {
        Some(sum) => Ok(sum),
        None => Err(AllocError),
    }
}

impl Tally {
    /// Of no transactions. Takes no memory.
    pub fn new(alloc: Global) -> Tally
        ensures { Counts [] result }
    {
        Tally {
            alloc,
            total: 0,
            flags: [0; NUMBERS],
            keys: BTreeMap::new(alloc),
            lacks: BTreeMap::new(alloc),
        }
    }

    /// Counts the transactions that have these reasons, as of one block. An `Err` counts none of them; it is returned
    /// if an allocation failed, and beyond 2^64 - 1 transactions. A look-up for each key or principal that made one
    /// invalid, logarithmic in those so far. Takes memory for the new ones, and for a copy of each until it returns.
    pub fn add(&mut self, reasons: &[Reason]) -> Result<(), AllocError>
        ensures ok { OnOk result ((before : List Reason) → Counts before self.old → Counts (before ++ reasons.now) self.new) }
        ensures err { OnErr result ((before : List Reason) → Counts before self.old → Counts before self.new) }
    {
        let total = increased(self.total, reasons.len())?;
        count_tables(
            self.alloc,
            &mut self.keys,
            &mut self.lacks,
            reasons,
            self.total,
        )?;
        count_flags(&mut self.flags, reasons, self.total);
        self.total = total;
        Ok(())
    }

    /// How many transactions were counted.
    pub fn total(&self) -> u64
        ensures { result ≡ self.now.total }
    {
        self.total
    }

    /// How many transactions have this flag.
    pub fn with_flag(&self, flag: Flag) -> u64
        ensures { (reasons : List Reason) → Counts reasons self.now → result ≡ with_flag flag reasons }
    {
        with_flag(&self.flags, flag)
    }

    /// The n keys that made most transactions invalid, or all if there are fewer: most first, ties in the order of
    /// namespaces and keys. Sorts a list of all keys that made one invalid; shares their bytes.
    pub fn worst_keys(&self, alloc: Global, n: usize) -> Result<Items<Line>, AllocError>
        ensures { IfOk result (λ lines. (reasons : List Reason) → Counts reasons self.now → AreFirst (conflicts_of reasons) n lines) }
    {
        Ok(Items::from_vec(first_lines(alloc, &self.keys, n)?))
    }

    /// The chaincodes whose own policies made transactions invalid, each with the principal that was missing in most of
    /// them, the first of several: most transactions first, ties in the order of names. Sorts a list of all chaincodes
    /// with each principal that was missing, and steps over it for each line.
    pub fn chaincodes(&self, alloc: Global) -> Result<Items<ChaincodeLine>, AllocError>
        ensures { IfOk result (λ lines. (reasons : List Reason) → Counts reasons self.now → AreChaincodes (lacks_of reasons) lines) }
    {
        let ranking = ranked_lines(alloc, &self.lacks)?;
        Ok(Items::from_vec(chaincode_lines(alloc, ranking.as_slice())?))
    }
}
