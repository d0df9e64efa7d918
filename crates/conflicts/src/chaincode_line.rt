//! The chaincodes whose own policies made transactions invalid.
ghost use Rattle.std.specs.Prelude.{◌≡◌, ◌≤◌, ◌+◌, ◌++◌, [], map, take, length, if◌then◌else◌, IfOk, OnOk};
ghost use Rattle.std.proofs.Common.{refl, rules};
ghost use Rattle.std.specs.Cmp.{partial_order_from_agreeing_total, partial_equiv_from_equiv, eq_by_cmp_equiv};
ghost use Rattle.std.specs.Cmp.Rules.{comparing};
ghost use Rattle.std.specs.List.{list_any};
ghost use Rattle.std.specs.List.Sorted.{IsPermutation, IsSorted};
ghost use Rattle.std.specs.Ordering.{as_partial_cmp, eq_by_cmp};
ghost use Rattle.conflicts.specs.KeyCounts.{total_of};
ghost use Rattle.conflicts.specs.Laws.{total_where};
ghost use Rattle.conflicts.specs.Chaincodes.{is_in, if_first, firsts, line_in, chaincode_cmp};
ghost use Rattle.conflicts.specs.LineOrder.{chaincode_cmp_total};

use crate::line::Line;
use std::alloc::{AllocError, Global};
use std::cmp::Ordering;
use values::{KeyRef, NameRef};

/// A chaincode, how many transactions its own policy made invalid, and the principal that was missing in most of them.
/// Orders by most first, then by name.
#[derive(Debug, Drop)]
pub struct ChaincodeLine {
    pub transactions: u128,
    /// The chaincode, and the principal instead of a key.
    pub most_missing: Line,
}

impl ChaincodeLine {
    // Of the chaincode of this one of the lines.
    fn of(lines: &[Line], line: &Line) -> Result<ChaincodeLine, AllocError>
        ensures { IfOk result (λ l. l ≡ line_in lines.now line.now) }
    {
        Ok(ChaincodeLine {
            transactions: count_of(lines, &line.key().namespace())?,
            most_missing: line.share()?,
        })
    }

    /// Its name.
    pub fn chaincode(&self) -> NameRef<'_>
        ensures { result ≡ self.now.most_missing.0.0 }
    {
        self.most_missing.key().namespace()
    }

    /// The principal that was missing in most of the transactions, as policies write it between quotes: `ORG.ROLE`.
    pub fn principal(&self) -> KeyRef<'_>
        ensures { result ≡ self.now.most_missing.0.1 }
    {
        self.most_missing.key().key()
    }

    /// In how many it was missing.
    pub fn times(&self) -> u128
        ensures { result ≡ total_of self.now.most_missing.1 }
    {
        self.most_missing.counts().total()
    }

    fn order(&self, other: &ChaincodeLine) -> Ordering
        ensures { result ≡ chaincode_cmp self.now other.now }
    {
        let totals = other.transactions.cmp(&self.transactions);
        if totals.is_eq() {
            self.chaincode()
                .as_slice()
                .cmp(other.chaincode().as_slice())
        } else {
            totals
        }
    }
}

impl PartialEq for ChaincodeLine {
    ghost eq = { eq_by_cmp chaincode_cmp };

    ghost laws = { partial_equiv_from_equiv (eq_by_cmp_equiv chaincode_cmp_total) };

    fn eq(&self, other: &ChaincodeLine) -> bool {
        self.order(other).is_eq()
    }
}

impl Eq for ChaincodeLine {
    ghost laws = { eq_by_cmp_equiv chaincode_cmp_total };
}

impl PartialOrd for ChaincodeLine {
    ghost partial_cmp = { as_partial_cmp chaincode_cmp };

    ghost laws = { partial_order_from_agreeing_total chaincode_cmp chaincode_cmp_total (λ _ _. refl) (λ _ _. refl) };

    fn partial_cmp(&self, other: &ChaincodeLine) -> Option<Ordering> {
        Some(self.order(other))
    }
}

impl Ord for ChaincodeLine {
    ghost cmp = { chaincode_cmp };

    ghost total = { chaincode_cmp_total };

    ghost matches_partial_cmp = { Prim.search (comparing, rules) };

    ghost matches_eq = { λ _ _. refl };

    fn cmp(&self, other: &ChaincodeLine) -> Ordering {
        self.order(other)
    }
}

fn is_in(line: &Line, chaincode: &NameRef<'_>) -> bool
    ensures { result ≡ is_in chaincode.now line.now.0 }
{
    line.key().namespace().is_same(chaincode)
}

// Whether a line is of this chaincode.
fn has_chaincode(lines: &[Line], chaincode: &NameRef<'_>) -> bool
    ensures { result ≡ list_any (λ l. is_in chaincode.now l.0) lines.now }
{
    lines.iter().any(|line| is_in(line, chaincode))
}

// With what the line has, if it is of this chaincode, and if the sum fits.
fn with_line(count: u128, line: &Line, chaincode: &NameRef<'_>) -> Result<u128, AllocError>
    ensures { IfOk result (λ n. n ≡ count + (if is_in chaincode.now line.now.0 then total_of line.now.1 else 0)) }
{
    if !is_in(line, chaincode) {
        return Ok(count);
    }
    match count.checked_add(line.counts().total()) {
        Some(sum) => Ok(sum),
        None => Err(AllocError),
    }
}

// What the lines of this chaincode have together.
fn count_of(lines: &[Line], chaincode: &NameRef<'_>) -> Result<u128, AllocError>
    ensures { IfOk result (λ n. n ≡ total_where (is_in chaincode.now) lines.now) }
{
    let mut count = 0;
    for line in lines {
        count = with_line(count, line, chaincode)?;
    }
    Ok(count)
}

// Of this line at this place, if none before it is of the same chaincode.
fn push_first(
    chaincodes: &mut Vec<ChaincodeLine>,
    lines: &[Line],
    place: usize,
    line: &Line,
) -> Result<(), AllocError>
    requires { place ≤ length lines.now }
    ensures { OnOk result (chaincodes.new.items ≡ chaincodes.old.items ++ map (line_in lines.now) (if_first (take place lines.now) line.now)) }
{
    if !has_chaincode(&lines[..place], &line.key().namespace()) {
        chaincodes.push(ChaincodeLine::of(lines, line)?)?;
    }
    Ok(())
}

// The chaincodes of a ranking of missing principals, by their first lines in it.
fn firsts(alloc: Global, lines: &[Line]) -> Result<Vec<ChaincodeLine>, AllocError>
    ensures { IfOk result (λ chaincodes. chaincodes.items ≡ map (line_in lines.now) (firsts [] lines.now)) }
{
    let mut chaincodes = Vec::new(alloc);
    for (place, line) in lines.iter().enumerate() {
        push_first(&mut chaincodes, lines, place, line)?;
    }
    Ok(chaincodes)
}

/// The chaincodes of a ranking of missing principals, in order. Steps over all lines for each.
pub(crate) fn chaincode_lines(
    alloc: Global,
    lines: &[Line],
) -> Result<Vec<ChaincodeLine>, AllocError>
    ensures each { IfOk result (λ chaincodes. IsPermutation (map (line_in lines.now) (firsts [] lines.now)) chaincodes.items) }
    ensures order { IfOk result (λ chaincodes. IsSorted chaincode_cmp chaincodes.items) }
{
    let mut chaincodes = firsts(alloc, lines)?;
    chaincodes.sort_unstable();
    Ok(chaincodes)
}
