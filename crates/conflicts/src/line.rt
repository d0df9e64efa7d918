//! A key with its counts, in the order of a report.
ghost use Rattle.std.specs.Prelude.{◌≡◌, IfOk};
ghost use Rattle.std.proofs.Common.{refl, rules};
ghost use Rattle.std.specs.Cmp.{partial_order_from_agreeing_total, partial_equiv_from_equiv, eq_by_cmp_equiv};
ghost use Rattle.std.specs.Cmp.Rules.{comparing};
ghost use Rattle.std.specs.Ordering.{as_partial_cmp, eq_by_cmp};
ghost use Rattle.conflicts.specs.Ranking.{line_cmp};
ghost use Rattle.conflicts.specs.LineOrder.{line_cmp_total};

use crate::conflict_key::ConflictKey;
use crate::key_counts::KeyCounts;
use std::alloc::AllocError;
use std::cmp::Ordering;
use std::marker::Model;

/// A key, and how many transactions it made invalid. Orders by most first, then by namespace and key. A contract
/// sees the pair of both.
#[derive(Debug, Drop)]
pub struct Line {
    key: ConflictKey,
    counts: KeyCounts,
}

impl Model for Line {
    ghost use Rattle.conflicts.specs.Ranking as ranking;
    ghost use Rattle.conflicts.specs.Code.{line_code};

    ghost Value = { ranking.Line };

    ghost coded = { line_code };

    ghost view = { λ l. (l.key, l.counts) };
}

impl Line {
    pub(crate) fn new(key: ConflictKey, counts: KeyCounts) -> Line
        ensures { result ≡ (key, counts) }
    {
        Line { key, counts }
    }

    /// The key, with its namespace.
    pub fn key(&self) -> &ConflictKey
        ensures { result.now ≡ self.now.0 }
    {
        &self.key
    }

    /// What it made invalid.
    pub fn counts(&self) -> &KeyCounts
        ensures { result.now ≡ self.now.1 }
    {
        &self.counts
    }

    /// Another reference to the line. Takes no memory, and fails only for the 2^63rd reference to its key.
    pub(crate) fn share(&self) -> Result<Line, AllocError>
        ensures { IfOk result (λ l. l ≡ self.now) }
    {
        Ok(Line {
            key: self.key.share()?,
            counts: self.counts,
        })
    }

    fn order(&self, other: &Line) -> Ordering
        ensures { result ≡ line_cmp self.now other.now }
    {
        let totals = other.counts.total().cmp(&self.counts.total());
        if totals.is_eq() {
            self.key.cmp(&other.key)
        } else {
            totals
        }
    }
}

impl PartialEq for Line {
    ghost eq = { eq_by_cmp line_cmp };

    ghost laws = { partial_equiv_from_equiv (eq_by_cmp_equiv line_cmp_total) };

    fn eq(&self, other: &Line) -> bool {
        self.order(other).is_eq()
    }
}

impl Eq for Line {
    ghost laws = { eq_by_cmp_equiv line_cmp_total };
}

impl PartialOrd for Line {
    ghost partial_cmp = { as_partial_cmp line_cmp };

    ghost laws = { partial_order_from_agreeing_total line_cmp line_cmp_total (λ _ _. refl) (λ _ _. refl) };

    fn partial_cmp(&self, other: &Line) -> Option<Ordering> {
        Some(self.order(other))
    }
}

impl Ord for Line {
    ghost cmp = { line_cmp };

    ghost total = { line_cmp_total };

    ghost matches_partial_cmp = { Prim.search (comparing, rules) };

    ghost matches_eq = { λ _ _. refl };

    fn cmp(&self, other: &Line) -> Ordering {
        self.order(other)
    }
}
