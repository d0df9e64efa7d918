ghost use Rattle.std.specs.Prelude.{◌≡◌, ◌<◌, ◌+◌, ◌^◌};
ghost use Rattle.conflicts.specs.KeyCounts.{total_of};
ghost use Rattle.conflicts.specs.Tally.{no_counts, with_conflict};

use crate::kind::Kind;

/// How many transactions a key made invalid.
#[derive(Clone, Copy, Debug, PartialEq, Eq)]
pub struct KeyCounts {
    /// A read of it didn't hold.
    pub stale_reads: u64,
    /// A range didn't hold, at it first.
    pub phantoms: u64,
    /// The signers didn't satisfy its own policy.
    pub own_policy: u64,
    /// Its policy had been written earlier in the block.
    pub policy_touched: u64,
    /// Of all these, how many a transaction of the same block caused.
    pub in_block: u64,
}

impl KeyCounts {
    /// None.
    pub(crate) fn none() -> KeyCounts
        ensures { result ≡ no_counts }
    {
        KeyCounts {
            stale_reads: 0,
            phantoms: 0,
            own_policy: 0,
            policy_touched: 0,
            in_block: 0,
        }
    }

    /// One more of this kind.
    pub(crate) fn with(self, kind: Kind, in_block: bool) -> KeyCounts
        requires total { total_of self + 1 < 2 ^ 64 }
        requires in_block { self.in_block + 1 < 2 ^ 64 }
        ensures { result ≡ with_conflict kind in_block self }
    {
        let mut counts = self;
        match kind {
            Kind::StaleRead => counts.stale_reads += 1,
            Kind::Phantom => counts.phantoms += 1,
            Kind::OwnPolicy => counts.own_policy += 1,
            Kind::PolicyTouched => counts.policy_touched += 1,
        }
        counts.in_block += u64::from(in_block);
        counts
    }

    /// How many transactions it made invalid in all.
    pub fn total(&self) -> u128
        ensures { result ≡ total_of self.now }
    {
        u128::from(self.stale_reads)
            + u128::from(self.phantoms)
            + u128::from(self.own_policy)
            + u128::from(self.policy_touched)
    }
}
