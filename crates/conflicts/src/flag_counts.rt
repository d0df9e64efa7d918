//! How many transactions have each flag.
ghost use Rattle.std.specs.Prelude.{◌≡◌, ◌≤◌, ◌<◌, ◌+◌, ◌++◌, ◌∷◌, [], ◌^◌, ℕ, List, length, slice_index_or};
ghost use Rattle.reasons.specs.declared.reason.Reason.{Reason};
ghost use Rattle.rules.specs.Flags.{number_of};
ghost use Rattle.conflicts.specs.Tally.{CountsFlags, AreWithin};

use reasons::Reason;
use rules::Flag;

/// One more than the greatest number of a flag.
pub(crate) const NUMBERS: usize = 26;

fn place_of(flag: Flag) -> usize
    ensures place { result ≡ number_of flag }
    ensures within { result < 26 }
{
    usize::from(flag.number())
}

/// Counts the flag of a transaction.
fn count(counts: &mut [u64; NUMBERS], reason: &Reason, total: u64)
    requires within { AreWithin total counts.old }
    requires small { total + 1 < 2 ^ 64 }
    ensures counts { (before : List Reason) → CountsFlags before counts.old → CountsFlags (before ++ reason.now ∷ []) counts.new }
    ensures within { AreWithin (total + 1) counts.new }
{
    let place = place_of(reason.flag());
    counts[place] += 1;
}

/// Counts the flags of transactions, if at most `total` were counted before.
pub(crate) fn count_flags(counts: &mut [u64; NUMBERS], reasons: &[Reason], total: u64)
    requires within { AreWithin total counts.old }
    requires small { total + length reasons.now < 2 ^ 64 }
    ensures counts { (before : List Reason) → CountsFlags before counts.old → CountsFlags (before ++ reasons.now) counts.new }
    ensures within { AreWithin (total + length reasons.now) counts.new }
{
    let mut total = total;
    for reason in reasons {
        count(counts, reason, total);
        total += 1;
    }
}

/// How many have this flag.
pub(crate) fn with_flag(counts: &[u64; NUMBERS], flag: Flag) -> u64
    ensures { result ≡ slice_index_or counts.now (number_of flag) 0 }
{
    counts[place_of(flag)]
}
