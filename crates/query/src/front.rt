//! Beginnings of the published list, which take a count and no memory.
ghost use Rattle.std.specs.Prelude.{◌≡◌, [], ◌∷◌, ◌++◌, IfSome, MatchBool};
ghost use mathlib.Core.List.{IsPrefix};
ghost use Rattle.query.specs.Counted.{counter_of};

use logbook::{Gain, Offer, Plain, Play, Rule, Seen, Start, Word};
use rules::Delta;
use std::marker::Model;

/// The rule of the book: its word is the length of the list.
pub(crate) struct IsCounted;

impl Rule<Delta, u64> for IsCounted {
    ghost use Rattle.std.specs.Prelude.{[]};
    ghost use base.Fml.{ftrue};
    ghost use Rattle.query.specs.Counted as counted;

    ghost holds = { counted.IsCounted };

    ghost first = { [] };

    ghost hinted = { λ n list. Unit {0} };

    ghost shows = { λ list. [] };

    ghost keeps = { λ names list. ftrue };

    ghost moves = { λ ask before after answer. Unit {0} };
}

struct NoGain;

impl Gain<Delta, u64> for NoGain {
    ghost use base.Fml.{ftrue};

    ghost after = { λ names about answer. ftrue };
}

/// The step that adds a delta.
struct Adds;

impl Play<Delta, u64> for Adds {
    ghost use Rattle.query.specs.Counted as counted;

    ghost then = { counted.Adds };
}

impl Plain<Delta, Delta, u64> for Adds {
    ghost use Rattle.std.specs.Prelude.{None};

    ghost ask = { λ delta. delta };

    ghost state = { λ delta. None };
}

pub(crate) type Counter = Word<Delta, u64, IsCounted>;

/// A beginning of the published list. No delta is kept for it.
#[derive(Drop)]
pub struct Front {
    count: u64,
    seen: Seen<Delta, u64, IsCounted>,
}

impl Model for Front {
    ghost use Rattle.std.specs.Prelude.{◌≡◌, length};
    ghost use Rattle.query.specs.Published.{Beginning};
    ghost use Rattle.query.specs.Code.{beginning_code};

    ghost Value = { Beginning };

    ghost coded = { beginning_code };

    ghost view = { λ f. record { book = f.seen.book; list = f.seen.log } };

    ghost invariant = { λ f. f.count ≡ length f.seen.log };
}

impl Front {
    /// A new list without deltas, and the word that counts it.
    pub(crate) fn open() -> (Counter, Front)
        ensures counter { result.0 ≡ counter_of result.1.book }
        ensures empty { result.1.list ≡ [] }
    {
        let (seen, mut count, _unused) = Seen::open(Start::alone(), 0, 0);
        (Word::tracked(0, &mut count), Front { count: 0, seen })
    }

    /// This beginning once more. Constant time, no memory.
    pub(crate) fn again(&self) -> Front
        ensures { result ≡ self.now }
    {
        Front {
            count: self.count,
            seen: self.seen.again(),
        }
    }

    /// Of two beginnings of one list one begins the other: whether it is this one that begins the other.
    pub(crate) fn begins(&self, other: &Front) -> bool
        requires { self.now.book ≡ other.now.book }
        ensures { MatchBool result (IsPrefix self.now.list other.now.list) (IsPrefix other.now.list self.now.list) }
    {
        let mut both = self.seen.again();
        both.learn(&other.seen);
        self.count <= other.count
    }

    /// The whole list with a delta behind it. None where this isn't the whole list, which doesn't happen to the one who
    /// adds.
    pub(crate) fn with(&self, counter: &Counter, delta: &Delta) -> Option<Front>
        requires { counter.now ≡ counter_of self.now.book }
        ensures { IfSome result (λ f. f ≡ record { book = self.now.book; list = self.now.list ++ delta.now ∷ [] }) }
    {
        if self.count == u64::MAX {
            return None;
        }
        let longer = self.count + 1;
        let mut seen = self.seen.again();
        let mut offer: Offer<Delta, u64, IsCounted, NoGain> = seen.plain::<NoGain, Delta, Adds>(
            delta,
        );
        let mut pen = seen.no_pen();
        let found = counter.compare_exchange::<Adds, NoGain>(
            self.count, longer, &mut seen, &mut offer, &mut pen,
        );
        if found != self.count {
            return None;
        }
        Some(Front {
            count: longer,
            seen,
        })
    }
}
