//! Jobs and boards at random, always the same ones.

use crate::cases::{
    BLOCK, FLAGGED, JobCase, KEYS, KeyPlace, KeyUse, LETTERS, NAMESPACES, NOTHING, NewValue, Query,
    RowCase, Rule, SetCase, Signed, TXS, TxCase, UNUSED_SET,
};
use crate::sure::KnownCase;
use rules::Flag;
use test_support::Random;
use transaction::Version;

/// Keys of a namespace that transactions use; the others have rows at most.
const USED_KEYS: usize = 3;

/// What is drawn, the same in each run.
#[derive(Drop)]
pub struct Drawing {
    random: Random,
}

impl Drawing {
    /// Draws by a seed of its own.
    pub fn new() -> Drawing {
        Drawing {
            random: Random::new(20261123),
        }
    }

    fn rule(&mut self) -> Rule {
        match self.random.below(4) {
            0 => Rule::First,
            1 => Rule::Second,
            2 => Rule::Both,
            _ => Rule::Either,
        }
    }

    fn row(&mut self) -> Option<RowCase> {
        if self.random.one_of(3) {
            return None;
        }
        let version = Version {
            block: 0,
            tx: self.random.below(2) as u32,
        };
        let policy = if self.random.one_of(2) {
            Some(self.rule())
        } else {
            None
        };
        Some(RowCase { version, policy })
    }

    // Mostly that of the row; otherwise absent, or one of the block.
    fn version(&mut self, row: Option<RowCase>) -> Option<Version> {
        match self.random.below(6) {
            0 => None,
            1 | 2 => Some(Version {
                block: BLOCK,
                tx: self.random.below(6) as u32,
            }),
            _ => match row {
                None => None,
                Some(row) => Some(row.version),
            },
        }
    }

    fn value(&mut self) -> Option<NewValue> {
        match self.random.below(8) {
            0 | 1 => Some(NewValue::Put),
            2 => Some(NewValue::Delete),
            _ => None,
        }
    }

    fn policy(&mut self) -> Option<Option<Rule>> {
        match self.random.below(10) {
            0 => Some(None),
            1 => Some(Some(self.rule())),
            _ => None,
        }
    }

    fn key_use(&mut self, row: Option<RowCase>) -> KeyUse {
        KeyUse {
            read: if self.random.one_of(4) {
                Some(self.version(row))
            } else {
                None
            },
            value: self.value(),
            policy: self.policy(),
        }
    }

    // A bound at a key, between two, or none.
    fn bound(&mut self) -> Option<u8> {
        match self.random.below(8) {
            0 | 1 => None,
            2 => Some(b'a'),
            3 => Some(b'b'),
            4 => Some(b'd'),
            5 => Some(b'e'),
            6 => Some(b'f'),
            _ => Some(b'k'),
        }
    }

    // A range whose results lie in it.
    fn query(&mut self, rows: &[Option<RowCase>; KEYS]) -> Query {
        let mut query = Query {
            start: self.bound(),
            end: self.bound(),
            exhausted: self.random.one_of(2),
            results: [None; KEYS],
        };
        for k in 0..KEYS {
            if query.is_in_bounds(LETTERS[k]) && !self.random.one_of(12) {
                query.results[k] = self.result(rows[k]);
            }
        }
        query
    }

    fn result(&mut self, row: Option<RowCase>) -> Option<Version> {
        if self.random.one_of(6) {
            return self.version(row);
        }
        match row {
            None => None,
            Some(row) => Some(row.version),
        }
    }

    fn set(&mut self, rows: &[Option<RowCase>; KEYS]) -> SetCase {
        let mut set = UNUSED_SET;
        for k in 0..USED_KEYS {
            set.uses[k] = self.key_use(rows[k]);
        }
        if self.random.one_of(3) {
            set.query = Some(self.query(rows));
        }
        set
    }

    fn tx(&mut self, rows: &[[Option<RowCase>; KEYS]; NAMESPACES]) -> TxCase {
        let mut tx = FLAGGED;
        tx.is_open = !self.random.one_of(8);
        tx.signed = Signed {
            first: !self.random.one_of(4),
            second: !self.random.one_of(4),
        };
        for n in 0..NAMESPACES {
            tx.sets[n] = self.set(&rows[n]);
        }
        tx
    }

    /// The next case.
    pub fn job(&mut self) -> JobCase {
        let mut case = NOTHING;
        for n in 0..NAMESPACES {
            for k in 0..KEYS {
                case.rows[n][k] = self.row();
            }
        }
        case.count = 1 + self.random.below(6) as usize;
        for i in 0..TXS {
            if i < case.count {
                case.txs[i] = self.tx(&case.rows);
            }
        }
        case
    }

    fn flag(&mut self) -> Flag {
        match self.random.below(6) {
            0 => Flag::EndorsementPolicyFailure,
            1 => Flag::MvccReadConflict,
            2 => Flag::PhantomReadConflict,
            _ => Flag::Valid,
        }
    }

    /// What is known: all, much or little.
    pub fn known(&mut self) -> KnownCase {
        let unknown = 4 * self.random.below(4);
        let mut known = KnownCase {
            endorsed: [None; TXS],
            flags: [None; TXS],
        };
        for h in 0..TXS {
            if self.random.below(16) >= unknown {
                known.endorsed[h] = Some(!self.random.one_of(3));
            }
            if self.random.below(16) >= unknown {
                known.flags[h] = Some(self.flag());
            }
        }
        known
    }

    /// One of the keys that transactions use.
    pub fn place(&mut self) -> KeyPlace {
        KeyPlace::new(self.random.below(3) as usize, self.random.below(3) as usize)
    }
}
