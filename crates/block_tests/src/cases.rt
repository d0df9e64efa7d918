//! Jobs as plain lists: what each of a few transactions does at each of a few keys.

ghost use Rattle.std.specs.Prelude.{◌<◌};

use transaction::Version;

pub const NAMESPACES: usize = 3;

/// Keys of a namespace.
pub const KEYS: usize = 6;

/// The most transactions of a job.
pub const TXS: usize = 6;

/// The number of the block.
pub const BLOCK: u64 = 1;

/// The keys of a namespace, in their order.
pub const LETTERS: [u8; KEYS] = [b'b', b'd', b'f', b'h', b'j', b'l'];

/// A key of one of the namespaces.
#[derive(Clone, Copy)]
pub struct KeyPlace {
    namespace: usize,
    key: usize,
}

impl KeyPlace {
    /// Numbers go round.
    pub fn new(namespace: usize, key: usize) -> KeyPlace {
        KeyPlace { namespace, key }
    }

    /// The number of the namespace.
    pub fn namespace(self) -> usize
        ensures { result < 3 }
    {
        self.namespace % NAMESPACES
    }

    /// The number of the key.
    pub fn key(self) -> usize
        ensures { result < 6 }
    {
        self.key % KEYS
    }
}

/// Whose endorsements a policy requires.
#[derive(Clone, Copy)]
pub enum Rule {
    First,
    Second,
    Both,
    Either,
}

/// The policy of the chaincode of each namespace. The first one is the named chaincode.
pub const DEFINITIONS: [Rule; NAMESPACES] = [Rule::Either, Rule::Second, Rule::First];

/// Which of two peers has signed.
#[derive(Clone, Copy)]
pub struct Signed {
    pub first: bool,
    pub second: bool,
}

#[derive(Clone, Copy)]
pub enum NewValue {
    Put,
    Delete,
}

/// What a transaction does at a key.
#[derive(Clone, Copy)]
pub struct KeyUse {
    /// The version that was read, `Some(None)` if the key was read as absent.
    pub read: Option<Option<Version>>,
    pub value: Option<NewValue>,
    /// The new policy, `Some(None)` if it is removed.
    pub policy: Option<Option<Rule>>,
}

impl KeyUse {
    /// Whether a value or a policy is written.
    pub fn is_write(&self) -> bool {
        self.value.is_some() || self.policy.is_some()
    }
}

/// A range query, with the version of each key that is a result.
#[derive(Clone, Copy)]
pub struct Query {
    /// A bound of one byte, or the empty one.
    pub start: Option<u8>,
    pub end: Option<u8>,
    pub exhausted: bool,
    pub results: [Option<Version>; KEYS],
}

impl Query {
    /// Whether this key is between the bounds.
    pub fn is_in_bounds(&self, letter: u8) -> bool {
        let is_from = match self.start {
            None => true,
            Some(start) => start <= letter,
        };
        let is_before = match self.end {
            None => true,
            Some(end) => letter < end,
        };
        is_from && is_before
    }

    fn is_up_to_last(&self, letter: u8) -> bool {
        for k in 0..KEYS {
            if self.results[k].is_some() && letter <= LETTERS[k] {
                return true;
            }
        }
        false
    }

    /// Whether the key lies in the part that is compared.
    pub fn is_compared(&self, letter: u8) -> bool {
        self.is_in_bounds(letter) && (self.exhausted || self.is_up_to_last(letter))
    }
}

/// What a transaction does in a namespace.
#[derive(Clone, Copy)]
pub struct SetCase {
    pub uses: [KeyUse; KEYS],
    pub query: Option<Query>,
}

#[derive(Clone, Copy)]
pub struct TxCase {
    /// A transaction that isn't open is flagged, and does nothing.
    pub is_open: bool,
    pub signed: Signed,
    pub sets: [SetCase; NAMESPACES],
}

/// An update of the first chaincode.
#[derive(Clone, Copy)]
pub struct UpdateCase {
    /// The channel's admin policy.
    pub admin: Option<Rule>,
    pub policy: Rule,
    pub signed: Signed,
}

/// What a key has before the block.
#[derive(Clone, Copy)]
pub struct RowCase {
    pub version: Version,
    pub policy: Option<Rule>,
}

#[derive(Clone, Copy)]
pub struct JobCase {
    pub rows: [[Option<RowCase>; KEYS]; NAMESPACES],
    pub txs: [TxCase; TXS],
    /// How many of the transactions there are.
    pub count: usize,
    /// An update is alone in its block, which has no transactions.
    pub update: Option<UpdateCase>,
}

pub const UNUSED: KeyUse = KeyUse {
    read: None,
    value: None,
    policy: None,
};

pub const UNUSED_SET: SetCase = SetCase {
    uses: [UNUSED; KEYS],
    query: None,
};

pub const FLAGGED: TxCase = TxCase {
    is_open: false,
    signed: Signed {
        first: true,
        second: false,
    },
    sets: [UNUSED_SET; NAMESPACES],
};

/// No rows, and no transactions.
pub const NOTHING: JobCase = JobCase {
    rows: [[None; KEYS]; NAMESPACES],
    txs: [FLAGGED; TXS],
    count: 0,
    update: None,
};
