//! What queries answer.
ghost use Rattle.std.specs.Prelude.{◌≡◌, IfOk};
ghost use Rattle.policy.specs.Text.{text_of};
ghost use Rattle.query.specs.declared.answers.QueryFault.TheVariants.{Memory};

use policy::Policy;
use rules::KeyedRow;
use std::alloc::{AllocError, Global};
use std::marker::Model;
use thiserror::Error;
use values::{Hash, Items};

/// An answer, whole of one height, with that height and its hashes.
#[derive(Debug, Drop)]
pub struct Reply<A> {
    /// The number of blocks.
    pub height: u64,
    /// The header hash of the last block; none at height 0.
    pub header_hash: Option<Hash>,
    /// The commit hash of the last block; none at height 0.
    pub commit_hash: Option<Hash>,
    pub answer: A,
}

impl<A> Model for Reply<A> {
    ghost use Rattle.rules.specs.Answers as answers;

    ghost Value = { answers.Reply A };

    ghost view = { λ r. record { height = r.height; header_hash = r.header_hash; commit_hash = r.commit_hash; answer = r.answer } };
}

/// Rows in the order of their keys.
#[derive(Drop)]
pub struct RangeRows {
    pub rows: Items<KeyedRow>,
    /// Whether the limit left some out.
    pub more: bool,
}

impl Model for RangeRows {
    ghost use Rattle.rules.specs.Answers.{RangeAnswer};
    ghost use Rattle.query.specs.Code.{range_code};

    ghost Value = { RangeAnswer };

    ghost coded = { range_code };

    ghost view = { λ r. record { rows = r.rows; more = r.more } };
}

/// The canonical text of a policy. A contract sees its bytes.
#[derive(Debug, Drop)]
pub struct PolicyText {
    text: String,
}

impl Model for PolicyText {
    ghost use Rattle.std.specs.Prelude.{ℕ, List, string_bytes};

    ghost Value = { List ℕ };

    ghost view = { λ t. string_bytes t.text };
}

impl PolicyText {
    /// The text of this policy. Linear in it, in time and memory.
    pub(crate) fn of(alloc: Global, policy: &Policy) -> Result<PolicyText, AllocError>
        ensures { IfOk result (λ text. text ≡ text_of policy.now) }
    {
        Ok(PolicyText {
            text: policy.text(alloc)?,
        })
    }

    /// The text, lent.
    pub fn as_str(&self) -> &str
        ensures { result.now ≡ self.now }
    {
        self.text.as_str()
    }
}

/// Why a query has no answer. The handle stays as it was.
#[derive(Clone, Copy, Debug, PartialEq, Eq, Error)]
pub enum QueryFault {
    /// A growth was refused.
    #[error("out of memory")]
    Memory,
    /// The publisher was closed.
    #[error("nothing is published any more")]
    NoEntry,
}

impl From<AllocError> for QueryFault {
    ghost from_gives = { λ _ e. e ≡ Memory };

    fn from(_e: AllocError) -> QueryFault {
        QueryFault::Memory
    }
}
