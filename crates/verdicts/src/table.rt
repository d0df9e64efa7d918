ghost use Rattle.std.specs.Prelude.{◌≡◌, ℕ, List, IfOk};
ghost use Rattle.verdicts.specs.Said.{accepted_by};
ghost use Rattle.verdicts.specs.Index.{AnswerAlike};

use crate::index::{accepted_ones, is_accepted};
use crate::signed::Signed;
use crate::verdict::Verdict;
use policy_eval::Verify;
use std::alloc::{AllocError, Global};
use std::collections::HashSet;
use transaction::Identity;

/// Verdicts as a verifier. A signature is good if a verdict on it, with its identity and its message, accepts it: what no verdict speaks
/// of is refused.
#[derive(Drop)]
pub struct Table<'a> {
    pub pool: &'a [u8],
    pub verdicts: &'a [Verdict],
    accepted: HashSet<Signed<'a>>,
    ghost alike: { AnswerAlike accepted.keys pool.now verdicts.now },
}

impl<'a> Table<'a> {
    /// The table of verdicts whose pieces are of this pool. Linear in the verdicts and in the bytes that accepted ones name; memory for
    /// a reference to each.
    pub fn new(
        alloc: Global,
        pool: &'a [u8],
        verdicts: &'a [Verdict],
    ) -> Result<Table<'a>, AllocError>
        ensures pool { IfOk result (λ table. table.pool.now ≡ pool.now) }
        ensures verdicts { IfOk result (λ table. table.verdicts.now ≡ verdicts.now) }
    {
        let accepted = accepted_ones(alloc, pool, verdicts)?;
        Ok(Table {
            pool,
            verdicts,
            accepted,
        })
    }
}

impl<'a> Verify for Table<'a> {
    ghost accepts = { λ t identity message signature. accepted_by t.pool.now t.verdicts.now identity message signature };

    /// Linear in the bytes that are asked about, whatever the number of verdicts, but for accepted ones with the same bytes of a signature.
    fn verify(&self, identity: &Identity<'_>, message: &[u8], signature: &[u8]) -> bool {
        is_accepted(&self.accepted, identity, message, signature)
    }
}
