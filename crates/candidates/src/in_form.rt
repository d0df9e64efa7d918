ghost use Rattle.std.specs.Prelude.{◌≡◌, Some, None, IfOk, MatchResult};
ghost use Rattle.candidates.specs.SetsFault.{sets_fault};

use crate::defined::is_all_defined;
use crate::gathering::written_in_form;
use crate::open_tx::OpenTx;
use crate::written_key::WrittenKey;
use policy::Definitions;
use policy_eval::Signers;
use rules::EarlyFlag;
use std::alloc::{AllocError, Global};
use std::marker::Model;
use transaction::Tx;

/// A transaction whose read and write sets are well-formed, with the keys that it writes. A contract sees the
/// transaction.
#[derive(Drop)]
pub struct InForm<'a> {
    tx: Tx<'a>,
    written: Vec<WrittenKey<'a>>,
}

impl<'a> Model for InForm<'a> {
    ghost use Rattle.transaction.specs.declared.transaction.Tx.{Tx};
    ghost use Rattle.candidates.specs.Written.{IsGathered};

    ghost Value = { Tx };

    ghost view = { λ f. f.tx };

    ghost invariant = { λ f. IsGathered f.tx f.written.items };
}

impl<'a> InForm<'a> {
    /// The transaction, if its sets are well-formed and its chaincodes defined, otherwise the flag that it gets. The
    /// outer `Err` is returned only if an allocation failed.
    ///
    /// Each policy that it writes is read once. Each list takes n log n comparisons of keys, n if it is in their order,
    /// and each namespace with writes a look-up. Memory for the keys that it writes and for their policies, and in
    /// passing for a reference to each item of a long list out of order.
    pub fn check(
        alloc: Global,
        tx: Tx<'a>,
        definitions: &Definitions,
    ) -> Result<Result<InForm<'a>, EarlyFlag>, AllocError>
        ensures { IfOk result (λ checked. MatchResult checked (λ in_form. (in_form ≡ tx.entry) × (sets_fault definitions.now tx.entry ≡ None)) (λ flag. sets_fault definitions.now tx.entry ≡ Some flag)) }
    {
        let Some(written) = written_in_form(alloc, &tx)? else {
            return Ok(Err(EarlyFlag::BadRwset));
        };
        if !is_all_defined(definitions, &tx) {
            return Ok(Err(EarlyFlag::InvalidChaincode));
        }
        Ok(Ok(InForm { tx, written }))
    }

    /// The transaction.
    pub fn tx(&self) -> &Tx<'a>
        ensures { result.now ≡ self.now }
    {
        &self.tx
    }

    /// The transaction, open with its signers and what it writes. Takes no memory.
    pub fn with_signers(self, signers: Signers<'a>) -> OpenTx<'a>
        ensures tx { result.tx ≡ self.entry }
        ensures signers { result.signers ≡ signers.entry }
    {
        OpenTx {
            tx: self.tx,
            signers,
            written: self.written,
        }
    }
}
