use crate::in_form::InForm;
use crate::open_tx::OpenTx;
use crate::open_update::OpenUpdate;
use policy::Definitions;
use policy_eval::Signers;
use rules::{EarlyFlag, Flag, ReadVerdict};
use std::alloc::{AllocError, Global};
use transaction::Tx;

/// What a transaction or an update is before the rules on the state.
#[derive(Drop)]
pub enum Candidate<'a> {
    /// Its flag is decided.
    Flagged(EarlyFlag),
    /// The endorsement and read rules decide.
    Opened(OpenTx<'a>),
    /// The admin policy decides.
    Updates(OpenUpdate<'a>),
}

impl<'a> Candidate<'a> {
    ghost use Rattle.std.specs.Prelude.{◌≡◌, IfOk};
    ghost use Rattle.rules.specs.Job.{flag_by};
    ghost use Rattle.rules.specs.Candidate.{flagged_or, opened};
    ghost use Rattle.candidates.specs.SetsFault.{sets_fault};
    ghost use Rattle.candidates.specs.Seen.{seen};

    /// The candidate of a transaction whose origin is good and whose id is new: flagged for its read and write sets, or
    /// open with these signers. Memory, errors and cost are those of [`InForm::check`].
    pub fn open(
        alloc: Global,
        tx: Tx<'a>,
        signers: Signers<'a>,
        definitions: &Definitions,
    ) -> Result<Candidate<'a>, AllocError>
        ensures { IfOk result (λ c. seen c ≡ flagged_or (sets_fault definitions.now tx.entry) (opened tx.entry signers.entry)) }
    {
        match InForm::check(alloc, tx, definitions)? {
            Ok(in_form) => Ok(Candidate::Opened(in_form.with_signers(signers))),
            Err(flag) => Ok(Candidate::Flagged(flag)),
        }
    }

    /// Its flag if its checks return this. A flagged candidate keeps its flag no matter what they return, and if the
    /// endorsement rule fails the reads don't count.
    pub fn flag(&self, is_endorsed: bool, reads: ReadVerdict) -> Flag
        ensures { result ≡ flag_by (seen self.now) is_endorsed reads }
    {
        match self {
            Candidate::Flagged(flag) => flag.flag(),
            Candidate::Opened(_) | Candidate::Updates(_) if is_endorsed => reads.flag(),
            Candidate::Opened(_) => Flag::EndorsementPolicyFailure,
            Candidate::Updates(_) => Flag::InvalidConfigTransaction,
        }
    }
}
