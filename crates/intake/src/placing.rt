//! What the items of a block are, once it is known how many it has, and then whose ids are used.
ghost use Rattle.std.specs.Prelude.{◌≡◌, true, false, ◌==◌, ◌≤◌, ℕ, List, [], Option, length, map, IfOk, if◌then◌else◌};
ghost use Rattle.transaction.specs.declared.item.Item.{Item};
ghost use Rattle.policy_eval.specs.Accepts.{Accepts};
ghost use Rattle.channel.specs.Configuration.{Configuration};
ghost use Rattle.rules.specs.Candidate.{candidates_from, used_id};
ghost use Rattle.rules.specs.Candidate as by_rules;
ghost use Rattle.rules.specs.declared.early_flag.EarlyFlag.TheVariants.{InvalidConfigTransaction};
ghost use Rattle.rules.specs.FirstUses.{FirstUses};
ghost use Rattle.txid_index.specs.Marks.{marks};
ghost use Rattle.candidates.specs.Seen.{seen};
ghost use Rattle.candidates.specs.declared.candidate.Candidate.TheVariants.{Flagged};
ghost use Rattle.intake.specs.declared.taking.Taken as as_taken;
ghost use Rattle.intake.specs.Place.{taken_of, shown};
ghost use Rattle.intake.specs.Placed.{beside};
ghost use Rattle.intake.specs.Tentative.{AreTentative, mark, marked};

use crate::taking::Taken;
use candidates::Candidate;
use rules::EarlyFlag;
use std::alloc::{AllocError, Global};
use transaction::TxId;

/// Whether it is an update that the channel allows.
fn is_update(candidate: &Candidate<'_>) -> bool
    ensures update { result ≡ true → beside candidate.now ≡ Flagged InvalidConfigTransaction }
    ensures other { result ≡ false → beside candidate.now ≡ candidate.now }
{
    match candidate {
        Candidate::Updates(_) => true,
        Candidate::Flagged(_) | Candidate::Opened(_) => false,
    }
}

/// Next to other items an update isn't allowed.
fn beside<'a>(candidate: Candidate<'a>) -> Candidate<'a>
    ensures { result ≡ beside candidate.entry }
{
    if is_update(&candidate) {
        drop(candidate);
        Candidate::Flagged(EarlyFlag::InvalidConfigTransaction)
    } else {
        candidate
    }
}

/// What it is if its id is new.
fn as_new<'a>(alone: bool, candidate: Candidate<'a>) -> Candidate<'a>
    ensures { result ≡ (if alone then candidate.entry else beside candidate.entry) }
{
    if alone { candidate } else { beside(candidate) }
}

/// Whether this is a block of one item.
fn is_one(taken: &[Taken<'_>]) -> bool
    ensures { result ≡ (length taken.now == 1) }
{
    taken.len() == 1
}

/// The ids and candidates of these places if all ids are new.
fn all_new<'a>(
    alloc: Global,
    alone: bool,
    taken: Vec<Taken<'a>>,
) -> Result<(Vec<Option<TxId>>, Vec<Candidate<'a>>), AllocError>
    requires { alone ≡ (length taken.items == 1) }
    ensures { IfOk result (λ r. AreTentative taken.entry.items r.0.items (map seen r.1.items)) }
{
    let mut ids = Vec::with_capacity(alloc, taken.len())?;
    let mut candidates = Vec::with_capacity(alloc, taken.len())?;
    for place in taken {
        let Taken { id, candidate } = place;
        ids.push(id)?;
        candidates.push(as_new(alone, candidate))?;
    }
    Ok((ids, candidates))
}

/// The id that each place of a block uses, and the candidates that its items are if none of these was used before, in a
/// block or at an earlier place. An update that isn't its block's only item is flagged. One pass, and lists of both; no
/// candidate is copied.
pub fn tentative<'a>(
    alloc: Global,
    taken: Vec<Taken<'a>>,
) -> Result<(Vec<Option<TxId>>, Vec<Candidate<'a>>), AllocError>
    ensures { IfOk result (λ r. AreTentative taken.entry.items r.0.items (map seen r.1.items)) }
{
    let alone = is_one(taken.as_slice());
    all_new(alloc, alone, taken)
}

/// What it is if its id is used, or isn't.
fn mark<'a>(candidate: Candidate<'a>, used: bool) -> Candidate<'a>
    ensures { seen result ≡ mark (seen candidate.entry, used) }
{
    if used {
        drop(candidate);
        Candidate::Flagged(EarlyFlag::DuplicateTxId)
    } else {
        candidate
    }
}

/// The candidates of a block, from tentative ones: one whose mark states that its id is used is flagged for that. One
/// pass, and a list of them.
pub fn marked<'a>(
    alloc: Global,
    candidates: Vec<Candidate<'a>>,
    used: &[bool],
) -> Result<Vec<Candidate<'a>>, AllocError>
    ensures few { IfOk result (λ cs. length cs.items ≤ length candidates.entry.items) }
    ensures marked { IfOk result (λ cs. map seen cs.items ≡ marked (map seen candidates.entry.items) used.now) }
{
    let mut all = Vec::with_capacity(alloc, candidates.len())?;
    for (candidate, used) in candidates.into_iter().zip(used) {
        all.push(mark(candidate, *used))?;
    }
    Ok(all)
}

/// Proved (the function does nothing at run time): tentative candidates, marked by a ledger's first uses, are the
/// block's by the definitions; and the ids are those that the block's items use.
pub fn tentative_candidates_are_the_definitions()
    ensures candidates { (channel : Configuration) (accepts : Accepts) (uses : FirstUses) (items : List (Option Item)) (taken : List as_taken.Taken) (ids : List (Option (List ℕ))) (cs : List by_rules.Candidate)
        → AreTentative taken ids cs → map shown taken ≡ map (taken_of channel accepts) items
        → marked cs (marks uses [] ids) ≡ candidates_from channel accepts (length items == 1) uses [] items }
    ensures ids { (channel : Configuration) (accepts : Accepts) (items : List (Option Item)) (taken : List as_taken.Taken) (ids : List (Option (List ℕ))) (cs : List by_rules.Candidate)
        → AreTentative taken ids cs → map shown taken ≡ map (taken_of channel accepts) items → ids ≡ map (used_id channel accepts) items }
{}
