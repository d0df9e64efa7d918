ghost use Rattle.std.specs.Prelude.{MatchResult};
ghost use Rattle.rules.specs.Linked.{IsRefused};
ghost use Rattle.reason_lists.specs.Explained.{AreNextListed};

use crate::listing::{ListedReasons, list_reasons};
use ledger::Ledger;
use policy_eval::Verify;
use rules::Refused;
use std::alloc::Global;

/// Why each transaction of the block of these bytes would have its flag, as records, or why the ledger would refuse the block. Changes
/// nothing. Costs what [`Ledger::explain`] and [`list_reasons`] do.
pub fn explained<V: Verify>(
    alloc: Global,
    ledger: &Ledger,
    bytes: &[u8],
    verifier: &V,
) -> Result<ListedReasons, Refused>
    ensures { MatchResult result (AreNextListed ledger.now.channel (V.accepts verifier.now) ledger.now.world bytes.now) (IsRefused ledger.now.world bytes.now) }
{
    let reasons = ledger.explain(bytes, verifier)?;
    let number = ledger.view().height();
    let listed = list_reasons(alloc, number, reasons.as_slice())?;
    Ok(listed)
}
