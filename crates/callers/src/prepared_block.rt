use ahead::{NotPrepared, prepare_for, submit_prepared};
use channel::Channel;
use ledger::Ledger;
use policy_eval::Verify;
use rules::{Accepted, Refused};
use std::alloc::Global;

/// What a new ledger of a channel text answers to a block that was prepared for that text.
pub fn answer_to_prepared<V: Verify>(
    alloc: Global,
    text: &str,
    block: &[u8],
    verifier: &V,
) -> Result<Option<Result<Accepted, Refused>>, NotPrepared> {
    let prepared = prepare_for(alloc, text, block, verifier)?;
    let channel = match Channel::read(alloc, text) {
        Ok(channel) => channel,
        Err(fault) => return Err(NotPrepared::Channel(fault)),
    };
    let mut ledger = Ledger::open(alloc, channel);
    Ok(submit_prepared(&mut ledger, text.as_bytes(), prepared))
}
