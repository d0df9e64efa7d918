//! Why an update may not be made, whoever asks for it.
ghost use Rattle.std.specs.Prelude.{◌≡◌, IfOk};
ghost use Rattle.rules.specs.Commit.{channel_in};
ghost use Rattle.reasons.specs.Update as rule;

use crate::policy_texts::text_fault;
use crate::undefined::is_defined;
use channel::Configuration;
use reasons::UpdateFault;
use std::alloc::{AllocError, Global};
use transaction::Update;
use world::World;

/// The first fault of an update that shows without its signers, where it is alone in its block or isn't.
pub(crate) fn unsigned_fault(
    alloc: Global,
    channel: &Configuration,
    world: &World,
    alone: bool,
    update: &Update<'_>,
) -> Result<Option<UpdateFault>, AllocError>
    ensures { IfOk result (λ fault. fault ≡ rule.unsigned_fault (channel_in channel.now world.now) alone update.now) }
{
    if !alone {
        return Ok(Some(UpdateFault::NotAlone));
    }
    if channel.admin().is_none() {
        return Ok(Some(UpdateFault::NoAdminPolicy));
    }
    if !is_defined(world.definitions(), &update.namespace) {
        return Ok(Some(UpdateFault::NoDefinition {
            chaincode: update.namespace.copy(alloc)?,
        }));
    }
    let fault = text_fault(alloc, update.policy.as_slice())?;
    Ok(fault.map(UpdateFault::NoPolicy))
}
