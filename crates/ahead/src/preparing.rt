ghost use Rattle.std.specs.Prelude.{◌≡◌, ℕ, List, Ok, IfOk, IfErr, IfSome, IsSome, IsNone};
ghost use Rattle.channel.specs.Fault.{Refuses};
ghost use Rattle.channel.specs.Text.{configuration_of};
ghost use Rattle.policy_eval.specs.Accepts.{Accepts};
ghost use Rattle.rules.specs.Step.{Step};
ghost use Rattle.ledger.specs.Prepared.{IsAnyRefusal};
ghost use Rattle.ahead.specs.Made.{IsMade};
ghost use Rattle.ahead.specs.Prepared.{IsNotPrepared, IsPreparedFor};

use crate::prepared::PreparedBlock;
use channel::{Channel, ChannelFault, Configuration};
use ledger::{Ledger, prepare};
use next_block::Prepared;
use policy_eval::Verify;
use rules::{Accepted, Refused};
use std::alloc::{AllocError, Global};
use values::Bytes;

/// Why a block wasn't prepared: the fault of the channel text, or why any ledger refuses the block.
#[derive(Drop)]
pub enum NotPrepared {
    Channel(ChannelFault),
    Block(Refused),
}

/// What a channel text configures.
fn configuration_in(alloc: Global, text: &str) -> Result<Configuration, ChannelFault>
    ensures ok { IfOk result (λ channel. configuration_of text.now ≡ Ok channel) }
    ensures err { IfErr result (λ fault. Refuses fault (configuration_of text.now)) }
{
    let (configuration, definitions) = Channel::read(alloc, text)?.into_parts();
    drop(definitions);
    Ok(configuration)
}

/// A prepared block, with a copy of the text of its channel.
fn with_text<'b>(
    alloc: Global,
    text: &str,
    block: Prepared<'b>,
) -> Result<PreparedBlock<'b>, AllocError>
    requires { ∥ IsMade text.now block ∥₁ }
    ensures { IfOk result (λ p. (p.text ≡ text.now) × (p.block ≡ block.entry)) }
{
    let text = Bytes::from_slice(alloc, text.as_bytes())?;
    Ok(PreparedBlock { text, block })
}

/// Takes a block in for ledgers of this channel, which this text configures.
fn prepared_in<'b, V: Verify>(
    alloc: Global,
    text: &str,
    channel: &Configuration,
    block: &'b [u8],
    verifier: &V,
) -> Result<PreparedBlock<'b>, Refused>
    requires { configuration_of text.now ≡ Ok channel.now }
    ensures prepared { IfOk result (IsPreparedFor text.now (V.accepts verifier.now) block.now) }
    ensures refused { IfErr result (IsAnyRefusal block.now) }
{
    let block = prepare(alloc, channel, block, verifier)?;
    Ok(with_text(alloc, text, block)?)
}

/// Takes a block in for ledgers of this channel text. It needs no ledger, so that threads may do so for many blocks at
/// the same time.
///
/// Costs what [`ledger::prepare`] does, and reads and copies the channel text. What comes of it is submitted once, by
/// [`submit_prepared`], or dropped.
pub fn prepare_for<'b, V: Verify>(
    alloc: Global,
    text: &str,
    block: &'b [u8],
    verifier: &V,
) -> Result<PreparedBlock<'b>, NotPrepared>
    ensures prepared { IfOk result (IsPreparedFor text.now (V.accepts verifier.now) block.now) }
    ensures not_prepared { IfErr result (IsNotPrepared text.now block.now) }
{
    match configuration_in(alloc, text) {
        Ok(channel) => match prepared_in(alloc, text, &channel, block, verifier) {
            Ok(prepared) => Ok(prepared),
            Err(refused) => Err(NotPrepared::Block(refused)),
        },
        Err(fault) => Err(NotPrepared::Channel(fault)),
    }
}

/// Submits a prepared block to a ledger of this channel text, as `Ledger::submit_one` does with the bytes and the
/// verifier that it was prepared by. If it was prepared for another text this returns `None` and changes nothing.
///
/// Costs what `Ledger::submit_prepared` does, and compares the two texts.
pub fn submit_prepared(
    ledger: &mut Ledger,
    text: &[u8],
    prepared: PreparedBlock<'_>,
) -> Option<Result<Accepted, Refused>>
    requires { configuration_of text.now ≡ Ok ledger.old.channel }
    ensures step { IfSome result (λ answer. (accepts : Accepts) (bytes : List ℕ) → IsPreparedFor prepared.entry.text accepts bytes prepared.entry
        → Step ledger.old.channel accepts ledger.old.world bytes answer ledger.new.world) }
    ensures channel { ledger.new.channel ≡ ledger.old.channel }
    ensures same_text { prepared.entry.text ≡ text.now → IsSome result }
    ensures none { IsNone result → ledger.new ≡ ledger.old }
{
    if prepared.text.as_slice() != text {
        return None;
    }
    let PreparedBlock { text: _, block } = prepared;
    Some(ledger.submit_prepared(block))
}
