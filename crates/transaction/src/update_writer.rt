ghost use Rattle.std.specs.Prelude.{◌≡◌, ◌++◌, ◌∷◌, ℕ, List, IfOk, Ok, Err};
ghost use Rattle.values.specs.Memory.{GivesUnless};
ghost use Rattle.transaction.specs.declared.fault.EncodeFault.TheVariants.{TooLarge, Memory};
ghost use Rattle.transaction.specs.UpdateGrammar.{update_body_bytes, update_signed_bytes, update_whole_bytes, IsUpdateBody, IsSignedUpdate, IsWholeUpdate, SpellsUpdateBody, SpellsSignedUpdate, SpellsUpdate};
ghost use Rattle.transaction.specs.Putting.{Puts};

use crate::fault::EncodeFault;
use crate::opening::put_opening;
use crate::put::{put_bytes16, put_u8};
use crate::update::Update;
use crate::writer::{put_endorsements, put_name, within_limit};
use std::alloc::Global;
use values::Bytes;

fn put_update_body(out: &mut Vec<u8>, update: &Update<'_>) -> Result<(), EncodeFault>
    ensures { Puts result out.old.items out.new.items (update_body_bytes update.now) (IsUpdateBody update.now) }
{
    put_u8(out, 0)?;
    put_opening(
        out,
        &update.channel,
        &update.id,
        &update.creator,
        &update.nonce,
    )?;
    put_name(out, &update.namespace)?;
    put_bytes16(out, update.policy.as_slice())?;
    Ok(())
}

fn put_signed_update(out: &mut Vec<u8>, update: &Update<'_>) -> Result<(), EncodeFault>
    ensures { Puts result out.old.items out.new.items (update_signed_bytes update.now) (IsSignedUpdate update.now) }
{
    put_update_body(out, update)?;
    put_endorsements(out, update.endorsements.as_slice())?;
    Ok(())
}

fn put_update(out: &mut Vec<u8>, update: &Update<'_>) -> Result<(), EncodeFault>
    ensures { Puts result out.old.items out.new.items (update_whole_bytes update.now) (IsWholeUpdate update.now) }
{
    put_signed_update(out, update)?;
    put_bytes16(out, update.signature.as_slice())?;
    Ok(())
}

/// The bytes of the update's body: what an endorser signs, followed by its identity's bytes. Linear in them, in time
/// and memory, also where they are too many.
pub fn encode_update_body(alloc: Global, update: &Update<'_>) -> Result<Bytes, EncodeFault>
    ensures spelled { IfOk result (λ bytes. SpellsUpdateBody bytes update.now) }
    ensures encoded { (bytes : List ℕ) → SpellsUpdateBody bytes update.now → GivesUnless Memory result (Ok bytes) }
    ensures too_large { result ≡ Err TooLarge → (bytes : List ℕ) → ¬ SpellsUpdateBody bytes update.now }
{
    let mut bytes = Vec::new(alloc);
    put_update_body(&mut bytes, update)?;
    within_limit(bytes)
}

/// The bytes of the update before the creator's signature, which the creator signs. Linear in them, in time and memory,
/// also where they are too many.
pub fn encode_update_signed(alloc: Global, update: &Update<'_>) -> Result<Bytes, EncodeFault>
    ensures spelled { IfOk result (λ bytes. SpellsSignedUpdate bytes update.now) }
    ensures encoded { (bytes : List ℕ) → SpellsSignedUpdate bytes update.now → GivesUnless Memory result (Ok bytes) }
    ensures too_large { result ≡ Err TooLarge → (bytes : List ℕ) → ¬ SpellsSignedUpdate bytes update.now }
{
    let mut bytes = Vec::new(alloc);
    put_signed_update(&mut bytes, update)?;
    within_limit(bytes)
}

/// The bytes that spell the update, as version 2 has them. Linear in them, in time and memory, also where they are too
/// many.
pub fn encode_update(alloc: Global, update: &Update<'_>) -> Result<Bytes, EncodeFault>
    ensures spelled { IfOk result (λ bytes. SpellsUpdate bytes update.now) }
    // An update that has a spelling gets it.
    ensures encoded { (bytes : List ℕ) → SpellsUpdate bytes update.now → GivesUnless Memory result (Ok bytes) }
    ensures too_large { result ≡ Err TooLarge → (bytes : List ℕ) → ¬ SpellsUpdate bytes update.now }
{
    let mut bytes = Vec::new(alloc);
    put_update(&mut bytes, update)?;
    within_limit(bytes)
}
