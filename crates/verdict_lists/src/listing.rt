//! A block's requests as verdicts.
ghost use Rattle.std.specs.Prelude.{◌≡◌, ◌++◌, ◌⊎◌, length, false, IfOk, IfErr, OnOk};
ghost use Rattle.block.specs.declared.fault.BlockFault.TheVariants.{Memory};
ghost use Rattle.block.specs.Faults.{HasFault};
ghost use Rattle.verdict_lists.specs.Listed.{pooled_bytes, pool_of, verdict_at, verdicts_of, refused, AreVerdicts};

use block::BlockFault;
use signature_requests::{Message, Request, requests};
use std::alloc::{AllocError, Global};
use values::{Bytes, Items};
use verdicts::{Piece, Verdict, role_number};

/// Verdicts, and the pool that their pieces are of.
#[derive(Drop)]
pub struct ListedVerdicts {
    pub pool: Bytes,
    pub verdicts: Items<Verdict>,
}

fn put(pool: &mut Vec<u8>, bytes: &[u8]) -> Result<Piece, AllocError>
    ensures piece { IfOk result (λ p. p ≡ record { at = length pool.old.items; len = length bytes.now }) }
    ensures pool { OnOk result (pool.new.items ≡ pool.old.items ++ bytes.now) }
{
    let at = pool.len();
    pool.extend_from_slice(bytes)?;
    Ok(Piece {
        at,
        len: bytes.len(),
    })
}

fn put_message(pool: &mut Vec<u8>, message: &Message<'_>) -> Result<Piece, AllocError>
    ensures piece { IfOk result (λ p. p ≡ record { at = length pool.old.items; len = length message.now }) }
    ensures pool { OnOk result (pool.new.items ≡ pool.old.items ++ message.now) }
{
    let (front, rest) = message.parts();
    let front = put(pool, front)?;
    let rest = put(pool, rest)?;
    Ok(Piece {
        at: front.at,
        len: front.len + rest.len,
    })
}

fn list_one(pool: &mut Vec<u8>, request: &Request<'_>) -> Result<Verdict, AllocError>
    ensures verdict { IfOk result (λ v. v ≡ verdict_at (length pool.old.items) request.now false) }
    ensures pool { OnOk result (pool.new.items ≡ pool.old.items ++ pooled_bytes request.now) }
{
    let org = put(pool, request.identity.org.as_slice())?;
    let label = put(pool, request.identity.label.as_slice())?;
    let message = put_message(pool, &request.message)?;
    let signature = put(pool, request.signature.as_slice())?;
    Ok(Verdict {
        org,
        label,
        message,
        signature,
        role: role_number(request.identity.role),
        accepted: false,
    })
}

fn list_each(alloc: Global, requests: &[Request<'_>]) -> Result<ListedVerdicts, AllocError>
    ensures pool { IfOk result (λ listed. listed.pool ≡ pool_of requests.now) }
    ensures verdicts { IfOk result (λ listed. listed.verdicts ≡ verdicts_of refused requests.now) }
{
    let mut pool = Vec::new(alloc);
    let mut verdicts = Vec::with_capacity(alloc, requests.len())?;
    for request in requests {
        let verdict = list_one(&mut pool, request)?;
        verdicts.push(verdict)?;
    }
    Ok(ListedVerdicts {
        pool: Bytes::from_vec(pool),
        verdicts: Items::from_vec(verdicts),
    })
}

/// The requests of the block that the bytes spell as verdicts that refuse all, in order, or the first fault of bytes that spell none:
/// who checks the signatures sets `accepted` of each that is good. Costs what `requests` does, and copies the bytes of each request.
pub fn list_verdicts(alloc: Global, bytes: &[u8]) -> Result<ListedVerdicts, BlockFault>
    ensures listed { IfOk result (λ listed. AreVerdicts refused bytes.now listed.pool listed.verdicts) }
    ensures fault { IfErr result (λ fault. (fault ≡ Memory) ⊎ HasFault bytes.now fault) }
{
    let requests = requests(alloc, bytes)?;
    let listed = list_each(alloc, requests.as_slice())?;
    Ok(listed)
}
