//! What the bodies of transactions and of updates of definitions begin with, both ways.

ghost use Rattle.std.specs.Prelude.{◌≡◌, ◌++◌, length};
ghost use Rattle.transaction.specs.Limits.{id_bytes};
ghost use Rattle.transaction.specs.Combined.{bytes_at};
ghost use Rattle.transaction.specs.Reading.{Gives};
ghost use Rattle.transaction.specs.Openings.{Opening, opening_at, opening_bytes, opening_fields, IsOpening};
ghost use Rattle.transaction.specs.Putting.{Puts};

use crate::fault::{EncodeFault, TxFault};
use crate::field::{read_bytes8, read_name};
use crate::identity::Identity;
use crate::limits::ID_BYTES;
use crate::put::put_bytes8;
use crate::reader::read_identity;
use crate::transaction::TxId;
use crate::writer::{put_identity, put_name};
use values::{NameRef, Slice};

#[derive(Drop)]
pub(crate) struct OpeningFields<'a> {
    pub(crate) channel: NameRef<'a>,
    pub(crate) id: TxId,
    pub(crate) creator: Identity<'a>,
    pub(crate) nonce: Slice<'a>,
}

fn read_id(bytes: &[u8]) -> Result<(TxId, &[u8]), TxFault>
    ensures { Gives (λ x. (x.0, x.1.now)) result (bytes_at id_bytes bytes.now) }
{
    if bytes.len() < ID_BYTES {
        return Err(TxFault::Form);
    }
    let (front, rest) = bytes.split_at(ID_BYTES);
    let mut id = [0; ID_BYTES];
    id.copy_from_slice(front);
    Ok((id, rest))
}

#[tactic(auto, unfolding(crate::specs::Openings::opening_at))]
pub(crate) fn read_opening(bytes: &[u8]) -> Result<(OpeningFields<'_>, &[u8]), TxFault>
    ensures { Gives (λ x. (opening_fields x.0, x.1.now)) result (opening_at bytes.now) }
{
    let (channel, rest) = read_name(bytes)?;
    let (id, rest) = read_id(rest)?;
    let (creator, rest) = read_identity(rest)?;
    let (nonce, rest) = read_bytes8(rest)?;
    let opening = OpeningFields {
        channel,
        id,
        creator,
        nonce,
    };
    Ok((opening, rest))
}

fn put_id(out: &mut Vec<u8>, id: &TxId) -> Result<(), EncodeFault>
    ensures { Puts result out.old.items out.new.items id.now (length id.now ≡ id_bytes) }
{
    out.extend_from_slice(id)?;
    Ok(())
}

pub(crate) fn put_opening(
    out: &mut Vec<u8>,
    channel: &NameRef<'_>,
    id: &TxId,
    creator: &Identity<'_>,
    nonce: &Slice<'_>,
) -> Result<(), EncodeFault>
    ensures { let opening : Opening = (channel.now, (id.now, (creator.now, nonce.now))) in Puts result out.old.items out.new.items (opening_bytes opening) (IsOpening opening) }
{
    put_name(out, channel)?;
    put_id(out, id)?;
    put_identity(out, creator)?;
    put_bytes8(out, nonce.as_slice())?;
    Ok(())
}
