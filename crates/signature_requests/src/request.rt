use crate::message::Message;
use transaction::Identity;
use values::Slice;

/// What a verifier may be asked: whether the signature is one of the identity over the message. Lent from a block's bytes.
#[derive(Drop)]
pub struct Request<'a> {
    pub identity: Identity<'a>,
    pub message: Message<'a>,
    pub signature: Slice<'a>,
}
