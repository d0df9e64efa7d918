ghost use Rattle.ahead.specs.Made.{IsMade};

use next_block::Prepared;
use values::Bytes;

/// A block that was taken in ahead, for ledgers of the channel of this text. It lends from the block's bytes.
#[derive(Drop)]
pub struct PreparedBlock<'b> {
    pub text: Bytes,
    pub block: Prepared<'b>,
    ghost made: { ∥ IsMade text block ∥₁ },
}
