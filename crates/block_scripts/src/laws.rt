ghost use Rattle.std.specs.Prelude.{◌≡◌, ℕ, List, Option, Ok};
ghost use Rattle.block.specs.Grammar.{Spells};
ghost use Rattle.block.specs.declared.block.Block.{Block};
ghost use Rattle.block.specs.declared.block.Header.{Header};
ghost use Rattle.key_book.specs.Entry.{Entry};
ghost use Rattle.drafts.specs.DraftBlock.{drafted, header_after};
ghost use Rattle.block_scripts.specs.Shown.{Shows};

/// Proved (the function does nothing at run time): a block that has the header which belongs after another is drafted
/// again after that one, to the byte, from what it is shown as.
pub fn shown_blocks_are_drafted_again()
    ensures { (keys : List Entry) (channel text bytes : List ℕ) (block : Block) (previous : Option Header) → Spells bytes block → block.header ≡ header_after previous block.txs → Shows keys channel block.version block.txs text → drafted keys channel block.version previous text ≡ Ok bytes }
{}
