ghost use Rattle.std.specs.Prelude.{◌≡◌, ◌<◌, ◌⊎◌, ℕ, List, slice_index};
ghost use Rattle.block.specs.declared.block.Block.{Block};
ghost use Rattle.block.specs.declared.fault.BlockFault.{BlockFault};
ghost use Rattle.block.specs.Limits.{max_txs};
ghost use Rattle.block.specs.Grammar.{Spells};
ghost use Rattle.block.specs.Faults.{HasFault};
ghost use Rattle.block.specs.first_version.Grammar as first;
ghost use Rattle.block.specs.first_version.Faults as first_faults;

use crate::block::MAX_TXS;

/// Proved (the function does nothing at run time): the limits of this code are those that the definitions name.
pub fn limits_are_the_definitions()
    ensures { MAX_TXS ≡ max_txs }
{}

/// Proved (the function does nothing at run time): no two blocks share an encoding, no block has two, no bytes have two
/// faults, and each byte string has a block or a fault, and not both.
pub fn one_reading()
    ensures one_block { (bytes : List ℕ) (a b : Block) → Spells bytes a → Spells bytes b → a ≡ b }
    ensures one_spelling { (x y : List ℕ) (b : Block) → Spells x b → Spells y b → x ≡ y }
    ensures one_fault { (bytes : List ℕ) (f g : BlockFault) → HasFault bytes f → HasFault bytes g → f ≡ g }
    ensures block_or_fault { (bytes : List ℕ) (b : Block) (f : BlockFault) → Spells bytes b → HasFault bytes f → ⊥ }
    ensures some_reading { (bytes : List ℕ) → ((i : ℕ) → slice_index bytes i < 256) → ((b : Block) × Spells bytes b) ⊎ ((f : BlockFault) × HasFault bytes f) }
{}

/// Proved of the grammar of version 1, as it was when there was no other (the function does nothing at run time): no
/// two blocks share an encoding, no block has two, no bytes have two faults, and each byte string has a block or a
/// fault, and not both.
pub fn one_first_version_reading()
    ensures one_block { (bytes : List ℕ) (a b : first.Block) → first.Spells bytes a → first.Spells bytes b → a ≡ b }
    ensures one_spelling { (x y : List ℕ) (b : first.Block) → first.Spells x b → first.Spells y b → x ≡ y }
    ensures one_fault { (bytes : List ℕ) (f g : BlockFault) → first_faults.HasFault bytes f → first_faults.HasFault bytes g → f ≡ g }
    ensures block_or_fault { (bytes : List ℕ) (b : first.Block) (f : BlockFault) → first.Spells bytes b → first_faults.HasFault bytes f → ⊥ }
    ensures some_reading { (bytes : List ℕ) → ((i : ℕ) → slice_index bytes i < 256)
        → ((b : first.Block) × first.Spells bytes b) ⊎ ((f : BlockFault) × first_faults.HasFault bytes f) }
{}
