ghost use Rattle.std.specs.Prelude.{◌≡◌, ◌≤◌, ℕ, List, length, map, None};
ghost use Rattle.std.specs.List.{AllByRecursion};
ghost use Rattle.hex.specs.Hex.{IsBytes};
ghost use Rattle.transaction.specs.Limits.{max_tx_bytes};
ghost use Rattle.transaction.specs.declared.block_version.BlockVersion.{BlockVersion};
ghost use Rattle.block.specs.Limits.{max_txs};
ghost use Rattle.key_book.specs.Entry as book;
ghost use Rattle.scripts.specs.RawLines.{raw_lines};
ghost use Rattle.scripts.specs.Script.{script_of};
ghost use Rattle.scripts.specs.declared.script.Item.TheVariants.{Raw};
ghost use Rattle.scripts.specs.Limits.{max_list, max_nonce_bytes, max_value_bytes, max_policy_bytes};
ghost use Rattle.scripts.specs.Numbers.{max_digits};

use crate::namespace::MAX_LIST;
use crate::numbers::MAX_DIGITS;
use crate::parts::{MAX_NONCE, MAX_POLICY, MAX_VALUE};

/// A law, and no work: the limits of this code are those that the definitions name.
pub fn limits_are_the_definitions()
    ensures list { MAX_LIST ≡ max_list }
    ensures nonce { MAX_NONCE ≡ max_nonce_bytes }
    ensures value { MAX_VALUE ≡ max_value_bytes }
    ensures policy { MAX_POLICY ≡ max_policy_bytes }
    ensures digits { MAX_DIGITS ≡ max_digits }
{}

/// A law, and no work: a script with one line `raw HEX`, in lower case, for each of some strings of bytes says these, in
/// a block of any version and whoever can sign; they are as many at most as a block may have, each as long at most as it
/// may be.
pub fn raw_lines_are_read()
    ensures { (version : BlockVersion) (keys : List book.Entry) (txs : List (List ℕ)) → AllByRecursion IsBytes txs → length txs ≤ max_txs → AllByRecursion (λ tx. length tx ≤ max_tx_bytes) txs → script_of version keys (raw_lines txs) ≡ record { items = map Raw txs; fault = None } }
{}
