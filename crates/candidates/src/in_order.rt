//! Lists of keys in their order.
ghost use Rattle.std.specs.Prelude.{◌≡◌};
ghost use Rattle.std.specs.List.Sorted.{IsStrictlySortedBy};
ghost use Rattle.rules.specs.State as state;
ghost use Rattle.rules.specs.State.{key_cmp, is_among};
ghost use Rattle.candidates.specs.Written.{keys_in_order};

use state_keys::StateKey;

/// The keys in their order, each once. Takes no memory; n log n comparisons, and one pass.
pub fn keys_in_order<'a>(mut keys: Vec<StateKey<'a>>) -> Vec<StateKey<'a>>
    ensures value { result.items ≡ keys_in_order keys.entry.items }
    ensures rising { IsStrictlySortedBy key_cmp result.items }
    ensures members { (k : state.StateKey) → is_among k result.items ≡ is_among k keys.entry.items }
{
    keys.sort_unstable();
    keys.dedup();
    keys
}
