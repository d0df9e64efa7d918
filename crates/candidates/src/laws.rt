ghost use Rattle.std.specs.Prelude.{◌≡◌, List};
ghost use Rattle.std.specs.List.Sorted.{IsStrictlySortedBy};
ghost use Rattle.rules.specs.State as state;
ghost use Rattle.rules.specs.State.{key_cmp, is_among};
ghost use Rattle.candidates.specs.Written.{keys_in_order};

/// Proved (the function does nothing at run time): keys in their order strictly rise and are the same keys, and no
/// other list is so.
pub fn keys_have_one_order()
    ensures rising { (ks : List state.StateKey) → IsStrictlySortedBy key_cmp (keys_in_order ks) }
    ensures members { (k : state.StateKey) (ks : List state.StateKey) → is_among k (keys_in_order ks) ≡ is_among k ks }
    ensures only { (ks sorted : List state.StateKey) → IsStrictlySortedBy key_cmp sorted → ((k : state.StateKey) → is_among k sorted ≡ is_among k ks) → sorted ≡ keys_in_order ks }
{}
