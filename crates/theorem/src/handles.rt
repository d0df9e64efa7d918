ghost use Rattle.std.specs.Prelude.{◌≡◌, ◌≤◌, ℕ, Bool, List, Some, Ok, MatchBool};
ghost use mathlib.Core.List.{IsPrefix};
ghost use Rattle.policy_eval.specs.Accepts.{Accepts};
ghost use Rattle.rules.specs.World.{empty_world};
ghost use Rattle.query.specs.declared.receipt.Receipt.{Receipt};
ghost use Rattle.query.specs.Published.{Watch, GoesOn, Learns, watched_world};
ghost use Rattle.commit.specs.Committing as committing;
ghost use Rattle.commit.specs.Committing.{Committing};
ghost use Rattle.theorem.specs.Promise.{ledger_at, CatchesUp};
ghost use Rattle.theorem.specs.ShownBy.{IsHandleOf, shown_by, known_by};

/// Proved: after a query a handle knows of no lower height than before, and after it was passed a receipt also of none
/// lower than the receipt's.
pub fn handles_know_more_and_more()
    ensures query { (old new : Watch) → GoesOn old new → known_by old ≤ known_by new }
    ensures learn { (accepts : Accepts) (before after : Committing) (bytes : List ℕ) (r : Receipt) (old new : Watch)
        → committing.Submits accepts before bytes (Ok r) after → old.base ≡ empty_world after.channel.definitions → Learns old r.front.list new
        → CatchesUp (known_by old) r.height (known_by new) }
{}

/// Proved: the ledger that a handle answers from is the one that its committer has shown at that height, if what the
/// handle has read begins what the committer has published. `QueryHandle::knows` shows that of a receipt's committer,
/// whichever it returns, for a handle of no greater height: of what both know one begins the other.
pub fn handles_see_what_was_shown()
    ensures shown { (c : Committing) (h : Watch) → IsHandleOf c h → ledger_at (shown_by c) (known_by h) ≡ Some (watched_world h) }
    ensures knows { (accepts : Accepts) (before after : Committing) (bytes : List ℕ) (r : Receipt) (h : Watch) (answer : Bool)
        → committing.Submits accepts before bytes (Ok r) after → h.base ≡ empty_world after.channel.definitions → known_by h ≤ r.height
        → MatchBool answer (IsPrefix r.front.list h.list) (IsPrefix h.list r.front.list) → IsHandleOf after h }
{}
