ghost use Rattle.std.specs.Prelude.{◌≡◌, ◌+◌, List, ◌++◌, Bool, length};
ghost use Rattle.std.specs.List.{sum_by, count_by};
ghost use Rattle.reasons.specs.declared.reason.Reason.{Reason};
ghost use Rattle.rules.specs.declared.flag.Flag.{Flag};
ghost use Rattle.rules.specs.declared.flag.Flag.TheVariants.{EndorsementPolicyFailure, MvccReadConflict, PhantomReadConflict};
ghost use Rattle.rules.specs.State.{StateKey, is_same_key};
ghost use Rattle.conflicts.specs.declared.conflict.Conflict.{Conflict};
ghost use Rattle.conflicts.specs.Conflict.{conflicts_of};
ghost use Rattle.conflicts.specs.FlagCounts.{with_flag};
ghost use Rattle.conflicts.specs.KeyCounts.{counts_of, total_of};
ghost use Rattle.conflicts.specs.Lack.{lacks_of};
ghost use Rattle.conflicts.specs.Laws.{all_flags, together, total_where};
ghost use Rattle.conflicts.specs.Ranking.{Line, IsRanking};

/// Proved (the function does nothing at run time): each transaction is counted under one flag, so that the flags'
/// counts add up to the transactions.
pub fn flags_add_up()
    ensures { (reasons : List Reason) → sum_by (λ flag. with_flag flag reasons) all_flags ≡ length reasons }
{}

/// Proved (the function does nothing at run time): what is counted of one chain after another is the sum of what is
/// counted of each.
pub fn chains_add_up()
    ensures flags { (first second : List Reason) (flag : Flag) → with_flag flag (first ++ second) ≡ with_flag flag first + with_flag flag second }
    ensures keys { (first second : List Reason) (k : StateKey)
        → counts_of k (conflicts_of (first ++ second)) ≡ together (counts_of k (conflicts_of first)) (counts_of k (conflicts_of second)) }
{}

/// Proved (the function does nothing at run time): each conflict counts once at its key, under one kind, and nowhere
/// else.
pub fn conflicts_count_once()
    ensures { (k : StateKey) (conflicts : List Conflict) → total_of (counts_of k conflicts) ≡ count_by (λ c. is_same_key c.key k) conflicts }
{}

/// Proved (the function does nothing at run time): a transaction that is missing endorsements, or of which a read or a
/// range doesn't hold, is counted once, at a key or at a chaincode, and no other is counted at either.
pub fn transactions_count_once()
    ensures { (reasons : List Reason)
        → length (conflicts_of reasons) + length (lacks_of reasons)
        ≡ with_flag EndorsementPolicyFailure reasons + with_flag MvccReadConflict reasons + with_flag PhantomReadConflict reasons }
{}

/// Proved (the function does nothing at run time): the lines of a ranking whose keys pass a test, as those of one
/// chaincode, have together what was counted at such keys; so all of them have each conflict once.
pub fn lines_add_up()
    ensures { (conflicts : List Conflict) (lines : List Line) (test : StateKey → Bool) → IsRanking conflicts lines
        → total_where test lines ≡ count_by (λ c. test c.key) conflicts }
{}

/// Proved (the function does nothing at run time): conflicts have one ranking.
pub fn one_ranking()
    ensures { (conflicts : List Conflict) (first second : List Line) → IsRanking conflicts first → IsRanking conflicts second → first ≡ second }
{}
