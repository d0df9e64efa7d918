ghost use Rattle.std.specs.Prelude.{◌≡◌, ◌≤◌, ℕ, true, List, Some, Result, Err};
ghost use Rattle.std.specs.List.{AllByRecursion};
ghost use Rattle.policy_eval.specs.Accepts.{Accepts};
ghost use Rattle.rules.specs.declared.answer.Accepted.{Accepted};
ghost use Rattle.rules.specs.declared.answer.Refused as rules;
ghost use Rattle.rules.specs.Answers.{Reply};
ghost use Rattle.rules.specs.World.{World};
ghost use Rattle.commit.specs.declared.not_committed.NotCommitted.{NotCommitted};
ghost use Rattle.commit.specs.declared.not_committed.NotCommitted.TheVariants.{Refused, Stopped};
ghost use Rattle.theorem.specs.Promise.{Shown, Submits, Runs, HadMemory, Queries, CatchesUp, ledger_at};

/// Proved: out of memory aside, what a committer has shown and the bytes submitted determine its answers and what it
/// shows next.
pub fn committers_have_one_answer()
    ensures submit { (accepts : Accepts) (old a b : Shown) (bytes : List ℕ) (x y : Result Accepted NotCommitted)
        → Submits accepts old bytes x a → Submits accepts old bytes y b → HadMemory x → HadMemory y → (x ≡ y) × (a ≡ b) }
    ensures run { (accepts : Accepts) (old a b : Shown) (blocks : List (List ℕ)) (xs ys : List (Result Accepted NotCommitted))
        → Runs accepts old blocks xs a → Runs accepts old blocks ys b → AllByRecursion HadMemory xs → AllByRecursion HadMemory ys → (xs ≡ ys) × (a ≡ b) }
{
    rules::one_step();
}

/// Proved: if bytes are not accepted, no ledger is shown. A refusal changes nothing at all, and
/// neither does a committer that has stopped.
pub fn refusals_show_nothing()
    ensures refused { (accepts : Accepts) (old new : Shown) (bytes : List ℕ) (refused : rules.Refused)
        → Submits accepts old bytes (Err (Refused refused)) new → new ≡ old }
    ensures failed { (accepts : Accepts) (old new : Shown) (bytes : List ℕ) (e : NotCommitted)
        → Submits accepts old bytes (Err e) new → new.ledgers ≡ old.ledgers }
    ensures stopped { (accepts : Accepts) (old new : Shown) (bytes : List ℕ) (x : Result Accepted NotCommitted)
        → old.stopped ≡ true → Submits accepts old bytes x new → (x ≡ Err Stopped) × (new ≡ old) }
{}

/// Proved: a ledger that was shown at a height stays the one of that height, for all that is submitted later.
pub fn shown_ledgers_stay()
    ensures submit { (accepts : Accepts) (old new : Shown) (bytes : List ℕ) (x : Result Accepted NotCommitted) (height : ℕ) (l : World)
        → Submits accepts old bytes x new → ledger_at old height ≡ Some l → ledger_at new height ≡ Some l }
    ensures run { (accepts : Accepts) (old new : Shown) (blocks : List (List ℕ)) (xs : List (Result Accepted NotCommitted)) (height : ℕ) (l : World)
        → Runs accepts old blocks xs new → ledger_at old height ≡ Some l → ledger_at new height ≡ Some l }
{}

/// Proved: no answer of a handle is of a lower height than one before it, or than a receipt that it was passed. Two
/// answers of one height, by any handles, are of one ledger; also of different times, as `shown_ledgers_stay`.
pub fn no_answer_is_earlier<A, B>()
    ensures query { (s t : Shown) (first second third : ℕ) (question : World → A) (next : World → B) (r : Reply A) (n : Reply B)
        → Queries s first question r second → Queries t second next n third → r.height ≤ n.height }
    ensures receipt { (s : Shown) (first height second third : ℕ) (question : World → A) (r : Reply A)
        → CatchesUp first height second → Queries s second question r third → height ≤ r.height }
    ensures one_ledger { (s : Shown) (a b c d : ℕ) (question : World → A) (other : World → B) (r : Reply A) (n : Reply B)
        (q : Queries s a question r b) (o : Queries s c other n d) → r.height ≡ n.height → q.ledger ≡ o.ledger }
{}
