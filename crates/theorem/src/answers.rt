ghost use Rattle.std.specs.Prelude.{◌≡◌, ℕ, List, Option};
ghost use Rattle.rules.specs.declared.committed.CommittedBlock.{CommittedBlock};
ghost use Rattle.rules.specs.declared.first_use.FirstUse.{FirstUse};
ghost use Rattle.rules.specs.declared.history.HistoryEntry.{HistoryEntry};
ghost use Rattle.rules.specs.declared.row.Row.{Row};
ghost use Rattle.rules.specs.Answers.{Reply, RangeAnswer, reply, row_answer, range_answer, history_answer, first_use_answer, definition_answer, block_answer, height_answer};
ghost use Rattle.rules.specs.State.{StateKey};
ghost use Rattle.query.specs.Published.{Watch, GoesOn, watched_world};
ghost use Rattle.commit.specs.Committing.{Committing};
ghost use Rattle.theorem.specs.Promise.{Queries};
ghost use Rattle.theorem.specs.ShownBy.{IsHandleOf, shown_by, known_by};

/// Proved: each answer of a handle, as its queries promise it, is that of one ledger that was shown, and of no lower
/// height than the handle knew of.
pub fn answers_are_of_shown_ledgers()
    ensures row { (c : Committing) (old new : Watch) (k : StateKey) (r : Reply (Option Row))
        → GoesOn old new → IsHandleOf c new → r ≡ reply (watched_world new) (row_answer (watched_world new) k)
        → Queries (shown_by c) (known_by old) (λ w. row_answer w k) r (known_by new) }
    ensures range { (c : Committing) (old new : Watch) (namespace start end : List ℕ) (limit : ℕ) (r : Reply RangeAnswer)
        → GoesOn old new → IsHandleOf c new → r ≡ reply (watched_world new) (range_answer (watched_world new) namespace start end limit)
        → Queries (shown_by c) (known_by old) (λ w. range_answer w namespace start end limit) r (known_by new) }
    ensures history { (c : Committing) (old new : Watch) (k : StateKey) (r : Reply (List HistoryEntry))
        → GoesOn old new → IsHandleOf c new → r ≡ reply (watched_world new) (history_answer (watched_world new) k)
        → Queries (shown_by c) (known_by old) (λ w. history_answer w k) r (known_by new) }
    ensures first_use { (c : Committing) (old new : Watch) (id : List ℕ) (r : Reply (Option FirstUse))
        → GoesOn old new → IsHandleOf c new → r ≡ reply (watched_world new) (first_use_answer (watched_world new) id)
        → Queries (shown_by c) (known_by old) (λ w. first_use_answer w id) r (known_by new) }
    ensures definition { (c : Committing) (old new : Watch) (chaincode : List ℕ) (r : Reply (Option (List ℕ)))
        → GoesOn old new → IsHandleOf c new → r ≡ reply (watched_world new) (definition_answer (watched_world new) chaincode)
        → Queries (shown_by c) (known_by old) (λ w. definition_answer w chaincode) r (known_by new) }
    ensures block { (c : Committing) (old new : Watch) (n : ℕ) (r : Reply (Option CommittedBlock))
        → GoesOn old new → IsHandleOf c new → r ≡ reply (watched_world new) (block_answer (watched_world new) n)
        → Queries (shown_by c) (known_by old) (λ w. block_answer w n) r (known_by new) }
    ensures height { (c : Committing) (old new : Watch) (r : Reply ℕ)
        → GoesOn old new → IsHandleOf c new → r ≡ reply (watched_world new) (height_answer (watched_world new))
        → Queries (shown_by c) (known_by old) (λ w. height_answer w) r (known_by new) }
{}
