ghost use Rattle.std.specs.Prelude.{◌≡◌, ◌≢◌, ◌<◌, ◌↔◌, ◌++◌, ◌∷◌, ℕ, true, false, List, [], length, Option, Some, None, Result, Err, slice_index};
ghost use Rattle.std.specs.FinMap.{contains_key, insert};
ghost use Rattle.block.specs.declared.fault.BlockFault.{BlockFault};
ghost use Rattle.block.specs.declared.fault.BlockFault.TheVariants as block_fault;
ghost use Rattle.block.specs.Faults.{HasFault};
ghost use Rattle.policy.specs.Meaning.{policy_of};
ghost use Rattle.policy.specs.Tree.{Tree};
ghost use Rattle.transaction.specs.declared.item.Item.{Item};
ghost use Rattle.transaction.specs.declared.item.Item.TheVariants as item;
ghost use Rattle.transaction.specs.declared.transaction.Tx.{Tx};
ghost use Rattle.transaction.specs.declared.update.Update.{Update};
ghost use Rattle.policy_eval.specs.Accepts.{Accepts};
ghost use Rattle.channel.specs.Configuration.{Configuration};
ghost use Rattle.rules.specs.declared.answer.Accepted.{Accepted};
ghost use Rattle.rules.specs.declared.answer.Refused.{Refused};
ghost use Rattle.rules.specs.declared.answer.Refused.TheVariants.{Memory};
ghost use Rattle.rules.specs.declared.flag.Flag.TheVariants.{Valid, BadPayload};
ghost use Rattle.rules.specs.Candidate.{origin_of};
ghost use Rattle.rules.specs.Effect.{written_keys};
ghost use Rattle.rules.specs.State.{StateKey, is_among};
ghost use Rattle.rules.specs.World.{World};
ghost use Rattle.theorem.specs.Serial.{Setting, SoFar, first_failed, all_pass, origin_tests, tests_before_reads, tests, taken, after_items};
ghost use Rattle.theorem.specs.Step.{Takes};

/// Proved: an item is valid exactly if it passes all tests. Its id is new then. A valid transaction writes no key whose
/// policy the block has written, and a valid update is the only item of its block.
pub fn valid_items_pass_all_tests()
    ensures valid { (s : Setting) (now : SoFar) (i : Item) → (first_failed (tests s now i) ≡ Valid) ↔ (all_pass (tests s now i) ≡ true) }
    ensures new_id { (s : Setting) (now : SoFar) (i : Item) → first_failed (tests s now i) ≡ Valid → contains_key now.first_uses (origin_of i).id ≡ false }
    ensures no_closed_key { (s : Setting) (now : SoFar) (tx : Tx) (k : StateKey)
        → first_failed (tests s now (item.Tx tx)) ≡ Valid → is_among k (written_keys tx) ≡ true → is_among k now.policy_written ≡ false }
    ensures alone { (s : Setting) (now : SoFar) (u : Update) → first_failed (tests s now (item.Update u)) ≡ Valid → s.alone ≡ true }
{}

/// Proved: after an invalid item state, history and policies are what they were. Its id is used only if its origin is
/// not at fault, and it closes keys only if it passes all tests before the reads. Bytes that encode no item leave a
/// flag and nothing else.
pub fn invalid_items_change_nothing()
    ensures state { (s : Setting) (place : ℕ) (now : SoFar) (i : Item) → first_failed (tests s now i) ≢ Valid → (taken s place now (Some i)).state ≡ now.state }
    ensures history { (s : Setting) (place : ℕ) (now : SoFar) (i : Item) → first_failed (tests s now i) ≢ Valid → (taken s place now (Some i)).history ≡ now.history }
    ensures policies { (s : Setting) (place : ℕ) (now : SoFar) (i : Item) → first_failed (tests s now i) ≢ Valid → (taken s place now (Some i)).policies ≡ now.policies }
    ensures replaced { (s : Setting) (place : ℕ) (now : SoFar) (i : Item) → first_failed (tests s now i) ≢ Valid → (taken s place now (Some i)).replaced ≡ now.replaced }
    ensures ids { (s : Setting) (place : ℕ) (now : SoFar) (i : Item) → all_pass (origin_tests s i) ≡ false → (taken s place now (Some i)).first_uses ≡ now.first_uses }
    ensures keys { (s : Setting) (place : ℕ) (now : SoFar) (i : Item) → all_pass (tests_before_reads s now i) ≡ false → (taken s place now (Some i)).policy_written ≡ now.policy_written }
    ensures bytes { (s : Setting) (place : ℕ) (now : SoFar) → taken s place now None ≡ record now { flags = now.flags ++ BadPayload ∷ [] } }
{}

/// Proved: after a block whose only item is a valid update, its chaincode has the update's policy, and all others have
/// theirs. After any other block each chaincode has the policy that it had.
pub fn policies_after_a_block()
    ensures update { (channel : Configuration) (accepts : Accepts) (w : World) (u : Update) (policy : Tree)
        → policy_of u.policy ≡ Some policy → (after_items channel accepts w (Some (item.Update u) ∷ [])).flags ≡ Valid ∷ []
        → (after_items channel accepts w (Some (item.Update u) ∷ [])).policies ≡ insert w.definitions u.namespace policy }
    ensures invalid { (channel : Configuration) (accepts : Accepts) (w : World) (i : Option Item)
        → (after_items channel accepts w (i ∷ [])).flags ≢ Valid ∷ [] → (after_items channel accepts w (i ∷ [])).policies ≡ w.definitions }
    ensures transaction { (channel : Configuration) (accepts : Accepts) (w : World) (tx : Tx)
        → (after_items channel accepts w (Some (item.Tx tx) ∷ [])).policies ≡ w.definitions }
    ensures several { (channel : Configuration) (accepts : Accepts) (w : World) (items : List (Option Item))
        → length items ≢ 1 → (after_items channel accepts w items).policies ≡ w.definitions }
{}

/// Proved: each item of a block has one flag.
pub fn each_item_has_one_flag()
    ensures { (channel : Configuration) (accepts : Accepts) (w : World) (items : List (Option Item))
        → length (after_items channel accepts w items).flags ≡ length items }
{}

/// Proved: out of memory aside, a ledger and bytes have one answer and one next ledger.
pub fn one_answer()
    ensures exists { (channel : Configuration) (accepts : Accepts) (old : World) (bytes : List ℕ) → ((i : ℕ) → slice_index bytes i < 256)
        → (x : Result Accepted Refused) × (new : World) × Takes channel accepts old bytes x new × (x ≢ Err Memory) }
    ensures one { (channel : Configuration) (accepts : Accepts) (old a b : World) (bytes : List ℕ) (x y : Result Accepted Refused)
        → Takes channel accepts old bytes x a → Takes channel accepts old bytes y b → x ≢ Err Memory → y ≢ Err Memory → (x ≡ y) × (a ≡ b) }
{
    rules::one_step();
}

/// Proved: if bytes are refused, also if memory runs out, the ledger is what it was.
pub fn refused_bytes_change_nothing()
    ensures { (channel : Configuration) (accepts : Accepts) (old new : World) (bytes : List ℕ) (refused : Refused)
        → Takes channel accepts old bytes (Err refused) new → new ≡ old }
{}

/// Proved: a fault of bytes is never `Memory`, so that `Malformed` always says what is wrong with them.
pub fn faults_are_of_bytes()
    ensures { (bytes : List ℕ) (fault : BlockFault) → HasFault bytes fault → fault ≢ block_fault.Memory }
{}
