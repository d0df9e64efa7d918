ghost use Rattle.std.specs.Prelude.{◌≡◌, ◌≢◌, ◌↔◌, ◌++◌, ℕ, List, Bool, AllPairs};
ghost use Rattle.std.specs.List.{Contains};
ghost use Rattle.transaction.specs.declared.identity.Identity.{Identity};
ghost use Rattle.transaction.specs.declared.transaction.Tx.{Tx};
ghost use Rattle.transaction.specs.declared.update.Update.{Update};
ghost use Rattle.policy.specs.Tree.{Tree, Trees, gate};
ghost use Rattle.policy_eval.specs.Accepts.{Accepts};
ghost use Rattle.policy_eval.specs.Signers.{signers_of, HasSigned};
ghost use Rattle.policy_eval.specs.UpdateSigners.{update_signers_of, HasSignedUpdate};
ghost use Rattle.policy_eval.specs.Evaluation.{Answers, Satisfied};
ghost use Rattle.policy_eval.specs.Evaluating.{evaluate};
ghost use Rattle.policy_eval.specs.Flat.{ArePrincipals};

/// Laws of signers, and no work: they are the endorsers with an accepted signature, and no two are one.
pub fn each_signer_once()
    ensures signed { (accepts : Accepts) (tx : Tx) (identity : Identity) → Contains (signers_of accepts tx) identity ↔ HasSigned accepts tx identity }
    ensures distinct { (accepts : Accepts) (tx : Tx) → AllPairs (λ (a b : Identity). a ≢ b) (signers_of accepts tx) }
{}

/// Laws of an update's signers, and no work: they are its endorsers with an accepted signature, and no two are one.
pub fn each_update_signer_once()
    ensures signed { (accepts : Accepts) (update : Update) (identity : Identity) → Contains (update_signers_of accepts update) identity ↔ HasSignedUpdate accepts update identity }
    ensures distinct { (accepts : Accepts) (update : Update) → AllPairs (λ (a b : Identity). a ≢ b) (update_signers_of accepts update) }
{}

/// Laws of evaluation, and no work: from one tree, one list of signers and one set of used ones there is one
/// answer and one set after, which are those of the function.
pub fn one_evaluation()
    ensures one_answer { (tree : Tree) (signers : List Identity) (used : List Bool) (a b : Bool) (u v : List Bool) → Answers tree signers used a u → Answers tree signers used b v → (a ≡ b) × (u ≡ v) }
    ensures function { (tree : Tree) (signers : List Identity) (used : List Bool) → Answers tree signers used (evaluate tree signers used).0 (evaluate tree signers used).1 }
{}

/// A law of gates whose members are principals alone, and no work: where one is satisfied, it stays so when
/// more signers come behind. Gates with gates in them have no such law, for an inner gate may take a signer
/// that it doesn't need from one behind it that does.
pub fn flat_gates_are_monotone()
    ensures { (threshold : ℕ) (members : Trees) (signers others : List Identity) → ArePrincipals members → Satisfied (gate threshold members) signers → Satisfied (gate threshold members) (signers ++ others) }
{}
