ghost use Rattle.std.specs.List.{Contains};
ghost use Rattle.std.specs.Prelude.{◌≡◌, ◌<◌, ℕ, List, length, map, false, Option, Some, true, None, IfSome, IsSome, is_some};
ghost use Rattle.transaction.specs.declared.item.Item.{Item};
ghost use Rattle.transaction.specs.declared.identity.Identity.{Identity};
ghost use Rattle.transaction.specs.declared.transaction.Endorsement.{Endorsement};
ghost use Rattle.transaction.specs.declared.transaction.Tx.{Tx};
ghost use Rattle.transaction.specs.declared.update.Update.{Update};
ghost use Rattle.policy.specs.declared.tree.Principal.{Principal};
ghost use Rattle.policy.specs.Tree.{Tree};
ghost use Rattle.policy.specs.Spelled.{IsSpelled};
ghost use Rattle.policy_eval.specs.Accepts.{Accepts};
ghost use Rattle.policy_eval.specs.Evaluating.{is_satisfied};
ghost use Rattle.policy_eval.specs.Evaluation.{none_used};
ghost use Rattle.policy_eval.specs.Signers.{signers_of, HasSigned};
ghost use Rattle.policy_eval.specs.UpdateSigners.{update_signers_of, HasSignedUpdate};
ghost use Rattle.channel.specs.Configuration.{Configuration};
ghost use Rattle.rules.specs.declared.flag.Flag.{Flag};
ghost use Rattle.rules.specs.State.{StateKey, version_in, is_among};
ghost use Rattle.rules.specs.Job.{Job};
ghost use Rattle.rules.specs.World.{World, height_of};
ghost use Rattle.rules.specs.Fold.{running, flags};
ghost use Rattle.rules.specs.Commit.{job_of};
ghost use Rattle.reasons.specs.declared.endorsement_fault.EndorsementFault.TheVariants.{Touched, Unsatisfied, ChaincodeUnsatisfied};
ghost use Rattle.reasons.specs.declared.id_use.IdUse.TheVariants.{Here};
ghost use Rattle.reasons.specs.declared.policy_owner.PolicyOwner.{PolicyOwner};
ghost use Rattle.reasons.specs.declared.reason.Reason.{Reason};
ghost use Rattle.reasons.specs.declared.reason.Reason.TheVariants.{UsedId, NotEndorsed, InvalidUpdate, ReadConflict, PhantomConflict};
ghost use Rattle.reasons.specs.declared.update_fault.UpdateFault.TheVariants.{AdminUnsatisfied};
ghost use Rattle.reasons.specs.declared.stale_read.StaleRead.{StaleRead};
ghost use Rattle.reasons.specs.declared.phantom_key.PhantomKey.{PhantomKey};
ghost use Rattle.reasons.specs.declared.shortfall.Shortfall.{Shortfall};
ghost use Rattle.reasons.specs.First.{first_below};
ghost use Rattle.reasons.specs.Missing.{Misses};
ghost use Rattle.reasons.specs.Reordered.{IsReordered, AsksWideLast};
ghost use Rattle.reasons.specs.Shortfall.{shortfall_of};
ghost use Rattle.reasons.specs.Endorsement.{touches};
ghost use Rattle.reasons.specs.Reason.{flag_of, IsReason, AreReasons};

/// A law, and no work: each place of a block has one reason, never none or two.
pub fn each_place_has_one_reason()
    ensures some_reason { (channel : Configuration) (accepts : Accepts) (w : World) (items : List (Option Item)) (i : ℕ) → i < length items
        → (reason : Reason) × IsReason channel accepts w items i reason }
    ensures one_reason { (channel : Configuration) (accepts : Accepts) (w : World) (items : List (Option Item)) (i : ℕ) (a b : Reason)
        → IsReason channel accepts w items i a → IsReason channel accepts w items i b → a ≡ b }
{}

/// A law, and no work: a block has one list of reasons, and their flags are those that the block is given.
pub fn reasons_have_the_flags()
    ensures some_list { (channel : Configuration) (accepts : Accepts) (w : World) (items : List (Option Item))
        → (reasons : List Reason) × AreReasons channel accepts w items reasons }
    ensures one_list { (channel : Configuration) (accepts : Accepts) (w : World) (items : List (Option Item)) (reasons others : List Reason)
        → AreReasons channel accepts w items reasons → AreReasons channel accepts w items others → reasons ≡ others }
    ensures flags { (channel : Configuration) (accepts : Accepts) (w : World) (items : List (Option Item)) (reasons : List Reason)
        → AreReasons channel accepts w items reasons → map flag_of reasons ≡ flags (job_of channel accepts w items) }
{}

/// A law, and no work: the signers that a reason names don't satisfy the policy that it names.
pub fn named_policies_are_not_satisfied()
    ensures of_a_key { (channel : Configuration) (accepts : Accepts) (w : World) (items : List (Option Item)) (i : ℕ) (namespace key : List ℕ) (owner : PolicyOwner) (lack : Shortfall)
        → IsReason channel accepts w items i (NotEndorsed (Unsatisfied namespace key owner lack)) → is_satisfied lack.policy lack.signers ≡ false }
    ensures of_the_admin { (channel : Configuration) (accepts : Accepts) (w : World) (items : List (Option Item)) (i : ℕ) (lack : Shortfall)
        → IsReason channel accepts w items i (InvalidUpdate (AdminUnsatisfied lack)) → is_satisfied lack.policy lack.signers ≡ false }
    ensures of_a_chaincode { (channel : Configuration) (accepts : Accepts) (w : World) (items : List (Option Item)) (i : ℕ) (chaincode : List ℕ) (lack : Shortfall)
        → IsReason channel accepts w items i (NotEndorsed (ChaincodeUnsatisfied chaincode lack)) → is_satisfied lack.policy lack.signers ≡ false }
{}

/// Laws of what signers lack, and no work: where they don't satisfy a policy that some text spells, a principal is missing; where
/// they satisfy a policy, none is.
pub fn unsatisfied_policies_miss_a_principal()
    ensures missing { (policy : Tree) (endorsements : List Endorsement) (signers : List Identity) → IsSpelled policy → is_satisfied policy signers ≡ false
        → IsSome (shortfall_of endorsements signers policy).missing }
    ensures satisfied { (policy : Tree) (endorsements : List Endorsement) (signers : List Identity) → is_satisfied policy signers ≡ true
        → (shortfall_of endorsements signers policy).missing ≡ None }
{}

/// Laws of who is missing, and no work: where signers don't satisfy a policy that some text spells, it is the first principal, in the
/// order of the text, of the first member that isn't satisfied with the signers that those before it left; and no other.
pub fn missing_principals_are_the_first()
    ensures missing { (policy : Tree) (endorsements : List Endorsement) (signers : List Identity) → IsSpelled policy → is_satisfied policy signers ≡ false
        → IfSome (shortfall_of endorsements signers policy).missing (Misses policy signers (none_used signers)) }
    ensures only { (policy : Tree) (signers : List Identity) (p q : Principal) → Misses policy signers (none_used signers) p → Misses policy signers (none_used signers) q → p ≡ q }
{
    policy_eval::one_evaluation();
}

/// Laws of who is refused, and no work: the endorsers of a transaction, or of an update, none of whose signatures the verifier accepts.
pub fn refused_endorsers_have_not_signed()
    ensures named { (accepts : Accepts) (tx : Tx) (policy : Tree) (i : Identity) → Contains (shortfall_of tx.endorsements (signers_of accepts tx) policy).refused i
        → ((e : Endorsement) × Contains tx.endorsements e × (e.endorser ≡ i)) × (HasSigned accepts tx i → ⊥) }
    ensures each { (accepts : Accepts) (tx : Tx) (policy : Tree) (e : Endorsement) → Contains tx.endorsements e → (HasSigned accepts tx e.endorser → ⊥)
        → Contains (shortfall_of tx.endorsements (signers_of accepts tx) policy).refused e.endorser }
    ensures named_of_an_update { (accepts : Accepts) (u : Update) (policy : Tree) (i : Identity) → Contains (shortfall_of u.endorsements (update_signers_of accepts u) policy).refused i
        → ((e : Endorsement) × Contains u.endorsements e × (e.endorser ≡ i)) × (HasSignedUpdate accepts u i → ⊥) }
    ensures each_of_an_update { (accepts : Accepts) (u : Update) (policy : Tree) (e : Endorsement) → Contains u.endorsements e → (HasSignedUpdate accepts u e.endorser → ⊥)
        → Contains (shortfall_of u.endorsements (update_signers_of accepts u) policy).refused e.endorser }
{
    policy_eval::each_signer_once();
    policy_eval::each_update_signer_once();
}

/// A law of `another_order`, and no work: there is a policy of the same gates, each with its members in some order that has principals
/// of any role last, and `another_order` says whether the signers satisfy that one.
pub fn another_order_asks_any_role_last()
    ensures { (policy : Tree) (endorsements : List Endorsement) (signers : List Identity)
        → (other : Tree) × IsReordered policy other × AsksWideLast other × ((shortfall_of endorsements signers policy).another_order ≡ is_satisfied other signers) }
{}

/// A law, and no work: where the key of a read that doesn't hold, or of a range that doesn't, is there, its version is that of the
/// writer that the reason names; where it names none, what is there is what was there before the block.
pub fn named_writers_left_what_is_there()
    ensures written { (channel : Configuration) (accepts : Accepts) (w : World) (items : List (Option Item)) (i h : ℕ) (read : StaleRead)
        → IsReason channel accepts w items i (ReadConflict read) → read.writer ≡ Some h → IfSome read.there (λ v. v ≡ record { block = height_of w; tx = h }) }
    ensures unwritten { (channel : Configuration) (accepts : Accepts) (w : World) (items : List (Option Item)) (i : ℕ) (read : StaleRead)
        → IsReason channel accepts w items i (ReadConflict read) → read.writer ≡ None → read.there ≡ version_in w.state (read.namespace, read.key) }
    ensures phantom { (channel : Configuration) (accepts : Accepts) (w : World) (items : List (Option Item)) (i h : ℕ) (x : PhantomKey)
        → IsReason channel accepts w items i (PhantomConflict x) → x.writer ≡ Some h → IfSome x.there (λ v. v ≡ record { block = height_of w; tx = h }) }
    ensures old_phantom { (channel : Configuration) (accepts : Accepts) (w : World) (items : List (Option Item)) (i : ℕ) (x : PhantomKey)
        → IsReason channel accepts w items i (PhantomConflict x) → x.writer ≡ None → IfSome x.there (λ v. version_in w.state (x.range.namespace, x.key) ≡ Some v) }
{}

/// A law, and no work: a key is touched where an earlier candidate of the block touches it.
pub fn touched_keys_have_a_toucher()
    ensures { (j : Job) (k : StateKey) (i : ℕ) → is_among k (running j i).touched ≡ is_some (first_below (touches j k) i) }
{}

/// A law, and no work: each transaction of the block that a reason names stands before the one that it is the reason of.
pub fn named_places_come_before()
    ensures of_a_use { (channel : Configuration) (accepts : Accepts) (w : World) (items : List (Option Item)) (i h : ℕ) (given : Flag)
        → IsReason channel accepts w items i (UsedId (Here h given)) → h < i }
    ensures of_a_policy { (channel : Configuration) (accepts : Accepts) (w : World) (items : List (Option Item)) (i h : ℕ) (namespace key : List ℕ)
        → IsReason channel accepts w items i (NotEndorsed (Touched namespace key h)) → h < i }
    ensures of_a_writer { (channel : Configuration) (accepts : Accepts) (w : World) (items : List (Option Item)) (i h : ℕ) (read : StaleRead)
        → IsReason channel accepts w items i (ReadConflict read) → read.writer ≡ Some h → h < i }
    ensures of_a_phantom { (channel : Configuration) (accepts : Accepts) (w : World) (items : List (Option Item)) (i h : ℕ) (x : PhantomKey)
        → IsReason channel accepts w items i (PhantomConflict x) → x.writer ≡ Some h → h < i }
{}
