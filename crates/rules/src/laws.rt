ghost use Rattle.std.specs.Prelude.{◌≡◌, ◌≢◌, ◌<◌, ◌≤◌, ℕ, suc, Bool, true, false, if◌then◌else◌, List, ◌++◌, length, map, Option, Some, None, IsSome, option_map, Result, Err, slice_index};
ghost use Rattle.std.specs.FinMap.{get, find, is_sorted};
ghost use Rattle.std.specs.Option.{option_or};
ghost use Rattle.values.specs.Hash.{IsHash};
ghost use Rattle.block.specs.declared.block.Block.{Block};
ghost use Rattle.transaction.specs.declared.item.Item.{Item};
ghost use Rattle.transaction.specs.declared.transaction.Version.{Version};
ghost use Rattle.block.specs.Grammar.{Spells};
ghost use Rattle.header_hash.specs.Hashes.{header_hash_of};
ghost use Rattle.policy_eval.specs.Accepts.{Accepts};
ghost use Rattle.channel.specs.Configuration.{Configuration};
ghost use Rattle.rules.specs.declared.answer.Accepted.{Accepted};
ghost use Rattle.rules.specs.declared.answer.Refused.{Refused};
ghost use Rattle.rules.specs.declared.answer.Refused.TheVariants.{Memory};
ghost use Rattle.rules.specs.declared.committed.CommittedBlock.{CommittedBlock};
ghost use Rattle.rules.specs.declared.delta.Delta.{Delta};
ghost use Rattle.rules.specs.declared.event.Event.{Event};
ghost use Rattle.rules.specs.declared.event.Event.TheVariants.{Endorse, Reads};
ghost use Rattle.rules.specs.declared.flag.Flag.{Flag};
ghost use Rattle.rules.specs.declared.flag.Flag.TheVariants.{Valid};
ghost use Rattle.rules.specs.declared.read_verdict.ReadVerdict.{ReadVerdict};
ghost use Rattle.rules.specs.Flags.{number_of, flag_numbered, is_valid};
ghost use Rattle.rules.specs.declared.row.Row.{Row};
ghost use Rattle.rules.specs.State.{StateKey, State, ChangeOf, key_cmp, with_changes};
ghost use Rattle.rules.specs.Differing.{is_unchanged, differing};
ghost use Rattle.rules.specs.CommitBytes.{BlockCommit, update_bytes, commit_bytes, told_change, told_definition, HasRoom};
ghost use Rattle.rules.specs.Job.{Job, reads};
ghost use Rattle.rules.specs.Fold.{running, endorsed, flag, changes_to, entries_to, definitions_to};
ghost use Rattle.rules.specs.World.{World, last_commit_hash};
ghost use Rattle.rules.specs.Candidate.{is_defined, candidate_of, candidates_from};
ghost use Rattle.rules.specs.Definitions.{given};
ghost use Rattle.rules.specs.Names.{HasNamesOf};
ghost use Rattle.rules.specs.FirstUses.{FirstUses};
ghost use Rattle.rules.specs.Commit.{items_of, channel_in, job_of, committed_of, committed, world_after};
ghost use Rattle.rules.specs.Linked.{IsLinked, IsLinkedDelta};
ghost use Rattle.rules.specs.Delta.{applied, IsDelta};
ghost use Rattle.rules.specs.Listings.{IsListing};
ghost use Rattle.rules.specs.Step.{Step};
ghost use Rattle.rules.specs.Assignment.{state_under, endorsement_under, reads_under, version_under};
ghost use Rattle.rules.specs.Depends.{EndorsementDepends, ReadsDepend, VersionDepends};
ghost use Rattle.rules.specs.Sure.{Sure};
ghost use Rattle.rules.specs.Machine.{Board, known, first_board, full_board, checks_in_order, MachineStep, Run, ShowsFold};

/// Laws, and no work: a flag has its number alone, and a number is that of one flag at most.
pub fn numbers_tell_flags()
    ensures back { (f : Flag) → flag_numbered (number_of f) ≡ Some f }
    ensures only { (n : ℕ) (f : Flag) → flag_numbered n ≡ Some f → number_of f ≡ n }
{}

/// Laws, and no work: want of memory aside, a world and a string of bytes have one answer and one world after it.
pub fn one_step()
    ensures some_answer { (channel : Configuration) (accepts : Accepts) (old : World) (bytes : List ℕ) → ((i : ℕ) → slice_index bytes i < 256)
        → (x : Result Accepted Refused) × (new : World) × Step channel accepts old bytes x new × (x ≢ Err Memory) }
    ensures one_answer { (channel : Configuration) (accepts : Accepts) (old a b : World) (bytes : List ℕ) (x y : Result Accepted Refused)
        → Step channel accepts old bytes x a → Step channel accepts old bytes y b → x ≢ Err Memory → y ≢ Err Memory
        → (x ≡ y) × (a ≡ b) }
{
    block::one_reading();
}

/// A law, and no work: bytes that are refused, for want of memory too, leave the world as it was.
pub fn refused_bytes_change_nothing()
    ensures { (channel : Configuration) (accepts : Accepts) (old new : World) (bytes : List ℕ) (refused : Refused)
        → Step channel accepts old bytes (Err refused) new → new ≡ old }
{}

/// A law, and no work: behind a candidate whose flag isn't valid, the state that runs along, the changes and the
/// history entries are those before it.
pub fn invalid_transactions_change_nothing()
    ensures state { (j : Job) (i : ℕ) → flag j i ≢ Valid → (running j (suc i)).state ≡ (running j i).state }
    ensures changes { (j : Job) (i : ℕ) → flag j i ≢ Valid → changes_to j (suc i) ≡ changes_to j i }
    ensures entries { (j : Job) (i : ℕ) → flag j i ≢ Valid → entries_to j (suc i) ≡ entries_to j i }
    ensures definitions { (j : Job) (i : ℕ) → flag j i ≢ Valid → definitions_to j (suc i) ≡ definitions_to j i }
{}

/// Laws, and no work: where the only item of a block is a valid update of a chaincode, this has the update's policy behind the
/// block; every other chaincode, and each behind any other block, has the policy that it had.
pub fn definitions_behind_a_block()
    ensures valid { (channel : Configuration) (accepts : Accepts) (w : World) (bytes : List ℕ) (b : Block) (chaincode : List ℕ)
        → flag (job_of channel accepts w (items_of b)) 0 ≡ Valid
        → get (world_after channel accepts w bytes b).definitions chaincode ≡ option_or (given (items_of b) chaincode) (get w.definitions chaincode) }
    ensures invalid { (channel : Configuration) (accepts : Accepts) (w : World) (bytes : List ℕ) (b : Block)
        → flag (job_of channel accepts w (items_of b)) 0 ≢ Valid → (world_after channel accepts w bytes b).definitions ≡ w.definitions }
{}

/// Laws, and no work: no step gives a chaincode its first policy or takes its last, and a block gives one policy at most.
pub fn steps_keep_the_names_of_definitions()
    ensures one { (channel : Configuration) (accepts : Accepts) (w : World) (items : List (Option Item))
        → length (definitions_to (job_of channel accepts w items) (length (job_of channel accepts w items).candidates)) ≤ 1 }
    ensures names { (channel : Configuration) (accepts : Accepts) (old new : World) (bytes : List ℕ) (answer : Result Accepted Refused) (chaincode : List ℕ)
        → Step channel accepts old bytes answer new → is_defined new.definitions chaincode ≡ is_defined old.definitions chaincode }
{}

/// Laws, and no work: what a place of a block is before the rules on the state are asked needs no more of the definitions than
/// which chaincodes have one, so where those of channel and world have the same names, either serves.
pub fn names_of_definitions_suffice()
    ensures candidate { (channel : Configuration) (accepts : Accepts) (w : World) (alone used : Bool) (item : Option Item)
        → HasNamesOf channel w → candidate_of (channel_in channel w) accepts alone used item ≡ candidate_of channel accepts alone used item }
    ensures candidates { (channel : Configuration) (accepts : Accepts) (w : World) (alone : Bool) (uses : FirstUses) (earlier : List (List ℕ)) (items : List (Option Item))
        → HasNamesOf channel w → candidates_from (channel_in channel w) accepts alone uses earlier items ≡ candidates_from channel accepts alone uses earlier items }
{}

/// A law, and no work: the world after a block is the world before it with a delta of the block applied, and whatever
/// makes that world is a delta of the block.
pub fn a_block_is_its_delta()
    ensures world { (channel : Configuration) (accepts : Accepts) (w : World) (items : List (Option Item)) (kept : CommittedBlock) (d : Delta)
        → IsDelta channel accepts w items kept d → committed channel accepts w items kept ≡ applied w d }
    ensures delta { (channel : Configuration) (accepts : Accepts) (w : World) (items : List (Option Item)) (kept : CommittedBlock) (d : Delta)
        → committed channel accepts w items kept ≡ applied w d → IsDelta channel accepts w items kept d }
{}

/// A law, and no work: single changes or net changes, all ids or the new ones alone, each is a delta of the block.
pub fn what_a_block_changes_is_its_delta()
    ensures { (channel : Configuration) (accepts : Accepts) (w : World) (items : List (Option Item)) (kept : CommittedBlock) (d : Delta)
        → IsListing channel accepts w items kept d → IsDelta channel accepts w items kept d }
{}

/// A law, and no work: the delta of a linked block, kept with its bytes, is linked, and what the bytes of a linked delta
/// spell is a linked block.
pub fn linked_deltas_keep_linked_blocks()
    ensures of_a_block { (channel : Configuration) (accepts : Accepts) (w : World) (bytes : List ℕ) (b : Block) (d : Delta)
        → Spells bytes b → IsLinked w b → IsDelta channel accepts w (items_of b) (committed_of bytes (last_commit_hash w) b (job_of channel accepts w (items_of b))) d
        → IsLinkedDelta w d }
    ensures its_block { (w : World) (b : Block) (d : Delta) → IsLinkedDelta w d → Spells d.block.bytes b
        → IsLinked w b × (d.block.header_hash ≡ header_hash_of b.header) × (d.block.version ≡ b.version) × (length d.block.flags ≡ length b.txs) }
{
    block::one_reading();
}

/// A law, and no work: where each earlier candidate is called what the fold finds it to be, the verdicts of
/// the next one are the fold's.
pub fn the_fold_is_an_assignment()
    ensures endorsement { (j : Job) (i : ℕ) → endorsement_under j (endorsed j) i ≡ endorsed j i }
    ensures state { (j : Job) (i : ℕ) → state_under j (λ h. is_valid (flag j h)) i ≡ (running j i).state }
    ensures reads { (j : Job) (i : ℕ) → reads_under j (λ h. is_valid (flag j h)) i ≡ reads j i (running j i).state }
{}

/// A law, and no work: where all that a verdict, or the version of a key, depends on is known, one is sure.
pub fn known_dependencies_make_sure()
    ensures endorsement { (j : Job) (known : ℕ → Option Bool) (i : ℕ) → ((h : ℕ) → EndorsementDepends j i h → IsSome (known h))
        → (v : Bool) × Sure (endorsement_under j) known i v }
    ensures reads { (j : Job) (known : ℕ → Option Bool) (i : ℕ) → ((h : ℕ) → ReadsDepend j i h → IsSome (known h))
        → (v : ReadVerdict) × Sure (reads_under j) known i v }
    ensures version { (j : Job) (k : StateKey) (known : ℕ → Option Bool) (i : ℕ) → ((h : ℕ) → VersionDepends j k i h → IsSome (known h))
        → (v : Option Version) × Sure (version_under j k) known i v }
{}

/// A law, and no work: whatever the order of the checks, each known cell of the machine's board is the verdict of the
/// candidates taken one by one.
pub fn runs_show_the_fold()
    ensures { (j : Job) (events : List Event) (board : Board) → Run j (first_board j) events board → ShowsFold j board }
{}

/// A law, and no work: from every board, every list of checks leads to some board.
pub fn runs_exist()
    ensures { (j : Job) (old : Board) (events : List Event) → (new : Board) × Run j old events new }
{}

/// A law, and no work: a known cell keeps its value for ever.
pub fn known_cells_stay()
    ensures endorsements { (j : Job) (events : List Event) (old new : Board) (i : ℕ) (v : Bool)
        → Run j old events new → known old.endorsements i ≡ Some v → known new.endorsements i ≡ Some v }
    ensures flags { (j : Job) (events : List Event) (old new : Board) (i : ℕ) (f : Flag)
        → Run j old events new → known old.flags i ≡ Some f → known new.flags i ≡ Some f }
{}

/// A law, and no work: whatever the checks and their order, two runs over one job never know different values of a cell.
pub fn runs_agree()
    ensures endorsements { (j : Job) (events others : List Event) (a b : Board) (i : ℕ) (v w : Bool)
        → Run j (first_board j) events a → Run j (first_board j) others b
        → known a.endorsements i ≡ Some v → known b.endorsements i ≡ Some w → v ≡ w }
    ensures flags { (j : Job) (events others : List Event) (a b : Board) (i : ℕ) (f g : Flag)
        → Run j (first_board j) events a → Run j (first_board j) others b
        → known a.flags i ≡ Some f → known b.flags i ≡ Some g → f ≡ g }
{}

/// A law, and no work: a check decides its cell where all that it depends on is known. A read check needs the endorsement
/// beside that, and where that is no, nothing else.
pub fn checks_decide_what_is_known()
    ensures endorsement { (j : Job) (events : List Event) (old new : Board) (i : ℕ)
        → Run j (first_board j) events old → i < length j.candidates
        → ((h : ℕ) → EndorsementDepends j i h → IsSome (known old.endorsements h))
        → MachineStep j (Endorse i) old new → IsSome (known new.endorsements i) }
    ensures reads { (j : Job) (events : List Event) (old new : Board) (i : ℕ)
        → Run j (first_board j) events old → i < length j.candidates
        → IsSome (known old.endorsements i) → ((h : ℕ) → ReadsDepend j i h → IsSome (known old.flags h))
        → MachineStep j (Reads i) old new → IsSome (known new.flags i) }
    ensures refused { (j : Job) (events : List Event) (old new : Board) (i : ℕ)
        → Run j (first_board j) events old → i < length j.candidates → known old.endorsements i ≡ Some false
        → MachineStep j (Reads i) old new → IsSome (known new.flags i) }
{}

/// A law, and no work: whatever was checked before, all endorsement checks and then all read checks, each in order, leave
/// every cell known, as the verdict of the candidates taken one by one.
pub fn checks_in_order_know_everything()
    ensures { (j : Job) (events : List Event) (old new : Board)
        → Run j (first_board j) events old → Run j old (checks_in_order j) new → new ≡ full_board j }
{}

/// Laws, and no work: the rows that differ between two states stand in the order of their keys; a key is among them, with the row
/// after or none, exactly where its row isn't the same before and after.
pub fn rows_differ_where_they_are_not_the_same()
    ensures in_order { (before after : State) → is_sorted key_cmp (differing before after) ≡ true }
    ensures each_key { (before after : State) (k : StateKey)
        → find key_cmp k (differing before after) ≡ (if is_unchanged (get before k) (get after k) then None else Some (get after k)) }
    ensures no_other { (before after : State) (cs : List (ChangeOf Row)) → is_sorted key_cmp cs ≡ true
        → ((k : StateKey) → find key_cmp k cs ≡ (if is_unchanged (get before k) (get after k) then None else Some (get after k)))
        → cs ≡ differing before after }
{}

/// A law, and no work: changes that leave the same row at each key, whatever their order and repeats, give the same bytes.
pub fn update_bytes_are_of_what_is_left()
    ensures { (before : State) (cs ds : List (ChangeOf Row)) → ((k : StateKey) → get (with_changes before cs) k ≡ get (with_changes before ds) k)
        → update_bytes before (with_changes before cs) ≡ update_bytes before (with_changes before ds) }
{}

/// A law, and no work: blocks of which the same bytes are hashed, and whose numbers and lengths have room in these bytes, have the
/// same version, number, flags, rows that differ and replaced definition, where each policy is told by its canonical text.
pub fn commit_bytes_tell_the_block()
    ensures { (a b : BlockCommit) → HasRoom a → HasRoom b → commit_bytes a ≡ commit_bytes b
        → (a.version ≡ b.version) × (a.number ≡ b.number) × (a.flags ≡ b.flags)
        × (map told_change (differing a.before a.after) ≡ map told_change (differing b.before b.after))
        × (option_map told_definition a.definition ≡ option_map told_definition b.definition) }
{}

/// A law, and no work: where the same bytes are hashed of two such blocks, behind the commit hash before each, these hashes are the
/// same, and so is all that `commit_bytes_tell_the_block` names. Whether equal commit hashes say as much rests on SHA-256.
pub fn hashed_bytes_tell_the_commit_hash_before()
    ensures { (p q : List ℕ) (a b : BlockCommit) → IsHash p → IsHash q → HasRoom a → HasRoom b → p ++ commit_bytes a ≡ q ++ commit_bytes b
        → (p ≡ q) × (a.version ≡ b.version) × (a.number ≡ b.number) × (a.flags ≡ b.flags)
        × (map told_change (differing a.before a.after) ≡ map told_change (differing b.before b.after))
        × (option_map told_definition a.definition ≡ option_map told_definition b.definition) }
{}
