ghost use Rattle.std.specs.Prelude.{◌≡◌, ℕ, Bool, List, [], length, map, Result, Ok};
ghost use Rattle.policy_eval.specs.Accepts.{Accepts};
ghost use Rattle.rules.specs.World.{empty_world, height_of};
ghost use Rattle.query.specs.declared.receipt.Receipt.{Receipt};
ghost use Rattle.commit.specs.declared.not_committed.NotCommitted.{NotCommitted};
ghost use Rattle.commit.specs.Committing as committing;
ghost use Rattle.commit.specs.Committing.{Committing};
ghost use Rattle.commit.specs.Telling as telling;
ghost use Rattle.theorem.specs.Promise.{Submits, Runs, newest};
ghost use Rattle.theorem.specs.Telling.{RunsTelling};
ghost use Rattle.theorem.specs.ShownBy.{shown_by, answered};

use commit::NotCommitted;
use query::Receipt;

/// Proved: for one byte string and for many, whatever is returned for them, a committer shows one ledger more for each
/// block that it accepts, that of serial execution, and no other. A receipt has the height of the newest ledger.
pub fn committers_show_ledgers()
    ensures opened { (c : Committing) → c.list ≡ [] → newest (shown_by c) ≡ empty_world c.channel.definitions }
    ensures height { (c : Committing) → height_of (newest (shown_by c)) ≡ length c.list }
    ensures submit { (accepts : Accepts) (old new : Committing) (bytes : List ℕ) (answer : Result Receipt NotCommitted)
        → committing.Submits accepts old bytes answer new → Submits accepts (shown_by old) bytes (answered answer) (shown_by new) }
    ensures run { (accepts : Accepts) (old new : Committing) (blocks : List (List ℕ)) (answers : List (Result Receipt NotCommitted))
        → committing.Runs accepts old blocks answers new → Runs accepts (shown_by old) blocks (map answered answers) (shown_by new) }
    ensures receipt { (accepts : Accepts) (old new : Committing) (bytes : List ℕ) (r : Receipt)
        → committing.Submits accepts old bytes (Ok r) new → r.height ≡ height_of (newest (shown_by new)) }
{}

/// Proved: the same holds if the answers are passed to a function that may end the run.
pub fn tellings_show_ledgers<F: FnMut(Result<Receipt, NotCommitted>) -> bool>()
    ensures { (accepts : Accepts) (old new : Committing) (blocks : List (List ℕ)) (f g : F) (all : Bool)
        → telling.RunsTelling F.step accepts old blocks f all new g → RunsTelling answered F.step accepts (shown_by old) blocks f all (shown_by new) g }
{}
