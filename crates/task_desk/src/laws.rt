ghost use Rattle.std.specs.Prelude.{◌≡◌, ◌+◌, ◌*◌, ◌<◌, ◌≤◌, ℕ, true, false, List, length, count_by};
ghost use Rattle.std.specs.List.{list_all};
ghost use Rattle.task_desk.specs.declared.status.Status.{Status};
ghost use Rattle.task_desk.specs.Status.{is_ready, is_unhanded, is_out, is_done, status_at};
ghost use Rattle.task_desk.specs.Desk.{new_desk, with_out, with_handed, can_park, with_parked, with_done, IsDesk};
ghost use Rattle.task_desk.specs.declared.status.Status.TheVariants.{Out};
ghost use Rattle.task_desk.specs.Runs.{with_run, with_run_done};
ghost use Rattle.task_desk.specs.Reached.{IsReached};

/// A law, and no work: a new desk, and what each call makes of one, is a desk: each parked task waits for a smaller one
/// that isn't done.
pub fn calls_keep_a_desk()
    ensures new { (n : ℕ) → IsDesk (new_desk n) }
    ensures taken { (tasks : List Status) (t : ℕ) → IsDesk tasks → is_ready (status_at tasks t) ≡ true → IsDesk (with_out tasks t) }
    ensures handed { (tasks : List Status) (t : ℕ) → IsDesk tasks → is_unhanded (status_at tasks t) ≡ true → IsDesk (with_handed tasks t) }
    ensures parked { (tasks : List Status) (t h : ℕ) → IsDesk tasks → can_park tasks t h ≡ true → IsDesk (with_parked tasks t h) }
    ensures done { (tasks : List Status) (t : ℕ) → IsDesk tasks → is_out (status_at tasks t) ≡ true → IsDesk (with_done tasks t) }
{}

/// A law, and no work: on a desk, while a task isn't done and none is out, one is ready.
pub fn some_task_is_ready()
    ensures { (tasks : List Status) → IsDesk tasks → list_all is_done tasks ≡ false → count_by is_out tasks ≡ 0
        → (t : ℕ) × (is_ready (status_at tasks t) ≡ true) }
{}

/// A law, and no work: whatever the calls and their order, there are two tasks for each transaction, each parked one
/// waits for a smaller one that isn't done, and while a task isn't done and none is out, one is ready.
pub fn no_call_strands_a_task()
    ensures count { (n : ℕ) (tasks : List Status) → IsReached n tasks → length tasks ≡ 2 * n }
    ensures desk { (n : ℕ) (tasks : List Status) → IsReached n tasks → IsDesk tasks }
    ensures ready { (n : ℕ) (tasks : List Status) → IsReached n tasks → list_all is_done tasks ≡ false → count_by is_out tasks ≡ 0
        → (t : ℕ) × (is_ready (status_at tasks t) ≡ true) }
{}

/// A law, and no work: a call that takes a run out, or tells that one is done, is such calls of its tasks one by one. So a desk
/// behind it is one that calls reach.
pub fn a_run_is_its_tasks()
    ensures taken { (n t count : ℕ) (tasks : List Status) → IsReached n tasks → ((u : ℕ) → t ≤ u → u < t + count → is_unhanded (status_at tasks u) ≡ true)
        → IsReached n (with_run Out tasks t count) }
    ensures done { (n t count : ℕ) (tasks : List Status) → IsReached n tasks → IsReached n (with_run_done tasks t count) }
{}
