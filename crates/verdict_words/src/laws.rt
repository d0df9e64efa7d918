ghost use Rattle.std.specs.Prelude.{◌≡◌, ℕ};
ghost use mathlib.Core.Option.{some};
ghost use lib.ListN.{get_elem?};
ghost use Rattle.atomic_table.specs.Table.{State};
ghost use Rattle.rules.specs.Job.{Job};
ghost use Rattle.verdict_words.specs.declared.view.View.{View};
ghost use Rattle.verdict_words.specs.Words.{IsFound};
ghost use Rattle.verdict_words.specs.Board.{IsSound, board_in};

/// A law, and no work: between any two steps of any workers, the words of a job show a sound board of the verdict machine, and so
/// does what each of them knows.
pub fn words_show_a_sound_board()
    ensures words { (j : Job) (s : State ℕ View) → IsFound j s → IsSound j (board_in j s.words) }
    ensures seats { (j : Job) (s : State ℕ View) (seat : ℕ) (v : View) → IsFound j s → get_elem? s.views seat ≡ some v → IsSound j (board_in j v.known) }
{}
