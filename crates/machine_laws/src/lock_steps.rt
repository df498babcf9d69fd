//! Every step keeps what is said of locks, of what they tell, of those who watch them, and of the
//! two turns; each law is proved by a function that does nothing. Such a
//! word changes by an exchange that meets 0, and else by its holder alone: so the steps of others
//! leave what a holder has, and what it told.

ghost use Rattle.std.specs.Prelude.{◌≡◌, ◌≢◌, ℕ, true, ◌++◌, [], ◌∷◌, List, length, map, set, slice_index};
ghost use mathlib.Core.Option.{Option};
ghost use Rattle.wal_page.specs.Order.{Entry};
ghost use Rattle.segment_disk.specs.Tape.{DiskState};
ghost use Rattle.machine_state.specs.declared.setup.Setup.{Setup};
ghost use Rattle.machine_state.specs.Words.{Opening, word_count, lock_word};
ghost use Rattle.machine_state.specs.Views.{HasAt, Stage, Plain, View, working_of};
ghost use Rattle.machine_state.specs.Locked.{AreHeld};
ghost use Rattle.machine_state.specs.Moves.{after_split, split_off, after_join, spent, without_work, orphan_of};
ghost use Rattle.machine_state.specs.Steps.{StepKind, MayStep, IsResting, word_of_step, home_behind};
ghost use Rattle.machine_state.specs.Sound.{IsSound};
ghost use Rattle.machine_laws.specs.LocksBehind.{words_behind, views_behind, order_behind, stage_behind, writer_behind, StepsFrom, WorksHold, TurnsHold};

/// Whatever a pass does that its view lets it do: no lock has two holders, no lock tells more than
/// is copied, and what watchers know stays true.
pub fn every_step_keeps_locks_and_watches()
    ensures { (opening : Opening) (order : List Entry) (words : List ℕ) (home : Option Plain)
        (views : List View) (id : ℕ) (v : View) (e : StepKind)
        → StepsFrom opening order words views id v → MayStep v e
        → WorksHold opening order words views
        → WorksHold opening (order_behind v e order) (words_behind words v e)
        (views_behind words home views id v e) }
{}

/// Whatever a pass does that its view lets it do: no turn has two holders, the mapper is as far as
/// its holder, and the writer is at home or in hand, as it was or as a call of the device left it.
pub fn every_step_keeps_the_turns()
    ensures { (setup : Setup) (words : List ℕ) (home : Option Plain) (stage : Stage)
        (writer : Plain) (views : List View) (id : ℕ) (v : View) (e : StepKind)
        → HasAt views id v → length words ≡ word_count setup
        → AreHeld (lock_word words) (map working_of views) → MayStep v e
        → TurnsHold words home stage writer views
        → TurnsHold (words_behind words v e) (home_behind v e home)
        (stage_behind v e (slice_index words (word_of_step v e)) stage)
        (writer_behind v e writer) (views_behind words home views id v e) }
{}

/// Passes come and go, with their locks, watches and turns: one is split off, one that is about
/// nothing is taken in, and one gives up its copy, which stays with a view of its own.
pub fn passes_come_and_go_with_what_they_hold()
    ensures split { (opening : Opening) (order : List Entry) (words : List ℕ) (views : List View)
        (id : ℕ) (v : View) → HasAt views id v → WorksHold opening order words views
        → WorksHold opening order words (set views id (after_split v) ++ split_off v ∷ []) }
    ensures joined { (opening : Opening) (order : List Entry) (words : List ℕ) (views : List View)
        (id other : ℕ) (v w : View) → HasAt views id v → HasAt views other w → id ≢ other
        → IsResting w → WorksHold opening order words views
        → WorksHold opening order words (set (set views other (spent w)) id (after_join v w)) }
    ensures given_up { (opening : Opening) (order : List Entry) (words : List ℕ) (views : List View)
        (id : ℕ) (v : View) → HasAt views id v → WorksHold opening order words views
        → WorksHold opening order words (set views id (without_work v) ++ orphan_of v ∷ []) }
    ensures split_turns { (words : List ℕ) (home : Option Plain) (stage : Stage)
        (writer : Plain) (views : List View) (id : ℕ) (v : View) → HasAt views id v
        → TurnsHold words home stage writer views
        → TurnsHold words home stage writer (set views id (after_split v) ++ split_off v ∷ []) }
    ensures joined_turns { (words : List ℕ) (home : Option Plain) (stage : Stage)
        (writer : Plain) (views : List View) (id other : ℕ) (v w : View) → HasAt views id v
        → HasAt views other w → IsResting w → TurnsHold words home stage writer views
        → TurnsHold words home stage writer (set (set views other (spent w)) id (after_join v w)) }
    ensures given_up_turns { (words : List ℕ) (home : Option Plain) (stage : Stage)
        (writer : Plain) (views : List View) (id : ℕ) (v : View) → HasAt views id v
        → TurnsHold words home stage writer views
        → TurnsHold words home stage writer (set views id (without_work v) ++ orphan_of v ∷ []) }
{}

/// In a sound state, each step of a live view that its view lets it do keeps all that is said of
/// locks, watches and turns.
pub fn sound_states_keep_locks_and_turns()
    ensures { (first : DiskState) (opening : Opening) (words : List ℕ) (home : Option Plain)
        (views : List View)
        (id : ℕ) (v : View) (e : StepKind) (k : IsSound first opening words home views)
        → HasAt views id v → v.reserving.live ≡ true → MayStep v e
        → WorksHold opening (order_behind v e k.order) (words_behind words v e)
        (views_behind words home views id v e)
        × TurnsHold (words_behind words v e) (home_behind v e home)
        (stage_behind v e (slice_index words (word_of_step v e)) k.stage)
        (writer_behind v e k.writer) (views_behind words home views id v e) }
{}
