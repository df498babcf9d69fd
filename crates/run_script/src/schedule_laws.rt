//! What holds of each schedule that is read. The functions do nothing: their contracts are the
//! laws.

ghost use Rattle.std.specs.Prelude.{ℕ, ◌<◌, ◌≤◌, All, IfOk, List, length};
ghost use Rattle.run_script.specs.Items.{IsPlayable};
ghost use Rattle.run_script.specs.ScheduleMeaning.{schedule_of};
ghost use Rattle.run_script.specs.Turns.{backends_in_turn, most_turns};

/// A schedule has no more turns than there may be.
pub fn turns_are_within()
    ensures { (backends first_line : ℕ) (bytes : List ℕ)
        → IfOk (schedule_of backends first_line bytes) (λ items.
        length (backends_in_turn items) ≤ most_turns) }
{}

/// Each item is of a backend that is there, and has a turn.
pub fn items_are_playable()
    ensures { (backends first_line : ℕ) (bytes : List ℕ)
        → IfOk (schedule_of backends first_line bytes) (All (IsPlayable backends)) }
{}

/// Each turn is one of a backend that is there.
pub fn backends_are_there()
    ensures { (backends first_line : ℕ) (bytes : List ℕ)
        → IfOk (schedule_of backends first_line bytes) (λ items.
        All (λ backend. backend < backends) (backends_in_turn items)) }
{}
