//! How several passes share the numbers of a log. Each number is given to one pass at most; a log
//! is closed by the pass that has all of them, its own, its spare ones and those of the passes that
//! it took in. Callers split passes off the first one and take them in again: this law follows the
//! numbers through it, whatever the passes do in between.

ghost use Rattle.std.specs.Prelude.{◌≡◌, ℕ, ◌++◌, [], ◌∷◌, List, length};
ghost use Rattle.machine_laws.specs.ClosedLogs.{HasAllNumbers};
ghost use Rattle.machine_state.specs.Views.{View};
ghost use Rattle.machine_state.specs.Moves.{after_join, after_split, split_off};
ghost use Rattle.wal_log.specs.Sharing.{KeepEach, ShareNumbers};

use wal_rule::numbers::seats_keep_numbers;

/// Each number of a log is the first pass's or another's: where there is no other, and so again in
/// the end; behind a split, with the new pass behind the others; where each of the others keeps its
/// own; and behind a join of the first of the others, which has no number to give away.
pub fn passes_share_numbers()
    ensures none { (passes : ℕ) (v : View) → HasAllNumbers passes v.reserving
        → ShareNumbers passes v [] }
    ensures all { (passes : ℕ) (v : View) → ShareNumbers passes v []
        → HasAllNumbers passes v.reserving }
    ensures split { (passes : ℕ) (v : View) (others : List View)
        → ShareNumbers passes v others
        → ShareNumbers passes (after_split v) (others ++ split_off v ∷ []) }
    ensures kept { (passes : ℕ) (v : View) (old new : List View)
        → length new ≡ length old → KeepEach old new → ShareNumbers passes v old
        → ShareNumbers passes v new }
    ensures join { (passes : ℕ) (v w : View) (others : List View)
        → (w.reserving).spare_end ≡ 0 → ShareNumbers passes v (w ∷ others)
        → ShareNumbers passes (after_join v w) others }
{
    seats_keep_numbers();
}
