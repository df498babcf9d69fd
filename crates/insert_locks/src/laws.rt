//! What a watch that has finished knows of the log, proved by a function that does nothing. It is
//! said of each state in which the view may stand, and not of the moment of the watch: others may
//! have reserved and copied since. This is why a writer may write up to a bound that was learnt
//! before it had the turn to write.

ghost use Rattle.std.specs.Prelude.{◌≡◌, ◌≤◌, map};
ghost use Rattle.machine_state.specs.Words.{end_form, order_end};
ghost use Rattle.machine_state.specs.Views.{flight_of, View};
ghost use Rattle.machine_state.specs.Positioned.{IsCopiedBelow};
ghost use Rattle.wal_rule.specs.Stepping.{Stands};

/// Where a view has visited all eight locks, all below its bound is reserved, and no entry in
/// flight has a word below it that is still to copy.
pub fn finished_watches_know_the_log()
    ensures reserved { (v : View) (s : Stands v) → (v.watching).visited ≡ 8
        → (v.watching).bound ≤ end_form (v.opening).setup
        (order_end v.opening (s.sound).order) }
    ensures copied { (v : View) (s : Stands v) → (v.watching).visited ≡ 8
        → IsCopiedBelow ((v.opening).setup).seg_size (map flight_of s.views)
        (v.watching).bound }
{}
