//! What passes know of a disk that has failed: one count of faults, which who met the fault stored
//! in the down word for all others.

ghost use Rattle.std.specs.Prelude.{◌≡◌, ℕ};
ghost use Rattle.segment_disk.specs.Cause.{Rose};
ghost use Rattle.wal_rule.specs.Downs.{KnowsDown};
ghost use Rattle.machine_state.specs.Views.{View};
ghost use Rattle.wal_rule.specs.Stepping.{Stands};

/// A down value that a pass met or set is a count of faults above the one at the opening, or the
/// last that there is; and all that it met and set are the same.
pub fn down_values_are_known()
    ensures rose { (v : View) → Stands v → (faults : ℕ) → KnowsDown faults v
        → Rose (v.opening).faults faults }
    ensures same { (v : View) → Stands v → (f g : ℕ) → KnowsDown f v → KnowsDown g v → f ≡ g }
{}
