//! The laws of the moments, each proved by a function that does nothing: a log that is told of a
//! flush is never told an earlier moment than before, and a later one where it has reserved more
//! since that the flush covers. The calls of the disk come one after another, and only who has the
//! writer in hand stores a moment.

ghost use Rattle.std.specs.Prelude.{List, [], ◌∷◌, ℕ};
ghost use mathlib.Core.Option.{Option};
ghost use Rattle.segment_disk.specs.Tape.{DiskState};
ghost use Rattle.machine_state.specs.Words.{Opening};
ghost use Rattle.machine_state.specs.Views.{HasAt, Plain, View};
ghost use Rattle.machine_state.specs.Opened.{first_view};
ghost use Rattle.machine_state.specs.Sound.{IsSound};
ghost use Rattle.machine_state.specs.Steps.{State, MachineStep};
ghost use Rattle.machine_laws.specs.Runs.{Runs};
ghost use Rattle.machine_laws.specs.RisingMoments.{LogsRise, MomentsKeepRising, promised_of};

/// Moments rise behind every step of a sound state where they did before, and so behind every run,
/// however the passes' steps interleave; they do where the first pass's view is the only one. And
/// where they do, of the promises that a view's log was made each names no earlier moment than
/// those before it, and a later one where it covers an entry that the log reserved since; and so it
/// is with each pass that the view took in.
pub fn moments_rise()
    ensures step { (first : DiskState) (opening : Opening) (s t : State)
        (before : IsSound first opening s.words s.home s.views)
        → MomentsKeepRising opening s.words s.home s.views before → MachineStep s t
        → (behind : IsSound first opening t.words t.home t.views)
        → MomentsKeepRising opening t.words t.home t.views behind }
    ensures run { (first : DiskState) (opening : Opening) (n : ℕ) (s t : State)
        (before : IsSound first opening s.words s.home s.views)
        → MomentsKeepRising opening s.words s.home s.views before → Runs n s t
        → (behind : IsSound first opening t.words t.home t.views)
        → MomentsKeepRising opening t.words t.home t.views behind }
    ensures first { (first : DiskState) (opening : Opening) (words : List ℕ) (home : Option Plain)
        (sound : IsSound first opening words home (first_view opening ∷ []))
        → MomentsKeepRising opening words home (first_view opening ∷ []) sound }
    ensures shown { (first : DiskState) (opening : Opening) (words : List ℕ) (home : Option Plain)
        (views : List View) (sound : IsSound first opening words home views)
        → MomentsKeepRising opening words home views sound
        → (id : ℕ) (v : View) → HasAt views id v → LogsRise opening (promised_of v) }
{}
