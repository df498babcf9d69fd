//! What a pass meets that is alone, since it has all numbers of its log: no other one was split off
//! yet, or all were taken in again. Each law is proved by a function that does nothing.

ghost use Rattle.std.specs.Prelude.{◌≡◌, ℕ, List};
ghost use mathlib.Core.Option.{Option};
ghost use Rattle.segment_disk.specs.Tape.{DiskState};
ghost use Rattle.machine_state.specs.Words.{Opening, position_word};
ghost use Rattle.machine_state.specs.Views.{HasAt, Free, Plain, View};
ghost use Rattle.machine_state.specs.Sound.{IsSound};
ghost use Rattle.machine_laws.specs.LonePasses.{HasAllThatIsHeld, HasSameEntries, IsLone};

/// Whatever is held such a pass holds itself: where it has not locked the position, that is not
/// locked; where it has no turn, the turn's word is 0; and where it knows of no fault, the word of
/// each lock that it does not hold is 0. Between two states in which it has the same entries the
/// position stays, where it has not locked it.
pub fn lone_passes_meet_nothing_held()
    ensures held { (first : DiskState) (opening : Opening) (words : List ℕ) (home : Option Plain)
        (views : List View) (k : IsSound first opening words home views) (id : ℕ) (v : View)
        → HasAt views id v → IsLone opening v → HasAllThatIsHeld words v }
    ensures position { (first second : DiskState) (opening : Opening) (words later : List ℕ)
        (home home_later : Option Plain) (views views_later : List View)
        (k : IsSound first opening words home views)
        (m : IsSound second opening later home_later views_later) (id other : ℕ) (v w : View)
        → HasAt views id v → HasAt views_later other w → IsLone opening v → IsLone opening w
        → HasSameEntries v.reserving w.reserving → (v.reserving).place ≡ Free
        → (w.reserving).place ≡ Free → position_word later ≡ position_word words }
{}
