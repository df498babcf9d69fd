//! What a state that keeps the invariant shows of the last pass, proved by functions that do
//! nothing. Who has all numbers knows that no other pass is left to step: what it finds in the
//! words then is final.

ghost use Rattle.std.specs.Prelude.{◌⊎◌, ℕ, List};
ghost use mathlib.Core.Option.{Option};
ghost use Rattle.segment_disk.specs.Tape.{DiskState};
ghost use Rattle.machine_state.specs.Words.{Opening};
ghost use Rattle.machine_state.specs.Views.{HasAt, Plain, View};
ghost use Rattle.machine_state.specs.Moves.{after_join, after_split, split_off};
ghost use Rattle.machine_state.specs.Opened.{first_view};
ghost use Rattle.machine_state.specs.Sound.{IsSound};
ghost use Rattle.machine_state.specs.Steps.{StepKind, view_behind};
ghost use Rattle.machine_laws.specs.SharedOrders.{HasNumber, IsSpare};
ghost use Rattle.machine_laws.specs.ClosedLogs.{HasAllNumbers, IsClosed, IsLastPass};

/// Where a pass has all numbers and is about nothing, no other pass is live. Nobody has a turn or
/// the position locked, and the writer is at home. The order is what this pass reserved, and what
/// those did that it took in. Where the disk has not failed, nothing is in flight, and the ring has
/// the log from the written address on. What crashes leave, and what was promised to this pass and
/// to those that it took in, is told of this writer's disk.
pub fn last_passes_close_the_log()
    ensures closed { (first : DiskState) (opening : Opening) (words : List ℕ) (home : Option Plain)
        (views : List View) (k : IsSound first opening words home views) (id : ℕ) (v : View)
        → HasAt views id v → IsLastPass opening v
        → IsClosed first opening k.order words home k.writer views id v }
{}

/// The first pass has all numbers. No step takes one from its pass; behind a split one of both has
/// each; and what two passes have, of which one at most has some to give away, the one has that
/// takes the other in. So where all passes are taken in, the last one has all numbers again.
pub fn numbers_come_together_again()
    ensures first { (opening : Opening)
        → HasAllNumbers (opening.setup).passes (first_view opening).reserving }
    ensures steps { (n : ℕ) (v : View) (e : StepKind) (met : ℕ) (home : Option Plain)
        → HasNumber n v.reserving → HasNumber n (view_behind v e met home).reserving }
    ensures split { (n : ℕ) (v : View) → HasNumber n v.reserving
        → HasNumber n (after_split v).reserving ⊎ HasNumber n (split_off v).reserving }
    ensures join { (n : ℕ) (v w : View)
        → ((i j : ℕ) → IsSpare i v.reserving → IsSpare j w.reserving → ⊥)
        → HasNumber n v.reserving ⊎ HasNumber n w.reserving
        → HasNumber n (after_join v w).reserving }
{}
