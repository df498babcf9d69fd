//! The laws of the machine's steps, each proved by a function that does nothing. A table of shared
//! words rests on them: what a step asks for is said of its own pass's view alone, so the invariant
//! holds between any two steps, in whatever order the passes' steps come.

ghost use Rattle.std.specs.Prelude.{◌≡◌, ℕ, true, List};
ghost use mathlib.Core.Option.{Option};
ghost use Rattle.segment_disk.specs.Tape.{DiskState};
ghost use Rattle.machine_state.specs.Words.{Opening};
ghost use Rattle.machine_state.specs.Views.{HasAt, Plain, View};
ghost use Rattle.machine_state.specs.Steps.{StepKind, MayStep, State, MachineStep};
ghost use Rattle.machine_state.specs.Sound.{IsSound};
ghost use Rattle.machine_laws.specs.InvariantKept.{KeepsSound};
ghost use Rattle.machine_laws.specs.Runs.{Runs};

/// Whatever a live pass does that its view lets it do keeps the invariant, over the words, the
/// writer's home and the views behind. A table of shared words cites this law, one kind at a time.
pub fn every_kind_keeps_the_invariant()
    ensures { (first : DiskState) (words : List ℕ) (home : Option Plain) (views : List View)
        (id : ℕ) (v : View)
        → IsSound first v.opening words home views → HasAt views id v → (v.reserving).live ≡ true
        → (e : StepKind) → MayStep v e → KeepsSound first words home views id v e }
{}

/// Every step of the machine keeps the invariant: one of a pass, and a pass that is split off, is
/// taken in, or gives up its copy; and so does every run, however the passes' steps interleave.
pub fn every_step_keeps_the_invariant()
    ensures step { (first : DiskState) (opening : Opening) (s t : State)
        → IsSound first opening s.words s.home s.views
        → MachineStep s t → IsSound first opening t.words t.home t.views }
    ensures run { (first : DiskState) (opening : Opening) (n : ℕ) (s t : State)
        → IsSound first opening s.words s.home s.views → Runs n s t
        → IsSound first opening t.words t.home t.views }
{}
