//! Laws of turns, each proved by a function that does nothing.

ghost use Rattle.std.specs.Prelude.{List, ℕ};
ghost use Rattle.segment_disk.specs.Tape.{DiskState};
ghost use Rattle.machine_state.specs.Views.{Plain};
ghost use Rattle.machine_state.specs.Words.{Opening};
ghost use Rattle.machine_turns.specs.Begun.{MayBeginRunning, first_machine};
ghost use Rattle.machine_turns.specs.Doing.{Ask, Machine};
ghost use Rattle.machine_turns.specs.Standing.{IsRunning, IsTurnTold, RunsOn};
ghost use Rattle.machine_turns.specs.Turned.{machine_behind, turned};

/// A machine that begins runs: over a log that holds nothing, with a pass for each backend,
/// whatever records that can be written its lines ask for, and whichever calls of the device are to
/// fail.
pub fn machines_begin_running()
    ensures { (first : DiskState) (opening : Opening) (words : List ℕ) (writer : Plain)
        (failing : List ℕ)
        (lines : List (List Ask)) → MayBeginRunning opening words writer lines
        → IsRunning (first_machine first opening words writer failing lines) }
{}

/// In a machine that runs the step that the order names for a backend may be made, so each turn is
/// as it tells: a step of the kind that it names, made by the backend's pass; or the backend waits,
/// or has no line left, and nothing changes; or the disk has failed, as the down word says. The
/// machine runs on, so its state keeps the invariant. Behind any schedule the state is that of a
/// run of at most as many steps, whichever calls of the device fail.
pub fn turns_are_steps()
    ensures turn { (m : Machine) (number : ℕ) → IsRunning m
        → IsTurnTold m number (turned m number).0 (turned m number).1
        × IsRunning (turned m number).1 }
    ensures schedule { (schedule : List ℕ) (m : Machine) → IsRunning m
        → RunsOn m schedule × IsRunning (machine_behind m schedule) }
{}
