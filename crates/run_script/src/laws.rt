//! What holds of each script that is read. The functions do nothing: their contracts are the laws.

ghost use Rattle.std.specs.Prelude.{◌≡◌, ℕ, ◌<◌, ◌≤◌, All, IfOk, List, Option, length};
ghost use Rattle.run_script.specs.Turns.{backends_in_turn, most_turns};
ghost use Rattle.run_script.specs.Meaning.{backend_meaning, meaning_of};
ghost use Rattle.run_script.specs.Replay.{IsOfReplay, most_backends, replay_meaning};
ghost use Rattle.run_script.specs.Run.{StaysInBackend, backends_meaning, run_meaning};
ghost use Rattle.run_script.specs.Text.{lines_of};
ghost use Rattle.run_script.specs.Writable.{AsksWritable};

/// Each record of a script's lines can be written.
pub fn lines_are_writable()
    ensures { (script : List ℕ)
        → IfOk (backend_meaning script) (λ lines. All (λ line. AsksWritable line.asked) lines) }
{}

/// A replay has from 1 to 64 backends.
pub fn some_backends_are_there()
    ensures { (script : List ℕ)
        → IfOk (replay_meaning script) (λ m.
        (0 < length m.backends) × (length m.backends ≤ most_backends)) }
{}

/// Each record of each backend's lines can be written.
pub fn backends_are_writable()
    ensures { (script : List ℕ)
        → IfOk (replay_meaning script) (λ m.
        All (All (λ line. AsksWritable line.asked)) m.backends) }
{}

/// Each turn of the schedule is one of a backend that is there.
pub fn turns_are_of_backends()
    ensures { (script : List ℕ)
        → IfOk (replay_meaning script) (λ m.
        All (λ backend. backend < length m.backends) (backends_in_turn m.schedule)) }
{}

/// A replay has at most 10,000,000 turns.
pub fn turns_are_within()
    ensures { (script : List ℕ)
        → IfOk (replay_meaning script) (λ m.
        length (backends_in_turn m.schedule) ≤ most_turns) }
{}

/// No line of a replay asks for what runs alone know.
pub fn replays_ask_for_nothing_behind()
    ensures { (script : List ℕ)
        → IfOk (replay_meaning script) (λ m.
        All (All (λ line. IsOfReplay line.asked)) m.backends) }
{}

/// A run has from 1 to 64 backends, its writer among them.
pub fn runs_have_some_backends()
    ensures { (writer : Option ℕ) (script : List ℕ)
        → IfOk (run_meaning writer script) (λ backends.
        (0 < length backends) × (length backends ≤ most_backends)) }
{}

/// Each record of each backend's lines of a run can be written.
pub fn lines_of_runs_are_writable()
    ensures { (writer : Option ℕ) (script : List ℕ)
        → IfOk (run_meaning writer script) (All (All (λ line. AsksWritable line.asked))) }
{}

/// Where no line's first field is `B`, the script of a run without a writer means what it means for
/// one backend.
pub fn scripts_of_one_backend_mean_the_same()
    ensures { (script : List ℕ) → All StaysInBackend (lines_of script)
        → backends_meaning script ≡ meaning_of script }
{}
