//! Laws of the definitions, each proved by a function that does nothing.

ghost use Rattle.std.specs.Prelude.{◌≡◌, ℕ, List, Option, Result, IfSome};
ghost use Rattle.run_script.specs.Asked.{AskedLine};
ghost use Rattle.run_script.specs.Run.{run_meaning};
ghost use Rattle.run_script.specs.declared.line.Refusal.{Refusal};
ghost use Rattle.backend_cli.specs.Complete.{AppendsAreComplete, MadeRunsAreComplete, RunsAreComplete};
ghost use Rattle.backend_cli.specs.Outside.{SourceView};
ghost use Rattle.backend_cli.specs.Reading.{ScriptMeans};

/// Where a source tells what it had left, the script of a run that was read off it means what all
/// of that means.
pub fn read_scripts_mean_all_that_was_left()
    ensures { (writer : Option ℕ) (before after : SourceView)
        (meaning : Result (List (List AskedLine)) Refusal)
        → ScriptMeans writer before after meaning
        → IfSome before.left (λ bytes. run_meaning writer bytes ≡ meaning) }
{}

/// What a source handed out in a run has one meaning.
pub fn handed_out_scripts_have_one_meaning()
    ensures { (writer : Option ℕ) (before after : SourceView)
        (one other : Result (List (List AskedLine)) Refusal)
        → ScriptMeans writer before after one → ScriptMeans writer before after other
        → one ≡ other }
{}

/// If nothing fails, and the log has room for what is found and for all that the lines ask for, a
/// run is done, or memory runs out, or the segment behind the last one allowed is there. A run
/// that begins a log needs a disk that told that none is there, one that goes on with a log a disk
/// that told what this program left there.
pub fn runs_are_complete()
    ensures run { RunsAreComplete }
    ensures made { MadeRunsAreComplete }
    ensures append { AppendsAreComplete }
{}
