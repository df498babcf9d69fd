//! Laws of plain data, each proved by a function that does nothing: by them what is proved of the
//! machine's turns is proved of a core's.

ghost use Rattle.std.specs.Prelude.{◌≡◌, ℕ, false, All, List, Option};
ghost use Rattle.wal_types.specs.declared.record.Record.{Record};
ghost use Rattle.wal_spelling.specs.Spelling.{Assembled, is_assembled_switch};
ghost use Rattle.machine_state.specs.Views.{View};
ghost use Rattle.machine_turns.specs.Doing.{Ask, Machine};
ghost use Rattle.machine_turns.specs.declared.doing.PlainDoing.{PlainDoing};
ghost use Rattle.machine_turns.specs.declared.script.PlainLine.{PlainLine};
ghost use Rattle.machine_turns.specs.Writer.{WriterState};
ghost use Rattle.wal_core.specs.Following.{Follows, StandsPlain, plain_step};
ghost use Rattle.wal_core.specs.Lines.{AreScriptsFor, InsertsNoSwitch, IsBody};

/// A turn on plain data follows the machine's at every place of the order of steps: it tells the
/// step that the order names and what comes behind it, and leaves the words and the view that the
/// machine leaves.
pub fn plain_turns_follow()
    ensures { (m : Machine) (number : ℕ) (v : View) (ask : Ask) (line : PlainLine)
        (copied : Option PlainLine) (w : WriterState) (d : PlainDoing)
        → StandsPlain m number v ask line copied w d
        → Follows m v ask d (plain_step m v line copied w d).left }
{}

/// Records that can be inserted end no segment. So bodies that `Body::assemble` made, and lines
/// that do what backends of the machine are asked for, are what `Core::new` asks for.
pub fn inserted_records_end_no_segment()
    ensures body { (value : Record) (body : Assembled) → IsBody value body
        → is_assembled_switch body ≡ false }
    ensures scripts { (asks : List (List Ask)) (scripts : List (List PlainLine))
        → AreScriptsFor asks scripts → All (All InsertsNoSwitch) scripts }
{}
