//! What the invariant shows of the ring, for who looks at words and views and does not open the
//! invariant itself.

ghost use Rattle.std.specs.Prelude.{ℕ, List};
ghost use mathlib.Core.Option.{Option};
ghost use Rattle.segment_disk.specs.Tape.{DiskState};
ghost use Rattle.machine_state.specs.Words.{Opening};
ghost use Rattle.machine_state.specs.Views.{Plain, View};
ghost use Rattle.machine_state.specs.Sound.{IsSound};
ghost use Rattle.machine_state.specs.Shown.{EntriesAreCopied, MappersAreNext, PagesArePresent, WordsAreLogs};

/// In each state that keeps the invariant, the ring's words are the log's, or 0 while a pass is
/// still to copy them; an entry is in flight in one view at most, and what counts as copied of it
/// is the log's; the mapped pages that are not written whole are present; and the pass that maps
/// works on the page behind them.
pub fn rings_hold_the_log()
    ensures words { (first : DiskState) (opening : Opening) (words : List ℕ) (home : Option Plain)
        (views : List View)
        (s : IsSound first opening words home views)
        → WordsAreLogs opening s.order words views }
    ensures entries { (first : DiskState) (opening : Opening) (words : List ℕ) (home : Option Plain)
        (views : List View) (s : IsSound first opening words home views)
        → EntriesAreCopied opening s.order words views }
    ensures pages { (first : DiskState) (opening : Opening) (words : List ℕ) (home : Option Plain)
        (views : List View)
        (s : IsSound first opening words home views)
        → PagesArePresent opening s.order words views }
    ensures mappers { (first : DiskState) (opening : Opening) (words : List ℕ) (home : Option Plain)
        (views : List View) (s : IsSound first opening words home views)
        → MappersAreNext opening s.order words views }
{}
