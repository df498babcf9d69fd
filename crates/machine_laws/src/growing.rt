//! What the writer's disk holds at any moment, as it is read: a process that is killed between two
//! calls, with no crash of the machine behind it, leaves just this. Laws proved by functions that
//! do nothing.

ghost use Rattle.std.specs.Prelude.{ℕ, List};
ghost use mathlib.Core.Option.{Option};
ghost use Rattle.segment_disk.specs.Tape.{DiskState, Tape, state_at};
ghost use Rattle.machine_state.specs.Words.{Opening};
ghost use Rattle.machine_state.specs.Views.{Plain, View};
ghost use Rattle.machine_state.specs.Suited.{IfSuited, IsSuited};
ghost use Rattle.machine_state.specs.Growing.{LosesOnly, OnlyAddsSince};
ghost use Rattle.machine_state.specs.Sound.{IsSound};
ghost use Rattle.machine_laws.specs.Growth.{LosesOnlySince, StaysWholeSince};

/// Behind calls that only add to what is read a crash leaves of each word what is read, or zeros;
/// a page is read whole that was so before. Where a log may begin that is so of each word.
pub fn calls_that_add_keep_what_is_read()
    ensures loses { (size moment : ℕ) (t : Tape) → OnlyAddsSince size moment t
        → LosesOnly size (state_at t moment) → LosesOnlySince size moment t }
    ensures whole { (size moment : ℕ) (t : Tape) → OnlyAddsSince size moment t
        → StaysWholeSince size moment t }
    ensures suited { (opening : Opening) (state : DiskState) → IsSuited opening state
        → LosesOnly (opening.setup).seg_size state }
{}

/// So it is at each moment since a log was opened, on a disk on which one may begin.
pub fn logs_are_only_added_to()
    ensures loses { (first : DiskState) (opening : Opening) (words : List ℕ)
        (home : Option Plain) (views : List View) (k : IsSound first opening words home views)
        → IfSuited first opening k.writer
        (LosesOnlySince (opening.setup).seg_size opening.moment) }
    ensures whole { (first : DiskState) (opening : Opening) (words : List ℕ)
        (home : Option Plain) (views : List View) (k : IsSound first opening words home views)
        → IfSuited first opening k.writer
        (StaysWholeSince (opening.setup).seg_size opening.moment) }
{}
