//! The law of the opening: with the words, the writer and the one view of a log that holds nothing,
//! or that goes on, the invariant holds before the first step.

ghost use Rattle.std.specs.Prelude.{◌≡◌, ◌≤◌, List, [], ◌∷◌, ℕ, IfSome};
ghost use mathlib.Core.Option.{some};
ghost use Rattle.segment_disk.specs.Tape.{DiskState};
ghost use Rattle.wal_page.specs.LogPlace.{new_place};
ghost use Rattle.machine_state.specs.Words.{Opening, found_end};
ghost use Rattle.flush_core.specs.Pages.{HoldsNothing};
ghost use Rattle.machine_state.specs.Suited.{BeganSuited, tape_from};
ghost use Rattle.machine_state.specs.Views.{Plain};
ghost use Rattle.machine_state.specs.Opened.{AreFirstWords, IsFirstWriter, IsOpenable, first_view};
ghost use Rattle.machine_state.specs.Sound.{IsSetup, IsSound};

/// A log begins, or goes on behind what was found, in a state that keeps the
/// invariant, on any disk. Of a log that holds nothing, a disk that holds no segment then, if it
/// tells what it holds, is one of which the invariant speaks; and such a log may be opened at a new
/// log's place, where it may fill the segments that are there, and ends where segment 1 begins.
pub fn logs_begin_sound()
    ensures sound { (first : DiskState) (opening : Opening) (words : List ℕ) (writer : Plain)
        → IsOpenable opening
        → AreFirstWords opening words → IsFirstWriter opening writer
        → IsSound first opening words (some writer) (first_view opening ∷ []) }
    ensures suited { (first : DiskState) (opening : Opening) (writer : Plain)
        → opening.made ≡ 0 → IsFirstWriter opening writer
        → HoldsNothing (tape_from first writer.calls)
        → IfSome (tape_from first writer.calls) (BeganSuited opening) }
    ensures nothing { (opening : Opening) → IsSetup opening.setup
        → opening.place ≡ new_place (opening.setup).seg_size
        → opening.made ≤ (opening.setup).cap_segments
        → IsOpenable opening × (found_end opening ≡ (opening.setup).seg_size) }
{}
