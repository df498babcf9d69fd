//! What is assured of a run whose log was closed; proved by functions that do nothing.

ghost use Rattle.std.specs.Prelude.{◌≡◌, ℕ, ◌+◌, ◌-◌, ◌^◌, ◌<◌, ◌≤◌, List, Option, length};
ghost use mathlib.Core.Option.{none, some};
ghost use Rattle.segment_disk.specs.Cause.{Rose};
ghost use Rattle.segment_disk.specs.Tape.{Tape};
ghost use Rattle.flush_core.specs.Pages.{HoldsNothing};
ghost use Rattle.wal_page.specs.Order.{Entry, rooms_of};
ghost use Rattle.machine_state.specs.Words.{Opening, found_position};
ghost use Rattle.machine_state.specs.Views.{View};
ghost use Rattle.machine_laws.specs.WholeOrders.{LiesBehind};
ghost use Rattle.wal_rule.specs.Slotted.{slot_disk, slot_plain};
ghost use Rattle.wal_rule.specs.declared.writer.LogWriter.{LogWriter};
ghost use Rattle.run_script.specs.Asked.{AskedLine};
ghost use Rattle.run_laws.specs.declared.told.Told.{Told};
ghost use Rattle.run_laws.specs.Told.{order_from, IsFullAnswer, IsRefused, SomeTold};
ghost use Rattle.run_laws.specs.WholeOrders.{IsWhole};
ghost use Rattle.run_laws.specs.Counted.{all_reserved_count};
ghost use Rattle.run_laws.specs.Assured.{AssuresBehind, HoldsSuited, RunAssures, order_told};
ghost use Rattle.run_laws.specs.ClosedRuns.{HasFlushedAll, IsRunClosed};

/// A disk that holds nothing is one that a log may go on on whose opening found no segment there.
pub fn empty_disks_are_suited()
    ensures suited { (opening : Opening) (began : Option Tape) → opening.made ≡ 0
        → HoldsNothing began → HoldsSuited opening began }
{}

/// All that is assured of a run that opened its log, whether its disk failed or not.
pub fn closed_runs_assure<D>()
    ensures assure { (tape : D → Option Tape) (moment faults : D → ℕ) (began : Option Tape)
        (opening : Opening) (v : View) (w : LogWriter D) (position : ℕ)
        (script : List (List AskedLine)) (lists : List (List Told))
        → IsRunClosed tape moment faults began opening v w position script lists
        → RunAssures opening began (tape (slot_disk w)) (moment (slot_disk w))
        (faults (slot_disk w)) script lists }
    // What is assured of the whole order, where these entries lie below the opening's place.
    ensures behind { (tape : D → Option Tape) (moment faults : D → ℕ) (began : Option Tape)
        (opening : Opening) (v : View) (w : LogWriter D) (position : ℕ)
        (script : List (List AskedLine)) (lists : List (List Told))
        → IsRunClosed tape moment faults began opening v w position script lists
        → (front : List Entry) → LiesBehind opening front
        → AssuresBehind opening front began (tape (slot_disk w)) script lists }
{}

/// Where the writer met no fault the disk's count of faults is that of the opening, and a line is
/// refused only where some line found the log full. Where it met one the count rose.
pub fn faults_are_counted<D>()
    ensures up { (tape : D → Option Tape) (moment faults : D → ℕ) (began : Option Tape)
        (opening : Opening) (v : View) (w : LogWriter D) (position : ℕ)
        (script : List (List AskedLine)) (lists : List (List Told))
        → IsRunClosed tape moment faults began opening v w position script lists
        → (slot_plain tape moment w).fault ≡ none → (faults (slot_disk w) ≡ opening.faults)
        × (SomeTold IsRefused lists → SomeTold IsFullAnswer lists) }
    ensures down { (tape : D → Option Tape) (moment faults : D → ℕ) (began : Option Tape)
        (opening : Opening) (v : View) (w : LogWriter D) (position : ℕ)
        (script : List (List AskedLine)) (lists : List (List Told))
        → IsRunClosed tape moment faults began opening v w position script lists
        → (count : ℕ) → (slot_plain tape moment w).fault ≡ some count
        → Rose opening.faults (faults (slot_disk w)) }
{}

/// Where all was flushed and no fault was counted, on a disk that tells what it holds, and held at
/// the opening what the log may go on on, all of the whole order is there for good.
pub fn flushed_runs_are_whole<D>()
    ensures whole { (tape : D → Option Tape) (moment faults : D → ℕ) (began : Option Tape)
        (opening : Opening) (v : View) (w : LogWriter D) (position : ℕ)
        (script : List (List AskedLine)) (lists : List (List Told))
        → IsRunClosed tape moment faults began opening v w position script lists
        → HasFlushedAll (opening.setup).seg_size lists v
        → faults (slot_disk w) ≡ opening.faults → opening.faults < 2 ^ 64 - 1
        → HoldsSuited opening began → (front : List Entry) → LiesBehind opening front
        → IsWhole (opening.setup).seg_size (tape (slot_disk w))
        (order_told front (opening.setup).seg_size script lists) }
{}

/// The order of what the lines were told has an entry for each answer that says that a record was
/// reserved. It ends at the position at which the log was closed, so what it takes up is what lies
/// between the opening's place and that position.
pub fn closed_runs_are_summed_up<D>()
    ensures records { (tape : D → Option Tape) (moment faults : D → ℕ) (began : Option Tape)
        (opening : Opening) (v : View) (w : LogWriter D) (position : ℕ)
        (script : List (List AskedLine)) (lists : List (List Told))
        → IsRunClosed tape moment faults began opening v w position script lists
        → length (order_from (opening.setup).seg_size 1 script lists)
        ≡ all_reserved_count lists }
    ensures bytes { (tape : D → Option Tape) (moment faults : D → ℕ) (began : Option Tape)
        (opening : Opening) (v : View) (w : LogWriter D) (position : ℕ)
        (script : List (List AskedLine)) (lists : List (List Told))
        → IsRunClosed tape moment faults began opening v w position script lists
        → position ≡ found_position opening + rooms_of (opening.setup).seg_size
        (order_from (opening.setup).seg_size 1 script lists) }
    ensures within { (tape : D → Option Tape) (moment faults : D → ℕ) (began : Option Tape)
        (opening : Opening) (v : View) (w : LogWriter D) (position : ℕ)
        (script : List (List AskedLine)) (lists : List (List Told))
        → IsRunClosed tape moment faults began opening v w position script lists
        → rooms_of (opening.setup).seg_size
        (order_from (opening.setup).seg_size 1 script lists) ≤ 2 ^ 42 }
{}
