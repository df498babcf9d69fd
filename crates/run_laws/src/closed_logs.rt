//! What a closed log assures, proved by functions that do nothing.

ghost use Rattle.std.specs.Prelude.{◌≡◌, ℕ, ◌^◌, ◌<◌, ◌≤◌, ◌++◌, List, Some};
ghost use mathlib.Core.Option.{Option};
ghost use Rattle.segment_disk.specs.Tape.{DiskState, Tape};
ghost use Rattle.wal_page.specs.Order.{Entry};
ghost use Rattle.machine_state.specs.Words.{Opening, end_form, flushed_word, moment_word, order_end};
ghost use Rattle.machine_state.specs.Suited.{BeganSuited, tape_from};
ghost use Rattle.machine_state.specs.Views.{HasAt, FlushPromise, Plain, Reserving, View};
ghost use Rattle.machine_state.specs.Durable.{IsPromised};
ghost use Rattle.machine_state.specs.Sound.{IsSound};
ghost use Rattle.machine_laws.specs.ClosedLogs.{IsLastPass, OrderIsAccounted};
ghost use Rattle.machine_laws.specs.WholeOrders.{LiesBehind};
ghost use Rattle.run_laws.specs.Closed.{IsClosedOn, WasPromised};
ghost use Rattle.run_laws.specs.Surviving.{LeavesFronts, LeavesWordsOf};
ghost use Rattle.run_laws.specs.Timely.{IsTimely};
ghost use Rattle.run_laws.specs.Whole.{HoldsWhole};
ghost use Rattle.run_laws.specs.Rising.{LogsAreOfOrder};
ghost use Rattle.run_laws.specs.Crash.{KeepsFound};

/// Each sound state in which one pass is left, has all numbers and is about nothing is that of a
/// closed log, where the disk tells a tape on which a log may begin.
pub fn last_passes_leave_closed_logs()
    ensures close { (first : DiskState) (opening : Opening) (words : List ℕ) (home : Option Plain)
        (views : List View) (k : IsSound first opening words home views) (id : ℕ) (v : View)
        → HasAt views id v → IsLastPass opening v → (opening.setup).sysid < 2 ^ 64
        → (t : Tape) → tape_from first (k.writer).calls ≡ Some t → BeganSuited opening t
        → IsClosedOn opening k.order t v }
{}

/// Whatever a crash leaves, at any moment since the opening, reads as a front of the whole order:
/// of the entries that lie below the place and those of the log behind them. It holds all that any
/// pass of the log was promised by then.
pub fn closed_logs_survive_crashes()
    ensures survive { (opening : Opening) (order : List Entry) (t : Tape) (v : View)
        → IsClosedOn opening order t v → (front : List Entry) → LiesBehind opening front
        → LeavesFronts opening (front ++ order) t v }
{}

/// Whatever a crash leaves, at any moment since the opening, reads as records that begin with all
/// that lies below its place, promised or not.
pub fn closed_logs_keep_what_was_found()
    ensures keep { (opening : Opening) (order : List Entry) (t : Tape) (v : View)
        → IsClosedOn opening order t v → (front : List Entry) → LiesBehind opening front
        → KeepsFound (opening.setup).seg_size opening.moment (front ++ order) front t }
{}

/// Whatever a crash leaves, at any moment since the opening, holds nothing but words of the log, as
/// its order and its system id give them.
pub fn closed_logs_leave_no_other_words()
    ensures words { (opening : Opening) (order : List Entry) (t : Tape) (v : View)
        → IsClosedOn opening order t v → (front : List Entry) → LiesBehind opening front
        → LeavesWordsOf opening (front ++ order) t }
{}

/// Each promise to a pass came before anything was written of what that pass reserved later.
pub fn no_promise_is_late()
    ensures timely { (opening : Opening) (order : List Entry) (t : Tape) (v : View)
        → IsClosedOn opening order t v → (whole entries : List Entry) (p : FlushPromise)
        → WasPromised v entries p → IsTimely opening whole t entries p }
{}

/// In each sound state no promise names a higher address than the word that is flushed, a later
/// moment than the word that goes with it, or more than was reserved; on any disk.
pub fn promises_name_no_more_than_the_words()
    ensures words { (first : DiskState) (opening : Opening) (words : List ℕ) (home : Option Plain)
        (views : List View) → IsSound first opening words home views → (id : ℕ) (v : View)
        → HasAt views id v → (entries : List Entry) (p : FlushPromise) → WasPromised v entries p
        → IsPromised (flushed_word words) (moment_word words) p }
    ensures reserved { (first : DiskState) (opening : Opening) (words : List ℕ)
        (home : Option Plain)
        (views : List View) (k : IsSound first opening words home views) (id : ℕ) (v : View)
        → HasAt views id v → (entries : List Entry) (p : FlushPromise) → WasPromised v entries p
        → p.upto ≤ end_form opening.setup (order_end opening k.order) }
{}

/// Where all of the order is flushed, the disk holds it for good, whether it failed or not: each
/// image that a crash may leave, and the disk as it is read, decode to all of it and then end.
pub fn closed_logs_are_whole()
    ensures whole { (opening : Opening) (order : List Entry) (t : Tape) (v : View)
        (c : IsClosedOn opening order t v)
        → end_form opening.setup (order_end opening order) ≤ flushed_word c.words
        → (front : List Entry) → LiesBehind opening front
        → HoldsWhole (opening.setup).seg_size t (front ++ order) }
{}

/// What was reserved under one number rises in the order, and is the log of the pass that had the
/// number, be it the last one or one that was taken in; on any disk.
pub fn logs_rise_in_the_order()
    ensures rise { (opening : Opening) (order : List Entry) (words : List ℕ) (views : List View)
        (r : Reserving) → OrderIsAccounted opening order words views r
        → LogsAreOfOrder opening order r }
{}
