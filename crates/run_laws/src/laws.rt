//! What a run of several backends leaves, by what its lines are told; proved by functions that do
//! nothing.

ghost use Rattle.std.specs.Prelude.{◌≡◌, ℕ, ◌+◌, ◌++◌, ◌≤◌, All, List, [], ◌∷◌, length, take};
ghost use mathlib.Core.Option.{Option, some};
ghost use Rattle.segment_disk.specs.Cause.{Rose};
ghost use Rattle.byte_position.specs.Geometry.{IsSegmentSize};
ghost use Rattle.byte_position.specs.Position.{first_position};
ghost use Rattle.wal_types.specs.declared.record.Record.{Record};
ghost use Rattle.wal_page.specs.LogPlace.{IsPlace};
ghost use Rattle.wal_page.specs.Order.{Entry, FollowsFrom, rooms_of};
ghost use Rattle.run_script.specs.Asked.{AskedLine};
ghost use Rattle.run_laws.specs.declared.told.Told.{Told};
ghost use Rattle.run_laws.specs.Counts.{TellsOneFault, own_faults_of, reserved_count};
ghost use Rattle.run_laws.specs.Told.{entries_of, AllDown, EachStaysDown, MayBeFull, RiseInLineOrder, StaysDown, TellsAll, order_from};
ghost use Rattle.segment_disk.specs.Tape.{DiskState};
ghost use Rattle.machine_state.specs.Words.{GoesOnAtPlace, Opening, log_limit};
ghost use Rattle.machine_state.specs.Views.{HasAt, Plain, View};
ghost use Rattle.machine_state.specs.Durable.{one_if_some};
ghost use Rattle.machine_state.specs.Moves.{after_join};
ghost use Rattle.machine_state.specs.Sound.{IsSound};
ghost use Rattle.machine_state.specs.Ordered.{entries_under, FrontEndsAt};
ghost use Rattle.machine_laws.specs.ClosedLogs.{IsLastPass};
ghost use Rattle.machine_state.specs.PassLogs.{PassLog};
ghost use Rattle.run_laws.specs.Counted.{all_reserved_count};
ghost use Rattle.run_laws.specs.Played.{AddsFull, KnowsFault, PassState, PlaysAllLines, PlaysLine, PlaysLines, behind_last_own, pass_state_of};
ghost use Rattle.run_laws.specs.Ended.{HasTakenIn, IsClosedLog, logged_at_end};

/// Lines are played one after another: one more may follow.
pub fn lines_are_played_one_by_one()
    ensures more { (size limit pass : ℕ) (before mid after : PassState) (lines : List AskedLine)
        (told : List Told) (line : AskedLine) (answer : Told)
        → PlaysLines size limit pass before lines told mid
        → PlaysLine size limit pass line.asked answer mid after
        → PlaysLines size limit pass before (lines ++ line ∷ []) (told ++ answer ∷ []) after }
{}

/// The first pass has taken in nobody at first; while it has set no fault, it may take in one pass
/// more, behind the others, that played its lines; and it may go on without reserving, and without
/// setting a fault where it knows one.
pub fn passes_are_taken_in()
    ensures none { (opening : Opening) (v : View) → (v.reserving).number ≡ 0
        → (v.reserving).entries ≡ [] → (v.reserving).joined ≡ [] → HasTakenIn opening v [] [] }
    ensures more { (opening : Opening) (v w : View) (script : List (List AskedLine))
        (lists : List (List Told)) (lines : List AskedLine) (told : List Told)
        → HasTakenIn opening v script lists → (w.reserving).number ≡ 1 + length script
        → (w.reserving).joined ≡ []
        → PlaysAllLines (opening.setup).seg_size (log_limit opening.setup) (1 + length script)
        lines told (pass_state_of w)
        → ((faults : ℕ) → KnowsFault faults (pass_state_of w) → Rose opening.faults faults)
        → (v.writing).down_set ≡ 0
        → HasTakenIn opening (after_join v w) (script ++ lines ∷ []) (lists ++ told ∷ []) }
    ensures still { (opening : Opening) (v new : View) (script : List (List AskedLine))
        (lists : List (List Told)) → HasTakenIn opening v script lists
        → (new.reserving).number ≡ (v.reserving).number
        → (new.reserving).entries ≡ (v.reserving).entries
        → (new.reserving).joined ≡ (v.reserving).joined
        → (v.reserving).seen ≤ (new.reserving).seen
        → ((faults : ℕ) → KnowsFault faults (pass_state_of v)
        → KnowsFault faults (pass_state_of new))
        → ((faults : ℕ) → KnowsFault faults (pass_state_of v)
        → (new.writing).down_set ≡ (v.writing).down_set)
        → HasTakenIn opening new script lists }
{}

/// Where one pass is left of a log, has all numbers and is about nothing, the log is closed.
pub fn last_passes_close_logs()
    ensures close { (first : DiskState) (opening : Opening) (words : List ℕ) (home : Option Plain)
        (views : List View) (k : IsSound first opening words home views) (id : ℕ) (v : View)
        → HasAt views id v → IsLastPass opening v → IsClosedLog opening k.order v }
{}

/// The entries that a pass reserves are those that its lines are told.
pub fn played_entries()
    ensures entries { (size limit pass : ℕ) (lines : List AskedLine) (told : List Told)
        (before after : PassState) → IsSegmentSize size
        → PlaysLines size limit pass before lines told after
        → (after.log).entries ≡ (before.log).entries ++ entries_of size pass lines told }
{}

/// Once a pass is told a fault of the disk, each line behind it is told that fault.
pub fn faults_are_told_again()
    ensures stays { (size limit pass : ℕ) (lines : List AskedLine) (told : List Told)
        (before after : PassState) → PlaysLines size limit pass before lines told after
        → StaysDown told }
    ensures known { (size limit pass faults : ℕ) (lines : List AskedLine) (told : List Told)
        (before after : PassState) → PlaysLines size limit pass before lines told after
        → KnowsFault faults before → AllDown faults told }
    ensures each { (opening : Opening) (v : View) (script : List (List AskedLine))
        (lists : List (List Told)) → HasTakenIn opening v script lists → EachStaysDown lists }
{}

/// The order since the opening is that of what the script's lines are told.
pub fn orders_are_told()
    ensures order { (opening : Opening) (order : List Entry) (v : View)
        → IsClosedLog opening order v → (script : List (List AskedLine))
        (lists : List (List Told)) → HasTakenIn opening v script lists
        → order_from (opening.setup).seg_size 1 script lists ≡ order }
{}

/// What each backend's lines are told to have reserved rises in the order of the lines.
pub fn lines_are_told_in_order()
    ensures rise { (opening : Opening) (order : List Entry) (v : View)
        → IsClosedLog opening order v → (script : List (List AskedLine))
        (lists : List (List Told)) → HasTakenIn opening v script lists
        → RiseInLineOrder (opening.setup).seg_size 1 script lists }
{}

/// What one pass has in an order from a position on ends no later than the order, for a pass that
/// has nothing there too: where it ended before, no later than that position.
pub fn own_entries_end_within()
    ensures within { (size number position behind : ℕ) (order : List Entry)
        → FollowsFrom size position order → behind ≤ position
        → behind_last_own size behind (entries_under number order)
        ≤ position + rooms_of size order }
{}

/// There are as many entries since the opening as answers that say that a record was reserved: of
/// all backends together, and of each.
pub fn records_are_counted()
    ensures all { (opening : Opening) (order : List Entry) (v : View)
        → IsClosedLog opening order v → (script : List (List AskedLine))
        (lists : List (List Told)) → HasTakenIn opening v script lists
        → length order ≡ all_reserved_count lists }
    ensures one { (size limit pass : ℕ) (lines : List AskedLine) (told : List Told)
        (before after : PassState) → PlaysLines size limit pass before lines told after
        → length (entries_of size pass lines told) ≡ reserved_count told }
{}

/// No more than one line of all backends is told that its own device call failed; and one is, where
/// a line is told that the disk had failed before.
pub fn faults_are_told_once()
    ensures once { (opening : Opening) (order : List Entry) (v : View)
        → IsClosedLog opening order v → (script : List (List AskedLine))
        (lists : List (List Told)) → HasTakenIn opening v script lists → TellsOneFault lists }
    ensures own { (size limit pass : ℕ) (lines : List AskedLine) (told : List Told)
        (before after : PassState) → PlaysLines size limit pass before lines told after
        → before.set ≡ 0 → own_faults_of told ≡ one_if_some after.set }
{}

/// A line that is told that the log is full had too few bytes left behind a front of the order,
/// which has what the line's pass had reserved, and nothing that it reserved later.
pub fn full_has_its_cause()
    ensures cause { (opening : Opening) → IsPlace (opening.setup).seg_size opening.place
        → (order : List Entry) (last pass : ℕ) → GoesOnAtPlace opening order
        → (all : List Entry) (value : Record) (free : ℕ) (before after : PassLog)
        → AddsFull (opening.setup).seg_size (log_limit opening.setup) pass value free
        before after
        → All (FrontEndsAt opening pass order all) after.stops
        → take (length before.entries) all ≡ before.entries
        → MayBeFull (logged_at_end opening order last) pass
        (behind_last_own (opening.setup).seg_size
        (first_position (opening.setup).seg_size) before.entries) value free }
{}

/// Each line is told what it may be told of the log: `last` is no less than the count of faults
/// that the writer met, where it met one.
pub fn lines_are_told_as_they_may_be()
    ensures tells { (opening : Opening) (order : List Entry) (v : View)
        (c : IsClosedLog opening order v) (script : List (List AskedLine))
        (lists : List (List Told)) → HasTakenIn opening v script lists → (last : ℕ)
        → ((faults : ℕ) → (c.writer).fault ≡ some faults → faults ≤ last)
        → TellsAll (logged_at_end opening order last) 1 script lists }
{}
