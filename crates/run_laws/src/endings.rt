//! How a run ends where its disk did not fail, and why its log was full; proved by functions that
//! do nothing.

ghost use Rattle.std.specs.Prelude.{◌≡◌, ℕ, ◌+◌, ◌++◌, ◌^◌, ◌<◌, ◌≤◌, Contains, IfSome, List};
ghost use mathlib.Core.Option.{none};
ghost use Rattle.wal_page.specs.Order.{Entry};
ghost use Rattle.run_script.specs.Asked.{AskedLine};
ghost use Rattle.run_laws.specs.declared.told.Told.{Told};
ghost use Rattle.run_laws.specs.Told.{IsFullAnswer, IsRefused, SomeTold};
ghost use Rattle.run_laws.specs.Rooms.{all_rooms_asked};
ghost use Rattle.run_laws.specs.WholeOrders.{IsWhole};
ghost use Rattle.machine_state.specs.Words.{Opening, end_form, flushed_word, found_position, log_limit, order_end};
ghost use Rattle.machine_state.specs.Views.{FlushPromise, View};
ghost use Rattle.machine_state.specs.Suited.{BeganSuited, tape_from};
ghost use Rattle.machine_laws.specs.WholeOrders.{LiesBehind};
ghost use Rattle.run_laws.specs.Ended.{HasTakenIn, IsClosedLog};
ghost use Rattle.run_laws.specs.Reached.{ReachesAll};

/// Where the disk did not fail, a line is refused only where some line found the log full.
pub fn refusals_without_a_fault()
    ensures full { (opening : Opening) (order : List Entry) (v : View)
        (c : IsClosedLog opening order v) (script : List (List AskedLine))
        (lists : List (List Told)) → HasTakenIn opening v script lists
        → (c.writer).fault ≡ none → SomeTold IsRefused lists → SomeTold IsFullAnswer lists }
{}

/// Where a line found the log full, the script's records take up more than the log has for records
/// behind the place at which it was opened, on any disk.
pub fn full_logs_have_too_much_asked_of_them()
    ensures more { (opening : Opening) (order : List Entry) (v : View)
        → IsClosedLog opening order v → (script : List (List AskedLine))
        (lists : List (List Told)) → HasTakenIn opening v script lists
        → SomeTold IsFullAnswer lists → log_limit opening.setup
        < found_position opening + all_rooms_asked (opening.setup).seg_size script }
{}

/// Where the disk did not fail, a promise to the first pass of all that the lines were told of
/// leaves all of the order flushed: what was found is so from the opening on.
pub fn last_flush_reaches()
    ensures reach { (opening : Opening) (order : List Entry) (v : View)
        (c : IsClosedLog opening order v) (script : List (List AskedLine))
        (lists : List (List Told)) → HasTakenIn opening v script lists → (c.writer).fault ≡ none
        → (p : FlushPromise) → Contains (v.writing).promises p
        → ReachesAll (opening.setup).seg_size p.upto lists
        → end_form opening.setup (order_end opening order) ≤ flushed_word c.words }
{}

/// Then, where the disk tells what it holds, and held what a log may begin on, all of the order is
/// there for good.
pub fn runs_leave_whole_logs()
    ensures whole { (opening : Opening) (order : List Entry) (v : View)
        (c : IsClosedLog opening order v) (front : List Entry) → LiesBehind opening front
        → (script : List (List AskedLine)) (lists : List (List Told))
        → HasTakenIn opening v script lists → (c.writer).fault ≡ none
        → (p : FlushPromise) → Contains (v.writing).promises p
        → ReachesAll (opening.setup).seg_size p.upto lists
        → (opening.setup).sysid < 2 ^ 64
        → IfSome (tape_from c.first (c.writer).calls) (BeganSuited opening)
        → IsWhole (opening.setup).seg_size (tape_from c.first (c.writer).calls)
        (front ++ order) }
{}
