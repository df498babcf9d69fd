//! What a crash leaves of what the lines of several backends are told, and how late receipts are;
//! proved by functions that do nothing.

ghost use Rattle.std.specs.Prelude.{◌++◌, List};
ghost use Rattle.segment_disk.specs.Tape.{Tape};
ghost use Rattle.wal_page.specs.Order.{Entry};
ghost use Rattle.run_script.specs.Asked.{AskedLine};
ghost use Rattle.run_laws.specs.declared.told.Told.{Told};
ghost use Rattle.run_laws.specs.Crash.{EachIsTimely, SurvivesCrashes};
ghost use Rattle.machine_state.specs.Words.{Opening};
ghost use Rattle.machine_state.specs.Views.{View};
ghost use Rattle.machine_laws.specs.WholeOrders.{LiesBehind};
ghost use Rattle.run_laws.specs.Closed.{IsClosedOn};
ghost use Rattle.run_laws.specs.Ended.{HasTakenIn};

/// Whatever a crash leaves, at any moment since the opening, reads as a front of the whole order,
/// of what was found and what the run reserved, each record whole, which holds all that any line
/// was told to be durable by then. It holds also where the disk failed.
pub fn told_records_survive()
    ensures survive { (opening : Opening) (order : List Entry) (t : Tape) (v : View)
        → IsClosedOn opening order t v → (front : List Entry) → LiesBehind opening front
        → (script : List (List AskedLine)) (lists : List (List Told))
        → HasTakenIn opening v script lists
        → SurvivesCrashes (opening.setup).seg_size opening.moment (front ++ order) lists t }
{}

/// Each moment that a line is told is one of the disk's, and comes before anything is written of
/// what the later lines of its backend reserved.
pub fn no_told_moment_is_late()
    ensures timely { (opening : Opening) (order : List Entry) (t : Tape) (v : View)
        → IsClosedOn opening order t v → (whole : List Entry) (script : List (List AskedLine))
        (lists : List (List Told)) → HasTakenIn opening v script lists
        → EachIsTimely (opening.setup).seg_size opening.moment whole t 1 script lists }
{}
