// How far records are reserved, as a watcher sees it (PostgreSQL's xlog.c,
// WaitXLogInsertionsToFinish, which reads CurrBytePos before it looks at a lock). The position word
// (0) is loaded once, also while somebody has it locked: what is about to be reserved is not
// reserved yet, so the lock bit is dropped. Nothing is stored, and the caller need hold nothing.
// What was seen stays reserved, and the view keeps it. A record that is reserved later lies behind
// it; so a watch that visits the locks after this load need not know of that record.
ghost use Rattle.std.specs.Prelude.{◌≡◌, ◌%◌, ◌<◌, ◌≤◌, ◌^◌};
ghost use Rattle.machine_state.specs.Moves.{unlocked};
ghost use Rattle.machine_state.specs.Words.{end_form};
ghost use Rattle.machine_state.specs.Steps.{load_position};
ghost use Rattle.wal_rule.specs.Stepping.{Meets};
ghost use Rattle.wal_rule.specs.SeatedPasses.{HasView, setup_of, view_of};
ghost use Rattle.insert_locks.specs.Watching.{SeesPosition, SeesTo, with_sight};

use segment_disk::Disk;
use wal_rule::SeatedPass;

/// Loads the position, and tells the address at which a watch for another one ends: that one, or
/// the end of what is reserved where that is less. What is reserved reaches the log's start at
/// least.
pub fn see_end<'p, D: Disk>(seated: &mut SeatedPass<'p, D>, upto: u64) -> u64
    // What is seen now is the position that was met: no less than what was seen before, and at or
    // behind the log's start. Nothing else of the view has changed.
    ensures sees { SeesTo (setup_of seated.old) upto result (view_of seated.new).reserving.seen
        (view_of seated.old) }
    ensures begun { (setup_of seated.old).seg_size
        ≤ end_form (setup_of seated.old) (view_of seated.new).reserving.seen }
    ensures met { SeesPosition (view_of seated.old) (view_of seated.new).reserving.seen }
    ensures view { HasView (with_sight (view_of seated.new).reserving.seen (view_of seated.old))
        seated.old seated.new }
{
    upto.min(see_reserved(seated))
}

/// Loads the position, and tells the end of what is reserved, which is a multiple of 8 as each
/// record's end is.
pub fn see_reserved<'p, D: Disk>(seated: &mut SeatedPass<'p, D>) -> u64
    // What is seen is the position that was met. Nothing else of the view has changed.
    ensures rises { (view_of seated.old).reserving.seen ≤ (view_of seated.new).reserving.seen }
    ensures end { result ≡ end_form (setup_of seated.old) (view_of seated.new).reserving.seen }
    ensures begun { (setup_of seated.old).seg_size ≤ result }
    ensures whole { result % 8 ≡ 0 }
    ensures met { SeesPosition (view_of seated.old) (view_of seated.new).reserving.seen }
    ensures view { HasView (with_sight (view_of seated.new).reserving.seen (view_of seated.old))
        seated.old seated.new }
{
    let met = see_position(seated);
    seated.shape().geometry().to_end_lsn(met - met % 2).0
}

// Loads the position: what is seen then is the position met, since no pass has seen more.
fn see_position<'p, D: Disk>(seated: &mut SeatedPass<'p, D>) -> u64
    ensures view { HasView (with_sight (unlocked result) (view_of seated.old))
        seated.old seated.new }
    ensures rises { (view_of seated.old).reserving.seen ≤ unlocked result }
    ensures begun { (setup_of seated.old).seg_size
        ≤ end_form (setup_of seated.old) (unlocked result) }
    ensures whole { end_form (setup_of seated.old) (unlocked result) % 8 ≡ 0 }
    ensures low { result < 2 ^ 60 }
    ensures met { Meets (view_of seated.old) load_position result }
{
    seated.load_position()
}
