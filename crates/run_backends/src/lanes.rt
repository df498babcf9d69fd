// Lanes are split off the log's first pass, work side by side, and are taken in again. Backend b,
// from 0, has the pass with number b + 1. While lanes work, each is one thread's, the first pass
// makes no call, and the log and the gate are all that they share. Each number of the log is the
// first pass's or a lane's all the time. Behind the join the first pass has all numbers, and with
// them what each backend's pass reserved and was promised, in the order of the backends.
ghost use Rattle.std.specs.Prelude.{◌≡◌, ℕ, ◌-◌, ◌<◌, ◌≤◌, All, List, length, map, slice_index_or, vec_len};
ghost use Rattle.machine_laws.specs.ClosedLogs.{HasAllNumbers};
ghost use Rattle.wal_rule.specs.Passes.{view_of_pass};
ghost use Rattle.wal_log.specs.Logs.{IsPassOfLog, opening_of_log, setup_of_log};
ghost use Rattle.run_script.specs.Asked.{AskedLine};
ghost use Rattle.run_laws.specs.Ended.{HasTakenIn};
ghost use Rattle.wal_log.specs.Sharing.{ShareNumbers};
ghost use Rattle.run_script.specs.ReplayReading.{AreBackendsOf};
ghost use Rattle.run_backends.specs.Backends.{HaveToldEach, lists_of, scripts_of};
ghost use Rattle.run_backends.specs.Lanes.{BegunLanes, HasBackendRoom, HasLaneRoom, IsEndOfAll, IsFreshLane, IsIdle, IsReadyLane, MayBeTakenIn, PlayedLanes, PlaysLane, view_of_lane};
ghost use Rattle.run_backends.specs.declared.lane.Lane.{Lane};

use crate::backend::AnsweredLines;
use crate::gate::Gate;
use crate::lane::Lane;
use crate::session::Session;
use segment_disk::Disk;
use std::sync::Wait;
use std::thread;
use std::thread::Threads;
use wal_log::shared_numbers::passes_share_numbers;
use wal_log::{Pass, Wal};
use wal_types::Lsn;

// A lane for each backend, whose passes have the least of the first pass's spare numbers, in the
// room there is for them; `start` is the log's.
pub(crate) fn begin_lanes<'a, D: Disk>(
    log: &Wal<D>,
    first: &mut Pass,
    backends: Vec<AnsweredLines<'a>>,
    mut lanes: Vec<Lane<'a>>,
    start: Lsn,
) -> Vec<Lane<'a>>
    // The first pass has a spare number for each backend, each backend has room for its answers,
    // and `lanes` has room for them all.
    requires pass { IsPassOfLog log.now first.old }
    requires spare { vec_len backends ≤ first.old.spare_end - first.old.spare }
    requires room { HasLaneRoom backends lanes }
    requires start { start.0 ≡ (setup_of_log log.now).seg_size }
    // Each lane has its backend's lines, and a pass with the next number that has reserved nothing.
    ensures count { vec_len result ≡ vec_len backends.entry }
    ensures lanes { (script : List (List AskedLine))
        → AreBackendsOf script (scripts_of backends.entry.items)
        → BegunLanes log.now first.old.spare script result.items }
    ensures fresh { All (IsFreshLane log.now) result.items }
    // No number is lost, and a first pass that had reserved nothing has reserved nothing still.
    ensures numbers { HasAllNumbers (setup_of_log log.now).passes
        (view_of_pass first.old).reserving
        → ShareNumbers (setup_of_log log.now).passes (view_of_pass first.new)
        (map (λ lane. view_of_lane lane) result.items) }
    ensures idle { IsIdle (view_of_pass first.old) → IsIdle (view_of_pass first.new) }
    ensures pass { IsPassOfLog log.now first.new }
{
    passes_share_numbers();
    for backend in backends {
        let pass = log.split(first);
        lanes.push_reserved(Lane {
            session: Session { pass, end: start },
            backend,
        });
    }
    lanes
}

// Each lane plays its lines in a thread of its own, where one can be made.
pub(crate) fn run_lanes<R: Threads + Wait + Sync, D: Disk + Send, G: Gate + Sync>(
    rt: &R,
    log: &Wal<D>,
    gate: &G,
    lanes: &mut [Lane<'_>],
)
    requires ready { All (IsReadyLane log.now) lanes.old }
    ensures same { length lanes.new ≡ length lanes.old }
    ensures each { (k : ℕ) (d : Lane) → k < length lanes.old
        → PlaysLane log.now (slice_index_or lanes.old k d) (slice_index_or lanes.new k d) }
{
    let threads = lanes.len().max(1);
    thread::for_each_mut(rt, lanes, threads, &|_, lane| lane.play(rt, log, gate));
}

/// The backends of lanes that were taken in, and the greatest end of a record that their lines were
/// told; the log's start where they were told none.
#[derive(Drop)]
pub(crate) struct Rejoined<'a> {
    pub backends: Vec<AnsweredLines<'a>>,
    pub end: Lsn,
}

// Takes the lanes in again, in order, and puts their backends into the room there is; `start` is
// the log's.
pub(crate) fn join_lanes<'a, D: Disk>(
    log: &Wal<D>,
    first: &mut Pass,
    lanes: Vec<Lane<'a>>,
    mut backends: Vec<AnsweredLines<'a>>,
    start: Lsn,
) -> Rejoined<'a>
    // The lanes' passes are about nothing and share the log's numbers with the first; `backends`
    // has room for all.
    requires pass { IsPassOfLog log.now first.old }
    requires lanes { All (MayBeTakenIn log.now) lanes.items }
    requires numbers { ShareNumbers (setup_of_log log.now).passes (view_of_pass first.old)
        (map (λ lane. view_of_lane lane) lanes.items) }
    requires room { HasBackendRoom lanes backends }
    requires start { start.0 ≡ (setup_of_log log.now).seg_size }
    // What the lines were told is what stands in the logs that the first pass took in, which set no
    // fault itself.
    ensures taken { (script : List (List AskedLine))
        → PlayedLanes log.now 1 script lanes.entry.items → IsIdle (view_of_pass first.old)
        → HasTakenIn (opening_of_log log.now) (view_of_pass first.new) script
        (lists_of result.backends.items)
        × (((view_of_pass first.new).writing).down_set ≡ 0) }
    ensures lines { (script : List (List AskedLine))
        → PlayedLanes log.now 1 script lanes.entry.items
        → HaveToldEach script result.backends.items }
    // The end told is at or above each that a line was told, and the first pass has seen it
    // reserved or it is the log's start; so a flush may go up to it.
    ensures end { IsEndOfAll (setup_of_log log.now) result.end.0 (lists_of result.backends.items)
        (view_of_pass first.new) }
    // Nobody else has a pass of the log any more.
    ensures numbers { HasAllNumbers (setup_of_log log.now).passes
        (view_of_pass first.new).reserving }
    ensures pass { IsPassOfLog log.now first.new }
{
    passes_share_numbers();
    let mut end = start;
    for lane in lanes {
        let Lane { session, backend } = lane;
        log.join(first, session.pass);
        end = Lsn(end.0.max(session.end.0));
        backends.push_reserved(backend);
    }
    Rejoined { backends, end }
}
