// The backends of a run, from the log's opening to its close. Room is made before the log is
// opened, so that nothing takes memory with a log open. Then, with the first pass in hand: a pass
// is split off for each backend, each plays its lines in its thread, all passes are taken in again,
// the first one flushes up to the greatest end that was told, and the log is closed. No line asked
// for that flush, so none is told of it: it is for records that no line has flushed.
ghost use Rattle.std.specs.Prelude.{◌≡◌, ◌+◌, ◌<◌, IfOk, List, length, map, vec_len};
ghost use Rattle.wal_rule.specs.Passes.{view_of_pass};
ghost use Rattle.machine_state.specs.Opened.{first_view};
ghost use Rattle.wal_log.specs.Logs.{IsPassOfLog, opening_of_log, setup_of_log};
ghost use Rattle.run_script.specs.Asked.{AskedLine};
ghost use Rattle.run_script.specs.ReplayReading.{AreBackendsOf};
ghost use Rattle.run_backends.specs.Backends.{IsRoomFor, scripts_of};
ghost use Rattle.run_backends.specs.Playing.{HasPlayed};

use crate::backend::AnsweredLines;
use crate::gate::Gate;
use crate::lane::Lane;
use crate::lanes::{Rejoined, begin_lanes, join_lanes, run_lanes};
use run_laws::KeptTold;
use run_script::Line;
use segment_disk::Disk;
use std::alloc::{AllocError, Global};
use std::sync::Wait;
use std::thread::Threads;
use wal_log::numbers::calls_keep_numbers;
use wal_log::shared_numbers::passes_share_numbers;
use wal_log::{Closed, Pass, Wal};
use wal_rule::numbers::seats_keep_numbers;
use wal_types::Lsn;

/// All room that backends take while they play: taken before the log is opened.
#[derive(Drop)]
pub struct Room<'a> {
    pub backends: Vec<AnsweredLines<'a>>,
    lanes: Vec<Lane<'a>>,
    played: Vec<AnsweredLines<'a>>,
    /// For who keeps what lines were told without the lines.
    told: Vec<Vec<KeptTold>>,
}

impl<'a> Room<'a> {
    /// Room for backends with these lines.
    pub fn of(alloc: Global, scripts: Vec<Vec<Line<'a>>>) -> Result<Room<'a>, AllocError>
        ensures { IfOk result (IsRoomFor scripts.entry.items) }
    {
        let lanes = Vec::with_capacity(alloc, scripts.len())?;
        let played = Vec::with_capacity(alloc, scripts.len())?;
        let told = Vec::with_capacity(alloc, scripts.len())?;
        let mut backends = Vec::with_capacity(alloc, scripts.len())?;
        for lines in scripts {
            backends.push_reserved(AnsweredLines::of(alloc, lines)?);
        }
        Ok(Room {
            backends,
            lanes,
            played,
            told,
        })
    }
}

/// What a run leaves: its closed log, and its backends with what their lines were told.
#[derive(Drop)]
pub struct PlayedRun<'a, D> {
    pub closed: Closed<D>,
    pub backends: Vec<AnsweredLines<'a>>,
    /// Room for what each backend's lines were told.
    pub told: Vec<Vec<KeptTold>>,
}

/// Plays the lines of all backends side by side, by passes that are split off the first one and
/// taken in again; flushes up to the greatest end that a line was told, which no line asked for;
/// and closes the log. `start` is the log's. Nothing takes memory.
pub fn play_backends<'a, R: Threads + Wait + Sync, D: Disk + Send, G: Gate + Sync>(
    rt: &R,
    log: Wal<D>,
    mut first: Pass,
    room: Room<'a>,
    gate: &G,
    start: Lsn,
) -> PlayedRun<'a, D>
    // The first pass is as the log's opening left it, and there are as many other numbers as
    // backends.
    requires pass { IsPassOfLog log first }
    requires fresh { view_of_pass first ≡ first_view (opening_of_log log) }
    requires passes { (setup_of_log log).passes ≡ 1 + vec_len room.backends }
    requires room { (scripts : _) × IsRoomFor scripts room }
    requires start { start.0 ≡ (setup_of_log log).seg_size }
    // The backends' lines do what some script asks for, so the records can be inserted.
    requires asked { (script : List (List AskedLine))
        × AreBackendsOf script (scripts_of room.backends.items) }
    // Each line was told an answer, the answers are what the passes' logs came to have, the log was
    // closed, and the first pass was promised all that was told or knows of a failed disk.
    ensures played { (script : List (List AskedLine))
        → AreBackendsOf script (scripts_of room.entry.backends.items)
        → HasPlayed D.tape D.moment D.faults log script result.backends.items result.closed }
    // The room for what they were told comes back as it is.
    ensures told { result.told ≡ room.entry.told }
{
    calls_keep_numbers();
    passes_share_numbers();
    seats_keep_numbers();
    let Room {
        backends,
        lanes,
        played,
        told,
    } = room;
    let mut lanes = begin_lanes(&log, &mut first, backends, lanes, start);
    run_lanes(rt, &log, gate, &mut lanes);
    let Rejoined { backends, end } = join_lanes(&log, &mut first, lanes, played, start);
    // No line asked for this flush, so none is told its answer.
    let _ = log.flush(rt, &mut first, end);
    PlayedRun {
        closed: log.close(first),
        backends,
        told,
    }
}
