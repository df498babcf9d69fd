//! A standby's log, gone on with as a primary's.

ghost use Rattle.std.specs.Prelude.{◌≡◌, IfOk};
ghost use Rattle.wal_rule.specs.Passes.{view_of_pass};
ghost use Rattle.machine_state.specs.Opened.{first_view};
ghost use Rattle.wal_log.specs.Logs.{IsPassOfLog, opening_of_log};

use crate::log::SYSTEM_ID;
use log_workers::{CommitKind, commits, work_side_by_side};
use segment_disk::MemDisk;
use std::alloc::Global;
use std::sync::Wait;
use std::test::Fail;
use std::thread::Threads;
use wal_log::{Pass, Setup, Wal};

// Segments of 1 MiB, of which the log may fill three, and a ring of four pages.
const SETUP: Setup = Setup {
    seg_size: 1_048_576,
    ring_pages: 4,
    cap_segments: 3,
    sysid: SYSTEM_ID,
    passes: 2,
};

/// The disk of a log, with so many commits more.
pub(crate) fn with_commits<R: Threads + Wait + Sync>(
    rt: &R,
    alloc: Global,
    disk: MemDisk,
    count: u32,
) -> Result<MemDisk, Fail> {
    let (log, mut first) = reopen(alloc, disk)?;
    if first.spare() < 1 {
        return Err(Fail::from("a spare pass"));
    }
    let mut work = Vec::new(alloc);
    work.push(commits(alloc, CommitKind::Hard, 700, count)?)?;
    work_side_by_side(rt, alloc, &log, &mut first, work, 1)?;
    let closed = log.close(first);
    Ok(closed.disk)
}

fn reopen(alloc: Global, disk: MemDisk) -> Result<(Wal<MemDisk>, Pass), Fail>
    ensures pass { IfOk result (λ r. IsPassOfLog r.0 r.1) }
    ensures view { IfOk result (λ r. view_of_pass r.1 ≡ first_view (opening_of_log r.0)) }
{
    match Wal::reopen(alloc, disk, SETUP) {
        Ok((log, first, _found)) => Ok((log, first)),
        Err(_) => Err(Fail::from("a log to go on with")),
    }
}
