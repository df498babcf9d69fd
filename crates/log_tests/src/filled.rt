//! Logs on disks in memory that backends fill.

ghost use Rattle.std.specs.Prelude.{◌≡◌, IfOk};
ghost use Rattle.wal_rule.specs.Passes.{view_of_pass};
ghost use Rattle.machine_state.specs.Opened.{first_view};
ghost use Rattle.wal_log.specs.Logs.{IsPassOfLog, opening_of_log};

use log_workers::{Job, work_side_by_side};
use segment_disk::MemDisk;
use std::alloc::Global;
use std::sync::Wait;
use std::test::Fail;
use std::thread::Threads;
use wal_log::{Closed, Found, Pass, Setup, Wal};

/// Segments of 1 MiB, of which the log may fill two, and a ring of four pages.
pub const SETUP: Setup = Setup {
    seg_size: 1_048_576,
    ring_pages: 4,
    cap_segments: 2,
    sysid: 1,
    passes: 4,
};

/// The jobs of each backend with what they were told, and the closed log.
#[derive(Drop)]
pub struct Ended {
    pub work: Vec<Vec<Job>>,
    pub closed: Closed<MemDisk>,
}

/// A backend for each list of jobs, side by side in so many threads, on a disk that fails at these
/// of its counted calls.
pub fn filled<R: Threads + Wait + Sync>(
    rt: &R,
    alloc: Global,
    setup: Setup,
    fail: Vec<u64>,
    work: Vec<Vec<Job>>,
    threads: usize,
) -> Result<Ended, Fail> {
    let (log, mut first) = open(alloc, setup, fail)?;
    if (first.spare() as usize) < work.len() {
        return Err(Fail::from("a spare pass for each backend"));
    }
    let work = work_side_by_side(rt, alloc, &log, &mut first, work, threads)?;
    let closed = log.close(first);
    Ok(Ended { work, closed })
}

/// A log on a disk that holds nothing and has room for the calls of 400 commits, or of six segments
/// that are settled twice, with its first pass.
pub fn open(alloc: Global, setup: Setup, fail: Vec<u64>) -> Result<(Wal<MemDisk>, Pass), Fail>
    ensures pass { IfOk result (λ r. IsPassOfLog r.0 r.1) }
    ensures view { IfOk result (λ r. view_of_pass r.1 ≡ first_view (opening_of_log r.0)) }
{
    let disk = MemDisk::new(alloc, 8, 3000, fail, Vec::new(alloc))?;
    match Wal::open(alloc, disk, setup) {
        Ok(opened) => Ok(opened),
        Err(_) => Err(Fail::from("a log on an empty disk")),
    }
}

/// The log on a disk, gone on with by a backend for each list of jobs, side by side in so many
/// threads, and what was found of it.
pub fn gone_on<R: Threads + Wait + Sync>(
    rt: &R,
    alloc: Global,
    setup: Setup,
    disk: MemDisk,
    work: Vec<Vec<Job>>,
    threads: usize,
) -> Result<(Found, Ended), Fail> {
    let (log, mut first, found) = reopen(alloc, setup, disk)?;
    if (first.spare() as usize) < work.len() {
        return Err(Fail::from("a spare pass for each backend"));
    }
    let work = work_side_by_side(rt, alloc, &log, &mut first, work, threads)?;
    let closed = log.close(first);
    Ok((found, Ended { work, closed }))
}

// The log on a disk, with its first pass, and what was found of it.
fn reopen(alloc: Global, setup: Setup, disk: MemDisk) -> Result<(Wal<MemDisk>, Pass, Found), Fail>
    ensures pass { IfOk result (λ r. IsPassOfLog r.0 r.1) }
    ensures view { IfOk result (λ r. view_of_pass r.1 ≡ first_view (opening_of_log r.0)) }
{
    match Wal::reopen(alloc, disk, setup) {
        Ok(reopened) => Ok(reopened),
        Err(_) => Err(Fail::from("a log to go on with")),
    }
}
