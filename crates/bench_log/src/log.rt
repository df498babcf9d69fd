//! The log on which threads work.

use crate::asked::{Options, Work};
use crate::trouble::Trouble;
use log_workers::{CommitKind, Insertion, Job, LogAnswer, LogCall, commits, work_side_by_side};
use segment_disk::Disk;
use std::alloc::Global;
use std::sync::Wait;
use std::thread::Threads;
use std::time::{Duration, Instant};
use wal_log::{Setup, Wal};
use wal_spelling::Body;
use wal_types::{BlockList, Bytes, Record, Xid};

/// How many commits or inserts were told, and how long all of them took.
#[derive(Clone, Copy, Debug, PartialEq, Eq)]
pub struct Measurement {
    pub done: u64,
    pub time: Duration,
}

/// Does all that is asked, on a log on this disk. In the time is no making of a record nor of the
/// first segment. Commits ahead of the disk are told once one more thread, which flushes behind
/// them, has nothing left to flush. Inserts are not flushed at the end.
pub fn measured<D: Disk + Drop + Send, R: Threads + Wait + Sync>(
    rt: &R,
    clock: HostRuntime,
    alloc: Global,
    disk: D,
    asked: Options,
) -> Result<Measurement, Trouble> {
    let work = work(alloc, asked)?;
    let opening = opening(alloc)?;
    let Ok((log, mut first)) = Wal::open(alloc, disk, setup(asked)) else {
        return Err(Trouble::Open);
    };
    if (first.spare() as usize) < opening.len() {
        return Err(Trouble::Open);
    }
    let opening = work_side_by_side(rt, alloc, &log, &mut first, opening, 1)?;
    if (first.spare() as usize) < work.len() || all_told(&opening, 1) != 1 {
        return Err(Trouble::Open);
    }
    let threads = work.len();
    let begun = Instant::now(&clock)?;
    let work = work_side_by_side(rt, alloc, &log, &mut first, work, threads)?;
    let time = begun.elapsed(&clock)?;
    let done = all_told(&work, asked.times);
    Ok(Measurement { done, time })
}

// A pass for each backend, one for who flushes behind, one for the commit before them, since a pass
// that is joined is not split off again, and the first one.
fn setup(asked: Options) -> Setup {
    Setup {
        seg_size: 1 << 24,
        ring_pages: 64,
        cap_segments: 4096,
        sysid: 1,
        passes: asked.backends.saturating_add(3),
    }
}

// A commit, for which the first segment is made.
fn opening(alloc: Global) -> Result<Vec<Vec<Job>>, Trouble> {
    let Ok(commits) = commits(alloc, CommitKind::Hard, 0, 1) else {
        return Err(Trouble::Memory);
    };
    let mut work = Vec::new(alloc);
    work.push(commits)?;
    Ok(work)
}

// The jobs of each thread. Behind them all the thread that flushes behind, if there is something to
// flush.
fn work(alloc: Global, asked: Options) -> Result<Vec<Vec<Job>>, Trouble> {
    let mut work = Vec::new(alloc);
    for backend in 0..asked.backends {
        work.push(jobs(alloc, asked, backend)?)?;
    }
    if asked.work == Work::Commits(CommitKind::Async) {
        work.push(one_job(alloc, LogCall::FlushBehind)?)?;
    }
    Ok(work)
}

// A backend's commits, of transactions of its own, or its one record and how often it inserts that.
fn jobs(alloc: Global, asked: Options, backend: u32) -> Result<Vec<Job>, Trouble> {
    match asked.work {
        Work::Commits(kind) => {
            let first = backend.wrapping_mul(asked.times).wrapping_add(1);
            commits(alloc, kind, first, asked.times).map_err(|_| Trouble::Memory)
        }
        Work::Inserts { bytes } => {
            one_job(alloc, LogCall::Inserts(record(alloc, bytes)?, asked.times))
        }
    }
}

fn one_job(alloc: Global, call: LogCall) -> Result<Vec<Job>, Trouble> {
    let mut jobs = Vec::new(alloc);
    jobs.push(Job::of(call))?;
    Ok(jobs)
}

// A record with so many bytes of main data.
fn record(alloc: Global, bytes: u32) -> Result<Insertion, Trouble> {
    let record = Record {
        xid: Xid(1),
        rmid: 1,
        info: 0,
        origin: None,
        top_xid: None,
        blocks: BlockList::of(Vec::new(alloc)),
        main: Bytes::of(vec![in alloc; 0x5a; bytes as usize]?),
    };
    match Body::assemble(alloc, &record) {
        Ok(body) => Ok(Insertion::of(body)),
        Err(_) => Err(Trouble::Memory),
    }
}

// How many commits and inserts were told, of jobs that insert so many times; none where a flush
// behind them was refused.
fn all_told(work: &[Vec<Job>], times: u32) -> u64 {
    let mut count = 0u64;
    for jobs in work {
        if jobs.iter().any(is_behind_refused) {
            return 0;
        }
        count = count.wrapping_add(told(jobs, times));
    }
    count
}

fn told(jobs: &[Job], times: u32) -> u64 {
    let commits = jobs.iter().filter(|job| is_committed(job)).count() as u64;
    let inserts = jobs.iter().filter(|job| is_inserted(job)).count() as u64;
    commits.wrapping_add(inserts.wrapping_mul(u64::from(times)))
}

fn is_committed(job: &Job) -> bool {
    matches!(
        job.told,
        Some(LogAnswer::Committed(Ok(_)) | LogAnswer::CommittedAsync(Ok(_)))
    )
}

fn is_inserted(job: &Job) -> bool {
    matches!(job.told, Some(LogAnswer::Inserted(Ok(_))))
}

fn is_behind_refused(job: &Job) -> bool {
    matches!(job.told, Some(LogAnswer::FlushedBehind(Err(_))))
}
