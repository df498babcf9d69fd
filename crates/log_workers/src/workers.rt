// Workers are split off a log's first pass, work side by side, and are taken in again. While they
// work, each is one thread's at a time, the first pass makes no call, and the log is all that they
// share. Each number of the log is the first pass's or a worker's all the time; so the first pass
// has all of them again behind the join, and may close the log. If memory runs out between, passes
// are lost with their numbers, and the log is not closed.
ghost use Rattle.std.specs.Prelude.{◌≡◌, ◌-◌, ◌≤◌, IfOk, OnOk, map, vec_len};
ghost use Rattle.machine_laws.specs.ClosedLogs.{HasAllNumbers};
ghost use Rattle.wal_rule.specs.Passes.{view_of_pass};
ghost use Rattle.wal_log.specs.Logs.{IsPassOfLog, setup_of_log};
ghost use Rattle.wal_log.specs.Sharing.{ShareNumbers};
ghost use Rattle.log_workers.specs.Workers.{AreWorkersOf, KeepPasses, view_of_worker};

use crate::worker::{Job, Worker};
use segment_disk::Disk;
use std::alloc::{AllocError, Global};
use std::sync::Wait;
use std::sync::atomic::AtomicU64;
use std::thread;
use std::thread::Threads;
use wal_log::numbers::calls_keep_numbers;
use wal_log::shared_numbers::passes_share_numbers;
use wal_log::{Pass, Wal};

/// Each backend does its list of jobs, with a pass that is split off the first one and taken in
/// again: side by side in so many threads, where they can be made, or one behind the other where
/// that is one. Gives the lists with what was told.
pub fn work_side_by_side<D: Disk + Send, R: Threads + Wait + Sync>(
    rt: &R,
    alloc: Global,
    log: &Wal<D>,
    first: &mut Pass,
    work: Vec<Vec<Job>>,
    threads: usize,
) -> Result<Vec<Vec<Job>>, AllocError>
    // The first pass has all numbers, of which one is spare for each list, and at Ok it has all
    // again.
    requires pass { IsPassOfLog log.now first.old }
    requires spare { vec_len work ≤ first.old.spare_end - first.old.spare }
    requires numbers { HasAllNumbers (setup_of_log log.now).passes
        (view_of_pass first.old).reserving }
    ensures pass { IsPassOfLog log.now first.new }
    ensures numbers { OnOk result (HasAllNumbers (setup_of_log log.now).passes
        (view_of_pass first.new).reserving) }
{
    calls_keep_numbers();
    passes_share_numbers();
    let mut workers = split_workers(alloc, log, first, work)?;
    run_workers(rt, log, &mut workers, threads);
    join_workers(alloc, log, first, workers)
}

// A worker for each list of jobs, whose passes have the least of the first pass's spare numbers,
// and none to give away. Each number is the first pass's or a worker's behind it.
fn split_workers<D: Disk>(
    alloc: Global,
    log: &Wal<D>,
    first: &mut Pass,
    work: Vec<Vec<Job>>,
) -> Result<Vec<Worker>, AllocError>
    requires pass { IsPassOfLog log.now first.old }
    requires spare { vec_len work ≤ first.old.spare_end - first.old.spare }
    requires numbers { HasAllNumbers (setup_of_log log.now).passes
        (view_of_pass first.old).reserving }
    ensures pass { IsPassOfLog log.now first.new }
    ensures workers { IfOk result (λ workers. AreWorkersOf log.now workers.items) }
    ensures numbers { IfOk result (λ workers. ShareNumbers (setup_of_log log.now).passes
        (view_of_pass first.new) (map (λ worker. view_of_worker worker) workers.items)) }
{
    passes_share_numbers();
    let mut workers = Vec::with_capacity(alloc, work.len())?;
    for jobs in work {
        let pass = log.split(first);
        workers.push(Worker { pass, jobs })?;
    }
    Ok(workers)
}

// The workers do their jobs in so many threads.
fn run_workers<D: Disk + Send, R: Threads + Wait + Sync>(
    rt: &R,
    log: &Wal<D>,
    workers: &mut [Worker],
    threads: usize,
)
    requires { AreWorkersOf log.now workers.old }
    ensures workers { AreWorkersOf log.now workers.new }
    ensures each { KeepPasses workers.old workers.new }
{
    let working = AtomicU64::new(workers.len() as u64);
    thread::for_each_mut(
        rt,
        workers,
        threads.max(1),
        &|_, worker| worker.work(rt, log, &working),
    );
}

// Takes the workers in again, and gives their jobs. Each number is the first pass's or a worker's
// before it, and with the last worker the first pass has all.
fn join_workers<D: Disk>(
    alloc: Global,
    log: &Wal<D>,
    first: &mut Pass,
    workers: Vec<Worker>,
) -> Result<Vec<Vec<Job>>, AllocError>
    requires pass { IsPassOfLog log.now first.old }
    requires workers { AreWorkersOf log.now workers.items }
    requires numbers { ShareNumbers (setup_of_log log.now).passes (view_of_pass first.old)
        (map (λ worker. view_of_worker worker) workers.items) }
    ensures pass { IsPassOfLog log.now first.new }
    ensures numbers { OnOk result (HasAllNumbers (setup_of_log log.now).passes
        (view_of_pass first.new).reserving) }
{
    passes_share_numbers();
    let mut work = Vec::with_capacity(alloc, workers.len())?;
    for worker in workers {
        let Worker { pass, jobs } = worker;
        log.join(first, pass);
        work.push(jobs)?;
    }
    Ok(work)
}
