// One backend's jobs. Who works on a worker has its pass alone, and makes the calls of the log one
// behind the other; between two of them the pass is about nothing. What a call is told is noted.
// A refusal ends nothing: the next call is made with the same pass. A worker that flushes behind
// the others is done once they are, and looks at each turn: how many are at work is a number that
// all share, and who flushes behind is not counted meanwhile, so that several do not wait for each
// other.
ghost use Rattle.wal_rule.specs.Passes.{view_of_pass};
ghost use Rattle.wal_log.specs.Logs.{IsPassOfLog};
ghost use Rattle.wal_log.specs.Standing.{KeepsPass};

use crate::insertion::{Insertion, SegmentEnd};
use segment_disk::Disk;
use std::sync::Wait;
use std::sync::atomic::{AtomicU64, Ordering};
use std::thread;
use wal_log::{
    Caught, CommitErr, FlushErr, Hard, InsertErr, Pass, Receipt, Sealed, Switch, SwitchErr, Wal,
};
use wal_types::Lsn;

/// A call of a log, or calls that flush behind the others.
#[derive(Drop)]
pub enum LogCall {
    Insert(Insertion),
    /// Inserts the record so many times, once at least, or until that is refused. It is told what
    /// the last insert was told.
    Inserts(Insertion, u32),
    Commit(Insertion),
    CommitAsync(Insertion),
    Flush(Lsn),
    Switch(SegmentEnd),
    /// Flushes behind until the other workers are done and nothing is left to flush, or until that
    /// is refused. It is told what the last call was told. Its worker has to be the last one, so
    /// that it comes to an end where all work in one thread.
    FlushBehind,
}

/// What a call was told.
#[derive(Clone, Copy, Debug, PartialEq, Eq)]
pub enum LogAnswer {
    Inserted(Result<Receipt, InsertErr>),
    Committed(Result<Sealed, CommitErr>),
    CommittedAsync(Result<Receipt, InsertErr>),
    Flushed(Result<Hard, FlushErr>),
    Switched(Result<Switch, SwitchErr>),
    FlushedBehind(Result<Caught, FlushErr>),
}

/// A call to make, and what it was told, once it was made.
#[derive(Drop)]
pub struct Job {
    pub call: LogCall,
    pub told: Option<LogAnswer>,
}

impl Job {
    /// A call that was told nothing.
    pub fn of(call: LogCall) -> Job {
        Job { call, told: None }
    }
}

/// What one backend works on: a pass of the log, and its jobs in their order.
#[derive(Drop)]
pub struct Worker {
    pub pass: Pass,
    pub jobs: Vec<Job>,
}

impl Worker {
    /// Makes the calls of its jobs, one behind the other, and notes what they are told. It is one
    /// of so many workers that are not done.
    pub fn work<D: Disk, R: Wait>(&mut self, rt: &R, log: &Wal<D>, working: &AtomicU64)
        requires { IsPassOfLog log.now self.old.pass }
        ensures pass { IsPassOfLog log.now self.new.pass }
        ensures keeps { KeepsPass (view_of_pass self.old.pass) (view_of_pass self.new.pass) }
    {
        work_on(rt, log, &mut self.pass, &mut self.jobs, working);
        working.fetch_sub(1, Ordering::SeqCst);
    }
}

fn work_on<D: Disk, R: Wait>(
    rt: &R,
    log: &Wal<D>,
    pass: &mut Pass,
    jobs: &mut [Job],
    working: &AtomicU64,
)
    requires { IsPassOfLog log.now pass.old }
    ensures pass { IsPassOfLog log.now pass.new }
    ensures keeps { KeepsPass (view_of_pass pass.old) (view_of_pass pass.new) }
{
    for job in jobs {
        job.told = Some(answer(rt, log, pass, &job.call, working));
    }
}

// What a call is told.
fn answer<D: Disk, R: Wait>(
    rt: &R,
    log: &Wal<D>,
    pass: &mut Pass,
    call: &LogCall,
    working: &AtomicU64,
) -> LogAnswer
    requires { IsPassOfLog log.now pass.old }
    ensures pass { IsPassOfLog log.now pass.new }
    ensures keeps { KeepsPass (view_of_pass pass.old) (view_of_pass pass.new) }
{
    match call {
        LogCall::Insert(record) => LogAnswer::Inserted(log.insert(rt, pass, record.body())),
        LogCall::Inserts(record, times) => {
            LogAnswer::Inserted(insert_again(rt, log, pass, record, *times))
        }
        LogCall::Commit(record) => LogAnswer::Committed(log.commit(rt, pass, record.body())),
        LogCall::CommitAsync(record) => {
            LogAnswer::CommittedAsync(log.commit_async(rt, pass, record.body()))
        }
        LogCall::Flush(upto) => LogAnswer::Flushed(log.flush(rt, pass, *upto)),
        LogCall::Switch(end) => LogAnswer::Switched(log.switch(rt, pass, end.body())),
        LogCall::FlushBehind => {
            working.fetch_sub(1, Ordering::SeqCst);
            let told = flush_behind(rt, log, pass, working);
            working.fetch_add(1, Ordering::SeqCst);
            LogAnswer::FlushedBehind(told)
        }
    }
}

// Inserts a record so many times, once at least, or until that is refused.
fn insert_again<D: Disk, R: Wait>(
    rt: &R,
    log: &Wal<D>,
    pass: &mut Pass,
    record: &Insertion,
    times: u32,
) -> Result<Receipt, InsertErr>
    requires { IsPassOfLog log.now pass.old }
    ensures pass { IsPassOfLog log.now pass.new }
    ensures keeps { KeepsPass (view_of_pass pass.old) (view_of_pass pass.new) }
{
    for _again in 1..times {
        let told = log.insert(rt, pass, record.body());
        if told.is_err() {
            return told;
        }
    }
    log.insert(rt, pass, record.body())
}

// Flushes behind until nobody else is at work and nothing is left to flush, or until it is refused.
fn flush_behind<D: Disk, R: Wait>(
    rt: &R,
    log: &Wal<D>,
    pass: &mut Pass,
    working: &AtomicU64,
) -> Result<Caught, FlushErr>
    requires { IsPassOfLog log.now pass.old }
    ensures pass { IsPassOfLog log.now pass.new }
    ensures keeps { KeepsPass (view_of_pass pass.old) (view_of_pass pass.new) }
{
    for _ in rt.forever() {
        let others = working.load(Ordering::SeqCst);
        let told = log.write_behind(rt, pass);
        match told {
            Ok(Caught::Flushed(_)) => {}
            Ok(Caught::Idle { .. }) if others != 0 => thread::yield_now(),
            _ => return told,
        }
    }
    unreachable!()
}
